//! Reads cases of names from standard input, one a line, and prints for each the name of its row with what its source is
//! refused for, or with what a name means at a place in it.
#![tactic(auto)]

ghost use Rattle.std.specs.Prelude.{◌<◌, ◌^◌, length, IfOk};

use anyhow::{Result, bail, ensure};
use cc_base::{List, Name};
use cc_grammar::parse;
use cc_lexer::lex;
use cc_names::{Declarations, Found, Place, declare};
use cc_tree::Unit;
use std::alloc::Global;
use std::io::{BufRead, BufReader};

// The tree of a source, which must have one.
fn unit_of(alloc: Global, source: &[u8]) -> Result<Unit> {
    ensure!(source.len() < 0x1_0000_0000, "too long");
    let tokens = match lex(alloc, source) {
        Ok(tokens) => tokens,
        Err(_) => bail!("no tokens"),
    };
    match parse(alloc, tokens.as_slice()) {
        Ok(unit) => Ok(unit),
        Err(_) => bail!("no tree"),
    }
}

// `accepted`, or the number of the kind and the span of the refusal.
fn judged(alloc: Global, source: &str) -> Result<String> {
    let unit = unit_of(alloc, source.as_bytes())?;
    let fault = match declare(alloc, &unit) {
        Ok(_) => return Ok(format!(in alloc; "accepted")?),
        Err(fault) => fault,
    };
    match fault.refusal() {
        Some((kind, span)) => {
            let (kind, first, past) = (kind.number(), span.first, span.past);
            Ok(format!(in alloc; "{kind} at {first} to {past}")?)
        }
        None => bail!("no memory"),
    }
}

// The innermost scope around a byte: the last that begins before it and ends behind it.
fn scope_at(names: &Declarations, at: u32) -> Result<u32> {
    let mut innermost = 0;
    for (number, scope) in names.scopes.as_slice().iter().enumerate() {
        if scope.span.first <= at && at < scope.span.past {
            innermost = number;
        }
    }
    Ok(u32::try_from(innermost)?)
}

// The sort of a declaration, and its number.
fn sort_of(found: Found) -> (&'static str, u32) {
    match found {
        Found::TypeNamed(number) => ("type", number),
        Found::Functions(number) => ("functions", number),
        Found::Namespace(number) => ("namespace", number),
        Found::Item(number) => ("item", number),
    }
}

// What a name means at a byte: the sort of the declaration and the span of its name.
fn meaning(alloc: Global, name: &str, at: u32, source: &str) -> Result<String> {
    let unit = unit_of(alloc, source.as_bytes())?;
    let names = match declare(alloc, &unit) {
        Ok(names) => names,
        Err(_) => bail!("refused"),
    };
    let scope = scope_at(&names, at)?;
    let name: Name = List::from_slice(alloc, name.as_bytes())?;
    let (sort, number) = match names.look_up(Place { scope, at }, &name) {
        None => return Ok(format!(in alloc; "nothing")?),
        Some(found) => sort_of(found),
    };
    match names.items.get(number as usize) {
        Some(item) => {
            let (first, past) = (item.span.first, item.span.past);
            Ok(format!(in alloc; "{sort} at {first} to {past}")?)
        }
        None => bail!("no declaration"),
    }
}

// What a case is: `names` with a source, or `look` with a name, a byte and a source.
fn answer(alloc: Global, sort: &str, case: &str) -> Result<String> {
    if sort == "names" {
        return judged(alloc, case);
    }
    let Some((name, rest)) = case.split_once(' ') else {
        bail!("no name");
    };
    let Some((at, source)) = rest.split_once(' ') else {
        bail!("no place");
    };
    meaning(alloc, name, at.parse()?, source)
}

// The name of a row, and the answer to its case.
fn row(alloc: Global, line: &str) -> Result<String> {
    let Some((sort, rest)) = line.split_once(' ') else {
        bail!("no sort");
    };
    let Some((name, case)) = rest.split_once(' ') else {
        bail!("no row");
    };
    let answer = match answer(alloc, sort, case) {
        Ok(answer) => answer,
        Err(fault) => format!(in alloc; "{fault}")?,
    };
    Ok(format!(in alloc; "{name} {answer}")?)
}

fn main(rt: HostRuntime) -> Result<()> {
    let alloc = rt.alloc();
    for line in BufReader::new(alloc, rt.reader())?.lines(alloc) {
        let row = row(alloc, line?.as_str())?;
        println!(rt; "{row}")?;
    }
    Ok(())
}
