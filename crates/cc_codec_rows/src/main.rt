//! Reads cases of the codecs from standard input, one a line, and prints what the codecs answer, one line for each.
#![tactic(auto)]

ghost use Rattle.std.specs.Prelude.{◌≡◌, ◌<◌, ◌^◌, length, Ok, IfOk, string_bytes};
ghost use Rattle.hex.specs.Hex.{decode_of, encode_lower};
ghost use Rattle.cc_layout.specs.Compressed.{compressed};
ghost use Rattle.cc_cil.specs.Bodies.{body_bytes, HasClass, HasSpelling};
ghost use Rattle.std.specs.List.{AllByRecursion};

use anyhow::{Result, bail, ensure};
use cc_base::List;
use cc_cil::{Body, Clause, ClauseKind, decode_one, encode_one, read_body, write_body};
use cc_layout::{split_compressed, write_compressed};
use cc_module::{read_signature, write_signature};
use std::alloc::Global;
use std::io::{BufRead, BufReader};

// The bytes of hexadecimal digits, few enough for each codec.
fn bytes_of(alloc: Global, digits: &str) -> Result<Vec<u8>>
    ensures value { IfOk result (λ bytes. decode_of digits.now ≡ Ok bytes.items) }
    ensures few { IfOk result (λ bytes. length bytes.items < 2 ^ 32) }
{
    let bytes = hex::decode(alloc, digits)?;
    ensure!(bytes.len() < 0x1_0000_0000, "more bytes than a codec takes");
    Ok(bytes)
}

// The instruction at a place, the place after it, and the bytes that are written for it.
fn instruction(alloc: Global, bytes: &[u8], at: u32) -> Result<String>
    requires { length bytes.now < 2 ^ 32 }
{
    let (instruction, past) = match decode_one(bytes, at) {
        Ok(decoded) => decoded,
        Err(fault) => return Ok(format!(in alloc; "{fault:?}")?),
    };
    let mut written = Vec::new(alloc);
    encode_one(&instruction, &mut written)?;
    let digits = hex::encode(alloc, &written)?;
    Ok(format!(in alloc; "{instruction:?} to {past} as {digits}")?)
}

// The body at a place, the place after it, and the bytes that are written for it.
fn body(alloc: Global, bytes: &[u8], at: u32) -> Result<String>
    requires { length bytes.now < 2 ^ 32 }
{
    let (body, past) = match read_body(alloc, bytes, at) {
        Ok(read) => read,
        Err(fault) => return Ok(format!(in alloc; "{fault:?}")?),
    };
    let digits = written(alloc, &body)?;
    let code = hex::encode(alloc, body.code.as_slice())?;
    let (stack, locals, clauses) = (body.max_stack, body.locals, body.clauses.as_slice());
    Ok(format!(in alloc;
        "stack {stack} locals {locals} code {code} {clauses:?} to {past} as {digits}"
    )?)
}

// A clause out of a word such as `catch:0:1:2:3:33554434`: the kind, where the protected code begins and its length, the
// same of the handler, and the class that is caught.
fn clause_of(alloc: Global, word: &str) -> Result<Clause>
    ensures { IfOk result HasClass }
{
    let parts: Vec<&str> = word.split(':').collect(alloc)?;
    let [
        kind,
        try_first,
        try_length,
        handler_first,
        handler_length,
        class,
    ] = parts.as_slice()
    else {
        bail!("no clause");
    };
    let (kind, class) = match *kind {
        "catch" => (ClauseKind::Catch, class.parse()?),
        "finally" => (ClauseKind::Finally, 0),
        _ => (ClauseKind::Fault, 0),
    };
    Ok(Clause {
        kind,
        try_first: try_first.parse()?,
        try_length: try_length.parse()?,
        handler_first: handler_first.parse()?,
        handler_length: handler_length.parse()?,
        class,
    })
}

fn clauses_of(alloc: Global, words: &[&str]) -> Result<List<Clause>>
    ensures classes { IfOk result (λ clauses. AllByRecursion HasClass clauses) }
    ensures few { IfOk result (λ clauses. length clauses < 699051) }
{
    let mut clauses = List::new(alloc);
    for word in words {
        clauses.push(clause_of(alloc, word)?)?;
    }
    ensure!(clauses.len() < 699051, "more clauses than a section takes");
    Ok(clauses)
}

// The bytes of a body.
fn written(alloc: Global, body: &Body) -> Result<String>
    requires { HasSpelling body.now }
    ensures { IfOk result (λ text. string_bytes text ≡ encode_lower (body_bytes body.now)) }
{
    let mut written = Vec::new(alloc);
    write_body(body, &mut written)?;
    Ok(hex::encode(alloc, &written)?)
}

// The signature of a blob, and the bytes that are written for it.
fn signature(alloc: Global, blob: &[u8]) -> Result<String>
    requires { length blob.now < 2 ^ 32 }
{
    let signature = match read_signature(alloc, blob) {
        Ok(signature) => signature,
        Err(fault) => return Ok(format!(in alloc; "{fault:?}")?),
    };
    let mut written = Vec::new(alloc);
    write_signature(&signature, &mut written)?;
    let digits = hex::encode(alloc, &written)?;
    Ok(format!(in alloc; "{signature:?} as {digits}")?)
}

// The bytes of a compressed number.
fn compressed(alloc: Global, number: u32) -> Result<String>
    ensures { IfOk result (λ text. string_bytes text ≡ encode_lower (compressed number)) }
{
    ensure!(number < 0x2000_0000, "no compressed number");
    let mut written = Vec::new(alloc);
    write_compressed(number, &mut written)?;
    Ok(hex::encode(alloc, &written)?)
}

// The compressed number at the front and the place after it, or the place that is wrong.
fn number(alloc: Global, bytes: &[u8]) -> Result<String> {
    match split_compressed(bytes) {
        Ok((number, rest)) => {
            let past = bytes.len() - rest.len();
            Ok(format!(in alloc; "{number} to {past}")?)
        }
        Err(place) => Ok(format!(in alloc; "Bad({place})")?),
    }
}

// What the codecs answer to a case.
fn answer(alloc: Global, line: &str) -> Result<String> {
    let words: Vec<&str> = line.split(' ').collect(alloc)?;
    match words.as_slice() {
        ["instruction", digits, at] => instruction(alloc, &bytes_of(alloc, digits)?, at.parse()?),
        ["body", digits, at] => body(alloc, &bytes_of(alloc, digits)?, at.parse()?),
        ["write-body", max_stack, locals, code, clauses @ ..] => {
            let body = Body {
                max_stack: max_stack.parse()?,
                locals: locals.parse()?,
                code: List::from_vec(bytes_of(alloc, code)?),
                clauses: clauses_of(alloc, clauses)?,
            };
            written(alloc, &body)
        }
        ["signature", digits] => signature(alloc, &bytes_of(alloc, digits)?),
        ["compressed", value] => compressed(alloc, value.parse()?),
        ["number", digits] => number(alloc, &bytes_of(alloc, digits)?),
        _ => bail!("no case"),
    }
}

fn main(rt: HostRuntime) -> Result<()> {
    let alloc = rt.alloc();
    for line in BufReader::new(alloc, rt.reader())?.lines(alloc) {
        let answer = answer(alloc, line?.as_str())?;
        println!(rt; "{answer}")?;
    }
    Ok(())
}
