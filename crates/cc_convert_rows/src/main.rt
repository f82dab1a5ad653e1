//! Reads classes and cases of conversions and calls from standard input, one a line, and prints what `convert` and `choose`
//! answer, one line for each case.
#![tactic(auto)]

ghost use Rattle.std.specs.Prelude.{◌<◌, ◌^◌, length, IfOk};

use anyhow::{Result, bail, ensure};
use cc_base::{ClassId, List, Span};
use cc_convert::{Signature, choose, convert};
use cc_core::{ClassInfo, ClassKind, Classes, CoreType};
use std::alloc::Global;
use std::io::{BufRead, BufReader};

// The number of a class, which is the place of its name.
fn class_of(names: &[String], name: &str) -> Result<ClassId> {
    for (number, other) in names.iter().enumerate() {
        if other.as_str() == name {
            return Ok(ClassId(u32::try_from(number)?));
        }
    }
    bail!("no class")
}

fn kind_of(word: &str) -> Result<ClassKind> {
    match word {
        "ref" => Ok(ClassKind::Ref),
        "value" => Ok(ClassKind::Value),
        "interface" => Ok(ClassKind::Interface),
        "enum" => Ok(ClassKind::Enum),
        _ => bail!("no kind"),
    }
}

// A class without members, out of its kind, its base and its interfaces; a base `-` is none.
fn info_of(alloc: Global, names: &[String], words: &[&str]) -> Result<ClassInfo> {
    let [kind, base, bases @ ..] = words else {
        bail!("no class");
    };
    let base = if *base == "-" {
        None
    } else {
        Some(class_of(names, base)?)
    };
    let mut interfaces = List::new(alloc);
    for interface in bases {
        interfaces.push(class_of(names, interface)?)?;
    }
    Ok(ClassInfo {
        name: List::new(alloc),
        span: Span { first: 0, past: 0 },
        kind: kind_of(kind)?,
        base,
        interfaces,
        is_abstract: false,
        is_sealed: false,
        fields: List::new(alloc),
        methods: List::new(alloc),
    })
}

// The classes of lines such as `class Disc ref Object Round Named`, and their names.
fn classes_of(alloc: Global, lines: &[String]) -> Result<(Vec<String>, Classes)> {
    let mut names = Vec::new(alloc);
    let mut classes = List::new(alloc);
    for line in lines {
        let words: Vec<&str> = line.split(' ').collect(alloc)?;
        if let ["class", name, rest @ ..] = words.as_slice() {
            classes.push(info_of(alloc, &names, rest)?)?;
            names.push(String::from_str(alloc, name)?)?;
        }
    }
    match Classes::new(alloc, classes) {
        Ok(classes) => Ok((names, classes)),
        Err(_) => bail!("no classes"),
    }
}

// A type without marks: a fundamental type, `void`, `nullptr`, an enum or a value class.
fn plain_type(names: &[String], classes: &Classes, word: &str) -> Result<CoreType> {
    match word {
        "void" => Ok(CoreType::Void),
        "bool" => Ok(CoreType::Bool),
        "wchar_t" => Ok(CoreType::Char),
        "schar" => Ok(CoreType::I8),
        "uchar" => Ok(CoreType::U8),
        "short" => Ok(CoreType::I16),
        "ushort" => Ok(CoreType::U16),
        "int" => Ok(CoreType::I32),
        "uint" => Ok(CoreType::U32),
        "long" => Ok(CoreType::I64),
        "ulong" => Ok(CoreType::U64),
        "nullptr" => Ok(CoreType::Null),
        _ => {
            let class = class_of(names, word)?;
            match classes.as_slice().get(class.0 as usize) {
                Some(info) if info.kind == ClassKind::Enum => Ok(CoreType::Enum(class)),
                _ => Ok(CoreType::Value(class)),
            }
        }
    }
}

// A type without `[]` and `%`: a handle as `Disc^`, or one without marks.
fn type_of(names: &[String], classes: &Classes, word: &str) -> Result<CoreType> {
    match word.strip_suffix('^') {
        Some(class) => Ok(CoreType::Handle(class_of(names, class)?)),
        None => plain_type(names, classes, word),
    }
}

// A type such as `int`, `Disc^`, `Disc^[]`, which is a handle to an array of handles, or `int%`.
fn marked_type(alloc: Global, names: &[String], classes: &Classes, word: &str) -> Result<CoreType> {
    if let Some(of) = word.strip_suffix('%') {
        return Ok(CoreType::Track(Box::new(alloc, type_of(names, classes, of)?)?));
    }
    match word.strip_suffix("[]") {
        Some(of) => Ok(CoreType::Array(Box::new(alloc, type_of(names, classes, of)?)?)),
        None => type_of(names, classes, word),
    }
}

// The types between commas; `-` stands for none.
fn types_of(
    alloc: Global,
    names: &[String],
    classes: &Classes,
    words: &str,
) -> Result<Vec<CoreType>> {
    let mut types = Vec::new(alloc);
    if words == "-" {
        return Ok(types);
    }
    for word in words.split(',') {
        types.push(marked_type(alloc, names, classes, word)?)?;
    }
    Ok(types)
}

fn converted(
    alloc: Global,
    names: &[String],
    classes: &Classes,
    from: &str,
    to: &str,
) -> Result<String> {
    let from = marked_type(alloc, names, classes, from)?;
    let to = marked_type(alloc, names, classes, to)?;
    match convert(&from, &to, classes) {
        Some(conversion) => {
            let (rank, way) = (conversion.rank, conversion.way);
            Ok(format!(in alloc; "{rank} {way:?}")?)
        }
        None => Ok(format!(in alloc; "none")?),
    }
}

fn chosen(
    alloc: Global,
    names: &[String],
    classes: &Classes,
    given: &str,
    lists: &[&str],
) -> Result<String> {
    let given = types_of(alloc, names, classes, given)?;
    let mut candidates = Vec::new(alloc);
    for list in lists {
        let parameters = List::from_vec(types_of(alloc, names, classes, list)?);
        candidates.push(Signature { parameters })?;
    }
    ensure!(candidates.len() < 0x1_0000_0000, "too many candidates");
    let choice = choose(candidates.as_slice(), given.as_slice(), classes);
    Ok(format!(in alloc; "{choice:?}")?)
}

// What a case answers: `convert` with two types, or `choose` with the arguments and then the parameters of each candidate.
fn answer(alloc: Global, names: &[String], classes: &Classes, words: &[&str]) -> Result<String> {
    match words {
        ["convert", from, to] => converted(alloc, names, classes, from, to),
        ["choose", given, lists @ ..] => chosen(alloc, names, classes, given, lists),
        _ => bail!("no case"),
    }
}

fn main(rt: HostRuntime) -> Result<()> {
    let alloc = rt.alloc();
    let mut lines = Vec::new(alloc);
    for line in BufReader::new(alloc, rt.reader())?.lines(alloc) {
        lines.push(line?)?;
    }
    let (names, classes) = classes_of(alloc, lines.as_slice())?;
    for line in &lines {
        let words: Vec<&str> = line.split(' ').collect(alloc)?;
        if words.as_slice()[0] != "class" {
            let answer = answer(alloc, names.as_slice(), &classes, words.as_slice())?;
            println!(rt; "{answer}")?;
        }
    }
    Ok(())
}
