//! Reads cases of metadata and images from standard input, one a line, and prints what their readers and writers answer.
#![tactic(auto)]

ghost use Rattle.cc_module.specs.Storable.{IsStorable};

use anyhow::{Result, bail};
use cc_image::{ImageFault, read_image, write_image};
use cc_module::{Module, Table};
use cc_tables::read_metadata;
use std::alloc::Global;
use std::io::{BufRead, BufReader};

/// How many bytes the headers of an image have, with the CLI header behind them.
const HEADERS: usize = 584;

/// All tables, in the order of their numbers.
static TABLES: [Table; 20] = [
    Table::Module,
    Table::TypeRef,
    Table::TypeDef,
    Table::Field,
    Table::MethodDef,
    Table::Param,
    Table::InterfaceImpl,
    Table::MemberRef,
    Table::Constant,
    Table::StandAloneSig,
    Table::PropertyMap,
    Table::Property,
    Table::MethodSemantics,
    Table::MethodImpl,
    Table::TypeSpec,
    Table::Assembly,
    Table::AssemblyRef,
    Table::GenericParam,
    Table::MethodSpec,
    Table::GenericParamConstraint,
];

// Adds the bytes of a run: hexadecimal digits, which a `*` and a number repeat.
fn add_run(alloc: Global, run: &str, into: &mut Vec<u8>) -> Result<()> {
    let (digits, count): (&str, u32) = match run.split_once('*') {
        Some((digits, count)) => (digits, count.parse()?),
        None => (run, 1),
    };
    let bytes = hex::decode(alloc, digits)?;
    for _ in 0..count {
        into.extend_from_slice(&bytes)?;
    }
    Ok(())
}

// The bytes of runs.
fn bytes_of(alloc: Global, runs: &[&str]) -> Result<Vec<u8>> {
    let mut bytes = Vec::new(alloc);
    for run in runs {
        add_run(alloc, run, &mut bytes)?;
    }
    Ok(bytes)
}

// The numbers of rows of all tables, and the last method and the last parameter.
fn counts(alloc: Global, source: &Module) -> Result<String> {
    let mut text = format!(in alloc; "rows")?;
    for table in &TABLES {
        let count = source.row_count(*table);
        text.push_str(format!(in alloc; " {count}")?.as_str())?;
    }
    if let Some(method) = source.methods.as_slice().last() {
        text.push_str(format!(in alloc; " {method:?}")?.as_str())?;
    }
    if let Some(parameter) = source.params.as_slice().last() {
        text.push_str(format!(in alloc; " {parameter:?}")?.as_str())?;
    }
    Ok(text)
}

// All rows that were read, or their numbers.
fn shown(alloc: Global, source: &Module, whole: bool) -> Result<String> {
    if whole {
        Ok(format!(in alloc; "{source:?}")?)
    } else {
        counts(alloc, source)
    }
}

// What the reader of metadata answers.
fn metadata(alloc: Global, bytes: &[u8], whole: bool) -> Result<String> {
    match read_metadata(alloc, bytes) {
        Ok(source) => shown(alloc, &source, whole),
        Err(fault) => Ok(format!(in alloc; "{fault:?}")?),
    }
}

// What the reader of images answers.
fn image(alloc: Global, bytes: &[u8]) -> Result<String> {
    match read_image(alloc, bytes) {
        Ok(source) => shown(alloc, &source, true),
        Err(fault) => Ok(format!(in alloc; "{fault:?}")?),
    }
}

// Which bytes are written of a module that was read from some: these, the others or neither.
fn written_of(alloc: Global, source: &Module, bytes: &[u8], others: &[u8]) -> Result<&'static str>
    requires { IsStorable source.now }
{
    let written = write_image(alloc, source)?;
    if written.as_slice() == bytes {
        Ok("itself")
    } else if written.as_slice() == others {
        Ok("the image before")
    } else {
        Ok("another image")
    }
}

// What is written of the module that bytes are an image of.
fn written(alloc: Global, bytes: &[u8], others: &[u8]) -> Result<String> {
    match read_image(alloc, bytes) {
        Ok(source) => {
            let what = written_of(alloc, &source, bytes, others)?;
            Ok(String::from_str(alloc, what)?)
        }
        Err(fault) => Ok(format!(in alloc; "{fault:?}")?),
    }
}

// What is written of an image whose byte at each place of the headers is one more, the CLI header among them.
fn headers(alloc: Global, bytes: &[u8]) -> Result<String> {
    let mut changed = Vec::from_slice(alloc, bytes)?;
    let mut text = String::new(alloc);
    for (place, byte) in bytes.iter().enumerate().take(HEADERS) {
        if let Some(own) = changed.get_mut(place) {
            *own = byte.wrapping_add(1);
        }
        let answer = written(alloc, &changed, bytes)?;
        text.push_str(format!(in alloc; "{place} {answer}\n")?.as_str())?;
        if let Some(own) = changed.get_mut(place) {
            *own = *byte;
        }
    }
    Ok(text)
}

// Whether a file that ends too early was refused at its length.
fn is_short_at(fault: ImageFault, length: usize) -> bool {
    match fault {
        ImageFault::Short(place) => place as usize == length,
        ImageFault::BadField(_)
        | ImageFault::Metadata(_)
        | ImageFault::Code(_, _)
        | ImageFault::Memory => false,
    }
}

fn is_short(alloc: Global, bytes: &[u8]) -> bool {
    match read_image(alloc, bytes) {
        Ok(_) => false,
        Err(fault) => is_short_at(fault, bytes.len()),
    }
}

// The lengths at which an image that is cut is not `Short` at its length.
fn cuts(alloc: Global, bytes: &[u8]) -> Result<String> {
    let mut text = String::from_str(alloc, "but at")?;
    for length in 0..bytes.len() {
        if !is_short(alloc, &bytes[..length]) {
            text.push_str(format!(in alloc; " {length}")?.as_str())?;
        }
    }
    Ok(text)
}

// What is answered to a case.
fn answer(alloc: Global, line: &str) -> Result<String> {
    let words: Vec<&str> = line.split(' ').collect(alloc)?;
    let [what, runs @ ..] = words.as_slice() else {
        bail!("no case");
    };
    let bytes = bytes_of(alloc, runs)?;
    match *what {
        "module" => metadata(alloc, &bytes, true),
        "counts" => metadata(alloc, &bytes, false),
        "image" => image(alloc, &bytes),
        "written" => written(alloc, &bytes, &[]),
        "headers" => headers(alloc, &bytes),
        "cuts" => cuts(alloc, &bytes),
        _ => bail!("no case"),
    }
}

fn main(rt: HostRuntime) -> Result<()> {
    let alloc = rt.alloc();
    for line in BufReader::new(alloc, rt.reader())?.lines(alloc) {
        let answer = answer(alloc, line?.as_str())?;
        println!(rt; "{answer}")?;
    }
    Ok(())
}
