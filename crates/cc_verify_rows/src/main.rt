//! Reads images from standard input, one a line behind its name, and prints what the verifier says of each.
#![tactic(auto)]

use anyhow::{Result, bail};
use cc_image::read_image;
use cc_module::Module;
use cc_verify::{VerifyFault, verify};
use std::alloc::Global;
use std::io::{BufRead, BufReader};

// Adds the bytes of a run: hexadecimal digits, which a `*` and a number repeat.
fn add_run(alloc: Global, run: &str, into: &mut Vec<u8>) -> Result<()> {
    let (digits, count): (&str, u32) = match run.split_once('*') {
        Some((digits, count)) => (digits, count.parse()?),
        None => (run, 1),
    };
    let bytes = hex::decode(alloc, digits)?;
    for _ in 0..count {
        into.extend_from_slice(&bytes)?;
    }
    Ok(())
}

// The bytes of runs.
fn bytes_of(alloc: Global, runs: &[&str]) -> Result<Vec<u8>> {
    let mut bytes = Vec::new(alloc);
    for run in runs {
        add_run(alloc, run, &mut bytes)?;
    }
    Ok(bytes)
}

// The rule that is broken, and where.
fn rule(alloc: Global, fault: VerifyFault) -> Result<String> {
    match fault {
        VerifyFault::BadClass(rule, row) => {
            Ok(format!(in alloc; "class rule {rule} at row {row}")?)
        }
        VerifyFault::BadCode(row, at, rule) => {
            Ok(format!(in alloc; "code rule {rule} at {row}:{at}")?)
        }
        VerifyFault::Memory => bail!("memory does not suffice"),
    }
}

fn verdict(alloc: Global, source: Module) -> Result<String> {
    match verify(alloc, source) {
        Ok(_) => Ok(String::from_str(alloc, "verified")?),
        Err(refusal) => rule(alloc, refusal.fault),
    }
}

// What is said of the module of an image.
fn said(alloc: Global, bytes: &[u8]) -> Result<String> {
    match read_image(alloc, bytes) {
        Ok(source) => verdict(alloc, source),
        Err(fault) => Ok(format!(in alloc; "{fault:?}")?),
    }
}

// What is answered to a case.
fn answer(alloc: Global, line: &str) -> Result<String> {
    let words: Vec<&str> = line.split(' ').collect(alloc)?;
    let [name, runs @ ..] = words.as_slice() else {
        bail!("no case");
    };
    let bytes = bytes_of(alloc, runs)?;
    let said = said(alloc, &bytes)?;
    Ok(format!(in alloc; "{name}: {said}")?)
}

fn main(rt: HostRuntime) -> Result<()> {
    let alloc = rt.alloc();
    for line in BufReader::new(alloc, rt.reader())?.lines(alloc) {
        let answer = answer(alloc, line?.as_str())?;
        println!(rt; "{answer}")?;
    }
    Ok(())
}
