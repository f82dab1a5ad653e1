//! The program: what its words ask for, what it loads, and what it writes.
#![tactic(auto)]

mod arguments;
mod commands;
mod deliver;
mod note;
mod outcome;
mod status;
mod steps;
#[cfg(test)]
mod tests;
mod top;

use cc_base::{HostFiles, HostSink, HostSource};
pub use status::Status;
use std::alloc::AllocError;
use std::env;
use std::io::ErrorKind;
use std::process::ExitCode;
pub use top::cppcli;

// The words after the program's name; none where one of them is no text.
fn words_after_name(rt: &HostRuntime) -> Result<Vec<String>, AllocError> {
    let alloc = rt.alloc();
    match env::args(rt) {
        Ok(all) => all.skip(1).collect(alloc),
        Err(error) if error.kind() == ErrorKind::OutOfMemory => Err(AllocError),
        Err(_) => Ok(Vec::new(alloc)),
    }
}

fn main(rt: HostRuntime) -> ExitCode {
    let status = match words_after_name(&rt) {
        Ok(words) => cppcli(
            rt.alloc(),
            &words,
            &mut HostFiles::new(&rt),
            &mut HostSource::new(rt.stdin()),
            &mut HostSink::new(rt.stdout()),
            &mut HostSink::new(rt.stderr()),
        ),
        Err(AllocError) => Status::Memory,
    };
    ExitCode::from(status.exit())
}
