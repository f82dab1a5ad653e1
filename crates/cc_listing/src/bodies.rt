// The lines of method bodies.
ghost use Rattle.std.specs.Prelude.{◌≡◌, ◌<◌, ◌≤◌, ◌^◌, ◌++◌, ℕ, length, List, IfOk, OnOk};
ghost use Rattle.std.specs.String.{string_bytes};
ghost use Rattle.cc_listing.specs.Bodies.{GoesOn, ListsBody, ListsCode};

use crate::clauses::list_clauses;
use crate::lines::{bytes_line, instruction_line};
use cc_cil::{Body, decode_one};
use std::alloc::{AllocError, Global};

/// Adds the lines of a body: one for each instruction with its offset, operand or target, up to the first offset at which no instruction stands,
/// from which the bytes are shown; and one for each clause.
pub(crate) fn list_body(alloc: Global, body: &Body, into: &mut Vec<u8>) -> Result<(), AllocError>
    requires { length body.now.code < 2 ^ 32 }
    ensures { OnOk result ((text : List ℕ) × ListsBody body.now text × (into.new.items ≡ into.old.items ++ text)) }
{
    list_code(alloc, body.code.as_slice(), into)?;
    list_clauses(alloc, body.clauses.as_slice(), into)
}

/// Adds the lines of code.
fn list_code(alloc: Global, code: &[u8], into: &mut Vec<u8>) -> Result<(), AllocError>
    requires { length code.now < 2 ^ 32 }
    ensures { OnOk result ((text : List ℕ) × ListsCode code.now 0 text × (into.new.items ≡ into.old.items ++ text)) }
{
    let mut at = 0;
    while (at as usize) < code.len() {
        let (line, past) = line_at(alloc, code, at)?;
        into.extend_from_slice(line.as_bytes())?;
        at = past;
    }
    Ok(())
}

/// The line at an offset of code, and the offset of the next line.
fn line_at(alloc: Global, code: &[u8], at: u32) -> Result<(String, u32), AllocError>
    requires within { at < length code.now }
    requires short { length code.now < 2 ^ 32 }
    ensures later { IfOk result (λ line. at < line.1) }
    ensures within { IfOk result (λ line. line.1 ≤ length code.now) }
    ensures lists { IfOk result (λ line. GoesOn code.now at (string_bytes line.0) line.1) }
{
    match decode_one(code, at) {
        Ok((instruction, past)) => {
            let line = instruction_line(alloc, at, &instruction, past)?;
            Ok((line, past))
        }
        Err(_) => {
            let line = bytes_line(alloc, at, &code[at as usize..])?;
            Ok((line, code.len() as u32))
        }
    }
}
