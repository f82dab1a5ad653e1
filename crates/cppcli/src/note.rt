// The line on notes for a status.
ghost use Rattle.std.specs.Prelude.{◌≡◌, ◌<◌, ◌≤◌, ◌^◌, length, IfOk, string_bytes};
ghost use Rattle.cppcli.specs.Notes.{note_of, class_rule_line, code_rule_line, image_line, image_number, refusal_line, rule_line, unhandled_line, place_of, utf8_of};

use crate::Status;
use cc_base::{Kind, List, Span};
use cc_image::ImageFault;
use cc_verify::VerifyFault;
use std::alloc::{AllocError, Global};

/// The line for words that are no command.
pub const USAGE: &str = "usage: cppcli COMMAND FILE\n";

/// A place of a source, both counted from 1, the column in bytes.
#[derive(Clone, Copy, Debug, PartialEq, Eq)]
struct Place {
    line: u64,
    column: u64,
}

// The place of the byte of this number.
fn place_of(bytes: &[u8], at: usize) -> Place
    requires within { at ≤ length bytes.now }
    requires small { length bytes.now < 2 ^ 32 }
    ensures { result ≡ place_of bytes.now at }
{
    let mut line = 1;
    let mut column = 1;
    for byte in &bytes[..at] {
        if *byte == b'\n' {
            line += 1;
            column = 1;
        } else {
            column += 1;
        }
    }
    Place { line, column }
}

fn format_refusal(
    alloc: Global,
    file: &str,
    place: Place,
    number: u32,
    kind: &str,
) -> Result<String, AllocError>
    ensures { IfOk result (λ line. string_bytes line ≡ refusal_line file.now place number kind.now) }
{
    let Place { line, column } = place;
    format!(in alloc; "{file}:{line}:{column}: error {number} {kind}\n")
}

fn refusal(
    alloc: Global,
    kind: Kind,
    span: Span,
    file: &str,
    bytes: &[u8],
) -> Result<String, AllocError>
    requires { length bytes.now < 2 ^ 32 }
    ensures { IfOk result (λ line. string_bytes line ≡ note_of (Status.Refused kind span) file.now bytes.now) }
{
    let place = place_of(bytes, (span.first as usize).min(bytes.len()));
    format_refusal(alloc, file, place, kind.number(), kind.name())
}

fn format_unhandled(alloc: Global, class: &str, message: &str) -> Result<String, AllocError>
    ensures { IfOk result (λ line. string_bytes line ≡ unhandled_line class.now message.now) }
{
    format!(in alloc; "unhandled {class}: {message}\n")
}

fn unhandled(alloc: Global, class: &[u16], message: &[u16]) -> Result<String, AllocError>
    ensures { IfOk result (λ line. string_bytes line ≡ unhandled_line (utf8_of class.now) (utf8_of message.now)) }
{
    let class = String::from_utf16_lossy(alloc, class)?;
    let message = String::from_utf16_lossy(alloc, message)?;
    format_unhandled(alloc, class.as_str(), message.as_str())
}

// The number of the reason for which bytes are no image. Want of memory has none.
fn image_number(fault: ImageFault) -> u32
    ensures { result ≡ image_number fault }
{
    match fault {
        ImageFault::Short(_) => 90,
        ImageFault::BadField(_) => 91,
        ImageFault::Metadata(_) => 92,
        ImageFault::Code(_, _) => 93,
        ImageFault::Memory => 0,
    }
}

fn format_bad_image(alloc: Global, file: &str, number: u32) -> Result<String, AllocError>
    ensures { IfOk result (λ line. string_bytes line ≡ image_line file.now number) }
{
    format!(in alloc; "{file}: bad image {number}\n")
}

fn format_class_rule(alloc: Global, file: &str, rule: u8, row: u32) -> Result<String, AllocError>
    ensures { IfOk result (λ line. string_bytes line ≡ class_rule_line file.now rule row) }
{
    format!(in alloc; "{file}: class rule {rule} at row {row}\n")
}

fn format_code_rule(
    alloc: Global,
    file: &str,
    rule: u8,
    row: u32,
    at: u32,
) -> Result<String, AllocError>
    ensures { IfOk result (λ line. string_bytes line ≡ code_rule_line file.now rule row at) }
{
    format!(in alloc; "{file}: code rule {rule} at {row}:{at}\n")
}

// The line for the rule that a module breaks. Want of memory has none.
fn format_rule(alloc: Global, file: &str, fault: VerifyFault) -> Result<String, AllocError>
    ensures { IfOk result (λ line. string_bytes line ≡ rule_line file.now fault) }
{
    match fault {
        VerifyFault::BadClass(rule, row) => format_class_rule(alloc, file, rule, row),
        VerifyFault::BadCode(row, at, rule) => format_code_rule(alloc, file, rule, row, at),
        VerifyFault::Memory => Ok(String::new(alloc)),
    }
}

fn format_note(
    alloc: Global,
    status: &Status,
    file: &str,
    bytes: &[u8],
) -> Result<String, AllocError>
    requires { length bytes.now < 2 ^ 32 }
    ensures { IfOk result (λ line. string_bytes line ≡ note_of status.now file.now bytes.now) }
{
    match status {
        Status::Usage => String::from_str(alloc, USAGE),
        Status::Absent => format!(in alloc; "{file}: absent\n"),
        Status::ReadFault => String::from_str(alloc, "read fault\n"),
        Status::TooLong => format!(in alloc; "{file}: too long\n"),
        Status::Refused(kind, span) => refusal(alloc, *kind, *span, file, bytes),
        Status::Aborted(class, message) => unhandled(alloc, class.as_slice(), message.as_slice()),
        Status::NotImage(fault) => format_bad_image(alloc, file, image_number(*fault)),
        Status::Unverified(fault) => format_rule(alloc, file, *fault),
        Status::HeapLimit => String::from_str(alloc, "limit: heap\n"),
        Status::DepthLimit => String::from_str(alloc, "limit: depth\n"),
        Status::StepLimit => String::from_str(alloc, "limit: steps\n"),
        Status::Going => String::from_str(alloc, "limit: turns\n"),
        Status::Done | Status::Ended(_) | Status::WriteFault | Status::Memory => Ok(String::new(
            alloc,
        )),
    }
}

/// The line on notes for a status, with its line feed, or nothing. It names the file whose load
/// decided; for a refusal it names the place in the file's bytes.
pub fn note(
    alloc: Global,
    status: &Status,
    file: &str,
    bytes: &[u8],
) -> Result<List<u8>, AllocError>
    requires { length bytes.now < 2 ^ 32 }
    ensures { IfOk result (λ line. line ≡ note_of status.now file.now bytes.now) }
{
    let line = format_note(alloc, status, file, bytes)?;
    Ok(List::from_vec(line.into_bytes()))
}
