// The lines of an input, as texts.
ghost use Rattle.std.specs.Prelude.{◌≡◌, ◌<◌, ◌≤◌, ◌^◌, ◌++◌, length, IfOk, IfSome, OnOk};
ghost use Rattle.std.specs.Char.Escape.{encode_utf16};
ghost use Rattle.std.specs.Str.Lines.{strip_carriage_return};
ghost use Rattle.cc_library.specs.Texts.{decoded_text, line_feed_in};
ghost use Rattle.cc_library.specs.Reading.{BeginsWith, IsLine};

use bstr::decode_utf8;
use cc_base::{List, Text};
use std::alloc::{AllocError, Global};

/// What the start of an input is.
#[derive(Debug, Drop)]
pub enum Line {
    /// Nothing is left of the input.
    End,
    /// The text of the first line, and how many bytes the line takes with its line feed.
    Read(Text, u32),
}

/// What stands for a byte that begins no character.
const REPLACEMENT: u16 = 0xFFFD;

/// The first line of an input (ECMA-335, IV, `Console.ReadLine`): the bytes up to a line feed, without it and without one carriage return before it,
/// or all bytes where there is no line feed. They are read as UTF-8; each byte that begins no well-formed sequence gives U+FFFD.
pub fn line_of(alloc: Global, input: &[u8]) -> Result<Line, AllocError>
    requires { length input.now < 2 ^ 32 }
    ensures { IfOk result (λ line. IsLine line input.now) }
{
    if input.is_empty() {
        return Ok(Line::End);
    }
    match first_line_feed(input) {
        Some(at) => {
            let text = decoded(alloc, without_return(&input[..at]))?;
            Ok(Line::Read(text, at as u32 + 1))
        }
        None => {
            let text = decoded(alloc, input)?;
            Ok(Line::Read(text, input.len() as u32))
        }
    }
}

/// A line without the carriage return at its end.
fn without_return(line: &[u8]) -> &[u8]
    ensures { result.now ≡ strip_carriage_return line.now }
{
    match line {
        [front @ .., b'\r'] => front,
        _ => line,
    }
}

/// Where the first line feed stands.
fn first_line_feed(input: &[u8]) -> Option<usize>
    ensures place { result ≡ line_feed_in input.now }
    ensures within { IfSome result (λ at. at < length input.now) }
{
    input.iter().position(|byte| *byte == b'\n')
}

/// The text that bytes decode to.
fn decoded(alloc: Global, bytes: &[u8]) -> Result<Text, AllocError>
    ensures { IfOk result (λ text. text ≡ decoded_text bytes.now) }
{
    let mut units = Vec::new(alloc);
    let mut rest = bytes;
    while !rest.is_empty() {
        let length = push_first(&mut units, rest)?;
        rest = &rest[length..];
    }
    Ok(List::from_vec(units))
}

/// Adds what the start of bytes decodes to, the first character or U+FFFD, and gives how many bytes that is.
fn push_first(units: &mut Vec<u16>, bytes: &[u8]) -> Result<usize, AllocError>
    requires { 0 < length bytes.now }
    ensures some { IfOk result (λ length. 0 < length) }
    ensures within { IfOk result (λ count. count ≤ length bytes.now) }
    ensures decodes { IfOk result (λ count. BeginsWith bytes.now count units.old.items units.new.items) }
{
    match decode_utf8(bytes) {
        (Some(character), length) => {
            push_character(units, character)?;
            Ok(length)
        }
        (None, _) => {
            units.push(REPLACEMENT)?;
            Ok(1)
        }
    }
}

/// Adds the one or two units of a character.
fn push_character(units: &mut Vec<u16>, character: char) -> Result<(), AllocError>
    ensures { OnOk result (units.new.items ≡ units.old.items ++ encode_utf16 character) }
{
    let mut pair = [0; 2];
    units.extend_from_slice(character.encode_utf16(&mut pair))
}
