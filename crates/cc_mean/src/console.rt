// What calls of the console print.
ghost use Rattle.std.specs.Prelude.{◌≡◌, [], ◌∷◌, ◌++◌, Option, Some, None, IfOk, MatchOption, string_bytes, slice_get};
ghost use Rattle.std.specs.Char.{encode_utf8};
ghost use Rattle.std.specs.Option.{option_map};
ghost use Rattle.cc_core.specs.LibraryCalls.{unit_bytes, printed_bytes, print, print_one, library};

use crate::steps::Ran;
use cc_core::{LibraryCall, Printed, State, Stop, Value};
use sqlite_items::Items;
use std::alloc::{AllocError, Global};

/// The one unit of a text as a character; a surrogate is none.
fn character(unit: u16) -> char
    ensures { encode_utf8 result ≡ unit_bytes unit }
{
    char::from_u32(u32::from(unit)).unwrap_or(char::REPLACEMENT_CHARACTER)
}

/// The text of a value as it is printed.
fn printed(alloc: Global, of: Printed, value: &Value) -> Result<Option<String>, AllocError>
    ensures { IfOk result (λ text. option_map string_bytes text ≡ printed_bytes of value.now) }
{
    match (of, value) {
        (Printed::Bool, Value::Int32(n)) => {
            let text = if *n == 0 { "False" } else { "True" };
            Ok(Some(text.to_string(alloc)?))
        }
        (Printed::Char, Value::Int32(n)) => {
            let unit = (*n % 0x1_0000) as u16;
            Ok(Some(character(unit).to_string(alloc)?))
        }
        (Printed::I32, Value::Int32(n)) => Ok(Some(n.cast_signed().to_string(alloc)?)),
        (Printed::U32, Value::Int32(n)) => Ok(Some(n.to_string(alloc)?)),
        (Printed::I64, Value::Int64(n)) => Ok(Some(n.cast_signed().to_string(alloc)?)),
        (Printed::U64, Value::Int64(n)) => Ok(Some(n.to_string(alloc)?)),
        _ => Ok(None),
    }
}

/// Prints a text and what stands behind it, where there is a text.
fn print(alloc: Global, state: &mut State, text: Option<String>, behind: &[u8]) -> Ran<Value>
    ensures { IfOk result (λ ran. (ran, state.new) ≡ print (option_map string_bytes text) behind.now state.old) }
{
    match text {
        None => Ok(Err(Stop::Wrong)),
        Some(text) => {
            let mut bytes = Items::from_vec(text.into_bytes());
            bytes.append(Items::from_slice(alloc, behind)?)?;
            state.world.output.append(bytes)?;
            Ok(Ok(Value::Nothing))
        }
    }
}

fn print_one(
    alloc: Global,
    state: &mut State,
    of: Printed,
    values: &[Value],
    behind: &[u8],
) -> Ran<Value>
    ensures { IfOk result (λ ran. (ran, state.new) ≡ print_one of values.now behind.now state.old) }
{
    match values {
        [value] => {
            let text = printed(alloc, of, value)?;
            print(alloc, state, text, behind)
        }
        _ => Ok(Err(Stop::Wrong)),
    }
}

/// A call of a member of the library.
pub fn library(alloc: Global, state: &mut State, call: LibraryCall, values: &[Value]) -> Ran<Value>
    ensures { IfOk result (λ ran. (ran, state.new) ≡ library call values.now state.old) }
{
    match call {
        LibraryCall::Write(of) => print_one(alloc, state, of, values, &[]),
        LibraryCall::WriteLine(of) => print_one(alloc, state, of, values, b"\n"),
        LibraryCall::WriteEmptyLine => {
            if values.is_empty() {
                print(alloc, state, Some(String::new(alloc)), b"\n")
            } else {
                Ok(Err(Stop::Wrong))
            }
        }
    }
}
