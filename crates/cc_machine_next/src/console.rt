// What the members of Console that print add to the output (ECMA-335, IV).
ghost use Rattle.std.specs.Prelude.{◌≡◌, [], ◌∷◌, ◌++◌, ℕ, List, Some, None, IfOk, OnOk, option_map, string_bytes};
ghost use Rattle.std.specs.Char.{encode_utf8};
ghost use Rattle.cc_core.specs.declared.world.Value.{Value};
ghost use Rattle.cc_core.specs.LibraryCalls.{unit_bytes, printed_bytes};
ghost use Rattle.cc_execution.specs.Fundamental.{stored};
ghost use Rattle.cc_execution.specs.Step.{printed_type};
ghost use Rattle.cc_machine_next.specs.Cells.{value_of};

use crate::cell::Cell;
use crate::numbers::stored;
use cc_core::Printed;
use cc_execution::FundamentalType;
use std::alloc::{AllocError, Global};

// The type of the parameter of a member that prints.
fn printed_type(of: Printed) -> FundamentalType
    ensures { result ≡ printed_type of }
{
    match of {
        Printed::Bool => FundamentalType::Boolean,
        Printed::Char => FundamentalType::Char,
        Printed::I32 => FundamentalType::I4,
        Printed::U32 => FundamentalType::U4,
        Printed::I64 => FundamentalType::I8,
        Printed::U64 => FundamentalType::U8,
    }
}

// The one unit of a text as a character; a surrogate is none.
fn character(unit: u16) -> char
    ensures { encode_utf8 result ≡ unit_bytes unit }
{
    char::from_u32(u32::from(unit)).unwrap_or(char::REPLACEMENT_CHARACTER)
}

// The text of a value as it is printed.
fn printed(alloc: Global, of: Printed, cell: Cell) -> Result<Option<String>, AllocError>
    ensures { IfOk result (λ text. option_map string_bytes text ≡ printed_bytes of (value_of cell)) }
{
    match (of, cell) {
        (Printed::Bool, Cell::Int32(n)) => {
            let text = if n == 0 { "False" } else { "True" };
            Ok(Some(text.to_string(alloc)?))
        }
        (Printed::Char, Cell::Int32(n)) => {
            let unit = (n % 0x1_0000) as u16;
            Ok(Some(character(unit).to_string(alloc)?))
        }
        (Printed::I32, Cell::Int32(n)) => Ok(Some(n.cast_signed().to_string(alloc)?)),
        (Printed::U32, Cell::Int32(n)) => Ok(Some(n.to_string(alloc)?)),
        (Printed::I64, Cell::Int64(n)) => Ok(Some(n.cast_signed().to_string(alloc)?)),
        (Printed::U64, Cell::Int64(n)) => Ok(Some(n.to_string(alloc)?)),
        _ => Ok(None),
    }
}

/// The text of the argument of a member that prints, none where the argument is no value of the parameter's type.
pub fn printed_argument(
    alloc: Global,
    of: Printed,
    cell: Cell,
) -> Result<Option<String>, AllocError>
    ensures { (v : Value) → stored (printed_type of) (value_of cell) ≡ Some v → IfOk result (λ text. option_map string_bytes text ≡ printed_bytes of v) }
{
    match stored(printed_type(of), cell) {
        None => Ok(None),
        Some(argument) => printed(alloc, of, argument),
    }
}
