// What variables, operators and conversions make of values (ECMA-335, III.1.5 and III.1.1.1).
ghost use Rattle.std.specs.Prelude.{◌≡◌, true, false, Some, option_map};
ghost use Rattle.cc_core.specs.Run.{truth_value};
ghost use Rattle.cc_core.specs.Numbers as core_numbers;
ghost use Rattle.cc_execution.specs.Fundamental as fundamental;
ghost use Rattle.cc_execution.specs.Numbers as execution_numbers;
ghost use Rattle.cc_machine_next.specs.Cells.{value_of, computed_of};

use crate::cell::Cell;
use crate::{int32, int64};
use cc_base::ClassId;
use cc_core::{Operator, UnaryOperator};
use cc_execution::FundamentalType;

/// What an operator makes of two values.
#[derive(Clone, Copy)]
pub enum Computation {
    Gives(Cell),
    /// An exception of this class.
    Throws(ClassId),
}

/// `System::DivideByZeroException`.
pub const DIVIDE_BY_ZERO: ClassId = ClassId(20);

/// `System::ArithmeticException`.
pub const ARITHMETIC: ClassId = ClassId(19);

// ---- variables

#[inline]
fn is_wide(of: FundamentalType) -> bool
    ensures { result ≡ core_numbers.is_wide (fundamental.layout of) }
{
    matches!(of, FundamentalType::I8 | FundamentalType::U8)
}

// The low bits of an int32 that a variable of the type has, widened.
#[inline]
fn stored_int32(of: FundamentalType, n: u32) -> Option<Cell>
    ensures { option_map value_of result ≡ fundamental.stored of (value_of (Cell.Int32 n)) }
{
    match of {
        FundamentalType::Boolean | FundamentalType::U1 => Some(Cell::Int32(n % 0x100)),
        FundamentalType::I1 => {
            let low = (n % 0x100) as u8;
            Some(Cell::Int32(i32::from(low.cast_signed()).cast_unsigned()))
        }
        FundamentalType::Char | FundamentalType::U2 => Some(Cell::Int32(n % 0x1_0000)),
        FundamentalType::I2 => {
            let low = (n % 0x1_0000) as u16;
            Some(Cell::Int32(i32::from(low.cast_signed()).cast_unsigned()))
        }
        FundamentalType::I4 | FundamentalType::U4 => Some(Cell::Int32(n)),
        FundamentalType::I8 | FundamentalType::U8 => None,
    }
}

/// What a variable of the type holds into which a value is stored, none where the value is of another width.
#[inline]
pub fn stored(of: FundamentalType, cell: Cell) -> Option<Cell>
    ensures { option_map value_of result ≡ fundamental.stored of (value_of cell) }
{
    match cell {
        Cell::Int32(n) => stored_int32(of, n),
        Cell::Int64(_) => { if is_wide(of) { Some(cell) } else { None } }
        Cell::Null => None,
        Cell::Object(_) => None,
    }
}

/// What a variable of the type holds at first.
#[inline]
pub fn zero_of(of: FundamentalType) -> Cell
    ensures { value_of result ≡ fundamental.zero_of of }
{
    match of {
        FundamentalType::I8 | FundamentalType::U8 => Cell::Int64(0),
        _ => Cell::Int32(0),
    }
}

// ---- operators

/// The value of a condition.
#[inline]
pub fn truth(holds: bool) -> Cell
    ensures { value_of result ≡ truth_value holds }
{
    Cell::Int32(u32::from(holds))
}

// Whether two references are to one object, none where one of them is a number.
#[inline]
fn is_same(left: Cell, right: Cell) -> Option<bool>
    ensures { result ≡ execution_numbers.is_same (value_of left) (value_of right) }
{
    match (left, right) {
        (Cell::Null, Cell::Null) => Some(true),
        (Cell::Null, Cell::Object(_)) => Some(false),
        (Cell::Object(_), Cell::Null) => Some(false),
        (Cell::Object(a), Cell::Object(b)) => Some(a == b),
        _ => None,
    }
}

// References compare for being equal alone.
#[inline]
fn compared(operator: Operator, same: Option<bool>) -> Option<Computation>
    ensures { option_map computed_of result ≡ execution_numbers.compared operator same }
{
    match (operator, same) {
        (Operator::Equal, Some(same)) => Some(Computation::Gives(truth(same))),
        (Operator::NotEqual, Some(same)) => Some(Computation::Gives(truth(!same))),
        _ => None,
    }
}

/// What an operator makes of two values, of which the right one was on top.
#[inline]
pub fn operated(operator: Operator, signed: bool, left: Cell, right: Cell) -> Option<Computation>
    ensures { option_map computed_of result ≡ execution_numbers.operated operator signed (value_of left) (value_of right) }
{
    match (left, right) {
        (Cell::Int32(a), Cell::Int32(b)) => Some(int32::computed(operator, signed, a, b)),
        (Cell::Int64(a), Cell::Int64(b)) => int64::computed(operator, signed, a, b),
        (Cell::Int64(a), Cell::Int32(b)) => int64::shifted(operator, signed, a, b),
        (Cell::Int32(_), Cell::Int64(_)) => None,
        _ => compared(operator, is_same(left, right)),
    }
}

/// What an operator makes of a value.
#[inline]
pub fn computed_alone(operator: UnaryOperator, cell: Cell) -> Option<Cell>
    ensures { option_map value_of result ≡ core_numbers.computed_alone operator (value_of cell) }
{
    match cell {
        Cell::Int32(n) => Some(int32::computed_alone(operator, n)),
        Cell::Int64(n) => Some(int64::computed_alone(operator, n)),
        Cell::Null => None,
        Cell::Object(_) => None,
    }
}

// ---- conversions

// 64 bits at a type: its low bits, widened where they are fewer than 32.
#[inline]
fn narrowed(to: FundamentalType, n: u64) -> Cell
    ensures { Some (value_of result) ≡ core_numbers.narrowed (fundamental.core_type to) n }
{
    match to {
        FundamentalType::Boolean => truth(n != 0),
        FundamentalType::U1 => Cell::Int32((n % 0x100) as u32),
        FundamentalType::I1 => {
            let low = (n % 0x100) as u8;
            Cell::Int32(i32::from(low.cast_signed()).cast_unsigned())
        }
        FundamentalType::Char | FundamentalType::U2 => Cell::Int32((n % 0x1_0000) as u32),
        FundamentalType::I2 => {
            let low = (n % 0x1_0000) as u16;
            Cell::Int32(i32::from(low.cast_signed()).cast_unsigned())
        }
        FundamentalType::I4 | FundamentalType::U4 => Cell::Int32((n % 0x1_0000_0000) as u32),
        FundamentalType::I8 | FundamentalType::U8 => Cell::Int64(n),
    }
}

#[inline]
fn widened(to: FundamentalType, n: u32) -> u64
    ensures { Some result ≡ core_numbers.widened (execution_numbers.widening to) (value_of (Cell.Int32 n)) }
{
    match to {
        FundamentalType::U8 => u64::from(n),
        _ => i64::from(n.cast_signed()).cast_unsigned(),
    }
}

/// A number as one of the type.
#[inline]
pub fn conversion(to: FundamentalType, cell: Cell) -> Option<Cell>
    ensures { option_map value_of result ≡ execution_numbers.conversion to (value_of cell) }
{
    match cell {
        Cell::Int32(n) => Some(narrowed(to, widened(to, n))),
        Cell::Int64(n) => Some(narrowed(to, n)),
        Cell::Null => None,
        Cell::Object(_) => None,
    }
}
