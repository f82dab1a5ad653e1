// What operators make of numbers of 64 bits (ECMA-335, III.1.5).
ghost use Rattle.std.specs.Prelude.{◌≡◌, true, false, Some, None, option_map, if◌then◌else◌};
ghost use Rattle.cc_core.specs.Numbers.{is_less, overflows, quotient, remainder, divided, shifted_left, shifted_right, compute, compute_alone, is_shift};
ghost use Rattle.cc_machine_next.specs.Cells.{value_of, computed_of};

use crate::cell::Cell;
use crate::numbers::{ARITHMETIC, Computation, DIVIDE_BY_ZERO, truth};
use cc_core::{Operator, UnaryOperator};

#[inline]
fn is_less(signed: bool, a: u64, b: u64) -> bool
    ensures { result ≡ is_less true signed a b }
{
    if signed {
        a.cast_signed() < b.cast_signed()
    } else {
        a < b
    }
}

// The quotient is no number of the type.
#[inline]
fn overflows(signed: bool, a: u64, b: u64) -> bool
    ensures { result ≡ overflows true signed a b }
{
    signed && a == 0x8000_0000_0000_0000 && b == u64::MAX
}

fn quotient(signed: bool, a: u64, b: u64) -> Computation
    ensures { computed_of result ≡ divided true signed a b (quotient true signed a b) }
{
    if b == 0 {
        return Computation::Throws(DIVIDE_BY_ZERO);
    }
    if overflows(signed, a, b) {
        return Computation::Throws(ARITHMETIC);
    }
    if signed {
        let quotient = a.cast_signed() / b.cast_signed();
        Computation::Gives(Cell::Int64(quotient.cast_unsigned()))
    } else {
        Computation::Gives(Cell::Int64(a / b))
    }
}

fn remainder(signed: bool, a: u64, b: u64) -> Computation
    ensures { computed_of result ≡ divided true signed a b (remainder true signed a b) }
{
    if b == 0 {
        return Computation::Throws(DIVIDE_BY_ZERO);
    }
    if overflows(signed, a, b) {
        return Computation::Throws(ARITHMETIC);
    }
    if signed {
        let remainder = a.cast_signed().wrapping_rem(b.cast_signed());
        Computation::Gives(Cell::Int64(remainder.cast_unsigned()))
    } else {
        Computation::Gives(Cell::Int64(a % b))
    }
}

/// A shift to the left by the low bits of a count.
#[inline]
pub fn shifted_left(a: u64, count: u32) -> u64
    ensures { result ≡ shifted_left true a count }
{
    let by = count % 64;
    a << by
}

/// A shift to the right by the low bits of a count, which keeps the sign where there is one.
#[inline]
pub fn shifted_right(signed: bool, a: u64, count: u32) -> u64
    ensures { result ≡ shifted_right true signed a count }
{
    let by = count % 64;
    if signed {
        (a.cast_signed() >> by).cast_unsigned()
    } else {
        a >> by
    }
}

/// An operator on two numbers, none for a shift, whose count has 32 bits.
#[inline]
pub fn computed(operator: Operator, signed: bool, a: u64, b: u64) -> Option<Computation>
    ensures { option_map computed_of result ≡ (if is_shift operator then None else Some (compute true signed operator a b)) }
{
    match operator {
        Operator::Add => Some(Computation::Gives(Cell::Int64(a.wrapping_add(b)))),
        Operator::Subtract => Some(Computation::Gives(Cell::Int64(a.wrapping_sub(b)))),
        Operator::Multiply => Some(Computation::Gives(Cell::Int64(a.wrapping_mul(b)))),
        Operator::Divide => Some(quotient(signed, a, b)),
        Operator::Remainder => Some(remainder(signed, a, b)),
        Operator::And => Some(Computation::Gives(Cell::Int64(a & b))),
        Operator::Or => Some(Computation::Gives(Cell::Int64(a | b))),
        Operator::ExclusiveOr => Some(Computation::Gives(Cell::Int64(a ^ b))),
        Operator::ShiftLeft => None,
        Operator::ShiftRight => None,
        Operator::Equal => Some(Computation::Gives(truth(a == b))),
        Operator::NotEqual => Some(Computation::Gives(truth(a != b))),
        Operator::Less => Some(Computation::Gives(truth(is_less(signed, a, b)))),
        Operator::Greater => Some(Computation::Gives(truth(is_less(signed, b, a)))),
        Operator::LessOrEqual => Some(Computation::Gives(truth(!is_less(signed, b, a)))),
        Operator::GreaterOrEqual => Some(Computation::Gives(truth(!is_less(signed, a, b)))),
    }
}

/// An operator on one number.
#[inline]
pub fn computed_alone(operator: UnaryOperator, n: u64) -> Cell
    ensures { value_of result ≡ compute_alone true operator n }
{
    match operator {
        UnaryOperator::Negate => Cell::Int64(n.wrapping_neg()),
        UnaryOperator::Complement => Cell::Int64(!n),
        UnaryOperator::Not => truth(n == 0),
    }
}

/// A shift, none for another operator.
#[inline]
pub fn shifted(operator: Operator, signed: bool, a: u64, count: u32) -> Option<Computation>
    ensures { option_map computed_of result ≡ (if is_shift operator then Some (compute true signed operator a count) else None) }
{
    match operator {
        Operator::ShiftLeft => Some(Computation::Gives(Cell::Int64(shifted_left(a, count)))),
        Operator::ShiftRight => {
            Some(Computation::Gives(Cell::Int64(shifted_right(signed, a, count))))
        }
        _ => None,
    }
}
