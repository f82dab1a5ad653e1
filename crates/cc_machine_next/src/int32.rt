// What operators make of numbers of 32 bits (ECMA-335, III.1.5).
ghost use Rattle.std.specs.Prelude.{◌≡◌, true, false};
ghost use Rattle.cc_core.specs.Numbers.{is_less, overflows, quotient, remainder, divided, shifted_left, shifted_right, compute, compute_alone};
ghost use Rattle.cc_machine_next.specs.Cells.{value_of, computed_of};

use crate::cell::Cell;
use crate::numbers::{ARITHMETIC, Computation, DIVIDE_BY_ZERO, truth};
use cc_core::{Operator, UnaryOperator};

#[inline]
fn is_less(signed: bool, a: u32, b: u32) -> bool
    ensures { result ≡ is_less false signed a b }
{
    if signed {
        a.cast_signed() < b.cast_signed()
    } else {
        a < b
    }
}

// The quotient is no number of the type.
#[inline]
fn overflows(signed: bool, a: u32, b: u32) -> bool
    ensures { result ≡ overflows false signed a b }
{
    signed && a == 0x8000_0000 && b == u32::MAX
}

fn quotient(signed: bool, a: u32, b: u32) -> Computation
    ensures { computed_of result ≡ divided false signed a b (quotient false signed a b) }
{
    if b == 0 {
        return Computation::Throws(DIVIDE_BY_ZERO);
    }
    if overflows(signed, a, b) {
        return Computation::Throws(ARITHMETIC);
    }
    if signed {
        let quotient = a.cast_signed() / b.cast_signed();
        Computation::Gives(Cell::Int32(quotient.cast_unsigned()))
    } else {
        Computation::Gives(Cell::Int32(a / b))
    }
}

fn remainder(signed: bool, a: u32, b: u32) -> Computation
    ensures { computed_of result ≡ divided false signed a b (remainder false signed a b) }
{
    if b == 0 {
        return Computation::Throws(DIVIDE_BY_ZERO);
    }
    if overflows(signed, a, b) {
        return Computation::Throws(ARITHMETIC);
    }
    if signed {
        let remainder = a.cast_signed().wrapping_rem(b.cast_signed());
        Computation::Gives(Cell::Int32(remainder.cast_unsigned()))
    } else {
        Computation::Gives(Cell::Int32(a % b))
    }
}

/// A shift to the left by the low bits of a count.
#[inline]
pub fn shifted_left(a: u32, count: u32) -> u32
    ensures { result ≡ shifted_left false a count }
{
    let by = count % 32;
    a << by
}

/// A shift to the right by the low bits of a count, which keeps the sign where there is one.
#[inline]
pub fn shifted_right(signed: bool, a: u32, count: u32) -> u32
    ensures { result ≡ shifted_right false signed a count }
{
    let by = count % 32;
    if signed {
        (a.cast_signed() >> by).cast_unsigned()
    } else {
        a >> by
    }
}

/// An operator on two numbers.
#[inline]
pub fn computed(operator: Operator, signed: bool, a: u32, b: u32) -> Computation
    ensures { computed_of result ≡ compute false signed operator a b }
{
    match operator {
        Operator::Add => Computation::Gives(Cell::Int32(a.wrapping_add(b))),
        Operator::Subtract => Computation::Gives(Cell::Int32(a.wrapping_sub(b))),
        Operator::Multiply => Computation::Gives(Cell::Int32(a.wrapping_mul(b))),
        Operator::Divide => quotient(signed, a, b),
        Operator::Remainder => remainder(signed, a, b),
        Operator::And => Computation::Gives(Cell::Int32(a & b)),
        Operator::Or => Computation::Gives(Cell::Int32(a | b)),
        Operator::ExclusiveOr => Computation::Gives(Cell::Int32(a ^ b)),
        Operator::ShiftLeft => Computation::Gives(Cell::Int32(shifted_left(a, b))),
        Operator::ShiftRight => Computation::Gives(Cell::Int32(shifted_right(signed, a, b))),
        Operator::Equal => Computation::Gives(truth(a == b)),
        Operator::NotEqual => Computation::Gives(truth(a != b)),
        Operator::Less => Computation::Gives(truth(is_less(signed, a, b))),
        Operator::Greater => Computation::Gives(truth(is_less(signed, b, a))),
        Operator::LessOrEqual => Computation::Gives(truth(!is_less(signed, b, a))),
        Operator::GreaterOrEqual => Computation::Gives(truth(!is_less(signed, a, b))),
    }
}

/// An operator on one number.
#[inline]
pub fn computed_alone(operator: UnaryOperator, n: u32) -> Cell
    ensures { value_of result ≡ compute_alone false operator n }
{
    match operator {
        UnaryOperator::Negate => Cell::Int32(n.wrapping_neg()),
        UnaryOperator::Complement => Cell::Int32(!n),
        UnaryOperator::Not => truth(n == 0),
    }
}
