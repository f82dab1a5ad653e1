// What operators make of numbers of 32 bits.
ghost use Rattle.std.specs.Prelude.{◌≡◌, true, false};
ghost use Rattle.cc_core.specs.Numbers.{is_less, overflows, quotient, remainder, divided, shifted_left, shifted_right, compute, compute_alone};

use crate::numbers::{ARITHMETIC, DIVIDE_BY_ZERO, truth};
use cc_core::{Computed, Operator, UnaryOperator, Value};

fn is_less(signed: bool, a: u32, b: u32) -> bool
    ensures { result ≡ is_less false signed a b }
{
    if signed {
        a.cast_signed() < b.cast_signed()
    } else {
        a < b
    }
}

// The quotient is no number of the type.
fn overflows(signed: bool, a: u32, b: u32) -> bool
    ensures { result ≡ overflows false signed a b }
{
    signed && a == 0x8000_0000 && b == u32::MAX
}

fn quotient(signed: bool, a: u32, b: u32) -> Computed
    ensures { result ≡ divided false signed a b (quotient false signed a b) }
{
    if b == 0 {
        return Computed::Throws(DIVIDE_BY_ZERO);
    }
    if overflows(signed, a, b) {
        return Computed::Throws(ARITHMETIC);
    }
    if signed {
        let quotient = a.cast_signed() / b.cast_signed();
        Computed::Gives(Value::Int32(quotient.cast_unsigned()))
    } else {
        Computed::Gives(Value::Int32(a / b))
    }
}

fn remainder(signed: bool, a: u32, b: u32) -> Computed
    ensures { result ≡ divided false signed a b (remainder false signed a b) }
{
    if b == 0 {
        return Computed::Throws(DIVIDE_BY_ZERO);
    }
    if overflows(signed, a, b) {
        return Computed::Throws(ARITHMETIC);
    }
    if signed {
        let remainder = a.cast_signed().wrapping_rem(b.cast_signed());
        Computed::Gives(Value::Int32(remainder.cast_unsigned()))
    } else {
        Computed::Gives(Value::Int32(a % b))
    }
}

/// A shift to the left by the low bits of a count.
pub fn shifted_left(a: u32, count: u64) -> u32
    ensures { result ≡ shifted_left false a count }
{
    let by = (count % 32) as u32;
    a << by
}

/// A shift to the right by the low bits of a count, which keeps the sign where there is one.
pub fn shifted_right(signed: bool, a: u32, count: u64) -> u32
    ensures { result ≡ shifted_right false signed a count }
{
    let by = (count % 32) as u32;
    if signed {
        (a.cast_signed() >> by).cast_unsigned()
    } else {
        a >> by
    }
}

/// An operator on two numbers (ECMA-372, 15.7 to 15.16; ECMA-335, III.1.5).
pub fn computed(operator: Operator, signed: bool, a: u32, b: u32) -> Computed
    ensures { result ≡ compute false signed operator a b }
{
    match operator {
        Operator::Add => Computed::Gives(Value::Int32(a.wrapping_add(b))),
        Operator::Subtract => Computed::Gives(Value::Int32(a.wrapping_sub(b))),
        Operator::Multiply => Computed::Gives(Value::Int32(a.wrapping_mul(b))),
        Operator::Divide => quotient(signed, a, b),
        Operator::Remainder => remainder(signed, a, b),
        Operator::And => Computed::Gives(Value::Int32(a & b)),
        Operator::Or => Computed::Gives(Value::Int32(a | b)),
        Operator::ExclusiveOr => Computed::Gives(Value::Int32(a ^ b)),
        Operator::ShiftLeft => Computed::Gives(Value::Int32(shifted_left(a, u64::from(b)))),
        Operator::ShiftRight => Computed::Gives(Value::Int32(shifted_right(
            signed,
            a,
            u64::from(b),
        ))),
        Operator::Equal => Computed::Gives(truth(a == b)),
        Operator::NotEqual => Computed::Gives(truth(a != b)),
        Operator::Less => Computed::Gives(truth(is_less(signed, a, b))),
        Operator::Greater => Computed::Gives(truth(is_less(signed, b, a))),
        Operator::LessOrEqual => Computed::Gives(truth(!is_less(signed, b, a))),
        Operator::GreaterOrEqual => Computed::Gives(truth(!is_less(signed, a, b))),
    }
}

/// An operator on one number (ECMA-372, 15.4).
pub fn computed_alone(operator: UnaryOperator, n: u32) -> Value
    ensures { result ≡ compute_alone false operator n }
{
    match operator {
        UnaryOperator::Negate => Value::Int32(n.wrapping_neg()),
        UnaryOperator::Complement => Value::Int32(!n),
        UnaryOperator::Not => truth(n == 0),
    }
}
