// What conversions and operators make of numbers.
ghost use Rattle.std.specs.Prelude.{◌≡◌, true, false};
ghost use Rattle.cc_core.specs.Types.{bare};
ghost use Rattle.cc_core.specs.Numbers.{is_wide, is_signed, widened, narrowed, converted, computed, is_true, computed_alone, zero_of};
ghost use Rattle.cc_core.specs.Run.{truth_value};

use crate::{int32, int64};
use cc_base::ClassId;
use cc_core::{Computed, CoreType, Operator, UnaryOperator, Value};

/// `System::DivideByZeroException`.
pub const DIVIDE_BY_ZERO: ClassId = ClassId(20);

/// `System::ArithmeticException`.
pub const ARITHMETIC: ClassId = ClassId(19);

/// The value of a condition.
pub fn truth(holds: bool) -> Value
    ensures { result ≡ truth_value holds }
{
    Value::Int32(u32::from(holds))
}

/// A type of 64 bits.
pub fn is_wide(of: &CoreType) -> bool
    ensures { result ≡ is_wide (bare of.now) }
{
    matches!(of, CoreType::I64 | CoreType::U64)
}

/// A type of numbers with a sign.
pub fn is_signed(of: &CoreType) -> bool
    ensures { result ≡ is_signed (bare of.now) }
{
    match of {
        CoreType::I8 | CoreType::I16 | CoreType::I32 | CoreType::I64 => true,
        CoreType::Enum(_) => true,
        _ => false,
    }
}

/// A number in 64 bits, widened by its sign where its type has one.
fn widened(from: &CoreType, value: &Value) -> Option<u64>
    ensures { result ≡ widened (bare from.now) value.now }
{
    match value {
        Value::Int32(n) => {
            if is_signed(from) {
                Some(i64::from(n.cast_signed()).cast_unsigned())
            } else {
                Some(u64::from(*n))
            }
        }
        Value::Int64(n) => Some(*n),
        _ => None,
    }
}

/// What is left of 64 bits at a type.
fn narrowed(to: &CoreType, n: u64) -> Option<Value>
    ensures { result ≡ narrowed (bare to.now) n }
{
    match to {
        CoreType::Bool => Some(Value::Int32(u32::from(n != 0))),
        CoreType::Char | CoreType::U16 => Some(Value::Int32((n % 0x1_0000) as u32)),
        CoreType::I8 => {
            let low = (n % 0x100) as u8;
            Some(Value::Int32(i32::from(low.cast_signed()).cast_unsigned()))
        }
        CoreType::U8 => Some(Value::Int32((n % 0x100) as u32)),
        CoreType::I16 => {
            let low = (n % 0x1_0000) as u16;
            Some(Value::Int32(i32::from(low.cast_signed()).cast_unsigned()))
        }
        CoreType::I32 | CoreType::U32 => Some(Value::Int32((n % 0x1_0000_0000) as u32)),
        CoreType::Enum(_) => Some(Value::Int32((n % 0x1_0000_0000) as u32)),
        CoreType::I64 | CoreType::U64 => Some(Value::Int64(n)),
        _ => None,
    }
}

/// A number of the first type as one of the second (ECMA-372, 14.1 and 14.2).
pub fn converted(from: &CoreType, to: &CoreType, value: &Value) -> Option<Value>
    ensures { result ≡ converted (bare from.now) (bare to.now) value.now }
{
    match widened(from, value) {
        None => None,
        Some(n) => narrowed(to, n),
    }
}

/// What a variable of a type holds at first.
pub fn zero_of(of: &CoreType) -> Option<Value>
    ensures { result ≡ zero_of (bare of.now) }
{
    narrowed(of, 0)
}

/// A condition holds: a number that is not zero, or a handle that is not null.
pub fn is_true(value: &Value) -> bool
    ensures { result ≡ is_true value.now }
{
    match value {
        Value::Int32(n) => *n != 0,
        Value::Int64(n) => *n != 0,
        Value::Object(_) => true,
        Value::Literal(_) => true,
        _ => false,
    }
}

/// An operator on two values, of which the left one has this type. The count of a shift may be of another width.
pub fn computed(of: &CoreType, operator: Operator, left: &Value, right: &Value) -> Option<Computed>
    ensures { result ≡ computed (bare of.now) operator left.now right.now }
{
    let signed = is_signed(of);
    match (left, right) {
        (Value::Int32(a), Value::Int32(b)) => Some(int32::computed(operator, signed, *a, *b)),
        (Value::Int64(a), Value::Int64(b)) => Some(int64::computed(operator, signed, *a, *b)),
        (Value::Int32(a), Value::Int64(count)) => match operator {
            Operator::ShiftLeft => Some(Computed::Gives(Value::Int32(int32::shifted_left(
                *a, *count,
            )))),
            Operator::ShiftRight => Some(Computed::Gives(Value::Int32(int32::shifted_right(
                signed, *a, *count,
            )))),
            _ => None,
        },
        (Value::Int64(a), Value::Int32(count)) => match operator {
            Operator::ShiftLeft => Some(Computed::Gives(Value::Int64(int64::shifted_left(
                *a,
                u64::from(*count),
            )))),
            Operator::ShiftRight => {
                Some(Computed::Gives(Value::Int64(int64::shifted_right(
                    signed,
                    *a,
                    u64::from(*count),
                ))))
            }
            _ => None,
        },
        _ => None,
    }
}

/// An operator on one value.
pub fn computed_alone(operator: UnaryOperator, value: &Value) -> Option<Value>
    ensures { result ≡ computed_alone operator value.now }
{
    match value {
        Value::Int32(n) => Some(int32::computed_alone(operator, *n)),
        Value::Int64(n) => Some(int64::computed_alone(operator, *n)),
        _ => None,
    }
}
