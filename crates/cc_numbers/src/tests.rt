// Operators and conversions at the edges of their types, with what the standards' rules give there.
use crate::{computed, computed_alone, converted, is_wide};
use cc_base::ClassId;
use cc_core::{Computed, CoreType, Operator, UnaryOperator, Value};
use std::test::Fail;

/// The bits of a number, or the class of the exception that is thrown.
#[derive(Clone, Copy, Debug, PartialEq, Eq)]
enum Made {
    Number(u64),
    Throws(u32),
    Nothing,
}

fn number(n: u64) -> Made {
    Made::Number(n)
}

/// `System::ArithmeticException`.
const OVERFLOW: Made = Made::Throws(19);

/// `System::DivideByZeroException`.
const ZERO: Made = Made::Throws(20);

fn value(of: &CoreType, n: u64) -> Value {
    if is_wide(of) {
        Value::Int64(n)
    } else {
        Value::Int32((n % 0x1_0000_0000) as u32)
    }
}

fn bits(value: Option<&Value>) -> Made {
    match value {
        Some(Value::Int32(n)) => Made::Number(u64::from(*n)),
        Some(Value::Int64(n)) => Made::Number(*n),
        _ => Made::Nothing,
    }
}

/// What an operator makes of two operands of a type.
fn apply(of: &CoreType, operator: Operator, left: u64, right: u64) -> Made {
    match &computed(of, operator, &value(of, left), &value(of, right)) {
        Some(Computed::Gives(value)) => bits(Some(value)),
        Some(Computed::Throws(ClassId(class))) => Made::Throws(*class),
        None => Made::Nothing,
    }
}

#[test]
fn operators_of_32_bits(rt: HostRuntime) -> Result<(), Fail> {
    let rows = [
        (true, Operator::Add, 0x7FFF_FFFF, 1, number(0x8000_0000)),
        (
            true,
            Operator::Subtract,
            0x8000_0000,
            1,
            number(0x7FFF_FFFF),
        ),
        (
            true,
            Operator::Multiply,
            0x1_0001,
            0x1_0001,
            number(0x2_0001),
        ),
        (true, Operator::Divide, 0xFFFF_FFF9, 2, number(0xFFFF_FFFD)),
        (
            true,
            Operator::Remainder,
            0xFFFF_FFF9,
            2,
            number(0xFFFF_FFFF),
        ),
        (true, Operator::Remainder, 7, 0xFFFF_FFFE, number(1)),
        (true, Operator::Divide, 0x8000_0000, 0xFFFF_FFFF, OVERFLOW),
        (
            true,
            Operator::Remainder,
            0x8000_0000,
            0xFFFF_FFFF,
            OVERFLOW,
        ),
        (false, Operator::Divide, 0x8000_0000, 0xFFFF_FFFF, number(0)),
        (
            false,
            Operator::Remainder,
            0x8000_0000,
            0xFFFF_FFFF,
            number(0x8000_0000),
        ),
        (true, Operator::Divide, 0x8000_0000, 0, ZERO),
        (false, Operator::Remainder, 1, 0, ZERO),
        (true, Operator::ShiftLeft, 1, 33, number(2)),
        (
            true,
            Operator::ShiftLeft,
            1,
            0xFFFF_FFFF,
            number(0x8000_0000),
        ),
        (
            true,
            Operator::ShiftRight,
            0x8000_0000,
            0xFFFF_FFFF,
            number(0xFFFF_FFFF),
        ),
        (
            false,
            Operator::ShiftRight,
            0x8000_0000,
            0xFFFF_FFFF,
            number(1),
        ),
        (true, Operator::Less, 0xFFFF_FFFF, 0, number(1)),
        (false, Operator::Less, 0xFFFF_FFFF, 0, number(0)),
        (
            true,
            Operator::GreaterOrEqual,
            0x8000_0000,
            0x7FFF_FFFF,
            number(0),
        ),
        (
            false,
            Operator::GreaterOrEqual,
            0x8000_0000,
            0x7FFF_FFFF,
            number(1),
        ),
    ];
    for (signed, operator, left, right, result) in rows {
        let of = if signed { CoreType::I32 } else { CoreType::U32 };
        let made = apply(&of, operator, left, right);
        assert_eq!(rt; made, result, "{left} {operator:?} {right}");
    }
    Ok(())
}

#[test]
fn operators_of_64_bits(rt: HostRuntime) -> Result<(), Fail> {
    let least = 0x8000_0000_0000_0000;
    let ones = u64::MAX;
    let rows = [
        (true, Operator::Add, 0x7FFF_FFFF_FFFF_FFFF, 1, number(least)),
        (
            true,
            Operator::Multiply,
            0x1_0000_0001,
            0x1_0000_0001,
            number(0x2_0000_0001),
        ),
        (
            true,
            Operator::Divide,
            0xFFFF_FFFF_FFFF_FFF9,
            2,
            number(0xFFFF_FFFF_FFFF_FFFD),
        ),
        (true, Operator::Divide, least, ones, OVERFLOW),
        (true, Operator::Remainder, least, ones, OVERFLOW),
        (false, Operator::Divide, least, ones, number(0)),
        (true, Operator::Remainder, 1, 0, ZERO),
        (true, Operator::ShiftLeft, 1, 65, number(2)),
        (true, Operator::ShiftRight, least, ones, number(ones)),
        (false, Operator::ShiftRight, least, ones, number(1)),
        (true, Operator::Greater, ones, 0, number(0)),
        (false, Operator::Greater, ones, 0, number(1)),
    ];
    for (signed, operator, left, right, result) in rows {
        let of = if signed { CoreType::I64 } else { CoreType::U64 };
        let made = apply(&of, operator, left, right);
        assert_eq!(rt; made, result, "{left} {operator:?} {right}");
    }
    Ok(())
}

#[test]
fn conversions(rt: HostRuntime) -> Result<(), Fail> {
    let rows = [
        (CoreType::I32, CoreType::Bool, 0x100, 1),
        (CoreType::I32, CoreType::I8, 0x80, 0xFFFF_FF80),
        (CoreType::I32, CoreType::U8, 0xFFFF_FFFF, 0xFF),
        (CoreType::I32, CoreType::I16, 0x1_8000, 0xFFFF_8000),
        (CoreType::I32, CoreType::U16, 0xFFFF_FFFF, 0xFFFF),
        (CoreType::I32, CoreType::Char, 0x1_0041, 0x41),
        (
            CoreType::I32,
            CoreType::I64,
            0xFFFF_FFFF,
            0xFFFF_FFFF_FFFF_FFFF,
        ),
        (
            CoreType::I8,
            CoreType::U64,
            0xFFFF_FF80,
            0xFFFF_FFFF_FFFF_FF80,
        ),
        (CoreType::U32, CoreType::I64, 0xFFFF_FFFF, 0xFFFF_FFFF),
        (CoreType::I64, CoreType::I32, 0x1_8000_0000, 0x8000_0000),
        (CoreType::U64, CoreType::Bool, 0x1_0000_0000, 1),
    ];
    for (from, to, n, result) in &rows {
        let value = value(from, *n);
        let value = converted(from, to, &value);
        assert_eq!(rt;
            bits(value.as_ref()),
            number(*result),
            "{n} from {from:?} to {to:?}"
        );
    }
    Ok(())
}

#[test]
fn operators_on_one_value(rt: HostRuntime) -> Result<(), Fail> {
    for (operator, of, n, result) in &[
        (
            UnaryOperator::Negate,
            CoreType::I32,
            0x8000_0000,
            0x8000_0000,
        ),
        (
            UnaryOperator::Negate,
            CoreType::I64,
            1,
            0xFFFF_FFFF_FFFF_FFFF,
        ),
        (UnaryOperator::Complement, CoreType::I32, 0, 0xFFFF_FFFF),
        (UnaryOperator::Not, CoreType::I64, 0x1_0000_0000, 0),
        (UnaryOperator::Not, CoreType::I32, 0, 1),
    ] {
        let value = computed_alone(*operator, &value(of, *n));
        assert_eq!(rt; bits(value.as_ref()), number(*result), "{operator:?} {n}");
    }
    Ok(())
}
