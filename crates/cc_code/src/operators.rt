// The instructions of constants, variables, conversions and operators, and how many bytes they take.
ghost use Rattle.std.specs.Prelude.{◌≡◌, ◌++◌, OnOk};
ghost use Rattle.cc_core.specs.Numbers.{is_shift};
ghost use Rattle.cc_core.specs.Types.{bare};
ghost use Rattle.cc_code.specs.Operators as spec;
ghost use Rattle.cc_code.specs.Sizes as sizes;

use cc_cil::Instruction;
use cc_core::{CoreType, Operator, UnaryOperator, UpdateResult};
use cc_numbers::{is_signed, is_wide};
use std::alloc::AllocError;

/// A constant of a type, by its bits.
pub(crate) fn constant(of: &CoreType, bits: u64) -> Instruction
    ensures { result ≡ spec.constant (bare of.now) bits }
{
    if is_wide(of) {
        Instruction::LoadLong {
            value: bits.cast_signed(),
        }
    } else {
        let low = (bits % 0x1_0000_0000) as u32;
        Instruction::LoadInt {
            value: low.cast_signed(),
        }
    }
}

pub(crate) fn constant_size(of: &CoreType) -> u32
    ensures { result ≡ sizes.constant_size (bare of.now) }
{
    if is_wide(of) { 9 } else { 5 }
}

/// Zero of a type.
pub(crate) fn zero(of: &CoreType) -> Instruction
    ensures { result ≡ spec.zero (bare of.now) }
{
    if is_wide(of) {
        Instruction::LoadLong { value: 0 }
    } else {
        Instruction::LoadInt0
    }
}

pub(crate) fn zero_size(of: &CoreType) -> u32
    ensures { result ≡ sizes.zero_size (bare of.now) }
{
    if is_wide(of) { 9 } else { 1 }
}

/// The index of an argument or of a local variable, which has two bytes.
fn index(number: u32) -> u16
    ensures { result ≡ spec.index number }
{
    (number % 0x1_0000) as u16
}

/// Loads a variable of a function with so many parameters.
pub(crate) fn load(parameters: u32, variable: u32) -> Instruction
    ensures { result ≡ spec.load parameters variable }
{
    if variable < parameters {
        Instruction::LoadArgument {
            index: index(variable),
        }
    } else {
        Instruction::LoadLocal {
            index: index(variable - parameters),
        }
    }
}

/// Stores to a variable of a function with so many parameters.
pub(crate) fn store(parameters: u32, variable: u32) -> Instruction
    ensures { result ≡ spec.store parameters variable }
{
    if variable < parameters {
        Instruction::StoreArgument {
            index: index(variable),
        }
    } else {
        Instruction::StoreLocal {
            index: index(variable - parameters),
        }
    }
}

/// Drops the value of a type.
pub(crate) fn drop_value(code: &mut Vec<Instruction>, of: &CoreType) -> Result<(), AllocError>
    ensures { OnOk result (code.new.items ≡ code.old.items ++ spec.drop_value (bare of.now)) }
{
    if !matches!(of, CoreType::Void) {
        code.push(Instruction::Pop)?;
    }
    Ok(())
}

pub(crate) fn drop_size(of: &CoreType) -> u32
    ensures { result ≡ sizes.drop_size (bare of.now) }
{
    if matches!(of, CoreType::Void) { 0 } else { 1 }
}

/// Keeps the value that stood at a place under the one that is to be stored.
pub(crate) fn keep_old(code: &mut Vec<Instruction>, of: UpdateResult) -> Result<(), AllocError>
    ensures { OnOk result (code.new.items ≡ code.old.items ++ spec.keep_old of) }
{
    if of == UpdateResult::Old {
        code.push(Instruction::Duplicate)?;
    }
    Ok(())
}

/// Keeps the value that is to be stored.
pub(crate) fn keep_new(code: &mut Vec<Instruction>, of: UpdateResult) -> Result<(), AllocError>
    ensures { OnOk result (code.new.items ≡ code.old.items ++ spec.keep_new of) }
{
    if of == UpdateResult::New {
        code.push(Instruction::Duplicate)?;
    }
    Ok(())
}

// ---- conversions

/// To 64 bits, by the sign of the type.
fn widening(from: &CoreType) -> Instruction
    ensures { result ≡ spec.widening (bare from.now) }
{
    if is_signed(from) {
        Instruction::ConvertI8
    } else {
        Instruction::ConvertU8
    }
}

/// A number of the first type becomes one of the second.
pub(crate) fn convert(
    code: &mut Vec<Instruction>,
    from: &CoreType,
    to: &CoreType,
) -> Result<(), AllocError>
    ensures { OnOk result (code.new.items ≡ code.old.items ++ spec.conversion (bare from.now) (bare to.now)) }
{
    match to {
        CoreType::Bool => {
            code.push(zero(from))?;
            code.push(Instruction::CompareGreaterUnsigned)?;
        }
        CoreType::Char => code.push(Instruction::ConvertU2)?,
        CoreType::I8 => code.push(Instruction::ConvertI1)?,
        CoreType::U8 => code.push(Instruction::ConvertU1)?,
        CoreType::I16 => code.push(Instruction::ConvertI2)?,
        CoreType::U16 => code.push(Instruction::ConvertU2)?,
        CoreType::I32 => code.push(Instruction::ConvertI4)?,
        CoreType::U32 => code.push(Instruction::ConvertU4)?,
        CoreType::Enum(_) => code.push(Instruction::ConvertI4)?,
        CoreType::I64 => code.push(widening(from))?,
        CoreType::U64 => code.push(widening(from))?,
        CoreType::Void
        | CoreType::Null
        | CoreType::Value(_)
        | CoreType::Handle(_)
        | CoreType::Array(_)
        | CoreType::Track(_) => {}
    }
    Ok(())
}

pub(crate) fn conversion_size(from: &CoreType, to: &CoreType) -> u32
    ensures { result ≡ sizes.conversion_size (bare from.now) (bare to.now) }
{
    match to {
        CoreType::Bool => zero_size(from) + 2,
        CoreType::Void
        | CoreType::Null
        | CoreType::Value(_)
        | CoreType::Handle(_)
        | CoreType::Array(_)
        | CoreType::Track(_) => 0,
        CoreType::Char
        | CoreType::I8
        | CoreType::U8
        | CoreType::I16
        | CoreType::U16
        | CoreType::I32
        | CoreType::U32
        | CoreType::I64
        | CoreType::U64
        | CoreType::Enum(_) => 1,
    }
}

// ---- operators

/// An operator on two values of a type with a sign or without; `denies` says whether it gives the opposite.
fn operation(signed: bool, operator: Operator) -> Instruction
    ensures { result ≡ spec.operation signed operator }
{
    match (operator, signed) {
        (Operator::Add, _) => Instruction::Add,
        (Operator::Subtract, _) => Instruction::Subtract,
        (Operator::Multiply, _) => Instruction::Multiply,
        (Operator::Divide, true) => Instruction::Divide,
        (Operator::Divide, false) => Instruction::DivideUnsigned,
        (Operator::Remainder, true) => Instruction::Remainder,
        (Operator::Remainder, false) => Instruction::RemainderUnsigned,
        (Operator::And, _) => Instruction::And,
        (Operator::Or, _) => Instruction::Or,
        (Operator::ExclusiveOr, _) => Instruction::Xor,
        (Operator::ShiftLeft, _) => Instruction::ShiftLeft,
        (Operator::ShiftRight, true) => Instruction::ShiftRight,
        (Operator::ShiftRight, false) => Instruction::ShiftRightUnsigned,
        (Operator::Equal | Operator::NotEqual, _) => Instruction::CompareEqual,
        (Operator::Less | Operator::GreaterOrEqual, true) => Instruction::CompareLess,
        (Operator::Less | Operator::GreaterOrEqual, false) => Instruction::CompareLessUnsigned,
        (Operator::Greater | Operator::LessOrEqual, true) => Instruction::CompareGreater,
        (Operator::Greater | Operator::LessOrEqual, false) => Instruction::CompareGreaterUnsigned,
    }
}

/// Whether the operator denies what its instruction gives.
fn denies(operator: Operator) -> bool
    ensures { result ≡ spec.denies operator }
{
    matches!(
        operator,
        Operator::NotEqual | Operator::LessOrEqual | Operator::GreaterOrEqual
    )
}

/// An operator whose left operand has this type.
pub(crate) fn operate(
    code: &mut Vec<Instruction>,
    of: &CoreType,
    operator: Operator,
) -> Result<(), AllocError>
    ensures { OnOk result (code.new.items ≡ code.old.items ++ spec.operator_code (bare of.now) operator) }
{
    code.push(operation(is_signed(of), operator))?;
    if denies(operator) {
        code.push(Instruction::LoadInt0)?;
        code.push(Instruction::CompareEqual)?;
    }
    Ok(())
}

pub(crate) fn operator_size(operator: Operator) -> u32
    ensures { result ≡ sizes.operator_size operator }
{
    match operator {
        Operator::Equal | Operator::Less | Operator::Greater => 2,
        Operator::NotEqual | Operator::LessOrEqual | Operator::GreaterOrEqual => 5,
        Operator::Or
        | Operator::ExclusiveOr
        | Operator::And
        | Operator::ShiftLeft
        | Operator::ShiftRight
        | Operator::Add
        | Operator::Subtract
        | Operator::Multiply
        | Operator::Divide
        | Operator::Remainder => 1,
    }
}

fn is_shift(operator: Operator) -> bool
    ensures { result ≡ is_shift operator }
{
    matches!(operator, Operator::ShiftLeft | Operator::ShiftRight)
}

/// A count of 64 bits of a shift becomes one of 32.
pub(crate) fn cut_count(
    code: &mut Vec<Instruction>,
    operator: Operator,
    right: &CoreType,
) -> Result<(), AllocError>
    ensures { OnOk result (code.new.items ≡ code.old.items ++ spec.count_code operator (bare right.now)) }
{
    if is_shift(operator) && is_wide(right) {
        code.push(Instruction::ConvertI4)?;
    }
    Ok(())
}

pub(crate) fn count_size(operator: Operator, right: &CoreType) -> u32
    ensures { result ≡ sizes.count_size operator (bare right.now) }
{
    if is_shift(operator) && is_wide(right) {
        1
    } else {
        0
    }
}

/// An operator on one value of a type.
pub(crate) fn operate_alone(
    code: &mut Vec<Instruction>,
    operator: UnaryOperator,
    of: &CoreType,
) -> Result<(), AllocError>
    ensures { OnOk result (code.new.items ≡ code.old.items ++ spec.unary_code operator (bare of.now)) }
{
    match operator {
        UnaryOperator::Negate => code.push(Instruction::Negate)?,
        UnaryOperator::Complement => code.push(Instruction::Not)?,
        UnaryOperator::Not => {
            code.push(zero(of))?;
            code.push(Instruction::CompareEqual)?;
        }
    }
    Ok(())
}

pub(crate) fn unary_size(operator: UnaryOperator, of: &CoreType) -> u32
    ensures { result ≡ sizes.unary_size operator (bare of.now) }
{
    match operator {
        UnaryOperator::Negate | UnaryOperator::Complement => 1,
        UnaryOperator::Not => zero_size(of) + 2,
    }
}
