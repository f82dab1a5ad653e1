// Copies of types and of typed expressions.
ghost use Rattle.std.specs.Prelude.{◌≡◌, IfOk, map, option_map};
ghost use Rattle.cc_core.specs.Types.{bare};
ghost use Rattle.cc_core.specs.Bare.{term_of};

use cc_base::{List, Text};
use cc_core::{CoreType, Expression};
use sqlite_items::Items;
use std::alloc::{AllocError, Global};

/// The same type.
pub(crate) fn copied_type(alloc: Global, of: &CoreType) -> Result<CoreType, AllocError>
    ensures { IfOk result (λ copy. bare copy ≡ bare of.now) }
{
    match of {
        CoreType::Void => Ok(CoreType::Void),
        CoreType::Bool => Ok(CoreType::Bool),
        CoreType::Char => Ok(CoreType::Char),
        CoreType::I8 => Ok(CoreType::I8),
        CoreType::U8 => Ok(CoreType::U8),
        CoreType::I16 => Ok(CoreType::I16),
        CoreType::U16 => Ok(CoreType::U16),
        CoreType::I32 => Ok(CoreType::I32),
        CoreType::U32 => Ok(CoreType::U32),
        CoreType::I64 => Ok(CoreType::I64),
        CoreType::U64 => Ok(CoreType::U64),
        CoreType::Null => Ok(CoreType::Null),
        CoreType::Enum(class) => Ok(CoreType::Enum(*class)),
        CoreType::Value(class) => Ok(CoreType::Value(*class)),
        CoreType::Handle(class) => Ok(CoreType::Handle(*class)),
        CoreType::Array(element) => {
            let element = copied_type(alloc, element)?;
            Ok(CoreType::Array(Box::new(alloc, element)?))
        }
        CoreType::Track(to) => {
            let to = copied_type(alloc, to)?;
            Ok(CoreType::Track(Box::new(alloc, to)?))
        }
    }
}

/// The same types.
pub(crate) fn copied_types(alloc: Global, types: &[CoreType]) -> Result<List<CoreType>, AllocError>
    ensures { IfOk result (λ copies. map bare copies ≡ map bare types.now) }
{
    let mut copies = Vec::new(alloc);
    for of in types {
        copies.push(copied_type(alloc, of)?)?;
    }
    Ok(List::from_vec(copies))
}

/// The same text.
fn copied_text(alloc: Global, text: &Text) -> Result<Text, AllocError>
    ensures { IfOk result (λ copy. copy ≡ text.now) }
{
    List::from_slice(alloc, text.as_slice())
}

/// The same type, and a box of an operand.
fn one_part(
    alloc: Global,
    of: &CoreType,
    operand: Expression,
) -> Result<(CoreType, Box<Expression>), AllocError>
    ensures of { IfOk result (λ parts. bare parts.0 ≡ bare of.now) }
    ensures operand { IfOk result (λ parts. parts.1.value ≡ operand) }
{
    let operand = Box::new(alloc, operand)?;
    Ok((copied_type(alloc, of)?, operand))
}

/// The same type, and boxes of two operands.
fn two_parts(
    alloc: Global,
    of: &CoreType,
    first: Expression,
    second: Expression,
) -> Result<(CoreType, Box<Expression>, Box<Expression>), AllocError>
    ensures of { IfOk result (λ parts. bare parts.0 ≡ bare of.now) }
    ensures first { IfOk result (λ parts. parts.1.value ≡ first) }
    ensures second { IfOk result (λ parts. parts.2.value ≡ second) }
{
    let first = Box::new(alloc, first)?;
    let second = Box::new(alloc, second)?;
    Ok((copied_type(alloc, of)?, first, second))
}

/// The same expression.
#[cycle(expression)]
pub(crate) fn copied(alloc: Global, e: &Expression) -> Result<Expression, AllocError>
    ensures { IfOk result (λ copy. term_of copy ≡ term_of e.now) }
{
    match e {
        Expression::Number(of, bits) => Ok(Expression::Number(copied_type(alloc, of)?, *bits)),
        Expression::Literal(of, text) => {
            let text = copied_text(alloc, text)?;
            Ok(Expression::Literal(copied_type(alloc, of)?, text))
        }
        Expression::Null(of) => Ok(Expression::Null(copied_type(alloc, of)?)),
        Expression::This(of) => Ok(Expression::This(copied_type(alloc, of)?)),
        Expression::Local(of, local) => Ok(Expression::Local(copied_type(alloc, of)?, *local)),
        Expression::Field(of, field, object) => {
            let object = copied(alloc, object)?;
            let (of, object) = one_part(alloc, of, object)?;
            Ok(Expression::Field(of, *field, object))
        }
        Expression::StaticField(of, field) => {
            Ok(Expression::StaticField(copied_type(alloc, of)?, *field))
        }
        Expression::Element(of, array, index) => {
            let array = copied(alloc, array)?;
            let index = copied(alloc, index)?;
            let (of, array, index) = two_parts(alloc, of, array, index)?;
            Ok(Expression::Element(of, array, index))
        }
        Expression::Convert(of, operand) => {
            let operand = copied(alloc, operand)?;
            let (of, operand) = one_part(alloc, of, operand)?;
            Ok(Expression::Convert(of, operand))
        }
        Expression::Unary(of, operator, operand) => {
            let operand = copied(alloc, operand)?;
            let (of, operand) = one_part(alloc, of, operand)?;
            Ok(Expression::Unary(of, *operator, operand))
        }
        Expression::Binary(of, operator, left, right) => {
            let left = copied(alloc, left)?;
            let right = copied(alloc, right)?;
            let (of, left, right) = two_parts(alloc, of, left, right)?;
            Ok(Expression::Binary(of, *operator, left, right))
        }
        Expression::And(of, first, second) => {
            let first = copied(alloc, first)?;
            let second = copied(alloc, second)?;
            let (of, first, second) = two_parts(alloc, of, first, second)?;
            Ok(Expression::And(of, first, second))
        }
        Expression::Or(of, first, second) => {
            let first = copied(alloc, first)?;
            let second = copied(alloc, second)?;
            let (of, first, second) = two_parts(alloc, of, first, second)?;
            Ok(Expression::Or(of, first, second))
        }
        Expression::Choose(of, condition, first, second) => {
            let condition = copied(alloc, condition)?;
            let condition = Box::new(alloc, condition)?;
            let first = copied(alloc, first)?;
            let second = copied(alloc, second)?;
            let (of, first, second) = two_parts(alloc, of, first, second)?;
            Ok(Expression::Choose(of, condition, first, second))
        }
        Expression::Assign(of, place, value) => {
            let place = copied(alloc, place)?;
            let value = copied(alloc, value)?;
            let (of, place, value) = two_parts(alloc, of, place, value)?;
            Ok(Expression::Assign(of, place, value))
        }
        Expression::Update(of, operator, common, gives, place, operand) => {
            let common = copied_type(alloc, common)?;
            let place = copied(alloc, place)?;
            let operand = copied(alloc, operand)?;
            let (of, place, operand) = two_parts(alloc, of, place, operand)?;
            Ok(Expression::Update(of, *operator, common, *gives, place, operand))
        }
        Expression::Call(of, method, dispatch, arguments) => {
            let arguments = copied_all(alloc, arguments.as_slice())?;
            Ok(Expression::Call(copied_type(alloc, of)?, *method, *dispatch, arguments))
        }
        Expression::New(of, class, constructor, arguments) => {
            let arguments = copied_all(alloc, arguments.as_slice())?;
            Ok(Expression::New(copied_type(alloc, of)?, *class, *constructor, arguments))
        }
        Expression::NewArray(of, element, length) => {
            let element = copied_type(alloc, element)?;
            let length = copied(alloc, length)?;
            let (of, length) = one_part(alloc, of, length)?;
            Ok(Expression::NewArray(of, element, length))
        }
        Expression::ArrayOf(of, element, elements) => {
            let element = copied_type(alloc, element)?;
            let elements = copied_all(alloc, elements.as_slice())?;
            Ok(Expression::ArrayOf(copied_type(alloc, of)?, element, elements))
        }
        Expression::Cast(of, kind, operand) => {
            let operand = copied(alloc, operand)?;
            let (of, operand) = one_part(alloc, of, operand)?;
            Ok(Expression::Cast(of, *kind, operand))
        }
        Expression::Library(of, call, arguments) => {
            let arguments = copied_all(alloc, arguments.as_slice())?;
            Ok(Expression::Library(copied_type(alloc, of)?, *call, arguments))
        }
        Expression::PlaceOf(of, operand) => {
            let operand = copied(alloc, operand)?;
            let (of, operand) = one_part(alloc, of, operand)?;
            Ok(Expression::PlaceOf(of, operand))
        }
        Expression::HandleOf(of, operand) => {
            let operand = copied(alloc, operand)?;
            let (of, operand) = one_part(alloc, of, operand)?;
            Ok(Expression::HandleOf(of, operand))
        }
        Expression::Let(of, local, first, second) => {
            let first = copied(alloc, first)?;
            let second = copied(alloc, second)?;
            let (of, first, second) = two_parts(alloc, of, first, second)?;
            Ok(Expression::Let(of, *local, first, second))
        }
        Expression::Then(of, first, second) => {
            let first = copied(alloc, first)?;
            let second = copied(alloc, second)?;
            let (of, first, second) = two_parts(alloc, of, first, second)?;
            Ok(Expression::Then(of, first, second))
        }
    }
}

/// The same expressions.
#[cycle(expression)]
fn copied_all(alloc: Global, list: &[Expression]) -> Result<Items<Expression>, AllocError>
    ensures { IfOk result (λ copies. map term_of copies ≡ map term_of list.now) }
{
    let mut copies = Items::new(alloc);
    for e in list {
        copies.push(copied(alloc, e)?)?;
    }
    Ok(copies)
}

/// The same expression, where there is one.
pub(crate) fn copied_if(
    alloc: Global,
    e: &Option<Expression>,
) -> Result<Option<Expression>, AllocError>
    ensures { IfOk result (λ copy. option_map term_of copy ≡ option_map term_of e.now) }
{
    match e {
        None => Ok(None),
        Some(e) => Ok(Some(copied(alloc, e)?)),
    }
}
