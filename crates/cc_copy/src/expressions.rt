// Expressions (ECMA-372, 15).
ghost use Rattle.std.specs.Prelude.{◌≡◌, IfOk};

use crate::copied::{Copied, copied_items, copied_option};
use cc_tree::{Arguments, Expression};
use sqlite_items::{Boxed, Items};
use std::alloc::{AllocError, Global};

#[cycle(expression)]
fn copied_expression(alloc: Global, of: &Expression) -> Result<Expression, AllocError>
    ensures { IfOk result (λ copy. copy ≡ of.now) }
{
    match of {
        Expression::Assign(left, operator, right, span) => {
            let left = boxed_expression(alloc, left)?;
            let right = boxed_expression(alloc, right)?;
            Ok(Expression::Assign(left, *operator, right, *span))
        }
        Expression::Conditional(condition, first, second, span) => {
            let condition = boxed_expression(alloc, condition)?;
            let first = boxed_expression(alloc, first)?;
            let second = boxed_expression(alloc, second)?;
            Ok(Expression::Conditional(condition, first, second, *span))
        }
        Expression::Binary(left, operator, right, span) => {
            let left = boxed_expression(alloc, left)?;
            let right = boxed_expression(alloc, right)?;
            Ok(Expression::Binary(left, *operator, right, *span))
        }
        Expression::Prefix(operator, operand, span) => {
            let operand = boxed_expression(alloc, operand)?;
            Ok(Expression::Prefix(*operator, operand, *span))
        }
        Expression::Cast(to, operand, span) => {
            let to = to.copied(alloc)?;
            let operand = boxed_expression(alloc, operand)?;
            Ok(Expression::Cast(to, operand, *span))
        }
        Expression::Index(object, index, span) => {
            let object = boxed_expression(alloc, object)?;
            let index = boxed_expression(alloc, index)?;
            Ok(Expression::Index(object, index, *span))
        }
        Expression::Call(function, arguments, span) => {
            let function = boxed_expression(alloc, function)?;
            let arguments = copied_arguments(alloc, arguments)?;
            Ok(Expression::Call(function, arguments, *span))
        }
        Expression::Member(object, selector, name, types, span) => {
            let object = boxed_expression(alloc, object)?;
            let name = name.copied(alloc)?;
            let types = copied_option(alloc, types)?;
            Ok(Expression::Member(object, *selector, name, types, *span))
        }
        Expression::Finaliser(object, selector, name, span) => {
            let object = boxed_expression(alloc, object)?;
            let name = name.copied(alloc)?;
            Ok(Expression::Finaliser(object, *selector, name, *span))
        }
        Expression::Postfix(operand, operator, span) => {
            let operand = boxed_expression(alloc, operand)?;
            Ok(Expression::Postfix(operand, *operator, *span))
        }
        Expression::Number(value, suffix, radix, span) => {
            Ok(Expression::Number(*value, *suffix, *radix, *span))
        }
        Expression::Character(unit, span) => Ok(Expression::Character(*unit, *span)),
        Expression::Strings(texts, span) => {
            let texts = copied_items(alloc, texts.as_slice())?;
            Ok(Expression::Strings(texts, *span))
        }
        Expression::True(span) => Ok(Expression::True(*span)),
        Expression::False(span) => Ok(Expression::False(*span)),
        Expression::Nullptr(span) => Ok(Expression::Nullptr(*span)),
        Expression::This(span) => Ok(Expression::This(*span)),
        Expression::Group(inner, span) => {
            let inner = boxed_expression(alloc, inner)?;
            Ok(Expression::Group(inner, *span))
        }
        Expression::Name(path, name, types, span) => {
            let path = copied_items(alloc, path.as_slice())?;
            let name = name.copied(alloc)?;
            let types = copied_option(alloc, types)?;
            Ok(Expression::Name(path, name, types, *span))
        }
        Expression::StaticMember(of, name, span) => {
            let of = of.copied(alloc)?;
            let name = name.copied(alloc)?;
            Ok(Expression::StaticMember(of, name, *span))
        }
        Expression::Construct(of, arguments, span) => {
            let of = of.copied(alloc)?;
            let arguments = copied_arguments(alloc, arguments)?;
            Ok(Expression::Construct(of, arguments, *span))
        }
        Expression::New(of, arguments, elements, span) => {
            let of = of.copied(alloc)?;
            let arguments = optional_arguments(alloc, arguments)?;
            let elements = optional_arguments(alloc, elements)?;
            Ok(Expression::New(of, arguments, elements, *span))
        }
        Expression::NamedCast(word, to, operand, span) => {
            let to = to.copied(alloc)?;
            let operand = boxed_expression(alloc, operand)?;
            Ok(Expression::NamedCast(*word, to, operand, *span))
        }
    }
}

#[cycle(expression)]
fn boxed_expression(alloc: Global, of: &Boxed<Expression>) -> Result<Boxed<Expression>, AllocError>
    ensures { IfOk result (λ copy. copy ≡ of.now) }
{
    let copy = copied_expression(alloc, of.get())?;
    Boxed::new(alloc, copy)
}

#[cycle(expression)]
fn copied_expressions(
    alloc: Global,
    expressions: &[Expression],
) -> Result<Items<Expression>, AllocError>
    ensures { IfOk result (λ copy. copy ≡ expressions.now) }
{
    let mut copies = Items::new(alloc);
    for expression in expressions {
        copies.push(copied_expression(alloc, expression)?)?;
    }
    Ok(copies)
}

#[cycle(expression)]
fn copied_arguments(alloc: Global, arguments: &Arguments) -> Result<Arguments, AllocError>
    ensures { IfOk result (λ copy. copy ≡ arguments.now) }
{
    let items = copied_expressions(alloc, arguments.items.as_slice())?;
    Ok(Arguments {
        items,
        span: arguments.span,
    })
}

#[cycle(expression)]
fn optional_arguments(
    alloc: Global,
    arguments: &Option<Arguments>,
) -> Result<Option<Arguments>, AllocError>
    ensures { IfOk result (λ copy. copy ≡ arguments.now) }
{
    match arguments {
        None => Ok(None),
        Some(arguments) => {
            let copy = copied_arguments(alloc, arguments)?;
            Ok(Some(copy))
        }
    }
}

impl Copied for Expression {
    fn copied(&self, alloc: Global) -> Result<Expression, AllocError>
        ensures { IfOk result (λ copy. copy ≡ self.now) }
    {
        copied_expression(alloc, self)
    }
}

impl Copied for Arguments {
    fn copied(&self, alloc: Global) -> Result<Arguments, AllocError>
        ensures { IfOk result (λ copy. copy ≡ self.now) }
    {
        copied_arguments(alloc, self)
    }
}
