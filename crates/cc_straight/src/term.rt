// The operations of a term.
ghost use Rattle.std.specs.Prelude.{◌≡◌};
ghost use Rattle.cc_core.specs.StraightSource.{operations_of};
ghost use Rattle.cc_straight.specs.Form as form;
ghost use Rattle.cc_straight.specs.Added.{IsAdded, IsPushed};

use crate::fault::{CompileFault, not_yet};
use crate::spans::expression_span;
use cc_core::{StraightOperation, StraightOperator};
use cc_tree::{BinaryOperator, Expression, Radix, Suffix};

fn arithmetic(operator: BinaryOperator) -> Option<StraightOperator>
    ensures { result ≡ form.arithmetic operator }
{
    match operator {
        BinaryOperator::Add => Some(StraightOperator::Add),
        BinaryOperator::Subtract => Some(StraightOperator::Subtract),
        BinaryOperator::Multiply => Some(StraightOperator::Multiply),
        _ => None,
    }
}

fn number_value(value: u64, suffix: Suffix, radix: Radix) -> Option<u32>
    ensures { result ≡ form.number_value value suffix radix }
{
    match (suffix, radix) {
        (Suffix::Plain, Radix::Decimal) => {
            if value > 2_147_483_647 {
                None
            } else {
                Some(value as u32)
            }
        }
        (Suffix::Plain, Radix::Octal) => { if value == 0 { Some(0) } else { None } }
        _ => None,
    }
}

pub fn push(
    operation: StraightOperation,
    into: &mut Vec<StraightOperation>,
) -> Result<(), CompileFault>
    ensures { IsPushed operation result into.old.items into.new.items }
{
    match into.push(operation) {
        Ok(()) => Ok(()),
        Err(_) => Err(CompileFault::Memory),
    }
}

/// Adds the operations of the term that an expression is.
pub fn add_term(
    expression: &Expression,
    into: &mut Vec<StraightOperation>,
) -> Result<(), CompileFault>
    ensures { IsAdded operations_of result (form.term_of expression.now) into.old.items into.new.items }
{
    match expression {
        Expression::Number(value, suffix, radix, span) => {
            match number_value(*value, *suffix, *radix) {
                Some(value) => { push(StraightOperation::Number(value), into) }
                None => Err(not_yet(*span)),
            }
        }
        Expression::Group(inner, _) => add_term(inner.get(), into),
        Expression::Binary(left, operator, right, span) => match arithmetic(*operator) {
            Some(operator) => {
                add_term(left.get(), into)?;
                add_term(right.get(), into)?;
                push(StraightOperation::Apply(operator), into)
            }
            None => Err(not_yet(*span)),
        },
        other => Err(not_yet(expression_span(other))),
    }
}
