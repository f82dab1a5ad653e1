// Expressions that are built (ECMA-372, 15).
ghost use Rattle.std.specs.Prelude.{◌≡◌, map};
ghost use Rattle.cc_forms.specs.Forms.{found, first_of, optional_of, expression_form, arguments_form};
ghost use Rattle.cc_forms.specs.Forms as forms;

use crate::types::{is_console, type_name};
use cc_base::Span;
use cc_tree::{Arguments, Expression, PrefixOperator};

/// Goes on where a node is built.
fn built_if(test: bool, span: Span) -> Result<(), Span>
    ensures { found result ≡ forms.built_if test span }
{
    if test { Ok(()) } else { Err(span) }
}

/// Whether an operator is the unary `%`.
fn is_handle_of(operator: PrefixOperator) -> bool
    ensures { result ≡ forms.is_handle_of operator }
{
    match operator {
        PrefixOperator::Handle => true,
        PrefixOperator::Not => false,
        PrefixOperator::Complement => false,
        PrefixOperator::Negate => false,
        PrefixOperator::Plus => false,
        PrefixOperator::Increment => false,
        PrefixOperator::Decrement => false,
    }
}

#[cycle(expression)]
pub(crate) fn expression(expression: &Expression) -> Result<(), Span>
    ensures { found result ≡ expression_form expression.now }
{
    match expression {
        Expression::Assign(left, _, right, _) | Expression::Binary(left, _, right, _) => {
            self::expression(left.get())?;
            self::expression(right.get())
        }
        Expression::Conditional(condition, first, second, _) => {
            self::expression(condition.get())?;
            self::expression(first.get())?;
            self::expression(second.get())
        }
        Expression::Prefix(operator, operand, span) => {
            if is_handle_of(*operator) {
                Err(*span)
            } else {
                self::expression(operand.get())
            }
        }
        Expression::Cast(of, operand, _) | Expression::NamedCast(_, of, operand, _) => {
            type_name(of)?;
            self::expression(operand.get())
        }
        Expression::Call(function, arguments, _) => {
            self::expression(function.get())?;
            self::arguments(arguments)
        }
        Expression::Postfix(operand, _, _) | Expression::Group(operand, _) => {
            self::expression(operand.get())
        }
        Expression::Construct(of, arguments, _) => {
            type_name(of)?;
            self::arguments(arguments)
        }
        Expression::Name(_, _, types, span) => built_if(types.is_none(), *span),
        Expression::StaticMember(of, _, span) => built_if(is_console(of), *span),
        Expression::Number(_, _, _, _)
        | Expression::Character(_, _)
        | Expression::True(_)
        | Expression::False(_) => Ok(()),
        Expression::Index(_, _, span)
        | Expression::Member(_, _, _, _, span)
        | Expression::Finaliser(_, _, _, span)
        | Expression::Strings(_, span)
        | Expression::Nullptr(span)
        | Expression::This(span)
        | Expression::New(_, _, _, span) => Err(*span),
    }
}

#[cycle(expression)]
fn expressions(expressions: &[Expression]) -> Result<(), Span>
    ensures { found result ≡ first_of (map expression_form expressions.now) }
{
    'expressions: for expression in expressions {
        self::expression(expression)?;
    }
    Ok(())
}

#[cycle(expression)]
fn arguments(arguments: &Arguments) -> Result<(), Span>
    ensures { found result ≡ arguments_form arguments.now }
{
    expressions(arguments.items.as_slice())
}

pub(crate) fn optional_expression(expression: &Option<Expression>) -> Result<(), Span>
    ensures { found result ≡ optional_of expression_form expression.now }
{
    match expression {
        None => Ok(()),
        Some(expression) => self::expression(expression),
    }
}
