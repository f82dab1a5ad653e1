// What an operand means to the operators around it.
ghost use Rattle.std.specs.Prelude.{◌≡◌, IfOk};
ghost use Rattle.cc_operations.specs.Judgements.{judged_by, value_of, meaning_of};
ghost use Rattle.cc_operations.specs.Judgements as judgements;
ghost use Rattle.cc_operations.specs.Numbers as numbers;
ghost use Rattle.cc_operations.specs.Operations as spec;

use crate::judged::{Given, Judged, Meant};
use crate::numbers::{core, number_type};
use crate::operators::{counted, denied, negated, no_conversion, widened};
use cc_base::Span;
use cc_core::{Expression as Term, Operator, UnaryOperator, UpdateResult};
use cc_tree::{FundamentalType, PostfixOperator, PrefixOperator, Radix, Suffix};
use std::alloc::{AllocError, Global};

/// What is meant, as a value.
pub fn as_value(meant: Meant) -> Judged<Given>
    ensures { judged_by value_of result ≡ judgements.as_value (meaning_of meant) }
{
    match meant {
        Meant::Value(given) => Ok(given),
        Meant::Place(of, local) => Ok(Given {
            of,
            term: Term::Local(core(of), local),
        }),
        Meant::Functions(span, _) => Err(no_conversion(span)),
        Meant::Console(span, _) => Err(no_conversion(span)),
    }
}

/// What is meant, as an operand that may be a place.
pub fn as_operand(meant: Meant) -> Judged<Meant>
    ensures { judged_by meaning_of result ≡ judgements.as_operand (meaning_of meant) }
{
    match meant {
        Meant::Value(given) => Ok(Meant::Value(given)),
        Meant::Place(of, local) => Ok(Meant::Place(of, local)),
        Meant::Functions(span, _) => Err(no_conversion(span)),
        Meant::Console(span, _) => Err(no_conversion(span)),
    }
}

/// A constant of a type.
pub fn constant(of: FundamentalType, value: u64) -> Meant
    ensures { meaning_of result ≡ spec.constant of value }
{
    Meant::Value(Given {
        of,
        term: Term::Number(core(of), value),
    })
}

/// A number as it is written.
pub fn number(value: u64, suffix: Suffix, radix: Radix) -> Meant
    ensures { meaning_of result ≡ spec.constant (numbers.number_type value suffix radix) value }
{
    constant(number_type(value, suffix, radix), value)
}

/// An operator before its operand, of which a value or a place is needed.
pub fn prefixed(
    alloc: Global,
    operator: PrefixOperator,
    span: Span,
    meant: Meant,
) -> Result<Judged<Meant>, AllocError>
    ensures { IfOk result (λ judged. judged_by meaning_of judged ≡ spec.prefixed operator span (meaning_of meant)) }
{
    match operator {
        PrefixOperator::Increment => {
            counted_of(alloc, Operator::Add, UpdateResult::New, span, meant)
        }
        PrefixOperator::Decrement => {
            counted_of(alloc, Operator::Subtract, UpdateResult::New, span, meant)
        }
        PrefixOperator::Not => match as_value(meant) {
            Ok(given) => denied(alloc, span, given),
            Err(refusal) => Ok(Err(refusal)),
        },
        PrefixOperator::Complement => match as_value(meant) {
            Ok(given) => negated(alloc, UnaryOperator::Complement, span, given),
            Err(refusal) => Ok(Err(refusal)),
        },
        PrefixOperator::Negate => match as_value(meant) {
            Ok(given) => negated(alloc, UnaryOperator::Negate, span, given),
            Err(refusal) => Ok(Err(refusal)),
        },
        PrefixOperator::Plus => match as_value(meant) {
            Ok(given) => widened(alloc, span, given),
            Err(refusal) => Ok(Err(refusal)),
        },
        PrefixOperator::Handle => match as_value(meant) {
            Ok(_) => Ok(Err(no_conversion(span))),
            Err(refusal) => Ok(Err(refusal)),
        },
    }
}

/// `++` or `--` of what an operand means.
fn counted_of(
    alloc: Global,
    operator: Operator,
    gives: UpdateResult,
    span: Span,
    meant: Meant,
) -> Result<Judged<Meant>, AllocError>
    ensures { IfOk result (λ judged. judged_by meaning_of judged ≡ spec.counted_of operator gives span (meaning_of meant)) }
{
    match as_operand(meant) {
        Ok(target) => counted(alloc, operator, gives, span, target),
        Err(refusal) => Ok(Err(refusal)),
    }
}

/// An operator behind its operand.
pub fn postfixed(
    alloc: Global,
    operator: PostfixOperator,
    span: Span,
    meant: Meant,
) -> Result<Judged<Meant>, AllocError>
    ensures { IfOk result (λ judged. judged_by meaning_of judged ≡ spec.postfixed operator span (meaning_of meant)) }
{
    match operator {
        PostfixOperator::Increment => {
            counted_of(alloc, Operator::Add, UpdateResult::Old, span, meant)
        }
        PostfixOperator::Decrement => {
            counted_of(alloc, Operator::Subtract, UpdateResult::Old, span, meant)
        }
    }
}
