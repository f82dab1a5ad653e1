// Operators on values, with the conversions of their operands (ECMA-372, 15; ISO/IEC 14882:2003, 5).
ghost use Rattle.std.specs.Prelude.{◌≡◌, IfOk, Ok, Err};
ghost use Rattle.cc_base.specs.declared.kind.Kind.TheVariants as kind;
ghost use Rattle.cc_operations.specs.Judgements.{judged_by, value_of, values_of, meaning_of};
ghost use Rattle.cc_tree.specs.declared.expression.AssignmentOperator.TheVariants as assign;
ghost use Rattle.cc_tree.specs.declared.expression.BinaryOperator.TheVariants as logical;
ghost use Rattle.cc_operations.specs.Operations as spec;

use crate::judged::{Given, Judged, Meant, Refusal};
use crate::numbers::{common, core, is_bool, is_same, is_void, promoted};
use cc_base::{Kind, List, LocalId, Span};
use cc_core::{Expression, Operator, UnaryOperator, UpdateResult};
use cc_tree::{AssignmentOperator, BinaryOperator, CastWord, FundamentalType};
use std::alloc::{AllocError, Global};

/// A refusal for want of a conversion.
pub fn no_conversion(span: Span) -> Refusal
    ensures { result ≡ record { kind = kind.NoConversion; span = span } }
{
    Refusal {
        kind: Kind::NoConversion,
        span,
    }
}

/// A value of a type of numbers as one of another.
pub fn convert(alloc: Global, to: FundamentalType, value: Given) -> Result<Given, AllocError>
    ensures { IfOk result (λ made. value_of made ≡ spec.convert to (value_of value)) }
{
    if is_same(value.of, to) {
        return Ok(value);
    }
    Ok(Given {
        of: to,
        term: Expression::Convert(core(to), Box::new(alloc, value.term)?),
    })
}

/// A value converted to a type, which is refused where either is `void`.
pub fn converted(
    alloc: Global,
    span: Span,
    to: FundamentalType,
    value: Given,
) -> Result<Judged<Given>, AllocError>
    ensures { IfOk result (λ judged. judged_by value_of judged ≡ spec.converted span to (value_of value)) }
{
    if is_void(value.of) || is_void(to) {
        return Ok(Err(no_conversion(span)));
    }
    Ok(Ok(convert(alloc, to, value)?))
}

/// A value that is cast to a type.
pub fn cast_to(
    alloc: Global,
    span: Span,
    to: FundamentalType,
    value: Given,
) -> Result<Judged<Meant>, AllocError>
    ensures { IfOk result (λ judged. judged_by meaning_of judged ≡ spec.cast_to span to (value_of value)) }
{
    match converted(alloc, span, to, value)? {
        Ok(made) => Ok(Ok(Meant::Value(made))),
        Err(refusal) => Ok(Err(refusal)),
    }
}

/// A value under a cast with a word.
pub fn named_cast(
    alloc: Global,
    word: CastWord,
    span: Span,
    to: FundamentalType,
    value: Given,
) -> Result<Judged<Meant>, AllocError>
    ensures { IfOk result (λ judged. judged_by meaning_of judged ≡ spec.named_cast word span to (value_of value)) }
{
    match word {
        CastWord::Safe => cast_to(alloc, span, to, value),
        CastWord::Static => cast_to(alloc, span, to, value),
        CastWord::Dynamic => Ok(Err(no_conversion(span))),
    }
}

/// `type(values)`, which takes one value.
pub fn constructed(
    alloc: Global,
    span: Span,
    to: FundamentalType,
    values: List<Given>,
) -> Result<Judged<Meant>, AllocError>
    ensures { IfOk result (λ judged. judged_by meaning_of judged ≡ spec.constructed span to (values_of values)) }
{
    let mut values = values.into_vec();
    if values.len() != 1 {
        return Ok(Err(no_conversion(span)));
    }
    match values.pop() {
        Some(value) => cast_to(alloc, span, to, value),
        None => Ok(Err(no_conversion(span))),
    }
}

/// An operation on two numbers, which are converted to their common type.
fn operation(
    alloc: Global,
    operator: Operator,
    left: Given,
    right: Given,
) -> Result<Given, AllocError>
    ensures { IfOk result (λ made. value_of made ≡ spec.operation operator (value_of left) (value_of right)) }
{
    let of = common(left.of, right.of);
    let left = convert(alloc, of, left)?;
    let right = convert(alloc, of, right)?;
    let left = Box::new(alloc, left.term)?;
    let right = Box::new(alloc, right.term)?;
    Ok(Given {
        of,
        term: Expression::Binary(core(of), operator, left, right),
    })
}

/// A comparison of two numbers, which are converted to their common type.
fn comparison(
    alloc: Global,
    operator: Operator,
    left: Given,
    right: Given,
) -> Result<Given, AllocError>
    ensures { IfOk result (λ made. value_of made ≡ spec.comparison operator (value_of left) (value_of right)) }
{
    let of = common(left.of, right.of);
    let left = convert(alloc, of, left)?;
    let right = convert(alloc, of, right)?;
    let left = Box::new(alloc, left.term)?;
    let right = Box::new(alloc, right.term)?;
    Ok(Given {
        of: FundamentalType::Bool,
        term: Expression::Binary(core(FundamentalType::Bool), operator, left, right),
    })
}

/// A shift of a number, which has the type of the promoted left operand.
fn shift(alloc: Global, operator: Operator, left: Given, right: Given) -> Result<Given, AllocError>
    ensures { IfOk result (λ made. value_of made ≡ spec.shift operator (value_of left) (value_of right)) }
{
    let of = promoted(left.of);
    let left = convert(alloc, of, left)?;
    let count = promoted(right.of);
    let right = convert(alloc, count, right)?;
    let left = Box::new(alloc, left.term)?;
    let right = Box::new(alloc, right.term)?;
    Ok(Given {
        of,
        term: Expression::Binary(core(of), operator, left, right),
    })
}

/// `left || right`.
fn either(alloc: Global, left: Given, right: Given) -> Result<Given, AllocError>
    ensures { IfOk result (λ made. value_of made ≡ spec.of_operator logical.LogicalOr (value_of left) (value_of right)) }
{
    let left = Box::new(alloc, left.term)?;
    let right = Box::new(alloc, right.term)?;
    Ok(Given {
        of: FundamentalType::Bool,
        term: Expression::Or(core(FundamentalType::Bool), left, right),
    })
}

/// `left && right`.
fn both(alloc: Global, left: Given, right: Given) -> Result<Given, AllocError>
    ensures { IfOk result (λ made. value_of made ≡ spec.of_operator logical.LogicalAnd (value_of left) (value_of right)) }
{
    let left = Box::new(alloc, left.term)?;
    let right = Box::new(alloc, right.term)?;
    Ok(Given {
        of: FundamentalType::Bool,
        term: Expression::And(core(FundamentalType::Bool), left, right),
    })
}

/// What an operator makes of two numbers.
fn of_operator(
    alloc: Global,
    operator: BinaryOperator,
    left: Given,
    right: Given,
) -> Result<Given, AllocError>
    ensures { IfOk result (λ made. value_of made ≡ spec.of_operator operator (value_of left) (value_of right)) }
{
    match operator {
        BinaryOperator::LogicalOr => either(alloc, left, right),
        BinaryOperator::LogicalAnd => both(alloc, left, right),
        BinaryOperator::Or => operation(alloc, Operator::Or, left, right),
        BinaryOperator::ExclusiveOr => operation(alloc, Operator::ExclusiveOr, left, right),
        BinaryOperator::And => operation(alloc, Operator::And, left, right),
        BinaryOperator::Equal => comparison(alloc, Operator::Equal, left, right),
        BinaryOperator::NotEqual => comparison(alloc, Operator::NotEqual, left, right),
        BinaryOperator::Less => comparison(alloc, Operator::Less, left, right),
        BinaryOperator::Greater => comparison(alloc, Operator::Greater, left, right),
        BinaryOperator::LessOrEqual => comparison(alloc, Operator::LessOrEqual, left, right),
        BinaryOperator::GreaterOrEqual => comparison(alloc, Operator::GreaterOrEqual, left, right),
        BinaryOperator::ShiftLeft => shift(alloc, Operator::ShiftLeft, left, right),
        BinaryOperator::ShiftRight => shift(alloc, Operator::ShiftRight, left, right),
        BinaryOperator::Add => operation(alloc, Operator::Add, left, right),
        BinaryOperator::Subtract => operation(alloc, Operator::Subtract, left, right),
        BinaryOperator::Multiply => operation(alloc, Operator::Multiply, left, right),
        BinaryOperator::Divide => operation(alloc, Operator::Divide, left, right),
        BinaryOperator::Remainder => operation(alloc, Operator::Remainder, left, right),
    }
}

/// A binary operator on two values.
pub fn binary(
    alloc: Global,
    operator: BinaryOperator,
    span: Span,
    left: Given,
    right: Given,
) -> Result<Judged<Meant>, AllocError>
    ensures { IfOk result (λ judged. judged_by meaning_of judged ≡ spec.binary operator span (value_of left) (value_of right)) }
{
    if is_void(left.of) || is_void(right.of) {
        return Ok(Err(no_conversion(span)));
    }
    Ok(Ok(Meant::Value(of_operator(alloc, operator, left, right)?)))
}

/// `-` or `~` of a promoted operand.
fn alone(alloc: Global, operator: UnaryOperator, value: Given) -> Result<Given, AllocError>
    ensures { IfOk result (λ made. value_of made ≡ spec.alone operator (value_of value)) }
{
    let of = promoted(value.of);
    let value = convert(alloc, of, value)?;
    Ok(Given {
        of,
        term: Expression::Unary(core(of), operator, Box::new(alloc, value.term)?),
    })
}

/// `-` or `~` of a value.
pub fn negated(
    alloc: Global,
    operator: UnaryOperator,
    span: Span,
    value: Given,
) -> Result<Judged<Meant>, AllocError>
    ensures { IfOk result (λ judged. judged_by meaning_of judged ≡ spec.negated operator span (value_of value)) }
{
    if is_void(value.of) {
        return Ok(Err(no_conversion(span)));
    }
    Ok(Ok(Meant::Value(alone(alloc, operator, value)?)))
}

/// `!` of a value.
pub fn denied(alloc: Global, span: Span, value: Given) -> Result<Judged<Meant>, AllocError>
    ensures { IfOk result (λ judged. judged_by meaning_of judged ≡ spec.denied span (value_of value)) }
{
    if is_void(value.of) {
        return Ok(Err(no_conversion(span)));
    }
    Ok(Ok(Meant::Value(Given {
        of: FundamentalType::Bool,
        term: Expression::Unary(
            core(FundamentalType::Bool),
            UnaryOperator::Not,
            Box::new(alloc, value.term)?,
        ),
    })))
}

/// `+` of a value.
pub fn widened(alloc: Global, span: Span, value: Given) -> Result<Judged<Meant>, AllocError>
    ensures { IfOk result (λ judged. judged_by meaning_of judged ≡ spec.widened span (value_of value)) }
{
    if is_void(value.of) {
        return Ok(Err(no_conversion(span)));
    }
    let of = promoted(value.of);
    Ok(Ok(Meant::Value(convert(alloc, of, value)?)))
}

/// What stands at a variable is changed by an operator that works in a type.
fn update(
    alloc: Global,
    operator: Operator,
    result_: UpdateResult,
    of: FundamentalType,
    local: LocalId,
    works: FundamentalType,
    value: Given,
) -> Result<Judged<Meant>, AllocError>
    ensures { IfOk result (λ judged. judged_by meaning_of judged ≡ spec.update operator result_ of local works (value_of value)) }
{
    let place = Box::new(alloc, Expression::Local(core(of), local))?;
    let value = Box::new(alloc, value.term)?;
    Ok(Ok(Meant::Value(Given {
        of,
        term: Expression::Update(core(of), operator, core(works), result_, place, value),
    })))
}

/// `++` or `--`.
pub fn counted(
    alloc: Global,
    operator: Operator,
    result_: UpdateResult,
    span: Span,
    target: Meant,
) -> Result<Judged<Meant>, AllocError>
    ensures { IfOk result (λ judged. judged_by meaning_of judged ≡ spec.counted operator result_ span (meaning_of target)) }
{
    match target {
        Meant::Value(_) => Ok(Err(Refusal {
            kind: Kind::NotAssignable,
            span,
        })),
        Meant::Place(of, local) => {
            if is_bool(of) {
                return Ok(Err(no_conversion(span)));
            }
            let works = promoted(of);
            let one = Given {
                of: works,
                term: Expression::Number(core(works), 1),
            };
            update(alloc, operator, result_, of, local, works, one)
        }
        Meant::Functions(_, _) => Ok(Err(no_conversion(span))),
        Meant::Console(_, _) => Ok(Err(no_conversion(span))),
    }
}

/// An assignment with an operator.
fn compound(
    alloc: Global,
    operator: Operator,
    of: FundamentalType,
    local: LocalId,
    value: Given,
) -> Result<Judged<Meant>, AllocError>
    ensures { IfOk result (λ judged. judged_by meaning_of judged ≡ spec.compound operator of local (value_of value)) }
{
    let works = common(of, value.of);
    let value = convert(alloc, works, value)?;
    update(alloc, operator, UpdateResult::New, of, local, works, value)
}

/// An assignment with a shift.
fn compound_shift(
    alloc: Global,
    operator: Operator,
    of: FundamentalType,
    local: LocalId,
    value: Given,
) -> Result<Judged<Meant>, AllocError>
    ensures { IfOk result (λ judged. judged_by meaning_of judged ≡ spec.compound_shift operator of local (value_of value)) }
{
    let count = promoted(value.of);
    let value = convert(alloc, count, value)?;
    let works = promoted(of);
    update(alloc, operator, UpdateResult::New, of, local, works, value)
}

/// `target = value`.
fn plain(
    alloc: Global,
    of: FundamentalType,
    local: LocalId,
    value: Given,
) -> Result<Judged<Meant>, AllocError>
    ensures { IfOk result (λ judged. judged_by meaning_of judged ≡ spec.assignment assign.Assign of local (value_of value)) }
{
    let value = convert(alloc, of, value)?;
    let place = Box::new(alloc, Expression::Local(core(of), local))?;
    let value = Box::new(alloc, value.term)?;
    Ok(Ok(Meant::Value(Given {
        of,
        term: Expression::Assign(core(of), place, value),
    })))
}

/// An assignment to a variable.
fn assignment(
    alloc: Global,
    operator: AssignmentOperator,
    of: FundamentalType,
    local: LocalId,
    value: Given,
) -> Result<Judged<Meant>, AllocError>
    ensures { IfOk result (λ judged. judged_by meaning_of judged ≡ spec.assignment operator of local (value_of value)) }
{
    match operator {
        AssignmentOperator::Assign => plain(alloc, of, local, value),
        AssignmentOperator::Add => compound(alloc, Operator::Add, of, local, value),
        AssignmentOperator::Subtract => compound(alloc, Operator::Subtract, of, local, value),
        AssignmentOperator::Multiply => compound(alloc, Operator::Multiply, of, local, value),
        AssignmentOperator::Divide => compound(alloc, Operator::Divide, of, local, value),
        AssignmentOperator::Remainder => compound(alloc, Operator::Remainder, of, local, value),
        AssignmentOperator::ExclusiveOr => compound(alloc, Operator::ExclusiveOr, of, local, value),
        AssignmentOperator::And => compound(alloc, Operator::And, of, local, value),
        AssignmentOperator::Or => compound(alloc, Operator::Or, of, local, value),
        AssignmentOperator::ShiftLeft => {
            compound_shift(alloc, Operator::ShiftLeft, of, local, value)
        }
        AssignmentOperator::ShiftRight => {
            compound_shift(alloc, Operator::ShiftRight, of, local, value)
        }
    }
}

/// An assignment to what an expression means.
pub fn assigned(
    alloc: Global,
    operator: AssignmentOperator,
    span: Span,
    target: Meant,
    value: Given,
) -> Result<Judged<Meant>, AllocError>
    ensures { IfOk result (λ judged. judged_by meaning_of judged ≡ spec.assigned operator span (meaning_of target) (value_of value)) }
{
    match target {
        Meant::Value(_) => Ok(Err(Refusal {
            kind: Kind::NotAssignable,
            span,
        })),
        Meant::Place(of, local) => {
            if is_void(value.of) {
                return Ok(Err(no_conversion(span)));
            }
            assignment(alloc, operator, of, local, value)
        }
        Meant::Functions(_, _) => Ok(Err(no_conversion(span))),
        Meant::Console(_, _) => Ok(Err(no_conversion(span))),
    }
}

/// `condition ? first : second` with both sides converted to a type.
fn chosen(
    alloc: Global,
    of: FundamentalType,
    condition: Given,
    first: Given,
    second: Given,
) -> Result<Judged<Meant>, AllocError>
    ensures { IfOk result (λ judged. judged_by meaning_of judged ≡ spec.chosen of (value_of condition) (value_of first) (value_of second)) }
{
    let first = convert(alloc, of, first)?;
    let second = convert(alloc, of, second)?;
    let condition = Box::new(alloc, condition.term)?;
    let first = Box::new(alloc, first.term)?;
    let second = Box::new(alloc, second.term)?;
    Ok(Ok(Meant::Value(Given {
        of,
        term: Expression::Choose(core(of), condition, first, second),
    })))
}

/// `condition ? first : second`.
pub fn conditional(
    alloc: Global,
    span: Span,
    condition: Given,
    first: Given,
    second: Given,
) -> Result<Judged<Meant>, AllocError>
    ensures { IfOk result (λ judged. judged_by meaning_of judged ≡ spec.conditional span (value_of condition) (value_of first) (value_of second)) }
{
    if is_void(condition.of) {
        return Ok(Err(no_conversion(span)));
    }
    if is_same(first.of, second.of) {
        let of = first.of;
        return chosen(alloc, of, condition, first, second);
    }
    if is_void(first.of) || is_void(second.of) {
        return Ok(Err(no_conversion(span)));
    }
    let of = common(first.of, second.of);
    chosen(alloc, of, condition, first, second)
}
