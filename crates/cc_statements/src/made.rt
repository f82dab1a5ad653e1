// Typed statements that are made of their parts (ECMA-372, 16).
ghost use Rattle.std.specs.Prelude.{◌≡◌, [], ◌∷◌, IfOk, option_map};
ghost use Rattle.cc_base.specs.declared.kind.Kind.TheVariants as kind;
ghost use Rattle.cc_core.specs.Bare.{step_of, term_of};
ghost use Rattle.cc_core.specs.Step as step;
ghost use Rattle.cc_operations.specs.Judgements.{judged_by, value_of};
ghost use Rattle.cc_statements.specs.Steps as spec;

use cc_base::{Kind, LocalId, Span};
use cc_core::{Expression as Term, LoopKind, Section as Made, Statement as Step};
use cc_operations::{Given, Judged, Refusal, convert, is_void, no_conversion, promoted};
use cc_tree::FundamentalType;
use sqlite_items::Items;
use std::alloc::{AllocError, Global};

/// A refusal for a `break`, a `continue`, a label or a declaration that stands where it may not.
pub(crate) fn bad_break(span: Span) -> Refusal
    ensures { result ≡ record { kind = kind.BadBreak; span = span } }
{
    Refusal {
        kind: Kind::BadBreak,
        span,
    }
}

/// The block of some statements.
pub(crate) fn block_of(steps: Items<Step>) -> Step
    ensures { step_of result ≡ step.Block (spec.steps_from (spec.steps_bare steps)) }
{
    Step::Block(steps)
}

/// One statement.
pub(crate) fn only(alloc: Global, one: Step) -> Result<Items<Step>, AllocError>
    ensures { IfOk result (λ steps. spec.steps_bare steps ≡ step_of one ∷ []) }
{
    let mut steps = Items::new(alloc);
    steps.push(one)?;
    Ok(steps)
}

/// A statement with a condition, which is refused where that has no value.
fn tested(
    alloc: Global,
    span: Span,
    condition: FundamentalType,
    made: Step,
) -> Result<Judged<Items<Step>>, AllocError>
    ensures { IfOk result (λ judged. judged_by spec.steps_bare judged ≡ spec.tested span condition (step_of made)) }
{
    if is_void(condition) {
        return Ok(Err(no_conversion(span)));
    }
    Ok(Ok(only(alloc, made)?))
}

/// An `if`.
pub(crate) fn if_of(
    alloc: Global,
    span: Span,
    condition: Given,
    first: Step,
    second: Step,
) -> Result<Judged<Items<Step>>, AllocError>
    ensures { IfOk result (λ judged. judged_by spec.steps_bare judged ≡ spec.tested span condition.of (step.If (term_of condition.term) (step_of first) (step_of second))) }
{
    let of = condition.of;
    let (first, second) = boxed(alloc, first, second)?;
    tested(alloc, span, of, if_step(condition.term, first, second))
}

fn boxed(alloc: Global, first: Step, second: Step) -> Result<(Box<Step>, Box<Step>), AllocError>
    ensures { IfOk result (λ both. (both.0.value ≡ first) × (both.1.value ≡ second)) }
{
    let first = Box::new(alloc, first)?;
    let second = Box::new(alloc, second)?;
    Ok((first, second))
}

fn if_step(condition: Term, first: Box<Step>, second: Box<Step>) -> Step
    ensures { step_of result ≡ step.If (term_of condition) (step_of first.value) (step_of second.value) }
{
    Step::If(condition, first, second)
}

/// A loop.
pub(crate) fn loop_of(
    alloc: Global,
    span: Span,
    turns: LoopKind,
    condition: Given,
    after: Option<Term>,
    body: Step,
) -> Result<Judged<Items<Step>>, AllocError>
    ensures { IfOk result (λ judged. judged_by spec.steps_bare judged ≡ spec.tested span condition.of (step.Loop turns (term_of condition.term) (option_map term_of after) (step_of body))) }
{
    let of = condition.of;
    let body = Box::new(alloc, body)?;
    tested(
        alloc,
        span,
        of,
        loop_step(turns, condition.term, after, body),
    )
}

fn loop_step(turns: LoopKind, condition: Term, after: Option<Term>, body: Box<Step>) -> Step
    ensures { step_of result ≡ step.Loop turns (term_of condition) (option_map term_of after) (step_of body.value) }
{
    Step::Loop(turns, condition, after, body)
}

/// A switch, whose operand is kept in a variable.
pub(crate) fn switch_of(
    alloc: Global,
    span: Span,
    local: LocalId,
    operand: Given,
    sections: Items<Made>,
) -> Result<Judged<Items<Step>>, AllocError>
    ensures { IfOk result (λ judged. judged_by spec.steps_bare judged ≡ spec.switch_made span local (value_of operand) (spec.sections_bare sections)) }
{
    let of = operand.of;
    let operand = convert(alloc, promoted(of), operand)?;
    tested(alloc, span, of, switch_step(local, operand.term, sections))
}

fn switch_step(local: LocalId, operand: Term, sections: Items<Made>) -> Step
    ensures { step_of result ≡ step.Switch local (term_of operand) (spec.sections_from (spec.sections_bare sections)) }
{
    Step::Switch(local, operand, sections)
}
