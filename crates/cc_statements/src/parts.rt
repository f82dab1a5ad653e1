// Declarations, and statements without statements in them (ECMA-372, 16; ISO/IEC 14882:2003, 6).
ghost use Rattle.std.specs.Prelude.{◌≡◌, ◌<◌, ◌^◌, length, option_map, IfOk};
ghost use Rattle.cc_core.specs.Bare.{step_of, term_of};
ghost use Rattle.cc_operations.specs.Choosing.{Pick, Chooses};
ghost use Rattle.cc_operations.specs.Judgements.{judged_by, value_of};
ghost use Rattle.cc_statements.specs.Steps as spec;

use crate::frames::add_variable;
use crate::made::{bad_break, only};
use crate::stand::Stand;
use cc_base::Span;
use cc_core::{Expression as Term, Statement as Step};
use cc_operations::{
    Frame, Given, Judged, Source, converted, core, is_void, no_conversion, written,
};
use cc_terms::{Finder, value};
use cc_tree::{Declarator, Expression, ForStart, FundamentalType, Initializer, Local};
use sqlite_items::Items;
use std::alloc::{AllocError, Global};

/// The value that a variable is set to, if it has an initialiser.
fn initial_value<F: Finder>(
    alloc: Global,
    finder: &F,
    source: &Source,
    of: FundamentalType,
    span: Span,
    initializer: &Initializer,
    frame: &Frame,
) -> Result<Judged<Option<Term>>, AllocError>
    requires { length source.now.functions < 2 ^ 32 }
    ensures { IfOk result (λ judged. (choice : Pick) → Chooses source.now.classes choice → judged_by (option_map term_of) judged ≡ spec.initial_value choice (F.finds finder.now) source.now of span initializer.now frame.now) }
{
    match initializer {
        Initializer::Nothing => Ok(without_value(of, span)),
        Initializer::Value(x) => {
            let given = judged!(value(alloc, finder, source, frame, x)?);
            let made = judged!(converted(alloc, span, of, given)?);
            Ok(Ok(Some(made.term)))
        }
        Initializer::Elements(_) => Ok(Err(no_conversion(span))),
        Initializer::Arguments(_) => Ok(Err(no_conversion(span))),
    }
}

/// A variable without initialiser, of a type that has values.
fn without_value(of: FundamentalType, span: Span) -> Judged<Option<Term>>
    ensures { judged_by (option_map term_of) result ≡ spec.without_value of span }
{
    if is_void(of) {
        return Err(no_conversion(span));
    }
    Ok(None)
}

/// The declaration of a variable, which its own initialiser may name.
fn declared<F: Finder>(
    alloc: Global,
    finder: &F,
    source: &Source,
    of: FundamentalType,
    one: &Declarator,
    frame: &mut Frame,
) -> Result<Judged<Step>, AllocError>
    requires { length source.now.functions < 2 ^ 32 }
    ensures { IfOk result (λ judged. (choice : Pick) → Chooses source.now.classes choice → spec.with_frame step_of judged frame.new ≡ spec.declared choice (F.finds finder.now) source.now of one.now frame.old) }
{
    let local = add_variable(alloc, frame, of, &one.name.name)?;
    let first = judged!(initial_value(
        alloc,
        finder,
        source,
        of,
        one.span,
        &one.initializer,
        frame
    )?);
    Ok(Ok(Step::Declare(local, core(of), first)))
}

/// The declarations of variables.
fn local_declared<F: Finder>(
    alloc: Global,
    finder: &F,
    source: &Source,
    local: &Local,
    frame: &mut Frame,
) -> Result<Judged<Items<Step>>, AllocError>
    requires { length source.now.functions < 2 ^ 32 }
    ensures { IfOk result (λ judged. (choice : Pick) → Chooses source.now.classes choice → spec.with_frame spec.steps_bare judged frame.new ≡ spec.local_declared choice (F.finds finder.now) source.now local.now frame.old) }
{
    let of = written(&local.of);
    let declarators = local.declarators.as_slice();
    let mut done = Items::new(alloc);
    for one in declarators {
        let made = judged!(declared(alloc, finder, source, of, one, frame)?);
        done.push(made)?;
    }
    Ok(Ok(done))
}

/// A declaration as a statement.
pub(crate) fn local<F: Finder>(
    alloc: Global,
    finder: &F,
    source: &Source,
    one: &Local,
    span: Span,
    stand: Stand,
    frame: &mut Frame,
) -> Result<Judged<Items<Step>>, AllocError>
    requires { length source.now.functions < 2 ^ 32 }
    ensures { IfOk result (λ judged. (choice : Pick) → Chooses source.now.classes choice → spec.with_frame spec.steps_bare judged frame.new ≡ spec.local choice (F.finds finder.now) source.now one.now span stand frame.old) }
{
    let made = judged!(local_declared(alloc, finder, source, one, frame)?);
    if !stand.declares {
        return Ok(Err(bad_break(span)));
    }
    Ok(Ok(made))
}

/// An expression as a statement.
pub(crate) fn done_alone<F: Finder>(
    alloc: Global,
    finder: &F,
    source: &Source,
    x: &Expression,
    frame: &Frame,
) -> Result<Judged<Items<Step>>, AllocError>
    requires { length source.now.functions < 2 ^ 32 }
    ensures { IfOk result (λ judged. (choice : Pick) → Chooses source.now.classes choice → judged_by spec.steps_bare judged ≡ spec.done_alone choice (F.finds finder.now) source.now x.now frame.now) }
{
    let given = judged!(value(alloc, finder, source, frame, x)?);
    Ok(Ok(only(alloc, Step::Do(given.term))?))
}

/// A `return`.
pub(crate) fn returned<F: Finder>(
    alloc: Global,
    finder: &F,
    source: &Source,
    x: &Option<Expression>,
    span: Span,
    frame: &Frame,
) -> Result<Judged<Items<Step>>, AllocError>
    requires { length source.now.functions < 2 ^ 32 }
    ensures { IfOk result (λ judged. (choice : Pick) → Chooses source.now.classes choice → judged_by spec.steps_bare judged ≡ spec.returned choice (F.finds finder.now) source.now x.now span frame.now) }
{
    match x {
        None => {
            if !is_void(frame.result) {
                return Ok(Err(no_conversion(span)));
            }
            Ok(Ok(only(alloc, Step::Return(None))?))
        }
        Some(x) => {
            let given = judged!(value(alloc, finder, source, frame, x)?);
            let made = judged!(converted(alloc, span, frame.result, given)?);
            Ok(Ok(only(alloc, Step::Return(Some(made.term)))?))
        }
    }
}

/// A `break` or a `continue`, which is aimed at something or not.
pub(crate) fn leaves(
    alloc: Global,
    may: bool,
    made: Step,
    span: Span,
) -> Result<Judged<Items<Step>>, AllocError>
    ensures { IfOk result (λ judged. judged_by spec.steps_bare judged ≡ spec.leaves may (step_of made) span) }
{
    if !may {
        return Ok(Err(bad_break(span)));
    }
    Ok(Ok(only(alloc, made)?))
}

/// What a `for` begins with.
pub(crate) fn started<F: Finder>(
    alloc: Global,
    finder: &F,
    source: &Source,
    start: &ForStart,
    frame: &mut Frame,
) -> Result<Judged<Items<Step>>, AllocError>
    requires { length source.now.functions < 2 ^ 32 }
    ensures { IfOk result (λ judged. (choice : Pick) → Chooses source.now.classes choice → spec.with_frame spec.steps_bare judged frame.new ≡ spec.started choice (F.finds finder.now) source.now start.now frame.old) }
{
    match start {
        ForStart::Nothing => Ok(Ok(Items::new(alloc))),
        ForStart::Local(one) => local_declared(alloc, finder, source, one, frame),
        ForStart::Expression(x) => done_alone(alloc, finder, source, x, frame),
    }
}

/// The condition of a `for`, which goes on where it has none.
pub(crate) fn test_of<F: Finder>(
    alloc: Global,
    finder: &F,
    source: &Source,
    condition: &Option<Expression>,
    frame: &Frame,
) -> Result<Judged<Given>, AllocError>
    requires { length source.now.functions < 2 ^ 32 }
    ensures { IfOk result (λ judged. (choice : Pick) → Chooses source.now.classes choice → judged_by value_of judged ≡ spec.test_of choice (F.finds finder.now) source.now condition.now frame.now) }
{
    match condition {
        None => Ok(Ok(Given {
            of: FundamentalType::Bool,
            term: Term::Number(core(FundamentalType::Bool), 1),
        })),
        Some(x) => value(alloc, finder, source, frame, x),
    }
}

/// What a `for` evaluates after each turn.
pub(crate) fn advance_of<F: Finder>(
    alloc: Global,
    finder: &F,
    source: &Source,
    advance: &Option<Expression>,
    frame: &Frame,
) -> Result<Judged<Option<Term>>, AllocError>
    requires { length source.now.functions < 2 ^ 32 }
    ensures { IfOk result (λ judged. (choice : Pick) → Chooses source.now.classes choice → judged_by (option_map term_of) judged ≡ spec.advance_of choice (F.finds finder.now) source.now advance.now frame.now) }
{
    match advance {
        None => Ok(Ok(None)),
        Some(x) => {
            let given = judged!(value(alloc, finder, source, frame, x)?);
            Ok(Ok(Some(given.term)))
        }
    }
}
