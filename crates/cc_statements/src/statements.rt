// What statements mean, or why one is refused (ECMA-372, 16; ISO/IEC 14882:2003, 6).
ghost use Rattle.std.specs.Prelude.{◌≡◌, ◌<◌, ◌^◌, [], length, map, option_map, IfOk};
ghost use Rattle.cc_core.specs.Bare.{step_of};
ghost use Rattle.cc_operations.specs.Choosing.{Pick, Chooses};
ghost use Rattle.cc_statements.specs.Steps as spec;

use crate::frames::{add_temporary, leave};
use crate::labels::{compared, labels_of};
use crate::made::{block_of, if_of, loop_of, only, switch_of};
use crate::parts::{advance_of, done_alone, leaves, local, returned, started, test_of};
use crate::stand::{Stand, in_loop, in_section, inside};
use cc_base::Span;
use cc_core::{LoopKind, Section as Made, Statement as Step, SwitchLabel};
use cc_operations::{Frame, Judged, Source, no_conversion, promoted};
use cc_terms::{Finder, value};
use cc_tree::{Block, Expression, ForStart, FundamentalType, Section, Statement};
use sqlite_items::{Boxed, Items};
use std::alloc::{AllocError, Global};

/// What a statement adds to the statements of its scope.
#[cycle(statement)]
fn statement<F: Finder>(
    alloc: Global,
    finder: &F,
    source: &Source,
    one: &Statement,
    stand: Stand,
    frame: &mut Frame,
) -> Result<Judged<Items<Step>>, AllocError>
    requires { length source.now.functions < 2 ^ 32 }
    ensures { IfOk result (λ judged. (choice : Pick) → Chooses source.now.classes choice → spec.with_frame spec.steps_bare judged frame.new ≡ spec.statement_part choice (F.finds finder.now) source.now one.now stand frame.old) }
{
    match one {
        Statement::Block(inner) => {
            let made = judged!(block(alloc, finder, source, inner, stand, frame)?);
            Ok(Ok(only(alloc, made)?))
        }
        Statement::Empty(_) => Ok(Ok(only(alloc, block_of(Items::new(alloc)))?)),
        Statement::Local(one, span) => local(alloc, finder, source, one, *span, stand, frame),
        Statement::Expression(x, _) => done_alone(alloc, finder, source, x, frame),
        Statement::If(x, first, second, span) => {
            let given = judged!(value(alloc, finder, source, frame, x)?);
            let first = judged!(scope(alloc, finder, source, first.get(), stand, frame)?);
            let second = judged!(otherwise(alloc, finder, source, second, stand, frame)?);
            if_of(alloc, *span, given, first, second)
        }
        Statement::While(x, body, span) => {
            while_loop(alloc, finder, source, body.get(), x, *span, stand, frame)
        }
        Statement::Do(body, x, span) => {
            do_loop(alloc, finder, source, body.get(), x, *span, stand, frame)
        }
        Statement::For(start, condition, advance, body, span) => {
            for_loop(
                alloc,
                finder,
                source,
                start,
                condition,
                advance,
                body.get(),
                *span,
                stand,
                frame,
            )
        }
        Statement::Switch(x, items, span) => {
            switch(alloc, finder, source, items, x, *span, stand, frame)
        }
        Statement::Break(span) => leaves(alloc, stand.breaks, Step::Break, *span),
        Statement::Continue(span) => leaves(alloc, stand.continues, Step::Continue, *span),
        Statement::Return(x, span) => returned(alloc, finder, source, x, *span, frame),
        Statement::Delete(_, span)
        | Statement::ForEach(_, _, _, _, span)
        | Statement::Throw(_, span)
        | Statement::Try(_, _, _, span) => Ok(Err(no_conversion(*span))),
    }
}

/// A `while`, whose condition is judged before its body.
#[cycle(statement)]
fn while_loop<F: Finder>(
    alloc: Global,
    finder: &F,
    source: &Source,
    body: &Statement,
    x: &Expression,
    span: Span,
    stand: Stand,
    frame: &mut Frame,
) -> Result<Judged<Items<Step>>, AllocError>
    requires { length source.now.functions < 2 ^ 32 }
    ensures { IfOk result (λ judged. (choice : Pick) → Chooses source.now.classes choice → spec.with_frame spec.steps_bare judged frame.new ≡ spec.while_loop choice (F.finds finder.now) source.now x.now (spec.statement_part choice (F.finds finder.now) source.now body.now) span stand frame.old) }
{
    let given = judged!(value(alloc, finder, source, frame, x)?);
    let body = judged!(scope(alloc, finder, source, body, in_loop(stand), frame)?);
    loop_of(alloc, span, LoopKind::TestFirst, given, None, body)
}

/// A `do`, whose body is judged before its condition.
#[cycle(statement)]
fn do_loop<F: Finder>(
    alloc: Global,
    finder: &F,
    source: &Source,
    body: &Statement,
    x: &Expression,
    span: Span,
    stand: Stand,
    frame: &mut Frame,
) -> Result<Judged<Items<Step>>, AllocError>
    requires { length source.now.functions < 2 ^ 32 }
    ensures { IfOk result (λ judged. (choice : Pick) → Chooses source.now.classes choice → spec.with_frame spec.steps_bare judged frame.new ≡ spec.do_loop choice (F.finds finder.now) source.now (spec.statement_part choice (F.finds finder.now) source.now body.now) x.now span stand frame.old) }
{
    let body = judged!(scope(alloc, finder, source, body, in_loop(stand), frame)?);
    let given = judged!(value(alloc, finder, source, frame, x)?);
    loop_of(alloc, span, LoopKind::BodyFirst, given, None, body)
}

/// A `for`, which is a scope as a whole.
#[cycle(statement)]
fn for_loop<F: Finder>(
    alloc: Global,
    finder: &F,
    source: &Source,
    start: &ForStart,
    condition: &Option<Expression>,
    advance: &Option<Expression>,
    body: &Statement,
    span: Span,
    stand: Stand,
    frame: &mut Frame,
) -> Result<Judged<Items<Step>>, AllocError>
    requires { length source.now.functions < 2 ^ 32 }
    ensures { IfOk result (λ judged. (choice : Pick) → Chooses source.now.classes choice → spec.with_frame spec.steps_bare judged frame.new ≡ spec.for_loop choice (F.finds finder.now) source.now start.now condition.now advance.now (spec.statement_part choice (F.finds finder.now) source.now body.now) span stand frame.old) }
{
    let count = frame.variables.len();
    let mut steps = judged!(started(alloc, finder, source, start, frame)?);
    let given = judged!(test_of(alloc, finder, source, condition, frame)?);
    let after = judged!(advance_of(alloc, finder, source, advance, frame)?);
    let body = judged!(scope(alloc, finder, source, body, in_loop(stand), frame)?);
    let turns = judged!(loop_of(alloc, span, LoopKind::TestFirst, given, after, body)?);
    steps.append(turns)?;
    leave(alloc, frame, count);
    Ok(Ok(only(alloc, block_of(steps))?))
}

/// A switch, whose operand is kept in a variable without a name.
#[cycle(statement)]
fn switch<F: Finder>(
    alloc: Global,
    finder: &F,
    source: &Source,
    items: &Items<Section>,
    x: &Expression,
    span: Span,
    stand: Stand,
    frame: &mut Frame,
) -> Result<Judged<Items<Step>>, AllocError>
    requires { length source.now.functions < 2 ^ 32 }
    ensures { IfOk result (λ judged. (choice : Pick) → Chooses source.now.classes choice → spec.with_frame spec.steps_bare judged frame.new ≡ spec.switch choice (F.finds finder.now) source.now x.now (map (spec.branch_of choice (F.finds finder.now) source.now) items.now) span stand frame.old) }
{
    let given = judged!(value(alloc, finder, source, frame, x)?);
    let local = add_temporary(frame, promoted(given.of))?;
    let operand = compared(given.of);
    let made = judged!(sections(alloc, finder, source, operand, items, stand, frame)?);
    switch_of(alloc, span, local, given, made)
}

/// A statement as a part of another one, which is a scope.
#[cycle(statement)]
fn scope<F: Finder>(
    alloc: Global,
    finder: &F,
    source: &Source,
    one: &Statement,
    stand: Stand,
    frame: &mut Frame,
) -> Result<Judged<Step>, AllocError>
    requires { length source.now.functions < 2 ^ 32 }
    ensures { IfOk result (λ judged. (choice : Pick) → Chooses source.now.classes choice → spec.with_frame step_of judged frame.new ≡ spec.scope (spec.statement_part choice (F.finds finder.now) source.now one.now) stand frame.old) }
{
    let count = frame.variables.len();
    let made = judged!(statement(alloc, finder, source, one, inside(stand), frame)?);
    leave(alloc, frame, count);
    Ok(Ok(block_of(made)))
}

/// What follows an `else`, and an empty block where there is none.
#[cycle(statement)]
fn otherwise<F: Finder>(
    alloc: Global,
    finder: &F,
    source: &Source,
    one: &Option<Boxed<Statement>>,
    stand: Stand,
    frame: &mut Frame,
) -> Result<Judged<Step>, AllocError>
    requires { length source.now.functions < 2 ^ 32 }
    ensures { IfOk result (λ judged. (choice : Pick) → Chooses source.now.classes choice → spec.with_frame step_of judged frame.new ≡ spec.otherwise (option_map (spec.statement_part choice (F.finds finder.now) source.now) one.now) stand frame.old) }
{
    match one {
        None => Ok(Ok(block_of(Items::new(alloc)))),
        Some(one) => scope(alloc, finder, source, one.get(), stand, frame),
    }
}

/// Statements one after another.
#[cycle(statement)]
fn row<F: Finder>(
    alloc: Global,
    finder: &F,
    source: &Source,
    statements: &[Statement],
    stand: Stand,
    frame: &mut Frame,
) -> Result<Judged<Items<Step>>, AllocError>
    requires { length source.now.functions < 2 ^ 32 }
    ensures { IfOk result (λ judged. (choice : Pick) → Chooses source.now.classes choice → spec.with_frame spec.steps_bare judged frame.new ≡ spec.in_row stand (map (spec.statement_part choice (F.finds finder.now) source.now) statements.now) [] frame.old) }
{
    let mut done = Items::new(alloc);
    for one in statements {
        let made = judged!(statement(alloc, finder, source, one, stand, frame)?);
        done.append(made)?;
    }
    Ok(Ok(done))
}

/// A block, which is a scope.
#[cycle(statement)]
pub fn block<F: Finder>(
    alloc: Global,
    finder: &F,
    source: &Source,
    block: &Block,
    stand: Stand,
    frame: &mut Frame,
) -> Result<Judged<Step>, AllocError>
    requires { length source.now.functions < 2 ^ 32 }
    ensures { IfOk result (λ judged. (choice : Pick) → Chooses source.now.classes choice → spec.with_frame step_of judged frame.new ≡ spec.scope (spec.block_part choice (F.finds finder.now) source.now block.now) stand frame.old) }
{
    let count = frame.variables.len();
    let statements = block.statements.as_slice();
    let made = judged!(row(alloc, finder, source, statements, inside(stand), frame)?);
    leave(alloc, frame, count);
    Ok(Ok(block_of(made)))
}

/// A section of a switch, behind the labels of earlier sections.
#[cycle(statement)]
fn section<F: Finder>(
    alloc: Global,
    finder: &F,
    source: &Source,
    operand: FundamentalType,
    seen: &[SwitchLabel],
    is_last: bool,
    section: &Section,
    stand: Stand,
    frame: &mut Frame,
) -> Result<Judged<Made>, AllocError>
    requires { length source.now.functions < 2 ^ 32 }
    ensures { IfOk result (λ judged. (choice : Pick) → Chooses source.now.classes choice → spec.with_frame spec.made_of judged frame.new ≡ spec.section choice (F.finds finder.now) source.now operand seen.now is_last (spec.branch_of choice (F.finds finder.now) source.now section.now) stand frame.old) }
{
    let written = section.labels.as_slice();
    let labels = labels_of(alloc, finder, source, operand, frame, seen, written)?;
    let labels = judged!(labels);
    let count = frame.variables.len();
    let stand = in_section(is_last, stand);
    let statements = section.statements.as_slice();
    let body = judged!(row(alloc, finder, source, statements, stand, frame)?);
    leave(alloc, frame, count);
    Ok(Ok(Made { labels, body }))
}

/// The sections of a switch.
#[cycle(statement)]
fn sections<F: Finder>(
    alloc: Global,
    finder: &F,
    source: &Source,
    operand: FundamentalType,
    sections: &Items<Section>,
    stand: Stand,
    frame: &mut Frame,
) -> Result<Judged<Items<Made>>, AllocError>
    requires { length source.now.functions < 2 ^ 32 }
    ensures { IfOk result (λ judged. (choice : Pick) → Chooses source.now.classes choice → spec.with_frame spec.sections_bare judged frame.new ≡ spec.sections choice (F.finds finder.now) source.now operand [] (map (spec.branch_of choice (F.finds finder.now) source.now) sections.now) [] stand frame.old) }
{
    let mut seen = Items::new(alloc);
    let mut done = Items::new(alloc);
    let items = sections.as_slice();
    for at in 0..items.len() {
        let is_last = at + 1 == items.len();
        let labels = seen.as_slice();
        let made = section(
            alloc, finder, source, operand, labels, is_last, &items[at], stand, frame,
        )?;
        let made = judged!(made);
        seen.append(Items::from_slice(alloc, made.labels.as_slice())?)?;
        done.push(made)?;
    }
    Ok(Ok(done))
}
