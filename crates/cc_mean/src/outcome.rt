// What a statement does, over any calls.
ghost use Rattle.std.specs.Prelude.{◌≡◌, [], IfOk, drop};
ghost use Rattle.std.specs.Option.{option_map};
ghost use Rattle.cc_core.specs.Types.{bare};
ghost use Rattle.cc_core.specs.Bare.{term_of, step_of};
ghost use Rattle.cc_core.specs.Lists.{steps_of, sections_of};
ghost use Rattle.cc_core.specs.Value.{value_of};
ghost use Rattle.cc_core.specs.Leave.{turns as first_turns, turns_after, broken};
ghost use Rattle.cc_core.specs.Run.{bind, gives, write_local};
ghost use Rattle.cc_mean.specs.Turns.{is_normal, goes_on, past_break};
ghost use Rattle.cc_core.specs.Outcome.{initial_value, do_if, return_if, outcome_of, scope_of, matching, defaulting, following};

use crate::code::Code;
use crate::spent::{chosen, holds, passed, unwanted};
use crate::steps::{Ran, begin, given, write_local};
use crate::value::{Caller, value};
use cc_base::LocalId;
use cc_core::{CoreType, Exit, Expression, LoopKind, Section, State, Statement, Stop, Value};
use cc_numbers::zero_of;
use std::alloc::{AllocError, Global};

/// Sets a local variable.
fn set(alloc: Global, state: &mut State, local: LocalId, v: Value) -> Ran<Exit>
    ensures { IfOk result (λ ran. (ran, state.new) ≡ bind (write_local local v state.old) (λ done. gives Exit.Normal)) }
{
    match write_local(alloc, state, local, v)? {
        Ok(v) => {
            unwanted(v);
            Ok(Ok(Exit::Normal))
        }
        Err(stop) => Ok(Err(stop)),
    }
}

/// What a variable is set to: the value of its initialiser, or without one zero or null.
fn initial_value<C: Caller>(
    alloc: Global,
    code: &Code,
    caller: &C,
    state: &mut State,
    of: &CoreType,
    e: &Option<Expression>,
) -> Ran<Value>
    ensures { let w = code.now.classes.now in let k = C.calls caller.now w code.now.bodies.now code.now.turns in IfOk result (λ ran. (ran, state.new) ≡ initial_value w k (bare of.now) (option_map term_of e.now) state.old) }
{
    match e {
        Some(e) => value(alloc, code, caller, state, e),
        None => Ok(given(state, zero_of(of))),
    }
}

/// Evaluates an expression, and drops its value.
fn do_expression<C: Caller>(
    alloc: Global,
    code: &Code,
    caller: &C,
    state: &mut State,
    e: &Expression,
) -> Ran<Exit>
    ensures { let w = code.now.classes.now in let k = C.calls caller.now w code.now.bodies.now code.now.turns in IfOk result (λ ran. (ran, state.new) ≡ bind (value_of w k (term_of e.now) state.old) (λ v. gives Exit.Normal)) }
{
    match value(alloc, code, caller, state, e)? {
        Ok(v) => {
            unwanted(v);
            Ok(Ok(Exit::Normal))
        }
        Err(stop) => Ok(Err(stop)),
    }
}

/// Sets a local variable when it is declared.
fn declare<C: Caller>(
    alloc: Global,
    code: &Code,
    caller: &C,
    state: &mut State,
    local: LocalId,
    of: &CoreType,
    e: &Option<Expression>,
) -> Ran<Exit>
    ensures { let w = code.now.classes.now in let k = C.calls caller.now w code.now.bodies.now code.now.turns in IfOk result (λ ran. (ran, state.new) ≡ bind (initial_value w k (bare of.now) (option_map term_of e.now) state.old) (λ v s1. bind (write_local local v s1) (λ done. gives Exit.Normal))) }
{
    match initial_value(alloc, code, caller, state, of, e)? {
        Ok(v) => set(alloc, state, local, v),
        Err(stop) => Ok(Err(stop)),
    }
}

/// Evaluates an expression, where there is one.
fn do_if<C: Caller>(
    alloc: Global,
    code: &Code,
    caller: &C,
    state: &mut State,
    e: &Option<Expression>,
) -> Ran<Exit>
    ensures { let w = code.now.classes.now in let k = C.calls caller.now w code.now.bodies.now code.now.turns in IfOk result (λ ran. (ran, state.new) ≡ do_if w k (option_map term_of e.now) state.old) }
{
    match e {
        Some(e) => do_expression(alloc, code, caller, state, e),
        None => Ok(Ok(Exit::Normal)),
    }
}

fn return_if<C: Caller>(
    alloc: Global,
    code: &Code,
    caller: &C,
    state: &mut State,
    e: &Option<Expression>,
) -> Ran<Exit>
    ensures { let w = code.now.classes.now in let k = C.calls caller.now w code.now.bodies.now code.now.turns in IfOk result (λ ran. (ran, state.new) ≡ return_if w k (option_map term_of e.now) state.old) }
{
    match e {
        Some(e) => match value(alloc, code, caller, state, e)? {
            Ok(v) => Ok(Ok(Exit::Return(v))),
            Err(stop) => Ok(Err(stop)),
        },
        None => Ok(Ok(Exit::Return(Value::Nothing))),
    }
}

/// Whether the statement behind is reached.
fn is_normal(end: &Result<Exit, Stop>) -> bool
    ensures { result ≡ is_normal end.now }
{
    match end {
        Ok(Exit::Normal) => true,
        Ok(Exit::Break) => false,
        Ok(Exit::Continue) => false,
        Ok(Exit::Return(_)) => false,
        Err(_) => false,
    }
}

/// Whether a loop goes on after such an end of its body.
fn goes_on(end: &Result<Exit, Stop>) -> bool
    ensures { result ≡ goes_on end.now }
{
    match end {
        Ok(Exit::Normal) => true,
        Ok(Exit::Break) => false,
        Ok(Exit::Continue) => true,
        Ok(Exit::Return(_)) => false,
        Err(_) => false,
    }
}

/// The end of a statement at which a break is aimed.
fn past_break(end: Result<Exit, Stop>) -> Result<Exit, Stop>
    ensures { result ≡ past_break end }
{
    match end {
        Ok(Exit::Normal) => Ok(Exit::Normal),
        Ok(Exit::Break) => Ok(Exit::Normal),
        Ok(Exit::Continue) => Ok(Exit::Continue),
        Ok(Exit::Return(v)) => Ok(Exit::Return(v)),
        Err(stop) => Err(stop),
    }
}

/// How a statement ends, or why it stops (ECMA-372, 16; C++, 6).
#[cycle(outcome)]
pub fn outcome<C: Caller>(
    alloc: Global,
    code: &Code,
    caller: &C,
    state: &mut State,
    statement: &Statement,
) -> Ran<Exit>
    ensures { let w = code.now.classes.now in let n = code.now.turns in let k = C.calls caller.now w code.now.bodies.now n in IfOk result (λ ran. (ran, state.new) ≡ outcome_of w k n (step_of statement.now) state.old) }
{
    begin(state)?;
    match statement {
        Statement::Block(statements) => scope(alloc, code, caller, state, statements.as_slice()),
        Statement::Do(e) => do_expression(alloc, code, caller, state, e),
        Statement::Declare(local, of, e) => { declare(alloc, code, caller, state, *local, of, e) }
        Statement::If(condition, first, second) => match value(
            alloc, code, caller, state, condition,
        )? {
            Ok(v) => {
                if holds(v) {
                    outcome(alloc, code, caller, state, first)
                } else {
                    outcome(alloc, code, caller, state, second)
                }
            }
            Err(stop) => Ok(Err(stop)),
        },
        Statement::Loop(kind, condition, after, body) => match kind {
            LoopKind::TestFirst => repeat(alloc, code, caller, state, body, condition, after),
            LoopKind::BodyFirst => repeat_after(alloc, code, caller, state, body, condition),
        },
        Statement::Switch(local, e, sections) => {
            switch(alloc, code, caller, state, sections.as_slice(), *local, e)
        }
        Statement::Break => Ok(Ok(Exit::Break)),
        Statement::Continue => Ok(Ok(Exit::Continue)),
        Statement::Return(e) => return_if(alloc, code, caller, state, e),
        Statement::DeclareStack(_, _)
        | Statement::ForEach(_, _, _)
        | Statement::Throw(_)
        | Statement::Rethrow
        | Statement::Try(_, _, _)
        | Statement::Delete(_) => Ok(Err(Stop::Wrong)),
    }
}

/// The statements of a scope, in order.
#[cycle(outcome)]
#[tactic(auto, using(crate::proofs::Loops::scope_laws))]
fn scope<C: Caller>(
    alloc: Global,
    code: &Code,
    caller: &C,
    state: &mut State,
    statements: &[Statement],
) -> Ran<Exit>
    ensures { let w = code.now.classes.now in let n = code.now.turns in let k = C.calls caller.now w code.now.bodies.now n in IfOk result (λ ran. (ran, state.new) ≡ scope_of w k n [] (steps_of statements.now) state.old) }
{
    for statement in statements {
        let end = outcome(alloc, code, caller, state, statement)?;
        if !is_normal(&end) {
            return Ok(end);
        }
        passed(end);
    }
    Ok(Ok(Exit::Normal))
}

/// The sections of a switch from the one of a number on, in order.
#[cycle(outcome)]
#[tactic(auto, using(crate::proofs::Loops::step_laws))]
fn following<C: Caller>(
    alloc: Global,
    code: &Code,
    caller: &C,
    state: &mut State,
    sections: &[Section],
    from: usize,
) -> Ran<Exit>
    ensures { let w = code.now.classes.now in let n = code.now.turns in let k = C.calls caller.now w code.now.bodies.now n in IfOk result (λ ran. (ran, state.new) ≡ following w k n (sections_of (drop from sections.now)) state.old) }
{
    for at in from..sections.len() {
        let section = &sections[at];
        let end = scope(alloc, code, caller, state, section.body.as_slice())?;
        if !is_normal(&end) {
            return Ok(end);
        }
        passed(end);
    }
    Ok(Ok(Exit::Normal))
}

/// The sections of a switch from the one on that is chosen by a value.
#[cycle(outcome)]
fn select<C: Caller>(
    alloc: Global,
    code: &Code,
    caller: &C,
    state: &mut State,
    sections: &[Section],
    value: Value,
) -> Ran<Exit>
    ensures { let w = code.now.classes.now in let n = code.now.turns in let k = C.calls caller.now w code.now.bodies.now n in IfOk result (λ ran. (ran, state.new) ≡ broken (matching w k n (sections_of sections.now) value (defaulting w k n (sections_of sections.now)) state.old)) }
{
    let from = chosen(state, value, sections)?;
    let end = following(alloc, code, caller, state, sections, from)?;
    Ok(past_break(end))
}

/// A switch (ECMA-372, 16.2; C++, 6.4.2).
#[cycle(outcome)]
fn switch<C: Caller>(
    alloc: Global,
    code: &Code,
    caller: &C,
    state: &mut State,
    sections: &[Section],
    local: LocalId,
    operand: &Expression,
) -> Ran<Exit>
    ensures { let w = code.now.classes.now in let n = code.now.turns in let k = C.calls caller.now w code.now.bodies.now n in IfOk result (λ ran. (ran, state.new) ≡ bind (value_of w k (term_of operand.now) state.old) (λ v s1. bind (write_local local v s1) (λ u s2. broken (matching w k n (sections_of sections.now) u (defaulting w k n (sections_of sections.now)) s2)))) }
{
    match value(alloc, code, caller, state, operand)? {
        Ok(v) => match write_local(alloc, state, local, v)? {
            Ok(v) => select(alloc, code, caller, state, sections, v),
            Err(stop) => Ok(Err(stop)),
        },
        Err(stop) => Ok(Err(stop)),
    }
}

/// A loop that tests before each turn, of which there are at most so many.
#[cycle(outcome)]
#[tactic(auto, using(crate::proofs::Loops::turn_laws))]
fn repeat<C: Caller>(
    alloc: Global,
    code: &Code,
    caller: &C,
    state: &mut State,
    body: &Statement,
    condition: &Expression,
    after: &Option<Expression>,
) -> Ran<Exit>
    ensures { let w = code.now.classes.now in let n = code.now.turns in let k = C.calls caller.now w code.now.bodies.now n in IfOk result (λ ran. (ran, state.new) ≡ first_turns n (value_of w k (term_of condition.now)) (outcome_of w k n (step_of body.now)) (do_if w k (option_map term_of after.now)) state.old) }
{
    let mut left = code.turns;
    'turns: loop {
        match value(alloc, code, caller, state, condition)? {
            Ok(v) => {
                if !holds(v) {
                    return Ok(Ok(Exit::Normal));
                }
            }
            Err(stop) => return Ok(Err(stop)),
        }
        if left == 0 {
            return Ok(Err(Stop::Going));
        }
        begin(state)?;
        let turn = outcome(alloc, code, caller, state, body)?;
        if !goes_on(&turn) {
            return Ok(past_break(turn));
        }
        passed(turn);
        let step = do_if(alloc, code, caller, state, after)?;
        if !is_normal(&step) {
            return Ok(step);
        }
        passed(step);
        left -= 1;
    }
}

/// A loop that tests behind each turn, of which there are at most so many.
#[cycle(outcome)]
#[tactic(auto, using(crate::proofs::Loops::later_laws))]
fn repeat_after<C: Caller>(
    alloc: Global,
    code: &Code,
    caller: &C,
    state: &mut State,
    body: &Statement,
    condition: &Expression,
) -> Ran<Exit>
    ensures { let w = code.now.classes.now in let n = code.now.turns in let k = C.calls caller.now w code.now.bodies.now n in IfOk result (λ ran. (ran, state.new) ≡ turns_after n (value_of w k (term_of condition.now)) (outcome_of w k n (step_of body.now)) state.old) }
{
    let mut left = code.turns;
    'turns: while left > 0 {
        begin(state)?;
        let end = outcome(alloc, code, caller, state, body)?;
        if !goes_on(&end) {
            return Ok(past_break(end));
        }
        passed(end);
        match value(alloc, code, caller, state, condition)? {
            Ok(v) => {
                if !holds(v) {
                    return Ok(Ok(Exit::Normal));
                }
            }
            Err(stop) => return Ok(Err(stop)),
        }
        left -= 1;
    }
    Ok(Err(Stop::Going))
}
