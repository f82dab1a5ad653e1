// Updates of a target whose operand is evaluated, a step at a time.
ghost use Rattle.std.specs.Prelude.{◌≡◌, IfOk};
ghost use Rattle.cc_core.specs.Types.{bare};
ghost use Rattle.cc_core.specs.Run.{bind, convert, gives, operate, write_target};
ghost use Rattle.cc_core.specs.Value.{update, updated};

use crate::spent::{converted, operated, write_target};
use crate::steps;
use crate::steps::Ran;
use cc_core::{CoreType, Operator, State, Target, UpdateResult, Value};
use std::alloc::{AllocError, Global};

/// Stores a value that is of the target's type.
fn stored(
    alloc: Global,
    state: &mut State,
    which: UpdateResult,
    target: Target,
    before: Value,
    changed: Value,
) -> Ran<Value>
    ensures { IfOk result (λ ran. (ran, state.new) ≡ bind (write_target target changed state.old) (λ stored. gives (updated which stored before))) }
{
    match write_target(alloc, state, target, changed)? {
        Ok(stored) => match which {
            UpdateResult::New => Ok(Ok(stored)),
            UpdateResult::Old => Ok(Ok(before)),
        },
        Err(stop) => Ok(Err(stop)),
    }
}

/// Converts what the operator made back to the target's type, and stores it.
fn replaced(
    alloc: Global,
    state: &mut State,
    of: &CoreType,
    common: &CoreType,
    which: UpdateResult,
    target: Target,
    before: Value,
    computed: Value,
) -> Ran<Value>
    ensures { IfOk result (λ ran. (ran, state.new) ≡ bind (convert (bare common.now) (bare of.now) computed state.old) (λ changed s3. bind (write_target target changed s3) (λ stored. gives (updated which stored before)))) }
{
    match converted(state, common, of, computed) {
        Ok(changed) => stored(alloc, state, which, target, before, changed),
        Err(stop) => Ok(Err(stop)),
    }
}

/// Works the operator on the converted left operand and the right one, and stores what it makes.
fn combined(
    alloc: Global,
    state: &mut State,
    of: &CoreType,
    operator: Operator,
    common: &CoreType,
    which: UpdateResult,
    target: Target,
    before: Value,
    left: Value,
    operand: Value,
) -> Ran<Value>
    ensures { IfOk result (λ ran. (ran, state.new) ≡ bind (operate (bare common.now) operator left operand state.old) (λ x s2. bind (convert (bare common.now) (bare of.now) x s2) (λ changed s3. bind (write_target target changed s3) (λ stored. gives (updated which stored before))))) }
{
    match operated(alloc, state, common, operator, left, operand)? {
        Ok(computed) => replaced(alloc, state, of, common, which, target, before, computed),
        Err(stop) => Ok(Err(stop)),
    }
}

/// An update of a target, once its operand is evaluated (ECMA-372, 15.3.9, 15.4.5 and 15.20).
pub fn updated(
    alloc: Global,
    state: &mut State,
    of: &CoreType,
    operator: Operator,
    common: &CoreType,
    which: UpdateResult,
    target: Target,
    before: Value,
    operand: Value,
) -> Ran<Value>
    ensures { IfOk result (λ ran. (ran, state.new) ≡ update (bare of.now) operator (bare common.now) which target before operand state.old) }
{
    match steps::converted(state, of, common, &before) {
        Ok(left) => combined(
            alloc, state, of, operator, common, which, target, before, left, operand,
        ),
        Err(stop) => Ok(Err(stop)),
    }
}
