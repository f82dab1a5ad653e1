// The steps of a run that visit no tree.
ghost use Rattle.std.specs.Prelude.{◌≡◌, ◌+◌, Err, IfOk, OnOk};
ghost use Rattle.cc_core.specs.Types.{bare};
ghost use Rattle.cc_core.specs.Run.{tick, given, raise, read_local, write_local, read_target, write_target, convert, operate, operate_alone};

use crate::copied::copied;
use cc_base::{ClassId, LocalId};
use cc_core::{
    Computed, Contents, CoreType, Object, Operator, Root, State, Stop, Target, UnaryOperator, Value,
};
use sqlite_items::Items;
use std::alloc::{AllocError, Global};

/// What a part of a run gives, or why it stops, unless memory does not suffice.
pub type Ran<T> = Result<Result<T, Stop>, AllocError>;

/// One more thing is begun.
pub fn begin(state: &mut State) -> Result<(), AllocError>
    ensures { OnOk result (state.new ≡ tick state.old) }
{
    state.work.add_one()
}

/// What is there, or nothing that has a meaning.
pub fn given(state: &State, value: Option<Value>) -> Result<Value, Stop>
    ensures { (result, state.now) ≡ given value state.now }
{
    value.ok_or(Stop::Wrong)
}

/// Throws an exception that the machine makes, of this class.
pub fn raised(alloc: Global, state: &mut State, of: ClassId) -> Ran<Value>
    ensures { IfOk result (λ ran. (ran, state.new) ≡ raise of state.old) }
{
    if state.world.cells < 3 {
        return Ok(Err(Stop::HeapLimit));
    }
    let at = state.world.heap.len();
    let mut fields = Items::new(alloc);
    fields.push(Value::Null)?;
    state.world.heap.push(Object {
        class: of,
        number: None,
        holds: Contents::Fields(fields),
    })?;
    state.world.cells -= 3;
    Ok(Err(Stop::Throws(at)))
}

/// Reads a local variable.
pub fn read_local(alloc: Global, state: &State, local: LocalId) -> Ran<Value>
    ensures { IfOk result (λ ran. (ran, state.now) ≡ read_local local state.now) }
{
    match state.world.variables.get(local.0 as usize) {
        Some(value) => {
            let value = copied(alloc, value)?;
            Ok(Ok(value))
        }
        None => Ok(Err(Stop::Wrong)),
    }
}

/// Sets a local variable, and gives the value.
pub fn write_local(alloc: Global, state: &mut State, local: LocalId, value: Value) -> Ran<Value>
    ensures { IfOk result (λ ran. (ran, state.new) ≡ write_local local value state.old) }
{
    if (local.0 as usize) < state.world.variables.len() {
        let given = copied(alloc, &value)?;
        state.world.variables.set(local.0 as usize, value);
        Ok(Ok(given))
    } else {
        Ok(Err(Stop::Wrong))
    }
}

/// Reads a target, after its tests.
pub fn read_target(alloc: Global, state: &State, target: &Target) -> Ran<Value>
    ensures { IfOk result (λ ran. (ran, state.now) ≡ read_target target.now state.now) }
{
    if !target.path.is_empty() {
        return Ok(Err(Stop::Wrong));
    }
    match &target.root {
        Root::Local(local) => read_local(alloc, state, *local),
        _ => Ok(Err(Stop::Wrong)),
    }
}

/// Writes a target, after its tests, and gives the value.
pub fn write_target(alloc: Global, state: &mut State, target: &Target, value: Value) -> Ran<Value>
    ensures { IfOk result (λ ran. (ran, state.new) ≡ write_target target.now value state.old) }
{
    if !target.path.is_empty() {
        return Ok(Err(Stop::Wrong));
    }
    match &target.root {
        Root::Local(local) => write_local(alloc, state, *local, value),
        _ => Ok(Err(Stop::Wrong)),
    }
}

/// A value of the first type as one of the second.
pub fn converted(
    state: &State,
    from: &CoreType,
    to: &CoreType,
    value: &Value,
) -> Result<Value, Stop>
    ensures { (result, state.now) ≡ convert (bare from.now) (bare to.now) value.now state.now }
{
    given(state, cc_numbers::converted(from, to, value))
}

/// An operator on two values, of which the left one has this type.
pub fn operated(
    alloc: Global,
    state: &mut State,
    of: &CoreType,
    operator: Operator,
    left: &Value,
    right: &Value,
) -> Ran<Value>
    ensures { IfOk result (λ ran. (ran, state.new) ≡ operate (bare of.now) operator left.now right.now state.old) }
{
    match cc_numbers::computed(of, operator, left, right) {
        Some(Computed::Gives(value)) => Ok(Ok(value)),
        Some(Computed::Throws(of)) => raised(alloc, state, of),
        None => Ok(Err(Stop::Wrong)),
    }
}

/// An operator on one value.
pub fn operated_alone(state: &State, operator: UnaryOperator, value: &Value) -> Result<Value, Stop>
    ensures { (result, state.now) ≡ operate_alone operator value.now state.now }
{
    given(state, cc_numbers::computed_alone(operator, value))
}
