// Steps over values that are given away and dropped here, so that the functions over trees, whose cycles are large, drop none.
ghost use Rattle.std.specs.Prelude.{◌≡◌, IfOk, drop};
ghost use Rattle.cc_core.specs.LibraryCalls.{library};
ghost use Rattle.cc_core.specs.Numbers.{is_true};
ghost use Rattle.cc_core.specs.Run.{convert, operate, operate_alone, write_target};
ghost use Rattle.cc_core.specs.Types.{bare};
ghost use Rattle.cc_mean.specs.Chosen.{chosen_from};
ghost use Rattle.cc_core.specs.Lists.{sections_of};

use crate::steps::Ran;
use crate::{console, sections, steps};
use cc_core::{
    CoreType, Exit, LibraryCall, Operator, Section, State, Stop, Target, UnaryOperator, Value,
};
use sqlite_items::Items;
use std::alloc::{AllocError, Global};

/// Drops a value that nobody asks for.
pub fn unwanted(_value: Value) {}

/// Drops the end of a part behind which another one goes on.
pub fn passed(_end: Result<Exit, Stop>) {}

/// A condition holds: a number that is not zero, or a handle that is not null.
pub fn holds(value: Value) -> bool
    ensures { result ≡ is_true value }
{
    cc_numbers::is_true(&value)
}

/// A value of the first type as one of the second.
pub fn converted(state: &State, from: &CoreType, to: &CoreType, value: Value) -> Result<Value, Stop>
    ensures { (result, state.now) ≡ convert (bare from.now) (bare to.now) value state.now }
{
    steps::converted(state, from, to, &value)
}

/// An operator on two values, of which the left one has this type.
pub fn operated(
    alloc: Global,
    state: &mut State,
    of: &CoreType,
    operator: Operator,
    left: Value,
    right: Value,
) -> Ran<Value>
    ensures { IfOk result (λ ran. (ran, state.new) ≡ operate (bare of.now) operator left right state.old) }
{
    steps::operated(alloc, state, of, operator, &left, &right)
}

/// An operator on one value.
pub fn operated_alone(state: &State, operator: UnaryOperator, value: Value) -> Result<Value, Stop>
    ensures { (result, state.now) ≡ operate_alone operator value state.now }
{
    steps::operated_alone(state, operator, &value)
}

/// Writes a target, after its tests, and gives the value.
pub fn write_target(alloc: Global, state: &mut State, target: Target, value: Value) -> Ran<Value>
    ensures { IfOk result (λ ran. (ran, state.new) ≡ write_target target value state.old) }
{
    steps::write_target(alloc, state, &target, value)
}

/// A call of a member of the library.
pub fn library(
    alloc: Global,
    state: &mut State,
    call: LibraryCall,
    values: Items<Value>,
) -> Ran<Value>
    ensures { IfOk result (λ ran. (ran, state.new) ≡ library call values state.old) }
{
    console::library(alloc, state, call, values.as_slice())
}

/// The number of the first of the sections that are chosen by a value (ECMA-372, 16.2; C++, 6.4.2).
pub fn chosen(state: &mut State, value: Value, sections: &[Section]) -> Result<usize, AllocError>
    ensures { IfOk result (λ from. (sections_of (drop from sections.now), state.new) ≡ chosen_from (sections_of sections.now) value (sections_of sections.now) state.old) }
{
    sections::chosen(state, &value, sections)
}
