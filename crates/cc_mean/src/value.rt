// What an expression does, over any calls.
ghost use Rattle.std.specs.Prelude.{◌≡◌, ℕ, [], ◌∷◌, ◌++◌, List, Ok, IfOk, OnOk};
ghost use Rattle.cc_core.specs.declared.tree.FunctionBody.{FunctionBody};
ghost use Rattle.cc_core.specs.declared.types.ClassInfo.{ClassInfo};
ghost use Rattle.cc_core.specs.Types.{bare};
ghost use Rattle.cc_core.specs.Term.{type_of};
ghost use Rattle.cc_core.specs.Bare.{term_of};
ghost use Rattle.cc_core.specs.LibraryCalls.{library};
ghost use Rattle.cc_core.specs.Lists.{terms_of};
ghost use Rattle.cc_core.specs.Numbers.{is_true};
ghost use Rattle.cc_core.specs.Run.{Calls, bind, gives, operate, read_target, truth_value, write_local, write_target};
ghost use Rattle.cc_core.specs.Value.{constant, update, dispatched, value_of, target_of, values_of};

use crate::code::Code;
use crate::spent::{converted, holds, library, operated, operated_alone, unwanted, write_target};
use crate::steps::{Ran, begin, read_local, read_target, write_local};
use crate::updates::updated;
use cc_base::{LocalId, MethodId};
use cc_core::{
    CoreType, Dispatch, Expression, LibraryCall, Operator, Root, State, Stop, Target, UpdateResult,
    Value,
};
use cc_numbers::{is_wide, truth};
use sqlite_items::Items;
use std::alloc::{AllocError, Global};

/// What calls a function.
pub trait Caller {
    ghost calls: { Self → List ClassInfo → List FunctionBody → ℕ → Calls };

    /// Calls a function with its arguments.
    fn call(
        &self,
        alloc: Global,
        code: &Code,
        state: &mut State,
        method: MethodId,
        arguments: Items<Value>,
    ) -> Ran<Value>
        ensures { IfOk result (λ ran. (ran, state.new) ≡ calls self.now code.now.classes.now code.now.bodies.now code.now.turns method arguments state.old) };
}

/// The type of an expression's value.
fn type_of(e: &Expression) -> &CoreType
    ensures { bare result.now ≡ type_of (term_of e.now) }
{
    match e {
        Expression::Number(of, _) => of,
        Expression::Literal(of, _) => of,
        Expression::Null(of) => of,
        Expression::This(of) => of,
        Expression::Local(of, _) => of,
        Expression::Field(of, _, _) => of,
        Expression::StaticField(of, _) => of,
        Expression::Element(of, _, _) => of,
        Expression::Convert(of, _) => of,
        Expression::Unary(of, _, _) => of,
        Expression::Binary(of, _, _, _) => of,
        Expression::And(of, _, _) => of,
        Expression::Or(of, _, _) => of,
        Expression::Choose(of, _, _, _) => of,
        Expression::Assign(of, _, _) => of,
        Expression::Update(of, _, _, _, _, _) => of,
        Expression::Call(of, _, _, _) => of,
        Expression::New(of, _, _, _) => of,
        Expression::NewArray(of, _, _) => of,
        Expression::ArrayOf(of, _, _) => of,
        Expression::Cast(of, _, _) => of,
        Expression::Library(of, _, _) => of,
        Expression::PlaceOf(of, _) => of,
        Expression::HandleOf(of, _) => of,
        Expression::Let(of, _, _, _) => of,
        Expression::Then(of, _, _) => of,
    }
}

/// The value of a constant of a type, of which the bits are given.
fn constant(of: &CoreType, n: u64) -> Value
    ensures { result ≡ constant (bare of.now) n }
{
    if is_wide(of) {
        Value::Int64(n)
    } else {
        Value::Int32((n % 0x1_0000_0000) as u32)
    }
}

/// The place that an expression names, by the values of its parts, before its tests.
fn target<C: Caller>(
    alloc: Global,
    code: &Code,
    caller: &C,
    state: &mut State,
    e: &Expression,
) -> Ran<Target>
    ensures { let w = code.now.classes.now in let k = C.calls caller.now w code.now.bodies.now code.now.turns in IfOk result (λ ran. (ran, state.new) ≡ target_of w k (term_of e.now) state.old) }
{
    begin(state)?;
    match e {
        Expression::Local(_, local) => Ok(Ok(Target {
            root: Root::Local(*local),
            path: Items::new(alloc),
        })),
        _ => Ok(Err(Stop::Wrong)),
    }
}

/// The call of a function, or of that which overrides it in the class of its first argument.
fn dispatched<C: Caller>(
    alloc: Global,
    code: &Code,
    caller: &C,
    state: &mut State,
    dispatch: Dispatch,
    method: MethodId,
    arguments: Items<Value>,
) -> Ran<Value>
    ensures { let w = code.now.classes.now in let k = C.calls caller.now w code.now.bodies.now code.now.turns in IfOk result (λ ran. (ran, state.new) ≡ dispatched k dispatch method arguments state.old) }
{
    match dispatch {
        Dispatch::Direct => caller.call(alloc, code, state, method, arguments),
        Dispatch::Virtual => Ok(Err(Stop::Wrong)),
    }
}

/// What an expression gives, or why it stops (ECMA-372, 15).
#[cycle(value)]
pub fn value<C: Caller>(
    alloc: Global,
    code: &Code,
    caller: &C,
    state: &mut State,
    e: &Expression,
) -> Ran<Value>
    ensures { let w = code.now.classes.now in let k = C.calls caller.now w code.now.bodies.now code.now.turns in IfOk result (λ ran. (ran, state.new) ≡ value_of w k (term_of e.now) state.old) }
{
    begin(state)?;
    match e {
        Expression::Number(of, n) => Ok(Ok(constant(of, *n))),
        Expression::Local(_, local) => read_local(alloc, state, *local),
        Expression::Convert(to, a) => match value(alloc, code, caller, state, a)? {
            Ok(v) => Ok(converted(state, type_of(a), to, v)),
            Err(stop) => Ok(Err(stop)),
        },
        Expression::Unary(_, operator, a) => match value(alloc, code, caller, state, a)? {
            Ok(v) => Ok(operated_alone(state, *operator, v)),
            Err(stop) => Ok(Err(stop)),
        },
        Expression::Binary(_, operator, a, b) => match value(alloc, code, caller, state, a)? {
            Ok(left) => operation(alloc, code, caller, state, b, type_of(a), *operator, left),
            Err(stop) => Ok(Err(stop)),
        },
        Expression::And(_, a, b) => match value(alloc, code, caller, state, a)? {
            Ok(v) => {
                if holds(v) {
                    condition(alloc, code, caller, state, b)
                } else {
                    Ok(Ok(truth(false)))
                }
            }
            Err(stop) => Ok(Err(stop)),
        },
        Expression::Or(_, a, b) => match value(alloc, code, caller, state, a)? {
            Ok(v) => {
                if holds(v) {
                    Ok(Ok(truth(true)))
                } else {
                    condition(alloc, code, caller, state, b)
                }
            }
            Err(stop) => Ok(Err(stop)),
        },
        Expression::Choose(_, c, a, b) => match value(alloc, code, caller, state, c)? {
            Ok(v) => {
                if holds(v) {
                    value(alloc, code, caller, state, a)
                } else {
                    value(alloc, code, caller, state, b)
                }
            }
            Err(stop) => Ok(Err(stop)),
        },
        Expression::Assign(_, a, b) => match target(alloc, code, caller, state, a)? {
            Ok(at) => assignment(alloc, code, caller, state, b, at),
            Err(stop) => Ok(Err(stop)),
        },
        Expression::Update(of, operator, common, result, a, b) => match target(
            alloc, code, caller, state, a,
        )? {
            Ok(at) => update(
                alloc, code, caller, state, b, of, *operator, common, *result, at,
            ),
            Err(stop) => Ok(Err(stop)),
        },
        Expression::Call(_, method, dispatch, arguments) => {
            call(
                alloc,
                code,
                caller,
                state,
                arguments.as_slice(),
                *dispatch,
                *method,
            )
        }
        Expression::Library(_, member, arguments) => {
            call_library(alloc, code, caller, state, arguments.as_slice(), *member)
        }
        Expression::Let(_, local, a, b) => match value(alloc, code, caller, state, a)? {
            Ok(v) => binding(alloc, code, caller, state, b, *local, v),
            Err(stop) => Ok(Err(stop)),
        },
        Expression::Then(_, a, b) => match value(alloc, code, caller, state, a)? {
            Ok(v) => {
                unwanted(v);
                value(alloc, code, caller, state, b)
            }
            Err(stop) => Ok(Err(stop)),
        },
        Expression::Literal(_, _)
        | Expression::Null(_)
        | Expression::This(_)
        | Expression::Field(_, _, _)
        | Expression::StaticField(_, _)
        | Expression::Element(_, _, _)
        | Expression::New(_, _, _, _)
        | Expression::NewArray(_, _, _)
        | Expression::ArrayOf(_, _, _)
        | Expression::Cast(_, _, _)
        | Expression::PlaceOf(_, _)
        | Expression::HandleOf(_, _) => Ok(Err(Stop::Wrong)),
    }
}

/// Whether a condition holds, as a value.
#[cycle(value)]
fn condition<C: Caller>(
    alloc: Global,
    code: &Code,
    caller: &C,
    state: &mut State,
    e: &Expression,
) -> Ran<Value>
    ensures { let w = code.now.classes.now in let k = C.calls caller.now w code.now.bodies.now code.now.turns in IfOk result (λ ran. (ran, state.new) ≡ bind (value_of w k (term_of e.now) state.old) (λ v. gives (truth_value (is_true v)))) }
{
    match value(alloc, code, caller, state, e)? {
        Ok(v) => Ok(Ok(truth(holds(v)))),
        Err(stop) => Ok(Err(stop)),
    }
}

/// An operator on a left operand that is evaluated and a right one that is not.
#[cycle(value)]
fn operation<C: Caller>(
    alloc: Global,
    code: &Code,
    caller: &C,
    state: &mut State,
    right: &Expression,
    of: &CoreType,
    operator: Operator,
    left: Value,
) -> Ran<Value>
    ensures { let w = code.now.classes.now in let k = C.calls caller.now w code.now.bodies.now code.now.turns in IfOk result (λ ran. (ran, state.new) ≡ bind (value_of w k (term_of right.now) state.old) (operate (bare of.now) operator left)) }
{
    match value(alloc, code, caller, state, right)? {
        Ok(right) => operated(alloc, state, of, operator, left, right),
        Err(stop) => Ok(Err(stop)),
    }
}

/// An assignment to a target.
#[cycle(value)]
fn assignment<C: Caller>(
    alloc: Global,
    code: &Code,
    caller: &C,
    state: &mut State,
    e: &Expression,
    at: Target,
) -> Ran<Value>
    ensures { let w = code.now.classes.now in let k = C.calls caller.now w code.now.bodies.now code.now.turns in IfOk result (λ ran. (ran, state.new) ≡ bind (value_of w k (term_of e.now) state.old) (write_target at)) }
{
    match value(alloc, code, caller, state, e)? {
        Ok(v) => write_target(alloc, state, at, v),
        Err(stop) => Ok(Err(stop)),
    }
}

/// An update of a target, which is read before the operand is evaluated.
#[cycle(value)]
fn update<C: Caller>(
    alloc: Global,
    code: &Code,
    caller: &C,
    state: &mut State,
    operand: &Expression,
    of: &CoreType,
    operator: Operator,
    common: &CoreType,
    which: UpdateResult,
    at: Target,
) -> Ran<Value>
    ensures { let w = code.now.classes.now in let k = C.calls caller.now w code.now.bodies.now code.now.turns in IfOk result (λ ran. (ran, state.new) ≡ bind (read_target at state.old) (λ before s1. bind (value_of w k (term_of operand.now) s1) (update (bare of.now) operator (bare common.now) which at before))) }
{
    match read_target(alloc, state, &at)? {
        Ok(before) => amendment(
            alloc, code, caller, state, operand, of, operator, common, which, at, before,
        ),
        Err(stop) => Ok(Err(stop)),
    }
}

/// An update of a target that is read, by an operand that is not evaluated.
#[cycle(value)]
fn amendment<C: Caller>(
    alloc: Global,
    code: &Code,
    caller: &C,
    state: &mut State,
    operand: &Expression,
    of: &CoreType,
    operator: Operator,
    common: &CoreType,
    which: UpdateResult,
    at: Target,
    before: Value,
) -> Ran<Value>
    ensures { let w = code.now.classes.now in let k = C.calls caller.now w code.now.bodies.now code.now.turns in IfOk result (λ ran. (ran, state.new) ≡ bind (value_of w k (term_of operand.now) state.old) (update (bare of.now) operator (bare common.now) which at before)) }
{
    match value(alloc, code, caller, state, operand)? {
        Ok(v) => updated(alloc, state, of, operator, common, which, at, before, v),
        Err(stop) => Ok(Err(stop)),
    }
}

/// Sets a local variable for the expression behind it.
#[cycle(value)]
fn binding<C: Caller>(
    alloc: Global,
    code: &Code,
    caller: &C,
    state: &mut State,
    e: &Expression,
    local: LocalId,
    v: Value,
) -> Ran<Value>
    ensures { let w = code.now.classes.now in let k = C.calls caller.now w code.now.bodies.now code.now.turns in IfOk result (λ ran. (ran, state.new) ≡ bind (write_local local v state.old) (λ done. value_of w k (term_of e.now))) }
{
    match write_local(alloc, state, local, v)? {
        Ok(v) => {
            unwanted(v);
            value(alloc, code, caller, state, e)
        }
        Err(stop) => Ok(Err(stop)),
    }
}

/// A call of a function with these arguments.
#[cycle(value)]
fn call<C: Caller>(
    alloc: Global,
    code: &Code,
    caller: &C,
    state: &mut State,
    arguments: &[Expression],
    dispatch: Dispatch,
    method: MethodId,
) -> Ran<Value>
    ensures { let w = code.now.classes.now in let k = C.calls caller.now w code.now.bodies.now code.now.turns in IfOk result (λ ran. (ran, state.new) ≡ bind (values_of w k (terms_of arguments.now) [] state.old) (dispatched k dispatch method)) }
{
    match values(alloc, code, caller, state, arguments)? {
        Ok(known) => dispatched(alloc, code, caller, state, dispatch, method, known),
        Err(stop) => Ok(Err(stop)),
    }
}

/// A call of a member of the library with these arguments.
#[cycle(value)]
fn call_library<C: Caller>(
    alloc: Global,
    code: &Code,
    caller: &C,
    state: &mut State,
    arguments: &[Expression],
    member: LibraryCall,
) -> Ran<Value>
    ensures { let w = code.now.classes.now in let k = C.calls caller.now w code.now.bodies.now code.now.turns in IfOk result (λ ran. (ran, state.new) ≡ bind (values_of w k (terms_of arguments.now) [] state.old) (library member)) }
{
    match values(alloc, code, caller, state, arguments)? {
        Ok(known) => library(alloc, state, member, known),
        Err(stop) => Ok(Err(stop)),
    }
}

/// The values of arguments, from left to right.
#[cycle(value)]
fn values<C: Caller>(
    alloc: Global,
    code: &Code,
    caller: &C,
    state: &mut State,
    items: &[Expression],
) -> Ran<Items<Value>>
    ensures { let w = code.now.classes.now in let k = C.calls caller.now w code.now.bodies.now code.now.turns in IfOk result (λ ran. (ran, state.new) ≡ values_of w k (terms_of items.now) [] state.old) }
{
    let mut known = Items::new(alloc);
    for item in items {
        match value(alloc, code, caller, state, item)? {
            Ok(v) => known.push(v)?,
            Err(stop) => return Ok(Err(stop)),
        }
    }
    Ok(Ok(known))
}
