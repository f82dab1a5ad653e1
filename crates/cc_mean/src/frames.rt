// What calls do, by how many frames are left.
ghost use Rattle.std.specs.Prelude.{◌≡◌, ◌≤◌, ◌-◌, IfOk, OnOk, length, slice_get, take};
ghost use Rattle.std.specs.Option.{option_copied};
ghost use Rattle.cc_core.specs.Frames.{body_for, end_value, entered, left, or_none, returned, variables_of, call_body, calls_with};
ghost use Rattle.cc_core.specs.Outcome.{outcome_of};
ghost use Rattle.cc_core.specs.Run.{in_world};

use crate::code::Code;
use crate::outcome::outcome;
use crate::steps::{Ran, begin, given};
use crate::value::Caller;
use cc_base::MethodId;
use cc_core::{CoreType, Exit, FunctionBody, State, Stop, Value};
use cc_numbers::zero_of;
use sqlite_items::Items;
use std::alloc::{AllocError, Global};
use std::mem;

/// The body of a function.
fn body_for(method: MethodId, bodies: &[FunctionBody]) -> Option<&FunctionBody>
    ensures { option_copied result ≡ body_for method bodies.now }
{
    for body in bodies {
        if body.method.0 == method.0 {
            return Some(body);
        }
    }
    None
}

/// The variables of a frame: the arguments, and zero or null for each further local variable.
#[tactic(auto, using(crate::proofs::Zeros::zero_laws))]
fn variables_of(
    alloc: Global,
    locals: &[CoreType],
    arguments: Items<Value>,
) -> Result<Option<Items<Value>>, AllocError>
    ensures { IfOk result (λ variables. variables ≡ variables_of locals.now arguments) }
{
    let mut variables = arguments;
    let count = variables.len();
    let further = if count <= locals.len() {
        &locals[count..]
    } else {
        &[]
    };
    for of in further {
        match zero_of(of) {
            Some(zero) => variables.push(zero)?,
            None => return Ok(None),
        }
    }
    Ok(Some(variables))
}

/// What a function gives that flows off its end.
fn end_value(of: &CoreType) -> Option<Value>
    ensures { result ≡ end_value of.now }
{
    match of {
        CoreType::Void => Some(Value::Nothing),
        _ => zero_of(of),
    }
}

/// The end of a body as the end of its call.
fn returned(state: &State, of: &CoreType, end: Result<Exit, Stop>) -> Result<Value, Stop>
    ensures { (result, state.now) ≡ returned of.now (end, state.now) }
{
    match end {
        Ok(Exit::Normal) => given(state, end_value(of)),
        Ok(Exit::Return(value)) => Ok(value),
        Ok(Exit::Break) => Err(Stop::Wrong),
        Ok(Exit::Continue) => Err(Stop::Wrong),
        Err(stop) => Err(stop),
    }
}

/// Enters a frame with these variables.
fn enter(state: &mut State, variables: Items<Value>) -> Result<(), AllocError>
    ensures { OnOk result (state.new ≡ in_world (entered variables) state.old) }
{
    let outer = mem::replace(&mut state.world.variables, variables);
    state.world.callers.push(outer)
}

fn last_caller(alloc: Global, callers: &mut Items<Items<Value>>) -> Items<Value>
    ensures last { result ≡ or_none (slice_get callers.old (length callers.old - 1)) }
    ensures rest { callers.new ≡ take (length callers.old - 1) callers.old }
{
    callers.pop().unwrap_or(Items::new(alloc))
}

/// Leaves the innermost frame.
fn leave(alloc: Global, state: &mut State)
    ensures { state.new ≡ in_world left state.old }
{
    state.world.variables = last_caller(alloc, &mut state.world.callers);
}

/// A call of a function, within which calls go to another caller.
fn call_body<C: Caller>(
    alloc: Global,
    code: &Code,
    below: &C,
    state: &mut State,
    method: MethodId,
    arguments: Items<Value>,
) -> Ran<Value>
    ensures { let w = code.now.classes.now in let n = code.now.turns in let k = C.calls below.now w code.now.bodies.now n in IfOk result (λ ran. (ran, state.new) ≡ call_body (outcome_of w k n) (body_for method code.now.bodies.now) arguments state.old) }
{
    let Some(body) = body_for(method, code.bodies) else {
        return Ok(Err(Stop::Wrong));
    };
    begin(state)?;
    let Some(variables) = variables_of(alloc, body.locals.as_slice(), arguments)? else {
        return Ok(Err(Stop::Wrong));
    };
    enter(state, variables)?;
    let end = outcome(alloc, code, below, state, &body.body)?;
    let given = returned(state, &body.result, end);
    leave(alloc, state);
    Ok(given)
}

/// Where no frame is left.
#[derive(Clone, Copy)]
struct NoFrame;

impl Caller for NoFrame {
    ghost calls = { λ caller classes bodies n. calls_with classes bodies n 0 };

    fn call(
        &self,
        _alloc: Global,
        _code: &Code,
        _state: &mut State,
        _method: MethodId,
        _arguments: Items<Value>,
    ) -> Ran<Value> {
        Ok(Err(Stop::DepthLimit))
    }
}

/// One frame more than another caller has left.
#[derive(Clone, Copy)]
struct Frame<C: Caller> {
    below: C,
}

impl<C: Caller> Caller for Frame<C> {
    ghost calls = { λ frame classes bodies n method. call_body (outcome_of classes (C.calls frame.below classes bodies n) n) (body_for method bodies) };

    fn call(
        &self,
        alloc: Global,
        code: &Code,
        state: &mut State,
        method: MethodId,
        arguments: Items<Value>,
    ) -> Ran<Value> {
        call_body(alloc, code, &self.below, state, method, arguments)
    }
}

/// A call of a function where so many frames are left.
pub fn call_within(
    alloc: Global,
    code: &Code,
    frames: u32,
    state: &mut State,
    method: MethodId,
    arguments: Items<Value>,
) -> Ran<Value>
    requires { frames ≤ 15 }
    ensures { IfOk result (λ ran. (ran, state.new) ≡ calls_with code.now.classes.now code.now.bodies.now code.now.turns frames method arguments state.old) }
{
    let none = NoFrame;
    let one = Frame { below: none };
    let two = Frame { below: one };
    let three = Frame { below: two };
    let four = Frame { below: three };
    let five = Frame { below: four };
    let six = Frame { below: five };
    let seven = Frame { below: six };
    let eight = Frame { below: seven };
    let nine = Frame { below: eight };
    let ten = Frame { below: nine };
    let eleven = Frame { below: ten };
    let twelve = Frame { below: eleven };
    let thirteen = Frame { below: twelve };
    let fourteen = Frame { below: thirteen };
    let fifteen = Frame { below: fourteen };
    match frames {
        0 => none.call(alloc, code, state, method, arguments),
        1 => one.call(alloc, code, state, method, arguments),
        2 => two.call(alloc, code, state, method, arguments),
        3 => three.call(alloc, code, state, method, arguments),
        4 => four.call(alloc, code, state, method, arguments),
        5 => five.call(alloc, code, state, method, arguments),
        6 => six.call(alloc, code, state, method, arguments),
        7 => seven.call(alloc, code, state, method, arguments),
        8 => eight.call(alloc, code, state, method, arguments),
        9 => nine.call(alloc, code, state, method, arguments),
        10 => ten.call(alloc, code, state, method, arguments),
        11 => eleven.call(alloc, code, state, method, arguments),
        12 => twelve.call(alloc, code, state, method, arguments),
        13 => thirteen.call(alloc, code, state, method, arguments),
        14 => fourteen.call(alloc, code, state, method, arguments),
        _ => fifteen.call(alloc, code, state, method, arguments),
    }
}
