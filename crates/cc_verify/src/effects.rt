// What instructions do to stacks of types (ECMA-335, III.1.3, III.3 and III.4).
ghost use Rattle.std.specs.Prelude.{◌≡◌, ◌==◌, ◌<◌, [], ◌∷◌, ◌+◌, ◌-◌, Bool, List, true, false, length, slice_get, reverse, take, IfOk, OnOk, MatchOption, None, Some};
ghost use Rattle.std.specs.Option.{option_copied};
ghost use Rattle.cc_verify.specs.declared.stack_type.StackType.{StackType};
ghost use Rattle.cc_verify.specs.Transitions.{Stack, Leaves, at_row, method_of, is_integer, is_reference, same_integer, may_equal, may_shift, fits, is_exception_class, is_thrown, is_built_variable, are_built, is_built_callee, is_built, result_count, parameter_count, callee_result_count, takes, gives, push_variable, store_variable, store_local, push_local, push_result, pop_arguments, call, return, pop_one, duplicate, one_for, two_for, put_same, put_nothing, put_int32, empty_stack, effect, local_fits, stores_fit};

use crate::environment::{Environment, Frame, MethodType};
use crate::stack::StackTypes;
use crate::stack_type::StackType;
use crate::transition::Transition;
use cc_base::List;
use std::alloc::AllocError;

// ---- what is named

// The row with a number that counts from 1.
fn at_row(rows: &List<MethodType>, row: u32) -> Option<&MethodType>
    ensures { option_copied result ≡ at_row rows.now row }
{
    if row == 0 {
        return None;
    }
    rows.get(row as usize - 1)
}

fn method_of(environment: &Environment, token: u32) -> Option<&MethodType>
    ensures { option_copied result ≡ method_of environment.now token }
{
    let row = token % 0x0100_0000;
    let table = token / 0x0100_0000;
    if table == 0x06 {
        at_row(&environment.methods, row)
    } else if table == 0x0A {
        at_row(&environment.references, row)
    } else {
        None
    }
}

fn argument(frame: &Frame, index: u16) -> Option<Option<StackType>>
    ensures { result ≡ slice_get frame.now.arguments index }
{
    frame.arguments.get(index as usize).copied()
}

fn local(frame: &Frame, index: u16) -> Option<StackType>
    ensures { result ≡ slice_get frame.now.locals index }
{
    frame.locals.get(index as usize).copied()
}

// ---- types

fn is_integer(a: StackType) -> bool
    ensures { result ≡ is_integer a }
{
    match a {
        StackType::Int32 => true,
        StackType::Int64 => true,
        StackType::Null => false,
        StackType::Object(_) => false,
    }
}

fn is_reference(a: StackType) -> bool
    ensures { result ≡ is_reference a }
{
    match a {
        StackType::Int32 => false,
        StackType::Int64 => false,
        StackType::Null => true,
        StackType::Object(_) => true,
    }
}

fn is_int32(b: StackType) -> bool
    ensures { result ≡ same_integer StackType.Int32 b }
{
    match b {
        StackType::Int32 => true,
        StackType::Int64 => false,
        StackType::Null => false,
        StackType::Object(_) => false,
    }
}

fn is_int64(b: StackType) -> bool
    ensures { result ≡ same_integer StackType.Int64 b }
{
    match b {
        StackType::Int32 => false,
        StackType::Int64 => true,
        StackType::Null => false,
        StackType::Object(_) => false,
    }
}

fn same_integer(a: StackType, b: StackType) -> bool
    ensures { result ≡ same_integer a b }
{
    match a {
        StackType::Int32 => is_int32(b),
        StackType::Int64 => is_int64(b),
        StackType::Null => false,
        StackType::Object(_) => false,
    }
}

fn may_equal(a: StackType, b: StackType) -> bool
    ensures { result ≡ may_equal a b }
{
    match a {
        StackType::Int32 => is_int32(b),
        StackType::Int64 => is_int64(b),
        StackType::Null => is_reference(b),
        StackType::Object(_) => is_reference(b),
    }
}

fn may_shift(a: StackType, b: StackType) -> bool
    ensures { result ≡ may_shift a b }
{
    is_integer(a) && is_int32(b)
}

fn fits(a: StackType, variable: Option<StackType>) -> bool
    ensures { result ≡ fits a variable }
{
    match variable {
        None => false,
        Some(b) => same_integer(a, b),
    }
}

fn is_thrown(a: StackType) -> bool
    ensures { result ≡ is_thrown a }
{
    match a {
        StackType::Int32 => false,
        StackType::Int64 => false,
        StackType::Null => true,
        StackType::Object(class) => 17 <= class.0 && class.0 <= 27,
    }
}

// ---- what the machine has

fn is_built_variable(variable: Option<Option<StackType>>) -> bool
    ensures { result ≡ is_built_variable variable }
{
    match variable {
        None => true,
        Some(None) => false,
        Some(Some(_)) => true,
    }
}

fn are_built(types: &[Option<StackType>]) -> bool
    ensures { result ≡ are_built types.now }
{
    for variable in types {
        if variable.is_none() {
            return false;
        }
    }
    true
}

fn is_built_callee(callee: Option<&MethodType>) -> bool
    ensures { result ≡ is_built_callee (option_copied callee.entry) }
{
    match callee {
        None => true,
        Some(method) => are_built(method.parameters.as_slice()),
    }
}

/// Whether the machine has the instruction, for the variable or the method that it names.
pub fn is_built(environment: &Environment, frame: &Frame, transition: Transition) -> bool
    ensures { result ≡ is_built environment.now frame.now transition }
{
    match transition {
        Transition::NotBuilt => false,
        Transition::LoadArgument(index) => is_built_variable(argument(frame, index)),
        Transition::StoreArgument(index) => is_built_variable(argument(frame, index)),
        Transition::Call(token) => is_built_callee(method_of(environment, token)),
        _ => true,
    }
}

// ---- counts

fn result_count(returned: Option<StackType>) -> usize
    ensures { result ≡ result_count returned }
{
    match returned {
        None => 0,
        Some(_) => 1,
    }
}

fn parameter_count(callee: Option<&MethodType>) -> usize
    ensures { result ≡ parameter_count (option_copied callee.entry) }
{
    match callee {
        None => 0,
        Some(method) => method.parameters.len(),
    }
}

fn callee_result_count(callee: Option<&MethodType>) -> usize
    ensures { result ≡ callee_result_count (option_copied callee.entry) }
{
    match callee {
        None => 0,
        Some(method) => result_count(method.result),
    }
}

/// How many values an instruction takes from the stack.
pub fn takes(environment: &Environment, frame: &Frame, transition: Transition) -> usize
    ensures { result ≡ takes environment.now frame.now transition }
{
    match transition {
        Transition::Nothing => 0,
        Transition::LoadArgument(_) => 0,
        Transition::StoreArgument(_) => 1,
        Transition::LoadLocal(_) => 0,
        Transition::StoreLocal(_) => 1,
        Transition::Push(_) => 0,
        Transition::Duplicate => 1,
        Transition::Pop => 1,
        Transition::Call(token) => parameter_count(method_of(environment, token)),
        Transition::Return => result_count(frame.result),
        Transition::Branch(_) => 0,
        Transition::BranchIf(_) => 1,
        Transition::BranchOrdered(_) => 2,
        Transition::BranchEqual(_) => 2,
        Transition::Binary => 2,
        Transition::Shift => 2,
        Transition::Unary => 1,
        Transition::Convert(_) => 1,
        Transition::Order => 2,
        Transition::Equal => 2,
        Transition::Throw => 1,
        Transition::Rethrow => 0,
        Transition::EndFinally => 0,
        Transition::Leave(_) => 0,
        Transition::NotBuilt => 0,
    }
}

/// How many values it leaves in their place.
pub fn gives(environment: &Environment, frame: &Frame, transition: Transition) -> usize
    ensures counted { result ≡ gives environment.now frame.now transition }
    ensures few { result < 3 }
{
    match transition {
        Transition::Nothing => 0,
        Transition::LoadArgument(_) => 1,
        Transition::StoreArgument(_) => 0,
        Transition::LoadLocal(_) => 1,
        Transition::StoreLocal(_) => 0,
        Transition::Push(_) => 1,
        Transition::Duplicate => 2,
        Transition::Pop => 0,
        Transition::Call(token) => callee_result_count(method_of(environment, token)),
        Transition::Return => 0,
        Transition::Branch(_) => 0,
        Transition::BranchIf(_) => 0,
        Transition::BranchOrdered(_) => 0,
        Transition::BranchEqual(_) => 0,
        Transition::Binary => 1,
        Transition::Shift => 1,
        Transition::Unary => 1,
        Transition::Convert(_) => 1,
        Transition::Order => 1,
        Transition::Equal => 1,
        Transition::Throw => 0,
        Transition::Rethrow => 0,
        Transition::EndFinally => 0,
        Transition::Leave(_) => 0,
        Transition::NotBuilt => 0,
    }
}

// ---- the stack behind an instruction: true where there is one

fn push_variable(
    variable: Option<Option<StackType>>,
    stack: &mut StackTypes,
) -> Result<bool, AllocError>
    ensures { IfOk result (λ ok. Leaves ok (push_variable variable stack.old) stack.new) }
{
    match variable {
        None => Ok(false),
        Some(None) => Ok(false),
        Some(Some(top)) => {
            stack.push(top)?;
            Ok(true)
        }
    }
}

fn push_local(variable: Option<StackType>, stack: &mut StackTypes) -> Result<bool, AllocError>
    ensures { IfOk result (λ ok. Leaves ok (push_local variable stack.old) stack.new) }
{
    match variable {
        None => Ok(false),
        Some(top) => {
            stack.push(top)?;
            Ok(true)
        }
    }
}

fn store_variable(variable: Option<Option<StackType>>, stack: &mut StackTypes) -> bool
    ensures { Leaves result (store_variable variable stack.old) stack.new }
{
    match variable {
        None => false,
        Some(known) => match stack.pop() {
            None => false,
            Some(top) => fits(top, known),
        },
    }
}

fn store_local(variable: Option<StackType>, stack: &mut StackTypes) -> bool
    ensures { Leaves result (store_local variable stack.old) stack.new }
{
    match variable {
        None => false,
        Some(_) => match stack.pop() {
            None => false,
            Some(_) => true,
        },
    }
}

fn pop_one(stack: &mut StackTypes) -> bool
    ensures { Leaves result (pop_one stack.old) stack.new }
{
    match stack.pop() {
        None => false,
        Some(_) => true,
    }
}

fn duplicate(stack: &mut StackTypes) -> Result<bool, AllocError>
    ensures { IfOk result (λ ok. Leaves ok (duplicate stack.old) stack.new) }
{
    match stack.pop() {
        None => Ok(false),
        Some(top) => {
            stack.push(top)?;
            stack.push(top)?;
            Ok(true)
        }
    }
}

// Takes the arguments from the last one on.
fn pop_arguments(parameters: &[Option<StackType>], stack: &mut StackTypes) -> bool
    ensures { Leaves result (pop_arguments (reverse parameters.now) stack.old) stack.new }
{
    let mut left = parameters.len();
    while left > 0 {
        left -= 1;
        match stack.pop() {
            None => return false,
            Some(top) => {
                if !fits(top, parameters[left]) {
                    return false;
                }
            }
        }
    }
    true
}

fn push_result(returned: Option<StackType>, stack: &mut StackTypes) -> Result<(), AllocError>
    ensures { OnOk result (push_result returned (Some stack.old) ≡ Some stack.new) }
{
    match returned {
        None => Ok(()),
        Some(top) => {
            stack.push(top)?;
            Ok(())
        }
    }
}

fn call(callee: Option<&MethodType>, stack: &mut StackTypes) -> Result<bool, AllocError>
    ensures { IfOk result (λ ok. Leaves ok (call (option_copied callee.entry) stack.old) stack.new) }
{
    match callee {
        None => Ok(false),
        Some(method) => {
            if !pop_arguments(method.parameters.as_slice(), stack) {
                return Ok(false);
            }
            push_result(method.result, stack)?;
            Ok(true)
        }
    }
}

fn return_result(returned: Option<StackType>, stack: &mut StackTypes) -> bool
    ensures { Leaves result (return returned stack.old) stack.new }
{
    match returned {
        None => stack.is_empty(),
        Some(_) => match stack.pop() {
            None => false,
            Some(top) => stack.is_empty() && fits(top, returned),
        },
    }
}

// The two values on top, the upper one second.
fn pop_pair(stack: &mut StackTypes) -> Option<(StackType, StackType)>
    ensures none { result ≡ None → (test : StackType → StackType → Bool) (put : StackType → Stack → Stack) → two_for test put stack.old ≡ None }
    ensures some { (a b : StackType) → result ≡ Some (a, b) → stack.old ≡ b ∷ a ∷ stack.new }
{
    match stack.pop() {
        None => None,
        Some(b) => match stack.pop() {
            None => None,
            Some(a) => Some((a, b)),
        },
    }
}

fn binary(stack: &mut StackTypes) -> Result<bool, AllocError>
    ensures { IfOk result (λ ok. Leaves ok (two_for same_integer put_same stack.old) stack.new) }
{
    match pop_pair(stack) {
        None => Ok(false),
        Some((a, b)) => {
            if !same_integer(a, b) {
                return Ok(false);
            }
            stack.push(a)?;
            Ok(true)
        }
    }
}

fn shift(stack: &mut StackTypes) -> Result<bool, AllocError>
    ensures { IfOk result (λ ok. Leaves ok (two_for may_shift put_same stack.old) stack.new) }
{
    match pop_pair(stack) {
        None => Ok(false),
        Some((a, b)) => {
            if !may_shift(a, b) {
                return Ok(false);
            }
            stack.push(a)?;
            Ok(true)
        }
    }
}

fn order(stack: &mut StackTypes) -> Result<bool, AllocError>
    ensures { IfOk result (λ ok. Leaves ok (two_for same_integer put_int32 stack.old) stack.new) }
{
    match pop_pair(stack) {
        None => Ok(false),
        Some((a, b)) => {
            if !same_integer(a, b) {
                return Ok(false);
            }
            stack.push(StackType::Int32)?;
            Ok(true)
        }
    }
}

fn equal(stack: &mut StackTypes) -> Result<bool, AllocError>
    ensures { IfOk result (λ ok. Leaves ok (two_for may_equal put_int32 stack.old) stack.new) }
{
    match pop_pair(stack) {
        None => Ok(false),
        Some((a, b)) => {
            if !may_equal(a, b) {
                return Ok(false);
            }
            stack.push(StackType::Int32)?;
            Ok(true)
        }
    }
}

fn compare_ordered(stack: &mut StackTypes) -> bool
    ensures { Leaves result (two_for same_integer put_nothing stack.old) stack.new }
{
    match pop_pair(stack) {
        None => false,
        Some((a, b)) => same_integer(a, b),
    }
}

fn compare_equal(stack: &mut StackTypes) -> bool
    ensures { Leaves result (two_for may_equal put_nothing stack.old) stack.new }
{
    match pop_pair(stack) {
        None => false,
        Some((a, b)) => may_equal(a, b),
    }
}

fn unary(stack: &mut StackTypes) -> Result<bool, AllocError>
    ensures { IfOk result (λ ok. Leaves ok (one_for is_integer put_same stack.old) stack.new) }
{
    match stack.pop() {
        None => Ok(false),
        Some(a) => {
            if !is_integer(a) {
                return Ok(false);
            }
            stack.push(a)?;
            Ok(true)
        }
    }
}

fn convert(to: StackType, stack: &mut StackTypes) -> Result<bool, AllocError>
    ensures { IfOk result (λ ok. Leaves ok (one_for is_integer (λ a rest. to ∷ rest) stack.old) stack.new) }
{
    match stack.pop() {
        None => Ok(false),
        Some(a) => {
            if !is_integer(a) {
                return Ok(false);
            }
            stack.push(to)?;
            Ok(true)
        }
    }
}

fn throw(stack: &mut StackTypes) -> bool
    ensures { Leaves result (one_for is_thrown empty_stack stack.old) stack.new }
{
    match stack.pop() {
        None => false,
        Some(a) => {
            stack.clear();
            is_thrown(a)
        }
    }
}

fn push_type(top: StackType, stack: &mut StackTypes) -> Result<bool, AllocError>
    ensures { IfOk result (λ ok. Leaves ok (Some (top ∷ stack.old)) stack.new) }
{
    stack.push(top)?;
    Ok(true)
}

fn emptied(stack: &mut StackTypes) -> bool
    ensures { Leaves result (Some []) stack.new }
{
    stack.clear();
    true
}

/// Makes of a stack the one behind an instruction. The answer is false exactly where the operands do not have the types
/// that the instruction asks for (ECMA-335, III.1.8.1.3); the stack then counts for nothing.
pub fn apply(
    environment: &Environment,
    frame: &Frame,
    transition: Transition,
    stack: &mut StackTypes,
) -> Result<bool, AllocError>
    ensures { IfOk result (λ ok. Leaves ok (effect environment.now frame.now transition stack.old) stack.new) }
{
    match transition {
        Transition::Nothing => Ok(true),
        Transition::LoadArgument(index) => push_variable(argument(frame, index), stack),
        Transition::StoreArgument(index) => Ok(store_variable(argument(frame, index), stack)),
        Transition::LoadLocal(index) => push_local(local(frame, index), stack),
        Transition::StoreLocal(index) => Ok(store_local(local(frame, index), stack)),
        Transition::Push(top) => push_type(top, stack),
        Transition::Duplicate => duplicate(stack),
        Transition::Pop => Ok(pop_one(stack)),
        Transition::Call(token) => call(method_of(environment, token), stack),
        Transition::Return => Ok(return_result(frame.result, stack)),
        Transition::Branch(_) => Ok(true),
        Transition::BranchIf(_) => Ok(pop_one(stack)),
        Transition::BranchOrdered(_) => Ok(compare_ordered(stack)),
        Transition::BranchEqual(_) => Ok(compare_equal(stack)),
        Transition::Binary => binary(stack),
        Transition::Shift => shift(stack),
        Transition::Unary => unary(stack),
        Transition::Convert(to) => convert(to, stack),
        Transition::Order => order(stack),
        Transition::Equal => equal(stack),
        Transition::Throw => Ok(throw(stack)),
        Transition::Rethrow => Ok(emptied(stack)),
        Transition::EndFinally => Ok(emptied(stack)),
        Transition::Leave(_) => Ok(emptied(stack)),
        Transition::NotBuilt => Ok(false),
    }
}

// ---- what is stored

fn local_fits(variable: Option<StackType>, stack: &StackTypes) -> bool
    ensures { result ≡ local_fits variable stack.now }
{
    match variable {
        None => true,
        Some(_) => match stack.top() {
            None => true,
            Some(top) => fits(top, variable),
        },
    }
}

/// Whether what an instruction stores to a local variable is of the variable's type.
pub fn stores_fit(frame: &Frame, transition: Transition, stack: &StackTypes) -> bool
    ensures { result ≡ stores_fit frame.now transition stack.now }
{
    match transition {
        Transition::StoreLocal(index) => local_fits(local(frame, index), stack),
        _ => true,
    }
}
