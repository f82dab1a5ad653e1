// The functions of a source with what calls of them need, and the variables with which their bodies begin.
ghost use Rattle.std.specs.Prelude.{◌≡◌, ◌<◌, ◌^◌, ◌++◌, IfOk, OnOk, slice_get};
ghost use Rattle.cc_operations.specs.Numbers as numbers;
ghost use Rattle.cc_typing.specs.Told as held;
ghost use Rattle.cc_typing_laws.specs.Functions as spec;

use crate::contents::Placed;
use cc_base::{List, LocalId, Name};
use cc_names::{Item, ItemKind};
use cc_operations::{Frame, Known, Variable, written};
use cc_tree::{Function, FundamentalType, Parameter};
use std::alloc::{AllocError, Global};

/// Whether a declaration is that of a function of the source.
fn is_own_function(one: &Item) -> bool
    ensures { result ≡ spec.is_own_function one.now }
{
    matches!(one.kind, ItemKind::Function(_)) && 0 < one.span.past
}

/// The numbers of the declarations of the source's functions, in order.
pub(crate) fn numbers_of(alloc: Global, items: &[Item]) -> Result<List<u32>, AllocError>
    ensures { IfOk result (λ made. made ≡ spec.numbers_from 0 items.now) }
{
    let mut numbers = List::new(alloc);
    for at in 0..items.len() {
        if is_own_function(&items[at]) {
            numbers.push(number(at)?)?;
        }
    }
    Ok(numbers)
}

/// A place as a number. There are fewer than 2^32 declarations; more would want more memory than there is.
pub(crate) fn number(at: usize) -> Result<u32, AllocError>
    ensures value { IfOk result (λ number. number ≡ at) }
    ensures small { IfOk result (λ _. at < 2 ^ 32) }
{
    match u32::try_from(at) {
        Ok(number) => Ok(number),
        Err(_) => Err(AllocError),
    }
}

/// The number at a place, 0 past the end.
pub(crate) fn number_at(numbers: &[u32], at: usize) -> u32
    ensures { result ≡ spec.or_zero (slice_get numbers.now at) }
{
    match numbers.get(at) {
        None => 0,
        Some(number) => *number,
    }
}

/// The types of the parameters of a function.
pub(crate) fn parameter_types(
    alloc: Global,
    function: &Function,
) -> Result<List<FundamentalType>, AllocError>
    ensures { IfOk result (λ types. types ≡ spec.parameter_types function.now) }
{
    let parameters = function.parameters.items.as_slice();
    let mut types = List::new(alloc);
    for parameter in parameters {
        types.push(written(&parameter.of))?;
    }
    Ok(types)
}

/// A function with the number of its declaration.
fn known_as(alloc: Global, one: &Placed<'_>, number: u32) -> Result<Known, AllocError>
    ensures { IfOk result (λ made. made ≡ spec.known_as (held.told one.now) number) }
{
    Ok(Known {
        name: List::from_slice(alloc, one.function.name.name.as_slice())?,
        path: List::from_slice(alloc, one.path.as_slice())?,
        parameters: parameter_types(alloc, one.function)?,
        result: written(&one.function.result),
        number,
    })
}

/// The functions with the numbers of their declarations.
pub(crate) fn known(
    alloc: Global,
    functions: &[Placed<'_>],
    numbers: &[u32],
) -> Result<List<Known>, AllocError>
    ensures { IfOk result (λ made. made ≡ spec.known_from 0 numbers.now (held.told_all functions.now)) }
{
    let mut known = List::new(alloc);
    for at in 0..functions.len() {
        known.push(known_as(alloc, &functions[at], number_at(numbers, at))?)?;
    }
    Ok(known)
}

/// Adds a parameter, if it has a name.
fn add_parameter(
    variables: &mut List<Variable>,
    alloc: Global,
    one: &Parameter,
    local: u32,
) -> Result<(), AllocError>
    ensures { OnOk result (variables.new ≡ variables.old ++ spec.named_parameter one.now.name (numbers.written one.now.of) local) }
{
    match &one.name {
        None => Ok(()),
        Some(name) => {
            let name: Name = List::from_slice(alloc, name.name.as_slice())?;
            variables.push(Variable {
                name,
                of: written(&one.of),
                local: LocalId(local),
            })?;
            Ok(())
        }
    }
}

/// The parameters that have names.
fn parameters(alloc: Global, parameters: &[Parameter]) -> Result<List<Variable>, AllocError>
    ensures { IfOk result (λ variables. variables ≡ spec.parameters_from 0 parameters.now) }
{
    let mut variables = List::new(alloc);
    for at in 0..parameters.len() {
        add_parameter(&mut variables, alloc, &parameters[at], number(at)?)?;
    }
    Ok(variables)
}

/// What is known of a function before its body.
pub(crate) fn frame_of(alloc: Global, one: &Placed<'_>, scope: u32) -> Result<Frame, AllocError>
    ensures { IfOk result (λ frame. frame ≡ spec.frame_of (held.told one.now) scope) }
{
    Ok(Frame {
        path: List::from_slice(alloc, one.path.as_slice())?,
        scope,
        result: written(&one.function.result),
        locals: parameter_types(alloc, one.function)?,
        variables: parameters(alloc, one.function.parameters.items.as_slice())?,
    })
}
