// The rules on the code of a module's methods, in order of rows (ECMA-335, III.1.7 and III.1.8).
ghost use Rattle.std.specs.Prelude.{◌≡◌, ◌+◌, ◌<◌, ◌^◌, length, slice_get, Some, IfOk};
ghost use Rattle.cc_module.specs.Methods.{body_of};
ghost use Rattle.cc_verify.specs.ClassRules.{body_at};
ghost use Rattle.cc_verify.specs.Verified as spec;

use crate::body::body_verdict;
use crate::class_rules::{at_row, body_at, first_class_fault, row_of};
use crate::environment::{Environment, Frame, MethodType};
use crate::fault::VerifyFault;
use crate::naming::environment_of;
use crate::places::Broken;
use crate::readings::read_signatures;
use crate::sizes::short;
use crate::stack_type::StackType;
use cc_base::List;
use cc_cil::Body;
use cc_module::Module;
use std::alloc::{AllocError, Global};

// The types of the local variables that a body's token names, none for 0.
fn locals_named(
    alloc: Global,
    environment: &Environment,
    token: u32,
) -> Result<List<StackType>, AllocError>
    ensures { IfOk result (λ types. types ≡ spec.some_locals (spec.locals_named environment.now token)) }
{
    if token == 0 {
        return Ok(List::new(alloc));
    }
    match at_row(environment.locals.as_slice(), row_of(token)) {
        None => Ok(List::new(alloc)),
        Some(types) => {
            let types = List::from_slice(alloc, types.as_slice())?;
            Ok(types)
        }
    }
}

// The variables of a method with a body.
fn frame_of(
    alloc: Global,
    environment: &Environment,
    method: &MethodType,
    body: &Body,
) -> Result<Frame, AllocError>
    ensures { IfOk result (λ frame. frame ≡ spec.frame_of environment.now method.now body.now) }
{
    let arguments = List::from_slice(alloc, method.parameters.as_slice())?;
    let locals = locals_named(alloc, environment, body.locals)?;
    Ok(Frame {
        arguments,
        locals,
        result: method.result,
    })
}

// The first rule that a body breaks, of the method that has so many before it.
fn own_fault(
    alloc: Global,
    environment: Environment,
    before: u32,
    body: &Body,
) -> Result<(Environment, Option<Broken>), AllocError>
    requires { before < length environment.methods }
    ensures same { IfOk result (λ r. r.0 ≡ environment) }
    ensures verdict { IfOk result (λ r. (t : MethodType) → slice_get environment.methods before ≡ Some t → spec.BodyVerdict environment t (Some body.now) r.1) }
{
    short(body.code.len())?;
    let method = &environment.methods.as_slice()[before as usize];
    let frame = frame_of(alloc, &environment, method, body)?;
    let found = body_verdict(alloc, environment, frame, body)?;
    Ok(found)
}

// The first rule that a method's code breaks, where the method has so many before it; none where it has no body.
fn body_fault(
    alloc: Global,
    module: &Module,
    environment: Environment,
    before: u32,
) -> Result<(Environment, Option<Broken>), AllocError>
    requires there { before < length environment.methods }
    requires room { before + 1 < 2 ^ 32 }
    ensures same { IfOk result (λ r. r.0 ≡ environment) }
    ensures verdict { IfOk result (λ r. (t : MethodType) → slice_get environment.methods before ≡ Some t → spec.BodyVerdict environment t (body_at «module».now (body_of «module».now (before + 1))) r.1) }
{
    match body_at(module, before + 1) {
        None => Ok((environment, None)),
        Some(body) => {
            let found = own_fault(alloc, environment, before, body)?;
            Ok(found)
        }
    }
}

// The first rule that the code of a method breaks, and the method's row.
fn code_fault(
    alloc: Global,
    module: &Module,
    environment: Environment,
) -> Result<Option<(u32, Broken)>, AllocError>
    ensures { IfOk result (λ verdict. spec.CodesVerdict «module».now environment 1 environment.methods verdict) }
{
    let count = short(environment.methods.len())?;
    let mut around = environment;
    for before in 0..count {
        let (back, found) = body_fault(alloc, module, around, before)?;
        around = back;
        match found {
            None => {}
            Some(broken) => return Ok(Some((before + 1, broken))),
        }
    }
    Ok(None)
}

/// The first rule that a module breaks.
pub fn first_fault(alloc: Global, module: &Module) -> Result<Option<VerifyFault>, AllocError>
    ensures { IfOk result (λ verdict. spec.FirstFault «module».now verdict) }
{
    let read = read_signatures(alloc, module)?;
    let found = first_class_fault(module, &read)?;
    match found {
        None => {}
        Some(at) => return Ok(Some(VerifyFault::BadClass(at.0, at.1))),
    }
    let environment = environment_of(alloc, module, &read)?;
    let code = code_fault(alloc, module, environment)?;
    match code {
        None => Ok(None),
        Some(at) => Ok(Some(VerifyFault::BadCode(at.0, at.1.at, at.1.rule))),
    }
}
