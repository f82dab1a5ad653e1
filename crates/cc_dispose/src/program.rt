// Whole programs become region programs.
ghost use Rattle.std.specs.Prelude.{◌≡◌, IfOk};
ghost use Rattle.cc_dispose.specs.Keeps.{KeepsTheRun};
ghost use Rattle.cc_dispose.specs.Lower.{IsLowered, AreLowered, IsLoweredProgram};

use crate::copied::{copied_type, copied_types};
use crate::statements::lower_statement;
use cc_base::List;
use cc_core::{FunctionBody, Program};
use cc_region::{RegionFunction, RegionProgram};
use std::alloc::{AllocError, Global};

/// The function of a body.
fn lower_function(alloc: Global, body: &FunctionBody) -> Result<RegionFunction, AllocError>
    ensures { IfOk result (λ function. IsLowered body.now function) }
{
    let result = copied_type(alloc, &body.result)?;
    let locals = copied_types(alloc, body.locals.as_slice())?;
    let region = lower_statement(alloc, 0, &body.body)?;
    Ok(RegionFunction {
        method: body.method,
        result,
        locals,
        body: region,
    })
}

/// The functions of bodies, in their order.
fn lower_functions(
    alloc: Global,
    bodies: &[FunctionBody],
) -> Result<List<RegionFunction>, AllocError>
    ensures { IfOk result (λ functions. AreLowered bodies.now functions) }
{
    let mut functions = List::new(alloc);
    for body in bodies {
        functions.push(lower_function(alloc, body)?)?;
    }
    Ok(functions)
}

/// The region program of a typed program, over the same classes: one function for each body in their order, whose region is
/// that of the body's statement. For every input, all arguments, all limits and every bound of turns it prints and tells the
/// same, begins the same work, and ends or goes on alike.
pub fn lower<'a>(alloc: Global, program: &'a Program) -> Result<RegionProgram<'a>, AllocError>
    ensures lowered { IfOk result (IsLoweredProgram program.now) }
    ensures keeps { IfOk result (KeepsTheRun program.now) }
{
    let functions = lower_functions(alloc, program.bodies())?;
    Ok(RegionProgram::new(program.classes(), functions, program.main()))
}
