// The variables of a function while its body is typed (ECMA-372, 16.4; ISO/IEC 14882:2003, 3.3.2).
ghost use Rattle.std.specs.Prelude.{◌≡◌, length, take, IfOk, OnOk};
ghost use Rattle.cc_statements.specs.Steps as spec;

use cc_base::{List, LocalId, Name};
use cc_operations::{Frame, Variable};
use cc_tree::FundamentalType;
use std::alloc::{AllocError, Global};
use std::mem;

/// The number of the next variable. A function has fewer than 2^32, since it has fewer nodes; more would want more memory than
/// there is.
fn next_local(frame: &Frame) -> Result<LocalId, AllocError>
    ensures { IfOk result (λ local. local ≡ spec.local_id (length frame.now.locals)) }
{
    match u32::try_from(frame.locals.len()) {
        Ok(number) => Ok(LocalId(number)),
        Err(_) => Err(AllocError),
    }
}

/// Adds a variable without a name, and gives its number.
pub(crate) fn add_temporary(frame: &mut Frame, of: FundamentalType) -> Result<LocalId, AllocError>
    ensures number { IfOk result (λ local. local ≡ spec.local_id (length frame.old.locals)) }
    ensures added { OnOk result (frame.new ≡ spec.with_temporary of frame.old) }
{
    let local = next_local(frame)?;
    frame.locals.push(of)?;
    Ok(local)
}

/// Adds a variable that can be named from here on, and gives its number.
pub(crate) fn add_variable(
    alloc: Global,
    frame: &mut Frame,
    of: FundamentalType,
    name: &Name,
) -> Result<LocalId, AllocError>
    ensures number { IfOk result (λ local. local ≡ spec.local_id (length frame.old.locals)) }
    ensures added { OnOk result (frame.new ≡ spec.with_variable of name.now frame.old) }
{
    let local = next_local(frame)?;
    let name = List::from_slice(alloc, name.as_slice())?;
    frame.locals.push(of)?;
    frame.variables.push(Variable { name, of, local })?;
    Ok(local)
}

/// Leaves a scope before which so many variables could be named.
pub(crate) fn leave(alloc: Global, frame: &mut Frame, count: usize)
    ensures { frame.new ≡ spec.with_first count frame.old }
{
    let variables = mem::replace(&mut frame.variables, List::new(alloc));
    let mut variables = variables.into_vec();
    variables.truncate(count);
    frame.variables = List::from_vec(variables);
}
