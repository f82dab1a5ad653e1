// The operations of a method's code (ECMA-335, III.1.2).
ghost use Rattle.std.specs.Prelude.{◌≡◌, ◌≤◌, ◌<◌, ◌^◌, length, List, IfOk};
ghost use Rattle.cc_execution.specs.declared.executable.PlacedOperation.{PlacedOperation};
ghost use Rattle.cc_execution.specs.Operations.{Names};
ghost use Rattle.cc_execution.specs.Loaded.{Decodes};
ghost use Rattle.cc_decode.specs.Scope.{IsScope, HasOperations, Continues};

use crate::members::Members;
use crate::resolve::resolve;
use crate::variables::Variables;
use cc_base::List;
use cc_cil::decode_one;
use cc_execution::PlacedOperation;
use std::alloc::{AllocError, Global};

// The operation at an offset of the code.
fn operation_at(members: &Members, variables: &Variables, code: &[u8], at: u32) -> PlacedOperation
    requires few { variables.now.loaded < 2 ^ 30 }
    requires short { length code.now < 2 ^ 31 }
    requires within { at < length code.now }
    requires there { HasOperations members.now variables.now code.now at }
    ensures within { result.next ≤ length code.now }
    ensures later { at < result.next }
    ensures goes_on { (names : Names) → IsScope names members.now variables.now → (operations : List PlacedOperation) → Decodes names code.now at operations → Continues names code.now result operations }
{
    let Ok((instruction, next)) = decode_one(code, at) else {
        unreachable!()
    };
    let Some(operation) = resolve(members, variables, next, instruction) else {
        unreachable!()
    };
    PlacedOperation {
        at,
        operation,
        next,
    }
}

/// The operations of code, each of whose instructions the machine has, in order of their offsets.
pub fn operations(
    alloc: Global,
    members: &Members,
    variables: &Variables,
    code: &[u8],
) -> Result<List<PlacedOperation>, AllocError>
    requires few { variables.now.loaded < 2 ^ 30 }
    requires short { length code.now < 2 ^ 31 }
    requires there { HasOperations members.now variables.now code.now 0 }
    ensures { IfOk result (λ found. (names : Names) → IsScope names members.now variables.now → (operations : List PlacedOperation) → Decodes names code.now 0 operations → found ≡ operations) }
{
    let mut found = List::new(alloc);
    let mut at = 0;
    while (at as usize) < code.len() {
        let placed = operation_at(members, variables, code, at);
        found.push(placed)?;
        at = placed.next;
    }
    Ok(found)
}
