// Where branches and leaves lead (ECMA-335, III.3.15 and III.3.46).
ghost use Rattle.std.specs.Prelude.{◌≡◌, ◌<◌, ◌^◌};
ghost use Rattle.cc_execution.specs.Operations as operations;

use cc_core::Operator;
use cc_execution::Operation;

// The target of an offset that is counted from the next instruction on, none where it lies before the code.
fn target(next: u32, offset: i32) -> Option<u32>
    requires { next < 2 ^ 31 }
    ensures { result ≡ operations.target next offset }
{
    let at = i64::from(next) + i64::from(offset);
    if at < 0 { None } else { Some(at as u32) }
}

/// A branch.
pub fn branch(next: u32, offset: i32) -> Option<Operation>
    requires { next < 2 ^ 31 }
    ensures { result ≡ operations.branch next offset }
{
    match target(next, offset) {
        None => None,
        Some(at) => Some(Operation::Branch(at)),
    }
}

/// A branch on the truth of a value.
pub fn branch_if(truth: bool, next: u32, offset: i32) -> Option<Operation>
    requires { next < 2 ^ 31 }
    ensures { result ≡ operations.branch_if truth next offset }
{
    match target(next, offset) {
        None => None,
        Some(at) => Some(Operation::BranchIf(truth, at)),
    }
}

/// A branch on a comparison.
pub fn branch_compare(operator: Operator, signed: bool, next: u32, offset: i32) -> Option<Operation>
    requires { next < 2 ^ 31 }
    ensures { result ≡ operations.branch_compare operator signed next offset }
{
    match target(next, offset) {
        None => None,
        Some(at) => Some(Operation::BranchCompare(operator, signed, at)),
    }
}

/// A leave.
pub fn leave(next: u32, offset: i32) -> Option<Operation>
    requires { next < 2 ^ 31 }
    ensures { result ≡ operations.leave next offset }
{
    match target(next, offset) {
        None => None,
        Some(at) => Some(Operation::Leave(at)),
    }
}
