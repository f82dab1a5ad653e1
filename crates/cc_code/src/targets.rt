// Where exits and branches lead.
ghost use Rattle.std.specs.Prelude.{◌≡◌, ◌<◌, ◌^◌, ◌+◌, ◌∷◌, IfOk};
ghost use Rattle.cc_cil.specs.declared.instruction.Instruction.TheVariants as the;
ghost use Rattle.cc_code.specs.Instructions as spec;
ghost use Rattle.cc_code.specs.Regions as regions;

use cc_cil::Instruction;
use std::alloc::{AllocError, Global};

/// Where the exits lead that are aimed at a construct, as offsets in the code of the function.
#[derive(Clone, Copy, Debug, PartialEq, Eq)]
pub struct Target {
    /// Where a Break leads: to the last instruction of the construct.
    pub breaks: u32,
    /// Where a Continue leads: to what a Loop does after each turn.
    pub continues: u32,
}

/// The targets inside one more construct, the innermost first.
pub(crate) fn within(
    alloc: Global,
    around: &[Target],
    breaks: u32,
    continues: u32,
) -> Result<Vec<Target>, AllocError>
    ensures { IfOk result (λ inner. inner.items ≡ regions.target breaks continues ∷ around.now) }
{
    let mut inner = Vec::new(alloc);
    inner.push(Target { breaks, continues })?;
    inner.extend_from_slice(around)?;
    Ok(inner)
}

/// Where a Break of a number leads; to the function's start where it has no target.
pub(crate) fn break_at(around: &[Target], number: u32) -> u32
    ensures { result ≡ regions.break_at around.now number }
{
    match around.get(number as usize) {
        Some(target) => target.breaks,
        None => 0,
    }
}

/// Where a Continue of a number leads; to the function's start where it has no target.
pub(crate) fn continue_at(around: &[Target], number: u32) -> u32
    ensures { result ≡ regions.continue_at around.now number }
{
    match around.get(number as usize) {
        Some(target) => target.continues,
        None => 0,
    }
}

/// A `leave` at an offset, to another one.
pub(crate) fn leave(at: u32, to: u32) -> Instruction
    requires { at + 5 < 2 ^ 32 }
    ensures { result ≡ regions.leave at to }
{
    Instruction::Leave {
        offset: to.wrapping_sub(at + 5).cast_signed(),
    }
}

/// Branches over so many bytes.
pub(crate) fn branch(bytes: u32) -> Instruction
    requires { bytes < 2 ^ 31 }
    ensures { result ≡ the.Branch (spec.ahead bytes) }
{
    Instruction::Branch {
        offset: bytes as i32,
    }
}

/// Branches over so many bytes where a condition holds.
pub(crate) fn branch_if_true(bytes: u32) -> Instruction
    requires { bytes < 2 ^ 31 }
    ensures { result ≡ the.BranchTrue (spec.ahead bytes) }
{
    Instruction::BranchTrue {
        offset: bytes as i32,
    }
}

/// Branches over so many bytes where two values are equal.
pub(crate) fn branch_if_equal(bytes: u32) -> Instruction
    requires { bytes < 2 ^ 31 }
    ensures { result ≡ the.BranchEqual (spec.ahead bytes) }
{
    Instruction::BranchEqual {
        offset: bytes as i32,
    }
}

/// Branches back over so many bytes where a condition holds.
pub(crate) fn branch_back_if_true(bytes: u32) -> Instruction
    requires { bytes < 2 ^ 31 }
    ensures { result ≡ the.BranchTrue (spec.back bytes) }
{
    Instruction::BranchTrue {
        offset: 0 - bytes as i32,
    }
}
