// The instructions of a method's code, one after another (ECMA-335, III.1.2).
use cc_cil::Instruction;

/// An instruction, the offset at which it begins and the one behind it, in bytes of the code.
#[derive(Clone, Copy, Debug, PartialEq, Eq)]
pub struct Place {
    pub at: u32,
    pub instruction: Instruction,
    pub next: u32,
}

/// The first rule that a method breaks, and the offset at which it does, in bytes of the code.
#[derive(Clone, Copy, Debug, PartialEq, Eq)]
pub struct Broken {
    pub at: u32,
    pub rule: u8,
}
