// What the machine does at an instruction.
ghost use Rattle.std.specs.Prelude.{◌≡◌};
ghost use Rattle.cc_cil.specs.Steps.{action_of};

use crate::Instruction;

/// What the machine does at an instruction of a straight program.
#[derive(Clone, Copy, Debug, PartialEq, Eq)]
pub enum Action {
    /// Pushes a constant, given as its 32 bits (ECMA-335, III.3.40).
    Push(u32),
    /// Pops two values and pushes their sum, which wraps (III.3.1).
    Add,
    /// Pops two values and pushes their difference, which wraps (III.3.64).
    Subtract,
    /// Pops two values and pushes their product, which wraps (III.3.48).
    Multiply,
    /// Pops a value and prints it as a line: a call of `System.Console::WriteLine(int32)`.
    WriteLine,
    /// Ends the method with the value that is popped (III.3.56).
    Return,
}

/// The token by which a straight program names `System.Console::WriteLine(int32)`: row 1 of MemberRef.
pub const WRITE_LINE: u32 = 0x0A00_0001;

impl Action {
    /// What the machine does at an instruction; `None` exactly where the machine does not have it yet.
    pub fn of(instruction: &Instruction) -> Option<Action>
        ensures { result ≡ action_of instruction.now }
    {
        match *instruction {
            Instruction::LoadIntMinus1 => Some(Action::Push(0xFFFF_FFFF)),
            Instruction::LoadInt0 => Some(Action::Push(0)),
            Instruction::LoadInt1 => Some(Action::Push(1)),
            Instruction::LoadInt2 => Some(Action::Push(2)),
            Instruction::LoadInt3 => Some(Action::Push(3)),
            Instruction::LoadInt4 => Some(Action::Push(4)),
            Instruction::LoadInt5 => Some(Action::Push(5)),
            Instruction::LoadInt6 => Some(Action::Push(6)),
            Instruction::LoadInt7 => Some(Action::Push(7)),
            Instruction::LoadInt8 => Some(Action::Push(8)),
            Instruction::LoadIntShort { value } => Some(Action::Push(i32::from(
                value,
            ).cast_unsigned())),
            Instruction::LoadInt { value } => Some(Action::Push(value.cast_unsigned())),
            Instruction::Call { method } if method == WRITE_LINE => Some(Action::WriteLine),
            Instruction::Return => Some(Action::Return),
            Instruction::Add => Some(Action::Add),
            Instruction::Subtract => Some(Action::Subtract),
            Instruction::Multiply => Some(Action::Multiply),
            _ => None,
        }
    }
}
