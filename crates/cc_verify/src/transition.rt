// What instructions do to the evaluation stack (ECMA-335, III.1.3).
ghost use Rattle.std.specs.Prelude.{◌≡◌};
ghost use Rattle.cc_verify.specs.Transitions.{transition_of, falls, branch_offset, is_leave};

use crate::stack_type::StackType;
use cc_cil::Instruction;

/// What an instruction does to the evaluation stack, and where it leads (ECMA-335, III.3 and III.4). An index counts
/// arguments or local variables from 0, and an offset counts bytes from the next instruction on.
#[derive(Clone, Copy, Debug, PartialEq, Eq)]
pub enum Transition {
    /// Neither takes nor gives.
    Nothing,
    /// Gives an argument.
    LoadArgument(u16),
    /// Takes a value for an argument.
    StoreArgument(u16),
    /// Gives a local variable.
    LoadLocal(u16),
    /// Takes a value for a local variable.
    StoreLocal(u16),
    /// Gives a value of the type.
    Push(StackType),
    /// Gives the value on top once more.
    Duplicate,
    /// Takes any value.
    Pop,
    /// Takes the arguments of the method that a token names, and gives its result.
    Call(u32),
    /// Takes the result alone, and ends the method.
    Return,
    /// Branches.
    Branch(i32),
    /// Takes an integer or a reference, and may branch.
    BranchIf(i32),
    /// Takes two integers of one type, and may branch.
    BranchOrdered(i32),
    /// Takes two integers of one type or two references, and may branch.
    BranchEqual(i32),
    /// Takes two integers of one type, and gives one of the type.
    Binary,
    /// Takes an integer and above it an int32, and gives an integer of the type of the first.
    Shift,
    /// Takes an integer, and gives one of the type.
    Unary,
    /// Takes an integer, and gives a value of the type.
    Convert(StackType),
    /// Takes two integers of one type, and gives an int32.
    Order,
    /// Takes two integers of one type or two references, and gives an int32.
    Equal,
    /// Takes an exception, and goes to a handler.
    Throw,
    /// Goes to a handler with the exception that is handled.
    Rethrow,
    /// Ends a finally or fault handler, and empties the stack.
    EndFinally,
    /// Leaves protected code or a catch handler, and empties the stack.
    Leave(i32),
    /// That of an instruction that the machine does not have.
    NotBuilt,
}

impl Transition {
    /// What an instruction does.
    pub fn of(instruction: Instruction) -> Transition
        ensures { result ≡ transition_of instruction }
    {
        match instruction {
            Instruction::Nop => Transition::Nothing,
            Instruction::LoadArgument0 => Transition::LoadArgument(0),
            Instruction::LoadArgument1 => Transition::LoadArgument(1),
            Instruction::LoadArgument2 => Transition::LoadArgument(2),
            Instruction::LoadArgument3 => Transition::LoadArgument(3),
            Instruction::LoadArgumentShort { index } => Transition::LoadArgument(u16::from(index)),
            Instruction::LoadArgument { index } => Transition::LoadArgument(index),
            Instruction::LoadLocal0 => Transition::LoadLocal(0),
            Instruction::LoadLocal1 => Transition::LoadLocal(1),
            Instruction::LoadLocal2 => Transition::LoadLocal(2),
            Instruction::LoadLocal3 => Transition::LoadLocal(3),
            Instruction::LoadLocalShort { index } => Transition::LoadLocal(u16::from(index)),
            Instruction::LoadLocal { index } => Transition::LoadLocal(index),
            Instruction::StoreLocal0 => Transition::StoreLocal(0),
            Instruction::StoreLocal1 => Transition::StoreLocal(1),
            Instruction::StoreLocal2 => Transition::StoreLocal(2),
            Instruction::StoreLocal3 => Transition::StoreLocal(3),
            Instruction::StoreLocalShort { index } => Transition::StoreLocal(u16::from(index)),
            Instruction::StoreLocal { index } => Transition::StoreLocal(index),
            Instruction::LoadArgumentAddressShort { .. } => Transition::NotBuilt,
            Instruction::LoadArgumentAddress { .. } => Transition::NotBuilt,
            Instruction::LoadLocalAddressShort { .. } => Transition::NotBuilt,
            Instruction::LoadLocalAddress { .. } => Transition::NotBuilt,
            Instruction::StoreArgumentShort { index } => Transition::StoreArgument(u16::from(
                index,
            )),
            Instruction::StoreArgument { index } => Transition::StoreArgument(index),
            Instruction::LoadNull => Transition::Push(StackType::Null),
            Instruction::LoadIntMinus1 => Transition::Push(StackType::Int32),
            Instruction::LoadInt0 => Transition::Push(StackType::Int32),
            Instruction::LoadInt1 => Transition::Push(StackType::Int32),
            Instruction::LoadInt2 => Transition::Push(StackType::Int32),
            Instruction::LoadInt3 => Transition::Push(StackType::Int32),
            Instruction::LoadInt4 => Transition::Push(StackType::Int32),
            Instruction::LoadInt5 => Transition::Push(StackType::Int32),
            Instruction::LoadInt6 => Transition::Push(StackType::Int32),
            Instruction::LoadInt7 => Transition::Push(StackType::Int32),
            Instruction::LoadInt8 => Transition::Push(StackType::Int32),
            Instruction::LoadIntShort { .. } => Transition::Push(StackType::Int32),
            Instruction::LoadInt { .. } => Transition::Push(StackType::Int32),
            Instruction::LoadLong { .. } => Transition::Push(StackType::Int64),
            Instruction::Duplicate => Transition::Duplicate,
            Instruction::Pop => Transition::Pop,
            Instruction::Call { method } => Transition::Call(method),
            Instruction::CallVirtual { .. } => Transition::NotBuilt,
            Instruction::NewObject { .. } => Transition::NotBuilt,
            Instruction::Return => Transition::Return,
            Instruction::BranchShort { offset } => Transition::Branch(i32::from(offset)),
            Instruction::BranchFalseShort { offset } => Transition::BranchIf(i32::from(offset)),
            Instruction::BranchTrueShort { offset } => Transition::BranchIf(i32::from(offset)),
            Instruction::Branch { offset } => Transition::Branch(offset),
            Instruction::BranchFalse { offset } => Transition::BranchIf(offset),
            Instruction::BranchTrue { offset } => Transition::BranchIf(offset),
            Instruction::BranchEqual { offset } => Transition::BranchEqual(offset),
            Instruction::BranchGreaterEqual { offset } => Transition::BranchOrdered(offset),
            Instruction::BranchGreater { offset } => Transition::BranchOrdered(offset),
            Instruction::BranchLessEqual { offset } => Transition::BranchOrdered(offset),
            Instruction::BranchLess { offset } => Transition::BranchOrdered(offset),
            Instruction::BranchNotEqual { offset } => Transition::BranchEqual(offset),
            Instruction::BranchGreaterEqualUnsigned { offset } => Transition::BranchOrdered(offset),
            Instruction::BranchGreaterUnsigned { offset } => Transition::BranchOrdered(offset),
            Instruction::BranchLessEqualUnsigned { offset } => Transition::BranchOrdered(offset),
            Instruction::BranchLessUnsigned { offset } => Transition::BranchOrdered(offset),
            Instruction::Add => Transition::Binary,
            Instruction::Subtract => Transition::Binary,
            Instruction::Multiply => Transition::Binary,
            Instruction::Divide => Transition::Binary,
            Instruction::DivideUnsigned => Transition::Binary,
            Instruction::Remainder => Transition::Binary,
            Instruction::RemainderUnsigned => Transition::Binary,
            Instruction::And => Transition::Binary,
            Instruction::Or => Transition::Binary,
            Instruction::Xor => Transition::Binary,
            Instruction::ShiftLeft => Transition::Shift,
            Instruction::ShiftRight => Transition::Shift,
            Instruction::ShiftRightUnsigned => Transition::Shift,
            Instruction::Negate => Transition::Unary,
            Instruction::Not => Transition::Unary,
            Instruction::ConvertI1 => Transition::Convert(StackType::Int32),
            Instruction::ConvertI2 => Transition::Convert(StackType::Int32),
            Instruction::ConvertI4 => Transition::Convert(StackType::Int32),
            Instruction::ConvertI8 => Transition::Convert(StackType::Int64),
            Instruction::ConvertU4 => Transition::Convert(StackType::Int32),
            Instruction::ConvertU8 => Transition::Convert(StackType::Int64),
            Instruction::ConvertU2 => Transition::Convert(StackType::Int32),
            Instruction::ConvertU1 => Transition::Convert(StackType::Int32),
            Instruction::LoadObject { .. } => Transition::NotBuilt,
            Instruction::StoreObject { .. } => Transition::NotBuilt,
            Instruction::InitializeObject { .. } => Transition::NotBuilt,
            Instruction::LoadString { .. } => Transition::NotBuilt,
            Instruction::CastClass { .. } => Transition::NotBuilt,
            Instruction::IsInstance { .. } => Transition::NotBuilt,
            Instruction::Throw => Transition::Throw,
            Instruction::Rethrow => Transition::Rethrow,
            Instruction::LoadField { .. } => Transition::NotBuilt,
            Instruction::LoadFieldAddress { .. } => Transition::NotBuilt,
            Instruction::StoreField { .. } => Transition::NotBuilt,
            Instruction::LoadStaticField { .. } => Transition::NotBuilt,
            Instruction::LoadStaticFieldAddress { .. } => Transition::NotBuilt,
            Instruction::StoreStaticField { .. } => Transition::NotBuilt,
            Instruction::Box { .. } => Transition::NotBuilt,
            Instruction::UnboxAny { .. } => Transition::NotBuilt,
            Instruction::NewArray { .. } => Transition::NotBuilt,
            Instruction::LoadLength => Transition::NotBuilt,
            Instruction::LoadElementAddress { .. } => Transition::NotBuilt,
            Instruction::LoadElement { .. } => Transition::NotBuilt,
            Instruction::StoreElement { .. } => Transition::NotBuilt,
            Instruction::EndFinally => Transition::EndFinally,
            Instruction::Leave { offset } => Transition::Leave(offset),
            Instruction::LeaveShort { offset } => Transition::Leave(i32::from(offset)),
            Instruction::CompareEqual => Transition::Equal,
            Instruction::CompareGreater => Transition::Order,
            Instruction::CompareGreaterUnsigned => Transition::Order,
            Instruction::CompareLess => Transition::Order,
            Instruction::CompareLessUnsigned => Transition::Order,
            Instruction::LoadFunction { .. } => Transition::NotBuilt,
            Instruction::Constrained { .. } => Transition::NotBuilt,
        }
    }

    /// Whether the next instruction may follow.
    pub fn falls(self) -> bool
        ensures { result ≡ falls self }
    {
        match self {
            Transition::Return => false,
            Transition::Branch(_) => false,
            Transition::Throw => false,
            Transition::Rethrow => false,
            Transition::EndFinally => false,
            Transition::Leave(_) => false,
            _ => true,
        }
    }

    /// The offset of the other place that may follow, from the next instruction on.
    pub fn branch_offset(self) -> Option<i32>
        ensures { result ≡ branch_offset self }
    {
        match self {
            Transition::Branch(offset) => Some(offset),
            Transition::BranchIf(offset) => Some(offset),
            Transition::BranchOrdered(offset) => Some(offset),
            Transition::BranchEqual(offset) => Some(offset),
            Transition::Leave(offset) => Some(offset),
            _ => None,
        }
    }

    /// Whether it leaves.
    pub fn is_leave(self) -> bool
        ensures { result ≡ is_leave self }
    {
        matches!(self, Transition::Leave(_))
    }
}
