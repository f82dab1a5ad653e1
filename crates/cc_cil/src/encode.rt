// Instructions as bytes.
ghost use Rattle.std.specs.Prelude.{◌≡◌, ◌++◌, OnOk, OnErr};
ghost use Rattle.cc_layout.specs.Numbers.{Extends};
ghost use Rattle.cc_cil.specs.Instructions.{opcode, operand, opcode_bytes, operand_bytes, spelling};

use crate::instruction::{Instruction, Operand};
use byteorder::{BigEndian, ByteOrder};
use cc_layout::write_number;
use std::alloc::AllocError;

impl Instruction {
    /// The code of the instruction: one byte, or two that begin with FE.
    pub fn opcode(&self) -> u16
        ensures { result ≡ opcode self.now }
    {
        match self {
            Instruction::Nop => 0x00,
            Instruction::LoadArgument0 => 0x02,
            Instruction::LoadArgument1 => 0x03,
            Instruction::LoadArgument2 => 0x04,
            Instruction::LoadArgument3 => 0x05,
            Instruction::LoadArgumentShort { .. } => 0x0E,
            Instruction::LoadArgument { .. } => 0xFE09,
            Instruction::LoadLocal0 => 0x06,
            Instruction::LoadLocal1 => 0x07,
            Instruction::LoadLocal2 => 0x08,
            Instruction::LoadLocal3 => 0x09,
            Instruction::LoadLocalShort { .. } => 0x11,
            Instruction::LoadLocal { .. } => 0xFE0C,
            Instruction::StoreLocal0 => 0x0A,
            Instruction::StoreLocal1 => 0x0B,
            Instruction::StoreLocal2 => 0x0C,
            Instruction::StoreLocal3 => 0x0D,
            Instruction::StoreLocalShort { .. } => 0x13,
            Instruction::StoreLocal { .. } => 0xFE0E,
            Instruction::LoadArgumentAddressShort { .. } => 0x0F,
            Instruction::LoadArgumentAddress { .. } => 0xFE0A,
            Instruction::LoadLocalAddressShort { .. } => 0x12,
            Instruction::LoadLocalAddress { .. } => 0xFE0D,
            Instruction::StoreArgumentShort { .. } => 0x10,
            Instruction::StoreArgument { .. } => 0xFE0B,
            Instruction::LoadNull => 0x14,
            Instruction::LoadIntMinus1 => 0x15,
            Instruction::LoadInt0 => 0x16,
            Instruction::LoadInt1 => 0x17,
            Instruction::LoadInt2 => 0x18,
            Instruction::LoadInt3 => 0x19,
            Instruction::LoadInt4 => 0x1A,
            Instruction::LoadInt5 => 0x1B,
            Instruction::LoadInt6 => 0x1C,
            Instruction::LoadInt7 => 0x1D,
            Instruction::LoadInt8 => 0x1E,
            Instruction::LoadIntShort { .. } => 0x1F,
            Instruction::LoadInt { .. } => 0x20,
            Instruction::LoadLong { .. } => 0x21,
            Instruction::Duplicate => 0x25,
            Instruction::Pop => 0x26,
            Instruction::Call { .. } => 0x28,
            Instruction::CallVirtual { .. } => 0x6F,
            Instruction::NewObject { .. } => 0x73,
            Instruction::Return => 0x2A,
            Instruction::BranchShort { .. } => 0x2B,
            Instruction::BranchFalseShort { .. } => 0x2C,
            Instruction::BranchTrueShort { .. } => 0x2D,
            Instruction::Branch { .. } => 0x38,
            Instruction::BranchFalse { .. } => 0x39,
            Instruction::BranchTrue { .. } => 0x3A,
            Instruction::BranchEqual { .. } => 0x3B,
            Instruction::BranchGreaterEqual { .. } => 0x3C,
            Instruction::BranchGreater { .. } => 0x3D,
            Instruction::BranchLessEqual { .. } => 0x3E,
            Instruction::BranchLess { .. } => 0x3F,
            Instruction::BranchNotEqual { .. } => 0x40,
            Instruction::BranchGreaterEqualUnsigned { .. } => 0x41,
            Instruction::BranchGreaterUnsigned { .. } => 0x42,
            Instruction::BranchLessEqualUnsigned { .. } => 0x43,
            Instruction::BranchLessUnsigned { .. } => 0x44,
            Instruction::Add => 0x58,
            Instruction::Subtract => 0x59,
            Instruction::Multiply => 0x5A,
            Instruction::Divide => 0x5B,
            Instruction::DivideUnsigned => 0x5C,
            Instruction::Remainder => 0x5D,
            Instruction::RemainderUnsigned => 0x5E,
            Instruction::And => 0x5F,
            Instruction::Or => 0x60,
            Instruction::Xor => 0x61,
            Instruction::ShiftLeft => 0x62,
            Instruction::ShiftRight => 0x63,
            Instruction::ShiftRightUnsigned => 0x64,
            Instruction::Negate => 0x65,
            Instruction::Not => 0x66,
            Instruction::ConvertI1 => 0x67,
            Instruction::ConvertI2 => 0x68,
            Instruction::ConvertI4 => 0x69,
            Instruction::ConvertI8 => 0x6A,
            Instruction::ConvertU4 => 0x6D,
            Instruction::ConvertU8 => 0x6E,
            Instruction::ConvertU2 => 0xD1,
            Instruction::ConvertU1 => 0xD2,
            Instruction::LoadObject { .. } => 0x71,
            Instruction::StoreObject { .. } => 0x81,
            Instruction::InitializeObject { .. } => 0xFE15,
            Instruction::LoadString { .. } => 0x72,
            Instruction::CastClass { .. } => 0x74,
            Instruction::IsInstance { .. } => 0x75,
            Instruction::Throw => 0x7A,
            Instruction::Rethrow => 0xFE1A,
            Instruction::LoadField { .. } => 0x7B,
            Instruction::LoadFieldAddress { .. } => 0x7C,
            Instruction::StoreField { .. } => 0x7D,
            Instruction::LoadStaticField { .. } => 0x7E,
            Instruction::LoadStaticFieldAddress { .. } => 0x7F,
            Instruction::StoreStaticField { .. } => 0x80,
            Instruction::Box { .. } => 0x8C,
            Instruction::UnboxAny { .. } => 0xA5,
            Instruction::NewArray { .. } => 0x8D,
            Instruction::LoadLength => 0x8E,
            Instruction::LoadElementAddress { .. } => 0x8F,
            Instruction::LoadElement { .. } => 0xA3,
            Instruction::StoreElement { .. } => 0xA4,
            Instruction::EndFinally => 0xDC,
            Instruction::Leave { .. } => 0xDD,
            Instruction::LeaveShort { .. } => 0xDE,
            Instruction::CompareEqual => 0xFE01,
            Instruction::CompareGreater => 0xFE02,
            Instruction::CompareGreaterUnsigned => 0xFE03,
            Instruction::CompareLess => 0xFE04,
            Instruction::CompareLessUnsigned => 0xFE05,
            Instruction::LoadFunction { .. } => 0xFE06,
            Instruction::Constrained { .. } => 0xFE16,
        }
    }

    /// The operand that follows the code.
    pub fn operand(&self) -> Operand
        ensures { result ≡ operand self.now }
    {
        match *self {
            Instruction::LoadArgumentShort { index } => Operand::U8(index),
            Instruction::LoadArgument { index } => Operand::U16(index),
            Instruction::LoadLocalShort { index } => Operand::U8(index),
            Instruction::LoadLocal { index } => Operand::U16(index),
            Instruction::StoreLocalShort { index } => Operand::U8(index),
            Instruction::StoreLocal { index } => Operand::U16(index),
            Instruction::LoadArgumentAddressShort { index } => Operand::U8(index),
            Instruction::LoadArgumentAddress { index } => Operand::U16(index),
            Instruction::LoadLocalAddressShort { index } => Operand::U8(index),
            Instruction::LoadLocalAddress { index } => Operand::U16(index),
            Instruction::StoreArgumentShort { index } => Operand::U8(index),
            Instruction::StoreArgument { index } => Operand::U16(index),
            Instruction::LoadIntShort { value } => Operand::I8(value),
            Instruction::LoadInt { value } => Operand::I32(value),
            Instruction::LoadLong { value } => Operand::I64(value),
            Instruction::Call { method } => Operand::Token(method),
            Instruction::CallVirtual { method } => Operand::Token(method),
            Instruction::NewObject { constructor } => Operand::Token(constructor),
            Instruction::BranchShort { offset } => Operand::I8(offset),
            Instruction::BranchFalseShort { offset } => Operand::I8(offset),
            Instruction::BranchTrueShort { offset } => Operand::I8(offset),
            Instruction::Branch { offset } => Operand::I32(offset),
            Instruction::BranchFalse { offset } => Operand::I32(offset),
            Instruction::BranchTrue { offset } => Operand::I32(offset),
            Instruction::BranchEqual { offset } => Operand::I32(offset),
            Instruction::BranchGreaterEqual { offset } => Operand::I32(offset),
            Instruction::BranchGreater { offset } => Operand::I32(offset),
            Instruction::BranchLessEqual { offset } => Operand::I32(offset),
            Instruction::BranchLess { offset } => Operand::I32(offset),
            Instruction::BranchNotEqual { offset } => Operand::I32(offset),
            Instruction::BranchGreaterEqualUnsigned { offset } => Operand::I32(offset),
            Instruction::BranchGreaterUnsigned { offset } => Operand::I32(offset),
            Instruction::BranchLessEqualUnsigned { offset } => Operand::I32(offset),
            Instruction::BranchLessUnsigned { offset } => Operand::I32(offset),
            Instruction::LoadObject { type_token } => Operand::Token(type_token),
            Instruction::StoreObject { type_token } => Operand::Token(type_token),
            Instruction::InitializeObject { type_token } => Operand::Token(type_token),
            Instruction::LoadString { string } => Operand::Token(string),
            Instruction::CastClass { type_token } => Operand::Token(type_token),
            Instruction::IsInstance { type_token } => Operand::Token(type_token),
            Instruction::LoadField { field } => Operand::Token(field),
            Instruction::LoadFieldAddress { field } => Operand::Token(field),
            Instruction::StoreField { field } => Operand::Token(field),
            Instruction::LoadStaticField { field } => Operand::Token(field),
            Instruction::LoadStaticFieldAddress { field } => Operand::Token(field),
            Instruction::StoreStaticField { field } => Operand::Token(field),
            Instruction::Box { type_token } => Operand::Token(type_token),
            Instruction::UnboxAny { type_token } => Operand::Token(type_token),
            Instruction::NewArray { type_token } => Operand::Token(type_token),
            Instruction::LoadElementAddress { type_token } => Operand::Token(type_token),
            Instruction::LoadElement { type_token } => Operand::Token(type_token),
            Instruction::StoreElement { type_token } => Operand::Token(type_token),
            Instruction::Leave { offset } => Operand::I32(offset),
            Instruction::LeaveShort { offset } => Operand::I8(offset),
            Instruction::LoadFunction { method } => Operand::Token(method),
            Instruction::Constrained { type_token } => Operand::Token(type_token),
            _ => Operand::Nothing,
        }
    }
}

fn write_opcode(opcode: u16, into: &mut Vec<u8>) -> Result<(), AllocError>
    ensures ok { OnOk result (into.new.items ≡ into.old.items ++ opcode_bytes opcode) }
    ensures err { OnErr result (into.new.items ≡ into.old.items) }
{
    if opcode < 0x100 {
        into.push(opcode as u8)?;
    } else {
        let mut bytes = [0; 2];
        BigEndian::write_u16(&mut bytes, opcode);
        into.extend_from_slice(&bytes)?;
    }
    Ok(())
}

fn write_operand(operand: Operand, into: &mut Vec<u8>) -> Result<(), AllocError>
    ensures ok { OnOk result (into.new.items ≡ into.old.items ++ operand_bytes operand) }
    ensures err { OnErr result (into.new.items ≡ into.old.items) }
{
    match operand {
        Operand::Nothing => Ok(()),
        Operand::U8(n) => write_number(1, n as u64, into),
        Operand::I8(n) => write_number(1, n.cast_unsigned() as u64, into),
        Operand::U16(n) => write_number(2, n as u64, into),
        Operand::I32(n) => write_number(4, n.cast_unsigned() as u64, into),
        Operand::I64(n) => write_number(8, n.cast_unsigned(), into),
        Operand::Token(n) => write_number(4, n as u64, into),
    }
}

/// Appends the spelling of an instruction: its code, then its operand, the lowest byte first (ECMA-335, III.1.2).
/// Without memory a prefix of the spelling is appended.
pub fn encode_one(instruction: &Instruction, into: &mut Vec<u8>) -> Result<(), AllocError>
    ensures ok { OnOk result (into.new.items ≡ into.old.items ++ spelling instruction.now) }
    ensures err { OnErr result (Extends into.old.items into.new.items (spelling instruction.now)) }
{
    write_opcode(instruction.opcode(), into)?;
    write_operand(instruction.operand(), into)
}
