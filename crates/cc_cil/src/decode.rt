// Instructions out of bytes.
ghost use Rattle.std.specs.Prelude.{◌≡◌, ◌≢◌, ◌<◌, ◌≤◌, ◌^◌, ◌+◌, ◌++◌, ℕ, ℤ, List, [], ◌∷◌, ◌⊎◌, length, drop, IfSome, IfNone, MatchOption, IfOk, IfErr, Ok, Err};
ghost use Rattle.cc_cil.specs.Instructions.{opcode, operand, row, opcode_bytes, operand_bytes, spelling, IsUnlisted, IsInRange, IsFront, BeginsNone};
ghost use Rattle.cc_cil.specs.declared.instruction.Operand.TheVariants.{U8, I8, U16, I32, I64, Token};
ghost use Rattle.cc_cil.specs.declared.instruction.Instruction.{Instruction};

use crate::fault::CodeFault;
use crate::instruction::{Instruction, Operand};
use cc_layout::{split_u8, split_u16, split_u32, split_u64};

// The instruction of an opcode, with 0 as operand.
fn with_opcode(code: u16) -> Option<Instruction>
    ensures found { IfSome result (λ i. opcode i ≡ code) }
    ensures none { IfNone result (IsUnlisted code) }
{
    match code {
        0x00 => Some(Instruction::Nop),
        0x02 => Some(Instruction::LoadArgument0),
        0x03 => Some(Instruction::LoadArgument1),
        0x04 => Some(Instruction::LoadArgument2),
        0x05 => Some(Instruction::LoadArgument3),
        0x0E => Some(Instruction::LoadArgumentShort { index: 0 }),
        0xFE09 => Some(Instruction::LoadArgument { index: 0 }),
        0x06 => Some(Instruction::LoadLocal0),
        0x07 => Some(Instruction::LoadLocal1),
        0x08 => Some(Instruction::LoadLocal2),
        0x09 => Some(Instruction::LoadLocal3),
        0x11 => Some(Instruction::LoadLocalShort { index: 0 }),
        0xFE0C => Some(Instruction::LoadLocal { index: 0 }),
        0x0A => Some(Instruction::StoreLocal0),
        0x0B => Some(Instruction::StoreLocal1),
        0x0C => Some(Instruction::StoreLocal2),
        0x0D => Some(Instruction::StoreLocal3),
        0x13 => Some(Instruction::StoreLocalShort { index: 0 }),
        0xFE0E => Some(Instruction::StoreLocal { index: 0 }),
        0x0F => Some(Instruction::LoadArgumentAddressShort { index: 0 }),
        0xFE0A => Some(Instruction::LoadArgumentAddress { index: 0 }),
        0x12 => Some(Instruction::LoadLocalAddressShort { index: 0 }),
        0xFE0D => Some(Instruction::LoadLocalAddress { index: 0 }),
        0x10 => Some(Instruction::StoreArgumentShort { index: 0 }),
        0xFE0B => Some(Instruction::StoreArgument { index: 0 }),
        0x14 => Some(Instruction::LoadNull),
        0x15 => Some(Instruction::LoadIntMinus1),
        0x16 => Some(Instruction::LoadInt0),
        0x17 => Some(Instruction::LoadInt1),
        0x18 => Some(Instruction::LoadInt2),
        0x19 => Some(Instruction::LoadInt3),
        0x1A => Some(Instruction::LoadInt4),
        0x1B => Some(Instruction::LoadInt5),
        0x1C => Some(Instruction::LoadInt6),
        0x1D => Some(Instruction::LoadInt7),
        0x1E => Some(Instruction::LoadInt8),
        0x1F => Some(Instruction::LoadIntShort { value: 0 }),
        0x20 => Some(Instruction::LoadInt { value: 0 }),
        0x21 => Some(Instruction::LoadLong { value: 0 }),
        0x25 => Some(Instruction::Duplicate),
        0x26 => Some(Instruction::Pop),
        0x28 => Some(Instruction::Call { method: 0 }),
        0x6F => Some(Instruction::CallVirtual { method: 0 }),
        0x73 => Some(Instruction::NewObject { constructor: 0 }),
        0x2A => Some(Instruction::Return),
        0x2B => Some(Instruction::BranchShort { offset: 0 }),
        0x2C => Some(Instruction::BranchFalseShort { offset: 0 }),
        0x2D => Some(Instruction::BranchTrueShort { offset: 0 }),
        0x38 => Some(Instruction::Branch { offset: 0 }),
        0x39 => Some(Instruction::BranchFalse { offset: 0 }),
        0x3A => Some(Instruction::BranchTrue { offset: 0 }),
        0x3B => Some(Instruction::BranchEqual { offset: 0 }),
        0x3C => Some(Instruction::BranchGreaterEqual { offset: 0 }),
        0x3D => Some(Instruction::BranchGreater { offset: 0 }),
        0x3E => Some(Instruction::BranchLessEqual { offset: 0 }),
        0x3F => Some(Instruction::BranchLess { offset: 0 }),
        0x40 => Some(Instruction::BranchNotEqual { offset: 0 }),
        0x41 => Some(Instruction::BranchGreaterEqualUnsigned { offset: 0 }),
        0x42 => Some(Instruction::BranchGreaterUnsigned { offset: 0 }),
        0x43 => Some(Instruction::BranchLessEqualUnsigned { offset: 0 }),
        0x44 => Some(Instruction::BranchLessUnsigned { offset: 0 }),
        0x58 => Some(Instruction::Add),
        0x59 => Some(Instruction::Subtract),
        0x5A => Some(Instruction::Multiply),
        0x5B => Some(Instruction::Divide),
        0x5C => Some(Instruction::DivideUnsigned),
        0x5D => Some(Instruction::Remainder),
        0x5E => Some(Instruction::RemainderUnsigned),
        0x5F => Some(Instruction::And),
        0x60 => Some(Instruction::Or),
        0x61 => Some(Instruction::Xor),
        0x62 => Some(Instruction::ShiftLeft),
        0x63 => Some(Instruction::ShiftRight),
        0x64 => Some(Instruction::ShiftRightUnsigned),
        0x65 => Some(Instruction::Negate),
        0x66 => Some(Instruction::Not),
        0x67 => Some(Instruction::ConvertI1),
        0x68 => Some(Instruction::ConvertI2),
        0x69 => Some(Instruction::ConvertI4),
        0x6A => Some(Instruction::ConvertI8),
        0x6D => Some(Instruction::ConvertU4),
        0x6E => Some(Instruction::ConvertU8),
        0xD1 => Some(Instruction::ConvertU2),
        0xD2 => Some(Instruction::ConvertU1),
        0x71 => Some(Instruction::LoadObject { type_token: 0 }),
        0x81 => Some(Instruction::StoreObject { type_token: 0 }),
        0xFE15 => Some(Instruction::InitializeObject { type_token: 0 }),
        0x72 => Some(Instruction::LoadString { string: 0 }),
        0x74 => Some(Instruction::CastClass { type_token: 0 }),
        0x75 => Some(Instruction::IsInstance { type_token: 0 }),
        0x7A => Some(Instruction::Throw),
        0xFE1A => Some(Instruction::Rethrow),
        0x7B => Some(Instruction::LoadField { field: 0 }),
        0x7C => Some(Instruction::LoadFieldAddress { field: 0 }),
        0x7D => Some(Instruction::StoreField { field: 0 }),
        0x7E => Some(Instruction::LoadStaticField { field: 0 }),
        0x7F => Some(Instruction::LoadStaticFieldAddress { field: 0 }),
        0x80 => Some(Instruction::StoreStaticField { field: 0 }),
        0x8C => Some(Instruction::Box { type_token: 0 }),
        0xA5 => Some(Instruction::UnboxAny { type_token: 0 }),
        0x8D => Some(Instruction::NewArray { type_token: 0 }),
        0x8E => Some(Instruction::LoadLength),
        0x8F => Some(Instruction::LoadElementAddress { type_token: 0 }),
        0xA3 => Some(Instruction::LoadElement { type_token: 0 }),
        0xA4 => Some(Instruction::StoreElement { type_token: 0 }),
        0xDC => Some(Instruction::EndFinally),
        0xDD => Some(Instruction::Leave { offset: 0 }),
        0xDE => Some(Instruction::LeaveShort { offset: 0 }),
        0xFE01 => Some(Instruction::CompareEqual),
        0xFE02 => Some(Instruction::CompareGreater),
        0xFE03 => Some(Instruction::CompareGreaterUnsigned),
        0xFE04 => Some(Instruction::CompareLess),
        0xFE05 => Some(Instruction::CompareLessUnsigned),
        0xFE06 => Some(Instruction::LoadFunction { method: 0 }),
        0xFE16 => Some(Instruction::Constrained { type_token: 0 }),
        _ => None,
    }
}

fn with_u8(instruction: Instruction, n: u8) -> Instruction
    requires { (m : ℕ) × (operand instruction ≡ U8 m) }
    ensures { row result ≡ (opcode instruction, U8 n) }
{
    match instruction {
        Instruction::LoadArgumentShort { .. } => Instruction::LoadArgumentShort { index: n },
        Instruction::LoadLocalShort { .. } => Instruction::LoadLocalShort { index: n },
        Instruction::StoreLocalShort { .. } => Instruction::StoreLocalShort { index: n },
        Instruction::LoadArgumentAddressShort { .. } => Instruction::LoadArgumentAddressShort {
            index: n,
        },
        Instruction::LoadLocalAddressShort { .. } => Instruction::LoadLocalAddressShort {
            index: n,
        },
        Instruction::StoreArgumentShort { .. } => Instruction::StoreArgumentShort { index: n },
        _ => unreachable!(),
    }
}

fn with_i8(instruction: Instruction, n: i8) -> Instruction
    requires { (m : ℤ) × (operand instruction ≡ I8 m) }
    ensures { row result ≡ (opcode instruction, I8 n) }
{
    match instruction {
        Instruction::LoadIntShort { .. } => Instruction::LoadIntShort { value: n },
        Instruction::BranchShort { .. } => Instruction::BranchShort { offset: n },
        Instruction::BranchFalseShort { .. } => Instruction::BranchFalseShort { offset: n },
        Instruction::BranchTrueShort { .. } => Instruction::BranchTrueShort { offset: n },
        Instruction::LeaveShort { .. } => Instruction::LeaveShort { offset: n },
        _ => unreachable!(),
    }
}

fn with_u16(instruction: Instruction, n: u16) -> Instruction
    requires { (m : ℕ) × (operand instruction ≡ U16 m) }
    ensures { row result ≡ (opcode instruction, U16 n) }
{
    match instruction {
        Instruction::LoadArgument { .. } => Instruction::LoadArgument { index: n },
        Instruction::LoadLocal { .. } => Instruction::LoadLocal { index: n },
        Instruction::StoreLocal { .. } => Instruction::StoreLocal { index: n },
        Instruction::LoadArgumentAddress { .. } => Instruction::LoadArgumentAddress { index: n },
        Instruction::LoadLocalAddress { .. } => Instruction::LoadLocalAddress { index: n },
        Instruction::StoreArgument { .. } => Instruction::StoreArgument { index: n },
        _ => unreachable!(),
    }
}

fn with_i32(instruction: Instruction, n: i32) -> Instruction
    requires { (m : ℤ) × (operand instruction ≡ I32 m) }
    ensures { row result ≡ (opcode instruction, I32 n) }
{
    match instruction {
        Instruction::LoadInt { .. } => Instruction::LoadInt { value: n },
        Instruction::Branch { .. } => Instruction::Branch { offset: n },
        Instruction::BranchFalse { .. } => Instruction::BranchFalse { offset: n },
        Instruction::BranchTrue { .. } => Instruction::BranchTrue { offset: n },
        Instruction::BranchEqual { .. } => Instruction::BranchEqual { offset: n },
        Instruction::BranchGreaterEqual { .. } => Instruction::BranchGreaterEqual { offset: n },
        Instruction::BranchGreater { .. } => Instruction::BranchGreater { offset: n },
        Instruction::BranchLessEqual { .. } => Instruction::BranchLessEqual { offset: n },
        Instruction::BranchLess { .. } => Instruction::BranchLess { offset: n },
        Instruction::BranchNotEqual { .. } => Instruction::BranchNotEqual { offset: n },
        Instruction::BranchGreaterEqualUnsigned { .. } => Instruction::BranchGreaterEqualUnsigned {
            offset: n,
        },
        Instruction::BranchGreaterUnsigned { .. } => Instruction::BranchGreaterUnsigned {
            offset: n,
        },
        Instruction::BranchLessEqualUnsigned { .. } => Instruction::BranchLessEqualUnsigned {
            offset: n,
        },
        Instruction::BranchLessUnsigned { .. } => Instruction::BranchLessUnsigned { offset: n },
        Instruction::Leave { .. } => Instruction::Leave { offset: n },
        _ => unreachable!(),
    }
}

fn with_i64(instruction: Instruction, n: i64) -> Instruction
    requires { (m : ℤ) × (operand instruction ≡ I64 m) }
    ensures { row result ≡ (opcode instruction, I64 n) }
{
    match instruction {
        Instruction::LoadLong { .. } => Instruction::LoadLong { value: n },
        _ => unreachable!(),
    }
}

fn with_token(instruction: Instruction, n: u32) -> Instruction
    requires { (m : ℕ) × (operand instruction ≡ Token m) }
    ensures { row result ≡ (opcode instruction, Token n) }
{
    match instruction {
        Instruction::Call { .. } => Instruction::Call { method: n },
        Instruction::CallVirtual { .. } => Instruction::CallVirtual { method: n },
        Instruction::NewObject { .. } => Instruction::NewObject { constructor: n },
        Instruction::LoadObject { .. } => Instruction::LoadObject { type_token: n },
        Instruction::StoreObject { .. } => Instruction::StoreObject { type_token: n },
        Instruction::InitializeObject { .. } => Instruction::InitializeObject { type_token: n },
        Instruction::LoadString { .. } => Instruction::LoadString { string: n },
        Instruction::CastClass { .. } => Instruction::CastClass { type_token: n },
        Instruction::IsInstance { .. } => Instruction::IsInstance { type_token: n },
        Instruction::LoadField { .. } => Instruction::LoadField { field: n },
        Instruction::LoadFieldAddress { .. } => Instruction::LoadFieldAddress { field: n },
        Instruction::StoreField { .. } => Instruction::StoreField { field: n },
        Instruction::LoadStaticField { .. } => Instruction::LoadStaticField { field: n },
        Instruction::LoadStaticFieldAddress { .. } => Instruction::LoadStaticFieldAddress {
            field: n,
        },
        Instruction::StoreStaticField { .. } => Instruction::StoreStaticField { field: n },
        Instruction::Box { .. } => Instruction::Box { type_token: n },
        Instruction::UnboxAny { .. } => Instruction::UnboxAny { type_token: n },
        Instruction::NewArray { .. } => Instruction::NewArray { type_token: n },
        Instruction::LoadElementAddress { .. } => Instruction::LoadElementAddress { type_token: n },
        Instruction::LoadElement { .. } => Instruction::LoadElement { type_token: n },
        Instruction::StoreElement { .. } => Instruction::StoreElement { type_token: n },
        Instruction::LoadFunction { .. } => Instruction::LoadFunction { method: n },
        Instruction::Constrained { .. } => Instruction::Constrained { type_token: n },
        _ => unreachable!(),
    }
}

// The opcode at the front and the bytes after it.
fn split_opcode(bytes: &[u8]) -> Option<(u16, &[u8])>
    ensures found { IfSome result (λ r. bytes.now ≡ opcode_bytes r.0 ++ r.1.now) }
    ensures one_form { IfSome result (λ r. ((r.0 < 0x100) × (r.0 ≢ 0xFE)) ⊎ ((0xFE00 ≤ r.0) × (r.0 < 0xFF00))) }
    ensures none { IfNone result ((bytes.now ≡ []) ⊎ (bytes.now ≡ 0xFE ∷ [])) }
{
    match bytes {
        [] => None,
        [0xFE] => None,
        [0xFE, second, rest @ ..] => Some((0xFE00 + *second as u16, rest)),
        [first, rest @ ..] => Some((*first as u16, rest)),
    }
}

// The instruction with the operand at the front, and the bytes after it.
fn split_operand(blank: Instruction, bytes: &[u8]) -> Option<(Instruction, &[u8])>
    ensures found { IfSome result (λ r. (opcode r.0 ≡ opcode blank) × (bytes.now ≡ operand_bytes (operand r.0) ++ r.1.now)) }
    ensures in_range { IfSome result (λ r. IsInRange (operand r.0)) }
    ensures none { IfNone result (length bytes.now < length (operand_bytes (operand blank))) }
{
    match blank.operand() {
        Operand::Nothing => Some((blank, bytes)),
        Operand::U8(_) => {
            let (n, rest) = split_u8(bytes)?;
            Some((with_u8(blank, n), rest))
        }
        Operand::I8(_) => {
            let (n, rest) = split_u8(bytes)?;
            Some((with_i8(blank, n.cast_signed()), rest))
        }
        Operand::U16(_) => {
            let (n, rest) = split_u16(bytes)?;
            Some((with_u16(blank, n), rest))
        }
        Operand::I32(_) => {
            let (n, rest) = split_u32(bytes)?;
            Some((with_i32(blank, n.cast_signed()), rest))
        }
        Operand::I64(_) => {
            let (n, rest) = split_u64(bytes)?;
            Some((with_i64(blank, n.cast_signed()), rest))
        }
        Operand::Token(_) => {
            let (n, rest) = split_u32(bytes)?;
            Some((with_token(blank, n), rest))
        }
    }
}

/// The instruction at a place of the code, and the place after it (ECMA-335, III.1.2). `Short` comes exactly where the
/// code ends inside the instruction, with the code's length, also where `at` is past the end; `UnknownOpcode` exactly
/// where no instruction has the opcode, with `at`. No other fault comes, and no memory is taken.
pub fn decode_one(code: &[u8], at: u32) -> Result<(Instruction, u32), CodeFault>
    requires long { length code.now < 2 ^ 32 }
    ensures found { IfOk result (λ r. (rest : List ℕ) × (drop at code.now ≡ spelling r.0 ++ rest) × (r.1 ≡ at + length (spelling r.0))) }
    ensures in_range { IfOk result (λ r. IsInRange (operand r.0)) }
    ensures spelled { (i : Instruction) (rest : List ℕ) → IsInRange (operand i) → drop at code.now ≡ spelling i ++ rest → result ≡ Ok (i, at + length (spelling i)) }
    ensures kinds { IfErr result (λ f. (f ≡ CodeFault.Short (length code.now)) ⊎ (f ≡ CodeFault.UnknownOpcode at)) }
    ensures short { (n : ℕ) → result ≡ Err (CodeFault.Short n) → (n ≡ length code.now) × IsFront (drop at code.now) }
    ensures unknown { (n : ℕ) → result ≡ Err (CodeFault.UnknownOpcode n) → (n ≡ at) × BeginsNone (drop at code.now) }
{
    let past = code.len() as u32;
    if at >= past {
        return Err(CodeFault::Short(past));
    }
    let (_, bytes) = code.split_at(at as usize);
    let Some((opcode, rest)) = split_opcode(bytes) else {
        return Err(CodeFault::Short(past));
    };
    let Some(blank) = with_opcode(opcode) else {
        return Err(CodeFault::UnknownOpcode(at));
    };
    let Some((instruction, rest)) = split_operand(blank, rest) else {
        return Err(CodeFault::Short(past));
    };
    Ok((instruction, past - rest.len() as u32))
}
