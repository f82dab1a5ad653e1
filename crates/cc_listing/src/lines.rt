// Lines of a listing and what stands in them.
ghost use Rattle.std.specs.Prelude.{◌≡◌, ◌++◌, IfOk, codes};
ghost use Rattle.std.specs.String.{string_bytes};
ghost use Rattle.cc_cil.specs.Instructions.{operand};
ghost use Rattle.hex.specs.Hex.{encode_lower};
ghost use Rattle.cc_listing.specs.Bodies.{branch_offset, bytes_line, hex_word, instruction_line, operand_or_target, plain_operand, shown_operand, target};

use crate::mnemonics::mnemonic;
use cc_cil::{Instruction, Operand};
use std::alloc::{AllocError, Global};

/// Eight hexadecimal digits.
pub(crate) fn word(alloc: Global, number: u32) -> Result<String, AllocError>
    ensures { IfOk result (λ digits. string_bytes digits ≡ hex_word number) }
{
    hex::encode(alloc, number.to_be_bytes().as_slice())
}

/// The line of an instruction between two offsets.
pub(crate) fn instruction_line(
    alloc: Global,
    at: u32,
    instruction: &Instruction,
    past: u32,
) -> Result<String, AllocError>
    ensures { IfOk result (λ line. string_bytes line ≡ instruction_line at instruction.now past) }
{
    let offset = word(alloc, at)?;
    let operand = shown_operand(alloc, instruction, past)?;
    format_instruction(
        alloc,
        offset.as_str(),
        mnemonic(instruction),
        operand.as_str(),
    )
}

fn format_instruction(
    alloc: Global,
    offset: &str,
    name: &str,
    operand: &str,
) -> Result<String, AllocError>
    ensures { IfOk result (λ line. string_bytes line ≡ codes "    " ++ offset.now ++ codes " " ++ name.now ++ operand.now ++ codes "\n") }
{
    format!(in alloc; "    {offset} {name}{operand}\n")
}

/// The line of bytes that begin with no instruction.
pub(crate) fn bytes_line(alloc: Global, at: u32, bytes: &[u8]) -> Result<String, AllocError>
    ensures { IfOk result (λ line. string_bytes line ≡ bytes_line at bytes.now) }
{
    let offset = word(alloc, at)?;
    let digits = hex::encode(alloc, bytes)?;
    format_bytes(alloc, offset.as_str(), digits.as_str())
}

fn format_bytes(alloc: Global, offset: &str, digits: &str) -> Result<String, AllocError>
    ensures { IfOk result (λ line. string_bytes line ≡ codes "    " ++ offset.now ++ codes " bytes " ++ digits.now ++ codes "\n") }
{
    format!(in alloc; "    {offset} bytes {digits}\n")
}

/// The operand behind a blank, or nothing: a branch shows its target.
fn shown_operand(alloc: Global, instruction: &Instruction, past: u32) -> Result<String, AllocError>
    ensures { IfOk result (λ text. string_bytes text ≡ shown_operand instruction.now past) }
{
    match branch_offset(instruction) {
        Some(offset) => behind_blank(
            alloc,
            word(alloc, past.wrapping_add_signed(offset))?.as_str(),
        ),
        None => plain_operand(alloc, instruction.operand()),
    }
}

fn plain_operand(alloc: Global, operand: Operand) -> Result<String, AllocError>
    ensures { IfOk result (λ text. string_bytes text ≡ plain_operand operand) }
{
    match operand {
        Operand::Nothing => Ok(String::new(alloc)),
        Operand::U8(number) => format!(in alloc; " {number}"),
        Operand::I8(number) => format!(in alloc; " {number}"),
        Operand::U16(number) => format!(in alloc; " {number}"),
        Operand::I32(number) => format!(in alloc; " {number}"),
        Operand::I64(number) => format!(in alloc; " {number}"),
        Operand::Token(token) => behind_blank(alloc, word(alloc, token)?.as_str()),
    }
}

fn behind_blank(alloc: Global, text: &str) -> Result<String, AllocError>
    ensures { IfOk result (λ line. string_bytes line ≡ codes " " ++ text.now) }
{
    format!(in alloc; " {text}")
}

/// The offset of a branch, counted from the next instruction.
fn branch_offset(instruction: &Instruction) -> Option<i32>
    ensures { result ≡ branch_offset instruction.now }
{
    match instruction {
        Instruction::BranchShort { offset }
        | Instruction::BranchFalseShort { offset }
        | Instruction::BranchTrueShort { offset }
        | Instruction::LeaveShort { offset } => Some(i32::from(*offset)),
        Instruction::Branch { offset }
        | Instruction::BranchFalse { offset }
        | Instruction::BranchTrue { offset }
        | Instruction::BranchEqual { offset }
        | Instruction::BranchGreaterEqual { offset }
        | Instruction::BranchGreater { offset }
        | Instruction::BranchLessEqual { offset }
        | Instruction::BranchLess { offset }
        | Instruction::BranchNotEqual { offset }
        | Instruction::BranchGreaterEqualUnsigned { offset }
        | Instruction::BranchGreaterUnsigned { offset }
        | Instruction::BranchLessEqualUnsigned { offset }
        | Instruction::BranchLessUnsigned { offset }
        | Instruction::Leave { offset } => Some(*offset),
        _ => None,
    }
}
