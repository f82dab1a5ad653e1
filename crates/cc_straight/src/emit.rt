// The code of a straight program.
ghost use Rattle.std.specs.Prelude.{◌≡◌, Some, IfOk};
ghost use Rattle.cc_cil.specs.Instructions.{operand, IsInRange};
ghost use Rattle.cc_cil.specs.Steps.{action_of};
ghost use Rattle.cc_straight.specs.Straight.{action_for, operator_action, IsCodeOf};

use cc_cil::{Instruction, WRITE_LINE, encode_one};
use cc_core::{StraightOperation, StraightOperator};
use std::alloc::{AllocError, Global};

// Pushes a number in as few bytes as its value allows.
fn load_number(value: u32) -> Instruction
    ensures acts { action_of result ≡ Some (action_for (StraightOperation.Number value)) }
    ensures in_range { IsInRange (operand result) }
{
    match value {
        0 => Instruction::LoadInt0,
        1 => Instruction::LoadInt1,
        2 => Instruction::LoadInt2,
        3 => Instruction::LoadInt3,
        4 => Instruction::LoadInt4,
        5 => Instruction::LoadInt5,
        6 => Instruction::LoadInt6,
        7 => Instruction::LoadInt7,
        8 => Instruction::LoadInt8,
        _ => Instruction::LoadInt {
            value: value.cast_signed(),
        },
    }
}

fn instruction_of(operation: StraightOperation) -> Instruction
    ensures acts { action_of result ≡ Some (action_for operation) }
    ensures in_range { IsInRange (operand result) }
{
    match operation {
        StraightOperation::Number(value) => load_number(value),
        StraightOperation::Apply(StraightOperator::Add) => Instruction::Add,
        StraightOperation::Apply(StraightOperator::Subtract) => Instruction::Subtract,
        StraightOperation::Apply(StraightOperator::Multiply) => Instruction::Multiply,
        StraightOperation::WriteLine => Instruction::Call { method: WRITE_LINE },
        StraightOperation::Return => Instruction::Return,
    }
}

/// The code of some operations: an instruction for each, in order.
pub fn emit(alloc: Global, operations: &[StraightOperation]) -> Result<Vec<u8>, AllocError>
    ensures { IfOk result (λ code. IsCodeOf code.items operations.now) }
{
    let mut code = Vec::new(alloc);
    for operation in operations {
        encode_one(&instruction_of(*operation), &mut code)?;
    }
    Ok(code)
}
