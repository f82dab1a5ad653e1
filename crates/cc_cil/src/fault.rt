// Why code is refused.
ghost use Rattle.std.specs.Prelude.{◌≡◌};
ghost use Rattle.cc_cil.specs.declared.fault.CodeFault.TheVariants.{Memory};

use std::alloc::AllocError;
use thiserror::Error;

/// Why bytes are no instruction or no method body, with the first place that shows it.
#[derive(Clone, Copy, Debug, PartialEq, Eq, Drop, Error)]
pub enum CodeFault {
    /// 70: the bytes end inside an instruction or a body.
    #[error("the code ends at {0}, inside what it begins")]
    Short(u32),
    /// 71: no instruction has the opcode.
    #[error("no instruction has the opcode at {0}")]
    UnknownOpcode(u32),
    /// 72: the header of a body is none (ECMA-335, II.25.4).
    #[error("the header of the body is wrong at {0}")]
    BadHeader(u32),
    /// 73: the exception section of a body is none (ECMA-335, II.25.4.5).
    #[error("the exception section of the body is wrong at {0}")]
    BadClause(u32),
    /// Memory did not suffice.
    #[error("memory does not suffice")]
    Memory,
}

impl From<AllocError> for CodeFault {
    ghost from_gives = { λ _ fault. fault ≡ Memory };

    fn from(_error: AllocError) -> CodeFault {
        CodeFault::Memory
    }
}
