//! The instructions of the CLI that the compiler uses, and method bodies, as bytes and out of bytes.
#![tactic(auto)]

mod action;
mod body;
mod decode;
mod encode;
mod fault;
mod instruction;
mod laws;
mod layout;
mod read;
mod write;

pub use action::{Action, WRITE_LINE};
pub use body::{Body, Clause, ClauseKind};
pub use decode::decode_one;
pub use encode::encode_one;
pub use fault::CodeFault;
pub use instruction::{Instruction, Operand};
pub use laws::one_spelling;
pub use read::read_body;
pub use write::write_body;
