//! The machine that executes checked code.
#![tactic(auto)]

mod checked;
mod laws;
mod machine;
mod stack;
#[cfg(test)]
mod tests;

pub use checked::{CheckFault, CheckRefusal, Checked};
pub use laws::{one_answer, one_step};
pub use machine::{Execution, Machine, Phase, Stop};
