//! Typed programs become region programs that mean the same.
#![tactic(auto)]

mod copied;
mod laws;
mod program;
mod statements;

pub use laws::lowering_keeps_the_run;
pub use program::lower;
