//! The straight form of a program: checking its tree, compiling it to a method body, and executing that.
#![tactic(auto)]

mod compiler;
mod emit;
mod fault;
mod laws;
mod lines;
mod rules;
mod runner;
mod spans;
mod term;
mod unit;

pub use compiler::{check, compile};
pub use fault::CompileFault;
pub use laws::{one_source, straight_or_unbuilt};
pub use runner::{Executed, execute};
