//! The operations of a method's code: instructions decoded, their tokens and their targets resolved.
#![tactic(auto)]

mod decode;
mod jumps;
mod members;
mod resolve;
mod variables;

pub use decode::operations;
pub use members::Members;
pub use variables::Variables;
