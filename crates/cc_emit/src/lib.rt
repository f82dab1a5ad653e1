//! The module of a compiled program (ECMA-335, II.22), row by row.
#![tactic(auto)]

mod bodies;
mod laws;
mod program;
mod rows;
mod signatures;

pub use laws::{begins_at_start, each_fits};
pub use program::emit;
