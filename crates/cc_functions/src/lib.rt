//! The module of a program of functions (ECMA-335, II.22), row by row.
#![tactic(auto)]

mod console;
mod function;
mod laws;
mod methods;
mod program;
mod rows;
mod signatures;

pub use function::Function;
pub use laws::{each_fits, each_has_methods};
pub use program::emit_functions;
