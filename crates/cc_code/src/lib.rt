//! The code of functions: from regions to instructions of the CLI (ECMA-335, III).
#![tactic(auto)]

mod functions;
mod heights;
mod laws;
mod operators;
mod regions;
mod sizes;
mod switches;
mod targets;
mod terms;
mod tokens;

pub use functions::{FunctionCode, function_code, signatures_of};
pub use laws::{branches_land, sizes_are_bounded, sizes_are_sums};
pub use targets::Target;
pub use tokens::{ConsoleTokens, PrintedTokens, Tokens};
