//! The text of a module of the CLI: its types with their fields and methods, and the instructions of each body (ECMA-335, II.22 and III).
#![tactic(auto)]

mod bodies;
mod clauses;
mod laws;
mod lines;
mod listing;
mod mnemonics;
#[cfg(test)]
mod tests;

pub use laws::one_listing;
pub use listing::list;
