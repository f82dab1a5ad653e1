//! What each token of a source is to the grammar: the collected names, the terminal symbols, and the scan for words that
//! stand in no source.
#![tactic(auto)]

mod fault;
pub mod names;
mod outside;
pub mod terminal;
#[cfg(test)]
mod tests;

pub use fault::ParseFault;
pub use outside::scan;
