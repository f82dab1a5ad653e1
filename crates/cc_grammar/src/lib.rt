//! The parser: the one tree of some tokens, or the first token that no source goes on with.
#![tactic(auto)]

pub mod binary;
mod choice;
mod coming;
mod depth;
mod feeding;
mod parser;
mod pending;
mod places;
mod reading;
pub mod seen;
mod settle;
pub mod token_value;

pub use cc_terminals::ParseFault;
pub use depth::DEPTH_LIMIT;
pub use parser::parse;
pub use reading::{Reading, Sorted, read};
