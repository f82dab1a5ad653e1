//! The parts that trees are made of, taken off the parser's stack, and what words and signs mean.
#![tactic(auto)]

mod absent;
pub mod parts;
pub mod take;
mod take_classes;
mod take_members;
mod take_names;
mod take_phrases;
pub mod words;

pub use absent::no_mark;
pub use cc_pushdown::{ClassHead, Mark, NameToken, Node, Numeral, QualifiedName, Stack, Value};
