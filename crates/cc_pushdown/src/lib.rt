//! The parser as a pushdown automaton: its values, what each action builds and each step does, as definitions.
#![tactic(auto)]

mod stack;
mod value;

pub use stack::Stack;
pub use value::{ClassHead, Mark, NameToken, Node, Numeral, QualifiedName, Value};
