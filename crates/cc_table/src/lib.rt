//! The parser's table: what each part of the grammar is at each input.
#![tactic(auto)]

mod choice;
mod expressions;
mod fallback;
mod members;
mod outers;
mod pattern;
mod sizes;
mod statements;
mod symbols;
mod table;
mod tokens;
mod types;

pub use choice::Chosen;
pub use fallback::otherwise;
pub use sizes::{Remains, adds, least, leaves, nests, receives, takes, uses};
pub use symbols::{Action, Input, Pattern, Sort, Spelled, Symbol, Take};
pub use table::begins;
