//! The forms of a source that are built, and the first node that is of no such form.
#![tactic(auto)]

mod expressions;
mod outers;
mod statements;
mod types;

pub use outers::first_not_built;
