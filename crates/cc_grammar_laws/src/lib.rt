//! Laws of the parser's automaton: it reads what the grammar spells, and nothing else.
#![tactic(auto)]

mod heights;
mod laws;

pub use heights::{depth_is_height, least_is_least, stack_fits};
pub use laws::{
    expressions_are_read, fronts_are_completed, one_end, one_tree, statements_are_read,
    types_are_read, units_are_read,
};
