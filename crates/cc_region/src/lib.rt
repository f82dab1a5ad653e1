//! Region programs: what functions do, with every exit aimed at a construct around it; and what they mean.
#![tactic(auto)]

mod laws;
mod program;
mod tree;

pub use laws::larger_bound_continues;
pub use program::RegionProgram;
pub use tree::{
    CatchClause, RegionExit, RegionFunction, RegionParts, RegionSection, RegionStatement,
};
