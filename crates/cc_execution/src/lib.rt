//! What a run of a module of the CLI is: its operations, its states, one step and many.
#![tactic(auto)]

mod executable;
mod laws;
mod operation;

pub use executable::{ClassRow, Executable, Method, PlacedOperation};
pub use laws::{library_classes, one_executable, output_grows, runs_in_pieces};
pub use operation::{FundamentalType, Operation};
