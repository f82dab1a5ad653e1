//! The machine that executes modules.
#![tactic(auto)]

mod arguments;
mod cell;
mod console;
mod flow;
mod frames;
mod int32;
mod int64;
mod machine;
mod numbers;
mod state;
mod stop;
mod tables;
mod targets;

pub use cell::Cell;
pub use flow::Flow;
pub use frames::FrameStack;
pub use machine::Machine;
pub use state::RunState;
pub use stop::Stop;
pub use tables::{Entry, MethodEntry, Tables};
