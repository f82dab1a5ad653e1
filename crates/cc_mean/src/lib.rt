//! The source meaning as a program.
#![tactic(auto)]

mod code;
mod console;
mod copied;
mod frames;
mod outcome;
mod run;
mod sections;
mod spent;
mod steps;
mod updates;
mod value;

pub use run::{Meant, mean};
