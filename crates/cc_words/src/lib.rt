//! What the words of the command line ask for.
#![tactic(auto)]

mod command;
mod options;
mod read;
#[cfg(test)]
mod tests;

pub use command::{Command, Request};
pub use read::read_words;
