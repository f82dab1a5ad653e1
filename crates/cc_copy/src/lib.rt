//! A tree that is equal to another.
#![tactic(auto)]

mod classes;
mod copied;
mod expressions;
mod heads;
mod locals;
mod members;
mod names;
mod statements;
mod types;
mod unit;

pub use unit::copy_unit;
