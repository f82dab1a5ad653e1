//! The types, expressions and statements that actions of the parser make of the topmost values.
#![tactic(auto)]

pub mod expressions;
pub mod statements;
pub mod types;
