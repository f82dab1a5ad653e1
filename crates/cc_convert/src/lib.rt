//! Implicit conversions, and which function a call takes.
#![tactic(auto)]

mod conversion;
mod laws;
mod overload;
#[cfg(test)]
mod tests;

pub use conversion::{Conversion, Way, convert};
pub use laws::{equal_tie, one_choice, one_conversion};
pub use overload::{Choice, Signature, choose};
