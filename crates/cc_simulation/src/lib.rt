//! The code of functions does what their regions mean, in both directions, with a bound on its instructions.
#![tactic(auto)]

mod laws;

pub use laws::code_behaves;
