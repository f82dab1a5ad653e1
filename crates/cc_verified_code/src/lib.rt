//! The code of functions keeps the verifier's rules on code (ECMA-335, III.1.7 and III.1.8).
#![tactic(auto)]

mod laws;

pub use laws::functions_keep_the_rules;
