//! Tests of the verifier: bodies with the first rule that they break. They stand apart, since a crate with tests is proved twice.
#![tactic(auto)]

#[cfg(test)]
mod bodies;
