//! What the typed program of a source is, and laws of it: there is a choice for each call, and what is typed is well typed.
#![tactic(auto)]

mod laws;

pub use laws::{classes_are_sound, refused_by_kinds, some_choice, typed_is_program};
