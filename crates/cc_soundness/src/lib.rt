//! That no verified module is stuck.
#![tactic(auto)]

mod laws;

pub use laws::{
    never_stuck, stack_is_small, start_is_typed, typed_steps, verified_is_loaded,
    verified_is_never_stuck, verified_keeps_rules,
};
