//! What conversions and operators make of numbers.
#![tactic(auto)]

mod int32;
mod int64;
mod numbers;
#[cfg(test)]
mod tests;

pub use numbers::{
    ARITHMETIC, DIVIDE_BY_ZERO, computed, computed_alone, converted, is_signed, is_true, is_wide,
    truth, zero_of,
};
