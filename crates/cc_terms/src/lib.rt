//! What names and expressions of a function's body mean, or why they are refused, and which statements end.
#![tactic(auto)]

/// What a part is judged to be; a refusal ends the whole.
macro_rules! judged {
    ($judged:expr) => {
        match $judged {
            Ok(made) => made,
            Err(refusal) => return Ok(Err(refusal)),
        }
    };
}

mod ends;
mod finder;
mod resolving;
mod terms;

pub use ends::{Way, block_way};
pub use finder::Finder;
pub use terms::{expression, value};
