//! What the statements of a function's body mean, or why they are refused.
#![tactic(auto)]

/// What a part is judged to be; a refusal ends the function.
macro_rules! judged {
    ($judged:expr) => {
        match $judged {
            Ok(made) => made,
            Err(refusal) => return Ok(Err(refusal)),
        }
    };
}

mod constants;
mod frames;
mod labels;
mod made;
mod parts;
mod stand;
mod statements;

pub use stand::Stand;
pub use statements::block;
