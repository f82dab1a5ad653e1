//! Typed programs of sources, or why they are refused.
#![tactic(auto)]

/// What a part is judged to be; a refusal ends the function.
macro_rules! judged {
    ($judged:expr) => {
        match $judged {
            Ok(made) => made,
            Err(refusal) => return Ok(Err(refusal)),
        }
    };
}

mod classes;
mod contents;
mod fault;
mod finding;
mod functions;
mod known;
mod programs;

pub use fault::TypeFault;
pub use programs::elaborate;
