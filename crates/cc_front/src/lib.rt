//! The front end: from the bytes of a source to its typed program, or why it is refused and where.
#![tactic(auto)]

mod fault;
mod front;
mod laws;

pub use fault::SourceFault;
pub use front::typed_program;
pub use laws::one_program;
