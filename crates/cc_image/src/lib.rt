//! Modules as files (ECMA-335, II.25): written, and read.
#![tactic(auto)]

mod bodies;
mod ends;
mod fault;
mod headers;
mod laws;
mod layout;
mod ranges;
mod read;
mod sizes;
mod write;

pub use bodies::{Bodies, read_bodies};
pub use ends::ends_fault;
pub use fault::ImageFault;
pub use headers::read_headers;
pub use laws::written_images;
pub use read::read_image;
pub use sizes::Sizes;
pub use write::write_image;
