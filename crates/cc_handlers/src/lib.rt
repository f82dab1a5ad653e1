//! Handlers of exceptions: which catch takes one, and what a throw or a leave comes to on its way out.
#![tactic(auto)]

mod classes;
mod reasons;
mod search;
mod ways;

pub use classes::derives;
pub use reasons::{Pending, PendingStack};
pub use search::{HandlerPlace, find_handler};
pub use ways::{Departure, Entrance, Way, way_out};
