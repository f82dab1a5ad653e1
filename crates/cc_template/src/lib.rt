//! Templates are replaced by their instances, and no unit has too many nodes. So far units without templates are expanded.
#![tactic(auto)]

mod count;
mod expansion;
mod expressions;
mod fault;
mod members;
mod outers;
mod room;
mod statements;
mod templates;
mod types;

pub use count::count_nodes;
pub use expansion::expand;
pub use fault::TemplateFault;
pub use templates::has_templates;
