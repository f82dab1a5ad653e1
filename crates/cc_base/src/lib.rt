//! What every crate of the compiler shares: places and texts, the kinds of refusals, how runs end, and the outside.
#![tactic(auto)]

mod host;
mod identifiers;
mod kind;
mod list;
mod memory;
mod outside;
mod running;
#[cfg(test)]
mod tests;
mod text;
mod write;

pub use host::{HostFiles, HostSink, HostSource};
pub use identifiers::{ClassId, FieldId, LocalId, MethodId, SlotId};
pub use kind::Kind;
pub use list::List;
pub use memory::{MemoryFiles, MemorySink, MemorySource, NamedBytes, Script, SwappedFiles};
pub use outside::{Failed, Files, LoadFault, Sink, Source, StoreFault};
pub use running::{Ending, Event, Limits};
pub use text::{Name, Span, Text};
pub use write::write_whole;
