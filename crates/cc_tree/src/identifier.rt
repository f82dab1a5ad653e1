// A name where a tree has one.
use cc_base::{Name, Span};

/// A name and the bytes that spell it. It is a part of a node, and no node of its own.
#[derive(Debug, Drop)]
pub struct Identifier {
    pub name: Name,
    pub span: Span,
}
