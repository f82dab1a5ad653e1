// What typing answers of an expression.
use cc_base::{Kind, LocalId, Span};
use cc_core::Expression;
use cc_tree::FundamentalType;

/// Why a part of a source is refused, and the node at which it is.
#[derive(Clone, Copy, Debug, PartialEq, Eq)]
pub struct Refusal {
    pub kind: Kind,
    pub span: Span,
}

/// A member of System.Console that is called.
#[derive(Clone, Copy, Debug, PartialEq, Eq)]
pub enum ConsoleMember {
    Write,
    WriteLine,
}

/// A value and its type.
#[derive(Drop)]
pub struct Given {
    pub of: FundamentalType,
    pub term: Expression,
}

/// What an expression means.
#[derive(Drop)]
pub enum Meant {
    /// A value that is no place.
    Value(Given),
    /// A variable.
    Place(FundamentalType, LocalId),
    /// The name of functions, with the candidates by their places among the functions of the source.
    Functions(Span, cc_base::List<u32>),
    /// The name of a member of the console.
    Console(Span, ConsoleMember),
}

/// What a part of a source is, or why it is refused.
pub type Judged<T> = Result<T, Refusal>;
