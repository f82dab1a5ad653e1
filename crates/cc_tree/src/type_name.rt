// Types as they are written (ECMA-372, 12 and 15.3).
use crate::Identifier;
use cc_base::Span;
use sqlite_items::{Boxed, Items};

/// A fundamental type, or `void` (ECMA-372, 12.1).
#[derive(Clone, Copy, Debug, PartialEq, Eq)]
pub enum FundamentalType {
    Void,
    Bool,
    /// `wchar_t`.
    WideChar,
    SignedChar,
    UnsignedChar,
    Short,
    UnsignedShort,
    Int,
    UnsignedInt,
    LongLong,
    UnsignedLongLong,
}

/// A type.
#[derive(Drop)]
pub enum TypeName {
    /// A fundamental type.
    Fundamental(FundamentalType, Span),
    /// A class, an enum or a template's parameter: the namespaces before it, its name, and the
    /// template's arguments, of which there are none where none are written.
    Named(Items<Identifier>, Identifier, Items<TypeName>, Span),
    /// A type with a `^`, a `%` or both: whether it has a `^`, and whether it has a `%`.
    Marked(Boxed<TypeName>, bool, bool, Span),
}

/// The arguments after the name of a function template, with their `<` and `>`.
#[derive(Drop)]
pub struct TypeArguments {
    pub types: Items<TypeName>,
    pub span: Span,
}
