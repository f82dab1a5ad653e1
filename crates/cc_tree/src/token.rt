// The tokens of a source (ECMA-372, 9.1).
use cc_base::{Name, Span, Text};

/// A token and the bytes that spell it.
#[derive(Debug, Drop)]
pub struct Token {
    pub kind: TokenKind,
    pub span: Span,
}

/// What a token is.
#[derive(Debug, Drop)]
pub enum TokenKind {
    /// A word: an identifier or a keyword.
    Word(Name),
    /// An integer literal: its value, its suffix and how its digits are read.
    Number(u64, Suffix, Radix),
    /// A character literal: its one UTF-16 unit.
    Character(u16),
    /// A string literal: its text.
    Literal(Text),
    /// A sign, by its place in the table of signs, from 0.
    Sign(u8),
}

/// The suffix of a number, whatever its case and order.
#[derive(Clone, Copy, Debug, PartialEq, Eq)]
pub enum Suffix {
    Plain,
    U,
    Ll,
    Ull,
}

/// How the digits of a number are read. A `0` without further digits is octal.
#[derive(Clone, Copy, Debug, PartialEq, Eq)]
pub enum Radix {
    Decimal,
    Hexadecimal,
    Octal,
}
