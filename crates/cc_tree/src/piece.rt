// What may begin some bytes of a source: the words in which the definition of spelling speaks.
use crate::token::{Radix, Suffix};
use cc_base::{Kind, Span};

/// The piece of a source that begins some bytes. Lengths and places count bytes from its first one.
#[derive(Clone, Copy, Debug, PartialEq, Eq)]
pub enum Piece {
    /// A blank, a comment or a skipped directive line: its length, and whether only blanks and comments stand before
    /// what follows on its line.
    Gap(usize, bool),
    /// A word: its length.
    Word(usize),
    /// A number: its value, its suffix, how its digits are read, and its length.
    Number(u64, Suffix, Radix, usize),
    /// A sign: its place in the table of signs, and its length.
    Sign(u8, usize),
    /// A string: the places of its two quotes.
    Literal(usize, usize),
    /// A character: the places of its two quotes.
    Character(usize, usize),
    /// No piece begins here: why, and the bytes that a message names.
    Refused(Kind, Span),
}

/// What a digit and the letters, digits, `_` and `.` after it write (ISO/IEC 14882:2003, 2.13.1).
#[derive(Clone, Copy, Debug, PartialEq, Eq)]
pub enum Numeral {
    /// An integer literal: its value, its suffix and how its digits are read.
    Value(u64, Suffix, Radix),
    /// No integer literal.
    Malformed,
    /// An integer literal whose value no type of its form holds.
    TooWide,
}

/// What stands first between the quotes of a string or a character, with how many bytes write it
/// (ISO/IEC 14882:2003, 2.13.2).
#[derive(Clone, Copy, Debug, PartialEq, Eq)]
pub enum Element {
    /// One UTF-16 unit.
    One(u16, usize),
    /// A surrogate pair.
    Pair(u16, u16, usize),
    /// A byte that begins no well-formed UTF-8 sequence.
    BadByte,
    /// A backslash that begins no escape.
    BadEscape(usize),
}
