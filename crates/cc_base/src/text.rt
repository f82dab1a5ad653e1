// Places in a source, names and texts.
use crate::List;

/// The bytes of a source from `first` up to, but not including, `past`; both count bytes from 0.
#[derive(Clone, Copy, Debug, PartialEq, Eq)]
pub struct Span {
    pub first: u32,
    pub past: u32,
}

/// A name of a source: its ASCII bytes (ECMA-372, 9.4.1, restricted to ASCII).
pub type Name = List<u8>;

/// A text of the CLI: its UTF-16 units, lone surrogates included (ECMA-335, I.8.2.2).
pub type Text = List<u16>;
