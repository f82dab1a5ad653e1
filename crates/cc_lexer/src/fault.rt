// Why a source has no tokens.
ghost use Rattle.std.specs.Prelude.{◌≡◌, ◌+◌, ◌≤◌, ◌<◌, ◌^◌, Some};
ghost use Rattle.cc_lexer.specs.Faults as spec;
ghost use Rattle.cc_lexer.specs.declared.fault.LexFault.TheVariants.{Memory};
ghost use Rattle.cc_tree.specs.Refusals.{span};

use cc_base::{Kind, Span};
use std::alloc::{AllocError, AllocFailed};

/// Why a source has no tokens, each with the bytes that a message names.
#[derive(Clone, Copy, Debug, PartialEq, Eq)]
pub enum LexFault {
    /// A byte that begins no token, blank or comment, or that is no UTF-8: this byte.
    BadByte(Span),
    /// A number, an escape or a character that is none of the language: all of it.
    BadLiteral(Span),
    /// A comment without an end: its `/*`.
    UnclosedComment(Span),
    /// A string or character that meets the end of its line or of the text: its quote.
    UnclosedText(Span),
    /// A number that no type holds: all of it.
    NumberTooWide(Span),
    /// A directive line other than those that are skipped: from its `#` to before its line feed.
    Directive(Span),
    /// More than 1,048,576 bytes: the first byte too many.
    SourceTooLong(Span),
    /// No memory was left.
    Memory,
}

fn place_moved(place: Span, at: usize) -> Span
    requires near { (place.first ≤ 2 ^ 31) × (place.past ≤ 2 ^ 31) }
    requires at { at < 2 ^ 31 }
    ensures { result ≡ span (at + place.first) (at + place.past) }
{
    Span {
        first: at as u32 + place.first,
        past: at as u32 + place.past,
    }
}

impl LexFault {
    /// The kind and the place that a message shows, `None` for want of memory.
    pub fn refusal(&self) -> Option<(Kind, Span)>
        ensures { result ≡ spec.refusal self.now }
    {
        match *self {
            LexFault::BadByte(place) => Some((Kind::BadByte, place)),
            LexFault::BadLiteral(place) => Some((Kind::BadLiteral, place)),
            LexFault::UnclosedComment(place) => Some((Kind::UnclosedComment, place)),
            LexFault::UnclosedText(place) => Some((Kind::UnclosedText, place)),
            LexFault::NumberTooWide(place) => Some((Kind::NumberTooWide, place)),
            LexFault::Directive(place) => Some((Kind::Directive, place)),
            LexFault::SourceTooLong(place) => Some((Kind::SourceTooLong, place)),
            LexFault::Memory => None,
        }
    }

    /// The fault with this kind and place. The kind is one for which a piece is refused.
    pub(crate) fn of(kind: Kind, place: Span) -> LexFault
        requires { spec.IsLexical kind }
        ensures { spec.refusal result ≡ Some (kind, place) }
    {
        match kind {
            Kind::BadByte => LexFault::BadByte(place),
            Kind::BadLiteral => LexFault::BadLiteral(place),
            Kind::UnclosedComment => LexFault::UnclosedComment(place),
            Kind::UnclosedText => LexFault::UnclosedText(place),
            Kind::NumberTooWide => LexFault::NumberTooWide(place),
            Kind::Directive => LexFault::Directive(place),
            _ => unreachable!(),
        }
    }

    /// The same fault, where its place counts from `at`.
    pub(crate) fn moved(self, at: usize) -> LexFault
        requires near { spec.IsPlaceWithin (2 ^ 31) (spec.refusal self) }
        requires at { at < 2 ^ 31 }
        ensures { spec.refusal result ≡ spec.refusal_moved at (spec.refusal self) }
    {
        match self {
            LexFault::BadByte(place) => LexFault::BadByte(place_moved(place, at)),
            LexFault::BadLiteral(place) => LexFault::BadLiteral(place_moved(place, at)),
            LexFault::UnclosedComment(place) => LexFault::UnclosedComment(place_moved(place, at)),
            LexFault::UnclosedText(place) => LexFault::UnclosedText(place_moved(place, at)),
            LexFault::NumberTooWide(place) => LexFault::NumberTooWide(place_moved(place, at)),
            LexFault::Directive(place) => LexFault::Directive(place_moved(place, at)),
            LexFault::SourceTooLong(place) => LexFault::SourceTooLong(place_moved(place, at)),
            LexFault::Memory => LexFault::Memory,
        }
    }
}

impl From<AllocError> for LexFault {
    ghost from_gives = { λ _ fault. fault ≡ Memory };

    fn from(_error: AllocError) -> LexFault {
        LexFault::Memory
    }
}

impl<T: Drop> From<AllocFailed<T>> for LexFault {
    ghost from_gives = { λ _ fault. fault ≡ Memory };

    fn from(_error: AllocFailed<T>) -> LexFault {
        LexFault::Memory
    }
}
