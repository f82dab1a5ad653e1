// Why a list of tokens has no tree.
ghost use Rattle.std.specs.Prelude.{◌≡◌};
ghost use Rattle.cc_terminals.specs.Faults as spec;
ghost use Rattle.cc_terminals.specs.declared.fault.ParseFault.TheVariants.{Memory};

use cc_base::{Kind, Span};
use std::alloc::{AllocError, AllocFailed};

/// Why a list of tokens has no tree within the limits, with the place of the first token that shows it.
#[derive(Clone, Copy, Debug, PartialEq, Eq)]
pub enum ParseFault {
    /// 10: no source goes on with this token.
    Syntax(Span),
    /// 11: each source that goes on with this token nests over 256 deep.
    TooDeep(Span),
    /// 12: a word that is left out of the language.
    OutsideProfile(Span),
    /// 13: as 10, at a `*`, `&`, `&&` or `[`.
    NativePointer(Span),
    /// 14: a floating-point type.
    FloatType(Span),
    /// 15: a native class or an `extern` declaration.
    MixedMode(Span),
    /// There was no memory.
    Memory,
}

impl From<AllocError> for ParseFault {
    ghost from_gives = { λ _ fault. fault ≡ Memory };

    fn from(_error: AllocError) -> ParseFault {
        ParseFault::Memory
    }
}

impl<T: Drop> From<AllocFailed<T>> for ParseFault {
    ghost from_gives = { λ _ fault. fault ≡ Memory };

    fn from(_error: AllocFailed<T>) -> ParseFault {
        ParseFault::Memory
    }
}

impl ParseFault {
    /// The kind and the place of a refusal, `None` for want of memory.
    pub fn refusal(&self) -> Option<(Kind, Span)>
        ensures { result ≡ spec.refusal self.now }
    {
        match self {
            ParseFault::Syntax(span) => Some((Kind::Syntax, *span)),
            ParseFault::TooDeep(span) => Some((Kind::TooDeep, *span)),
            ParseFault::OutsideProfile(span) => Some((Kind::OutsideProfile, *span)),
            ParseFault::NativePointer(span) => Some((Kind::NativePointer, *span)),
            ParseFault::FloatType(span) => Some((Kind::FloatType, *span)),
            ParseFault::MixedMode(span) => Some((Kind::MixedMode, *span)),
            ParseFault::Memory => None,
        }
    }
}
