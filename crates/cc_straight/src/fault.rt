// Why a source is not compiled.
ghost use Rattle.std.specs.Prelude.{◌≡◌};

use cc_base::{Kind, Span};
use std::alloc::AllocError;

/// Why a source is not compiled.
#[derive(Clone, Copy, Debug, PartialEq, Eq)]
pub enum CompileFault {
    /// The rules refuse it: the kind, and the place.
    Refused(Kind, Span),
    /// Memory did not suffice.
    Memory,
}

impl From<AllocError> for CompileFault {
    ghost use Rattle.cc_straight.specs.declared.fault.CompileFault.TheVariants.{Memory};

    ghost from_gives = { λ _ fault. fault ≡ Memory };

    fn from(_error: AllocError) -> CompileFault {
        CompileFault::Memory
    }
}

/// A node of a form that isn't built.
pub fn not_yet(span: Span) -> CompileFault
    ensures { result ≡ CompileFault.Refused Kind.NotYet span }
{
    CompileFault::Refused(Kind::NotYet, span)
}
