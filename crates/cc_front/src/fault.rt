// Why a source has no typed program.
ghost use Rattle.std.specs.Prelude.{◌≡◌};
ghost use Rattle.cc_front.specs.Reading.{refusal_of};

use cc_base::{Kind, Span};
use std::alloc::AllocError;

/// Why a source has no typed program.
#[derive(Clone, Copy, Debug, PartialEq, Eq)]
pub enum SourceFault {
    /// The rules refuse it: the kind, and the place.
    Refused(Kind, Span),
    /// Memory did not suffice.
    Memory,
}

impl From<AllocError> for SourceFault {
    ghost use Rattle.cc_front.specs.declared.fault.SourceFault.TheVariants.{Memory};

    ghost from_gives = { λ _ fault. fault ≡ Memory };

    fn from(_error: AllocError) -> SourceFault {
        SourceFault::Memory
    }
}

/// A refusal of an earlier step, or want of memory where there is none.
pub fn told(refusal: Option<(Kind, Span)>) -> SourceFault
    ensures { refusal ≡ refusal_of result }
{
    match refusal {
        Some((kind, place)) => SourceFault::Refused(kind, place),
        None => SourceFault::Memory,
    }
}
