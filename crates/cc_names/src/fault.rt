// Why a unit is refused as to its names.
ghost use Rattle.std.specs.Prelude.{◌≡◌, Some};
ghost use Rattle.cc_names.specs.Faults as spec;
ghost use Rattle.cc_names.specs.declared.fault.NameFault.TheVariants.{Memory};

use crate::refusal::{NameKind, Refusal};
use cc_base::{Kind, Span};
use std::alloc::{AllocError, AllocFailed};

/// Why a unit is refused as to its names, with the place.
#[derive(Clone, Copy, Debug, PartialEq, Eq)]
pub enum NameFault {
    /// 20: a second declaration of a name.
    Duplicate(Span),
    /// 21: a type, namespace, forward declaration or prototype that names nothing.
    UnknownName(Span),
    /// 22: a type that cannot be formed there.
    NotAType(Span),
    /// 23: a base through which a class reaches itself.
    CyclicBase(Span),
    /// 24: a base that cannot be derived from, or a second base class.
    SealedBase(Span),
    /// 25: a member that disposal reserves, or that cannot stand in such a class.
    ReservedMember(Span),
    /// 26: no `main`, or one of another form.
    BadMain(Span),
    /// There was no memory.
    Memory,
}

impl From<AllocError> for NameFault {
    ghost from_gives = { λ _ fault. fault ≡ Memory };

    fn from(_error: AllocError) -> NameFault {
        NameFault::Memory
    }
}

impl<T: Drop> From<AllocFailed<T>> for NameFault {
    ghost from_gives = { λ _ fault. fault ≡ Memory };

    fn from(_error: AllocFailed<T>) -> NameFault {
        NameFault::Memory
    }
}

impl NameFault {
    /// The kind and the place of a refusal, `None` for want of memory.
    pub fn refusal(&self) -> Option<(Kind, Span)>
        ensures { result ≡ spec.refusal self.now }
    {
        match self {
            NameFault::Duplicate(span) => Some((Kind::Duplicate, *span)),
            NameFault::UnknownName(span) => Some((Kind::UnknownName, *span)),
            NameFault::NotAType(span) => Some((Kind::NotAType, *span)),
            NameFault::CyclicBase(span) => Some((Kind::CyclicBase, *span)),
            NameFault::SealedBase(span) => Some((Kind::SealedBase, *span)),
            NameFault::ReservedMember(span) => Some((Kind::ReservedMember, *span)),
            NameFault::BadMain(span) => Some((Kind::BadMain, *span)),
            NameFault::Memory => None,
        }
    }
}

impl Refusal {
    /// The fault that tells it.
    pub(crate) fn fault(self) -> NameFault
        ensures { spec.refusal result ≡ spec.pair_of (Some self) }
    {
        match self.kind {
            NameKind::Duplicate => NameFault::Duplicate(self.span),
            NameKind::UnknownName => NameFault::UnknownName(self.span),
            NameKind::NotAType => NameFault::NotAType(self.span),
            NameKind::CyclicBase => NameFault::CyclicBase(self.span),
            NameKind::SealedBase => NameFault::SealedBase(self.span),
            NameKind::ReservedMember => NameFault::ReservedMember(self.span),
            NameKind::BadMain => NameFault::BadMain(self.span),
        }
    }
}
