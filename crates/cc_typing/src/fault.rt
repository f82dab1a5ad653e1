// Why a source has no typed program.
ghost use Rattle.std.specs.Prelude.{◌≡◌, Err};
ghost use Rattle.cc_operations.specs.Judgements.{Judged};
ghost use Rattle.cc_typing.specs.Faults as spec;
ghost use Rattle.cc_typing.specs.declared.fault.TypeFault.TheVariants.{Memory};

use cc_base::{Kind, Span};
use cc_operations::Refusal;
use std::alloc::{AllocError, AllocFailed};

/// Why a source has no typed program, with the node at which it is refused.
#[derive(Clone, Copy, Debug, PartialEq, Eq)]
pub enum TypeFault {
    /// 50: a part of a type that no case covers.
    NoConversion(Span),
    /// 51: a call that no function takes.
    NoOverload(Span),
    /// 52: a call for which no function is the best.
    AmbiguousCall(Span),
    /// 53: what is assigned or counted is no place.
    NotAssignable(Span),
    /// 55: a `break` or `continue` outside, an equal label, or a declaration in a section that isn't the last.
    BadBreak(Span),
    /// 56: a function with a result that does not end.
    MissingReturn(Span),
    /// 62: a call with more than 250 arguments.
    TooManyArguments(Span),
    /// 63: a name of no variable and no function.
    UnknownMember(Span),
    /// There was no memory.
    Memory,
}

impl From<AllocError> for TypeFault {
    ghost from_gives = { λ _ fault. fault ≡ Memory };

    fn from(_error: AllocError) -> TypeFault {
        TypeFault::Memory
    }
}

impl<T: Drop> From<AllocFailed<T>> for TypeFault {
    ghost from_gives = { λ _ fault. fault ≡ Memory };

    fn from(_error: AllocFailed<T>) -> TypeFault {
        TypeFault::Memory
    }
}

impl TypeFault {
    /// The kind and the place of a refusal, `None` for want of memory.
    pub fn refusal(&self) -> Option<(Kind, Span)>
        ensures { result ≡ spec.refusal self.now }
    {
        match self {
            TypeFault::NoConversion(span) => Some((Kind::NoConversion, *span)),
            TypeFault::NoOverload(span) => Some((Kind::NoOverload, *span)),
            TypeFault::AmbiguousCall(span) => Some((Kind::AmbiguousCall, *span)),
            TypeFault::NotAssignable(span) => Some((Kind::NotAssignable, *span)),
            TypeFault::BadBreak(span) => Some((Kind::BadBreak, *span)),
            TypeFault::MissingReturn(span) => Some((Kind::MissingReturn, *span)),
            TypeFault::TooManyArguments(span) => Some((Kind::TooManyArguments, *span)),
            TypeFault::UnknownMember(span) => Some((Kind::UnknownMember, *span)),
            TypeFault::Memory => None,
        }
    }
}

/// The fault that tells a refusal.
pub(crate) fn fault_of(refusal: Refusal) -> TypeFault
    ensures { spec.Tells result refusal }
{
    let span = refusal.span;
    match refusal.kind {
        Kind::NoConversion => TypeFault::NoConversion(span),
        Kind::NoOverload => TypeFault::NoOverload(span),
        Kind::AmbiguousCall => TypeFault::AmbiguousCall(span),
        Kind::NotAssignable => TypeFault::NotAssignable(span),
        Kind::BadBreak => TypeFault::BadBreak(span),
        Kind::MissingReturn => TypeFault::MissingReturn(span),
        Kind::TooManyArguments => TypeFault::TooManyArguments(span),
        Kind::UnknownMember => TypeFault::UnknownMember(span),
        // typing answers no other kind
        _ => TypeFault::Memory,
    }
}
