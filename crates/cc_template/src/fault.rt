// Why a unit is not expanded.
ghost use Rattle.std.specs.Prelude.{◌≡◌};
ghost use Rattle.cc_template.specs.Faults as spec;
ghost use Rattle.cc_template.specs.declared.fault.TemplateFault.TheVariants.{Memory};

use cc_base::{Kind, Span};
use std::alloc::{AllocError, AllocFailed};

/// Why a unit is not expanded, with the place of the first node of the walk that shows it.
#[derive(Clone, Copy, Debug, PartialEq, Eq)]
pub enum TemplateFault {
    /// 30: template arguments of a wrong count, or none.
    WrongArguments(Span),
    /// 31: template arguments that nest instances over 64 deep.
    TemplateDepth(Span),
    /// 32: more than 200,000 nodes, or 20,000 in a function.
    TooManyNodes(Span),
    /// There was no memory.
    Memory,
}

impl From<AllocError> for TemplateFault {
    ghost from_gives = { λ _ fault. fault ≡ Memory };

    fn from(_error: AllocError) -> TemplateFault {
        TemplateFault::Memory
    }
}

impl<T: Drop> From<AllocFailed<T>> for TemplateFault {
    ghost from_gives = { λ _ fault. fault ≡ Memory };

    fn from(_error: AllocFailed<T>) -> TemplateFault {
        TemplateFault::Memory
    }
}

impl TemplateFault {
    /// The kind and the place of a refusal, `None` for want of memory.
    pub fn refusal(&self) -> Option<(Kind, Span)>
        ensures { result ≡ spec.refusal self.now }
    {
        match self {
            TemplateFault::WrongArguments(span) => Some((Kind::WrongArguments, *span)),
            TemplateFault::TemplateDepth(span) => Some((Kind::TemplateDepth, *span)),
            TemplateFault::TooManyNodes(span) => Some((Kind::TooManyNodes, *span)),
            TemplateFault::Memory => None,
        }
    }
}
