// Refusals, and which of two comes first.
ghost use Rattle.std.specs.Prelude.{◌≡◌};
ghost use Rattle.cc_names.specs.Checks as checks;

use cc_base::Span;

/// Why a source is refused as to its names, in order of the kinds' numbers.
#[derive(Clone, Copy)]
pub enum NameKind {
    Duplicate,
    UnknownName,
    NotAType,
    CyclicBase,
    SealedBase,
    ReservedMember,
    BadMain,
}

/// A refusal of a source, with its place.
#[derive(Clone, Copy)]
pub struct Refusal {
    pub kind: NameKind,
    pub span: Span,
}

impl NameKind {
    /// The number of the kind.
    fn number(self) -> u32
        ensures { result ≡ checks.number self }
    {
        match self {
            NameKind::Duplicate => 20,
            NameKind::UnknownName => 21,
            NameKind::NotAType => 22,
            NameKind::CyclicBase => 23,
            NameKind::SealedBase => 24,
            NameKind::ReservedMember => 25,
            NameKind::BadMain => 26,
        }
    }
}

impl Refusal {
    /// Whether it stands before another one, or has the lower kind at one place.
    fn is_before(self, other: Refusal) -> bool
        ensures { result ≡ checks.is_before self other }
    {
        self.span.first < other.span.first
            || (self.span.first == other.span.first && self.kind.number() < other.kind.number())
    }
}

/// The refusal that decides of one so far and another one.
pub(crate) fn refused(so_far: Option<Refusal>, kind: NameKind, span: Span) -> Option<Refusal>
    ensures { result ≡ checks.earlier_of so_far (record { kind = kind; span = span }) }
{
    let one = Refusal { kind, span };
    match so_far {
        None => Some(one),
        Some(first) => {
            if one.is_before(first) {
                Some(one)
            } else {
                Some(first)
            }
        }
    }
}

/// The refusal that decides of one so far and another one where something holds.
pub(crate) fn refused_if(
    so_far: Option<Refusal>,
    holds: bool,
    kind: NameKind,
    span: Span,
) -> Option<Refusal>
    ensures { result ≡ checks.run (checks.refused_if holds kind span) so_far }
{
    if holds {
        refused(so_far, kind, span)
    } else {
        so_far
    }
}
