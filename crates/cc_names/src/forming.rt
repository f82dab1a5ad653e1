// Which types are formed (ECMA-372, 12).
ghost use Rattle.std.specs.Prelude.{◌≡◌, ◌==◌, not, map, length};
ghost use Rattle.std.specs.Option.{option_copied};
ghost use Rattle.cc_names.specs.declared.refusal.NameKind.TheVariants as NameKind;
ghost use Rattle.cc_names.specs.Checks.{run, joined, refused_if};
ghost use Rattle.cc_names.specs.Forming as spec;
ghost use Rattle.cc_names.specs.Spaces.{space};

use crate::find_type::Here;
use crate::known::{Form, Known};
use crate::refusal::{NameKind, Refusal, refused, refused_if};
use cc_base::Span;
use cc_tree::{FundamentalType, Identifier, TypeName};

/// What a type is written for, where that decides which types may stand there.
#[derive(Clone, Copy)]
pub(crate) enum Purpose {
    /// A value: the operand of a cast, a property, an index, the variable of a `for each`, what a catch catches, an
    /// argument of a template.
    Value,
    /// The result of a function.
    Result,
    Parameter,
    /// Local variables, and whether each has an initialiser.
    Local(bool),
    /// Fields, and whether they are static.
    Field(bool),
    /// A type that is only named: a base, what `gcnew` makes, what stands before `::`.
    NamedOnly,
}

/// What a written type is.
#[derive(Clone, Copy)]
pub(crate) enum Sort {
    /// Nothing is known of it, since it is refused already.
    Refused,
    NoValue,
    PlainValue,
    /// A class or `array` itself, without a `^`, and whether a handle can refer to it.
    Object(bool),
    Handle,
    /// With a `%`.
    Tracking,
}

/// What is told of a written type: its place, the refusal so far, and what it is.
#[derive(Clone, Copy)]
pub(crate) struct Judged {
    pub(crate) span: Span,
    pub(crate) first: Option<Refusal>,
    pub(crate) sort: Sort,
}

/// Whether a type is a value, an enum or a handle.
fn is_value(sort: Sort) -> bool
    ensures { result ≡ spec.is_value sort }
{
    match sort {
        Sort::Refused => true,
        Sort::NoValue => false,
        Sort::PlainValue => true,
        Sort::Object(_) => false,
        Sort::Handle => true,
        Sort::Tracking => false,
    }
}

fn is_no_value(sort: Sort) -> bool
    ensures { result ≡ spec.is_no_value sort }
{
    match sort {
        Sort::Refused => false,
        Sort::NoValue => true,
        Sort::PlainValue => false,
        Sort::Object(_) => false,
        Sort::Handle => false,
        Sort::Tracking => false,
    }
}

fn is_object(sort: Sort) -> bool
    ensures { result ≡ spec.is_object sort }
{
    match sort {
        Sort::Refused => false,
        Sort::NoValue => false,
        Sort::PlainValue => false,
        Sort::Object(_) => true,
        Sort::Handle => false,
        Sort::Tracking => false,
    }
}

fn is_tracking(sort: Sort) -> bool
    ensures { result ≡ spec.is_tracking sort }
{
    match sort {
        Sort::Refused => false,
        Sort::NoValue => false,
        Sort::PlainValue => false,
        Sort::Object(_) => false,
        Sort::Handle => false,
        Sort::Tracking => true,
    }
}

fn may_be_referred_to(sort: Sort) -> bool
    ensures { result ≡ spec.may_be_referred_to sort }
{
    match sort {
        Sort::Refused => true,
        Sort::NoValue => false,
        Sort::PlainValue => false,
        Sort::Object(can_refer) => can_refer,
        Sort::Handle => false,
        Sort::Tracking => false,
    }
}

fn sort_of(form: Form) -> Sort
    ensures { result ≡ spec.sort_of form }
{
    match form {
        Form::Value => Sort::PlainValue,
        Form::Handle => Sort::Object(true),
        Form::Interface => Sort::Object(true),
        Form::NamedOnly => Sort::Object(false),
    }
}

fn fundamental_sort(of: FundamentalType) -> Sort
    ensures { result ≡ spec.fundamental_sort of }
{
    match of {
        FundamentalType::Void => Sort::NoValue,
        FundamentalType::Bool => Sort::PlainValue,
        FundamentalType::WideChar => Sort::PlainValue,
        FundamentalType::SignedChar => Sort::PlainValue,
        FundamentalType::UnsignedChar => Sort::PlainValue,
        FundamentalType::Short => Sort::PlainValue,
        FundamentalType::UnsignedShort => Sort::PlainValue,
        FundamentalType::Int => Sort::PlainValue,
        FundamentalType::UnsignedInt => Sort::PlainValue,
        FundamentalType::LongLong => Sort::PlainValue,
        FundamentalType::UnsignedLongLong => Sort::PlainValue,
    }
}

/// Whether a type is `array`, which no namespace declares.
pub(crate) fn is_array(names: &[Identifier], name: &[u8]) -> bool
    ensures { result ≡ spec.is_array names.now name.now }
{
    match names {
        [] => name == b"array".as_slice(),
        [_, ..] => false,
    }
}

/// Whether a type may stand for a purpose.
fn is_fit(purpose: Purpose, sort: Sort) -> bool
    ensures { result ≡ spec.is_fit purpose sort }
{
    match purpose {
        Purpose::Value => is_value(sort),
        Purpose::Result => is_value(sort) || is_no_value(sort),
        Purpose::Parameter => is_value(sort) || is_tracking(sort),
        Purpose::Local(is_initialised) => {
            is_value(sort) || is_object(sort) || (is_initialised && is_tracking(sort))
        }
        Purpose::Field(is_static) => is_value(sort) || (!is_static && is_object(sort)),
        Purpose::NamedOnly => !is_no_value(sort),
    }
}

/// A type that is not refused by itself.
fn formed(so_far: Option<Refusal>, span: Span, sort: Sort) -> Judged
    ensures { result ≡ spec.told (spec.formed span sort) so_far }
{
    Judged {
        span,
        first: so_far,
        sort,
    }
}

/// A type that is refused.
fn refused_as(so_far: Option<Refusal>, kind: NameKind, span: Span) -> Judged
    ensures { result ≡ spec.told (spec.refused_as kind span) so_far }
{
    Judged {
        span,
        first: refused(so_far, kind, span),
        sort: Sort::Refused,
    }
}

/// `array` with so many arguments.
fn array_judged(so_far: Option<Refusal>, span: Span, arguments: usize) -> Judged
    ensures { result ≡ spec.told (spec.array_judged span arguments) so_far }
{
    if arguments == 1 {
        formed(so_far, span, Sort::Object(true))
    } else {
        refused_as(so_far, NameKind::NotAType, span)
    }
}

/// A type that a name means, with so many arguments.
fn named_judged(
    so_far: Option<Refusal>,
    span: Span,
    known: Option<&Known>,
    arguments: usize,
) -> Judged
    ensures { result ≡ spec.told (spec.named_judged span (option_copied known.entry) arguments) so_far }
{
    match known {
        None => refused_as(so_far, NameKind::UnknownName, span),
        Some(known) => {
            if known.is_template || arguments == 0 {
                formed(so_far, span, sort_of(known.form))
            } else {
                refused_as(so_far, NameKind::NotAType, span)
            }
        }
    }
}

impl Judged {
    /// The type with a `^`.
    fn handled(self, span: Span) -> Judged
        ensures { result ≡ spec.handled span self }
    {
        let refers = may_be_referred_to(self.sort);
        Judged {
            span,
            first: refused_if(self.first, !refers, NameKind::NotAType, span),
            sort: if refers { Sort::Handle } else { Sort::Refused },
        }
    }

    /// The type with a `%`.
    fn tracked(self, span: Span) -> Judged
        ensures { result ≡ spec.tracked span self }
    {
        let is_value = is_value(self.sort);
        Judged {
            span,
            first: refused_if(self.first, !is_value, NameKind::NotAType, span),
            sort: if is_value {
                Sort::Tracking
            } else {
                Sort::Refused
            },
        }
    }

    /// The type with its marks.
    fn marked(self, is_handle: bool, tracks: bool, span: Span) -> Judged
        ensures { result ≡ spec.marked span is_handle tracks self }
    {
        let referring = if is_handle { self.handled(span) } else { self };
        if tracks {
            referring.tracked(span)
        } else {
            referring
        }
    }

    /// The refusal that decides where the type is an argument, or the element of an array.
    fn as_argument(self) -> Option<Refusal>
        ensures { result ≡ run (refused_if (not (spec.is_value self.sort)) NameKind.NotAType self.span) self.first }
    {
        refused_if(
            self.first,
            !is_value(self.sort),
            NameKind::NotAType,
            self.span,
        )
    }
}

impl Here<'_> {
    /// What is told of a written type.
    #[cycle(judging)]
    fn judged(&self, so_far: Option<Refusal>, of: &TypeName) -> Judged
        ensures { result ≡ spec.told (spec.judged (space self.now.space.now) self.now.path.now of.now) so_far }
    {
        match of {
            TypeName::Fundamental(of, span) => formed(so_far, *span, fundamental_sort(*of)),
            TypeName::Named(names, name, arguments, span) => {
                let first = self.arguments(so_far, arguments.as_slice());
                let count = arguments.as_slice().len();
                let names = names.as_slice();
                let name = name.name.as_slice();
                if is_array(names, name) {
                    array_judged(first, *span, count)
                } else {
                    let known = self.found_type(span.first, names, name);
                    named_judged(first, *span, known, count)
                }
            }
            TypeName::Marked(core, is_handle, tracks, span) => {
                self.judged(so_far, core.get())
                    .marked(*is_handle, *tracks, *span)
            }
        }
    }

    /// What the arguments of a type are refused for.
    #[cycle(judging)]
    fn arguments(&self, so_far: Option<Refusal>, arguments: &[TypeName]) -> Option<Refusal>
        ensures { result ≡ run (joined (map spec.argument_checks (map (spec.judged (space self.now.space.now) self.now.path.now) arguments.now))) so_far }
    {
        let mut first = so_far;
        'arguments: for argument in arguments {
            first = self.judged(first, argument).as_argument();
        }
        first
    }

    /// What a written type is refused for where it stands for a purpose.
    pub(crate) fn written(
        &self,
        so_far: Option<Refusal>,
        purpose: Purpose,
        of: &TypeName,
    ) -> Option<Refusal>
        ensures { result ≡ run (spec.type_checks (space self.now.space.now) self.now.path.now purpose of.now) so_far }
    {
        let judged = self.judged(so_far, of);
        refused_if(
            judged.first,
            !is_fit(purpose, judged.sort),
            NameKind::NotAType,
            judged.span,
        )
    }
}
