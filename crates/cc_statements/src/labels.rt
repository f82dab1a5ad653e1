// The labels of a switch (ECMA-372, 16.2; ISO/IEC 14882:2003, 6.4.2).
ghost use Rattle.std.specs.Prelude.{◌≡◌, ◌<◌, ◌^◌, [], ◌++◌, length, IfOk};
ghost use Rattle.cc_core.specs.Typed as typed;
ghost use Rattle.cc_operations.specs.Choosing.{Pick, Chooses};
ghost use Rattle.cc_operations.specs.Judgements.{judged_by, value_of};
ghost use Rattle.cc_statements.specs.Steps as spec;

use crate::constants::{bits, constant_value, converted_if};
use crate::made::bad_break;
use cc_base::Span;
use cc_core::SwitchLabel;
use cc_operations::{Frame, Given, Judged, Source, core, is_void, no_conversion, promoted};
use cc_terms::{Finder, value};
use cc_tree::{FundamentalType, Label};
use sqlite_items::Items;
use std::alloc::{AllocError, Global};

/// The type in which labels are compared: the operand's promoted type, and a type of 64 bits where the operand has no value.
pub(crate) fn compared(operand: FundamentalType) -> FundamentalType
    ensures { result ≡ spec.compared operand }
{
    if is_void(operand) {
        FundamentalType::LongLong
    } else {
        promoted(operand)
    }
}

/// The bits of a label in the type in which labels are compared, if it is a constant.
fn label_bits(operand: FundamentalType, given: &Given) -> Option<u64>
    ensures { result ≡ spec.label_bits operand (value_of given.now) }
{
    let value = constant_value(&given.term);
    bits(converted_if(&core(given.of), &core(operand), value))
}

fn case_of(span: Span, bits: Option<u64>) -> Judged<SwitchLabel>
    ensures { result ≡ spec.case_of span bits }
{
    match bits {
        None => Err(no_conversion(span)),
        Some(n) => Ok(SwitchLabel::Case(n)),
    }
}

/// What a label is.
fn label<F: Finder>(
    alloc: Global,
    finder: &F,
    source: &Source,
    operand: FundamentalType,
    frame: &Frame,
    one: &Label,
) -> Result<Judged<SwitchLabel>, AllocError>
    requires { length source.now.functions < 2 ^ 32 }
    ensures { IfOk result (λ judged. (choice : Pick) → Chooses source.now.classes choice → judged ≡ spec.label_of choice (F.finds finder.now) source.now operand frame.now one.now) }
{
    match one {
        Label::Default(_) => Ok(Ok(SwitchLabel::Default)),
        Label::Case(x, span) => {
            let given = judged!(value(alloc, finder, source, frame, x)?);
            Ok(case_of(*span, label_bits(operand, &given)))
        }
    }
}

/// Whether two labels are one.
fn is_same(one: SwitchLabel, other: SwitchLabel) -> bool
    ensures { result ≡ typed.same_label one other }
{
    match one {
        SwitchLabel::Case(n) => match other {
            SwitchLabel::Case(m) => n == m,
            SwitchLabel::Default => false,
        },
        SwitchLabel::Default => match other {
            SwitchLabel::Case(_) => false,
            SwitchLabel::Default => true,
        },
    }
}

/// Whether a label stands among some.
fn is_seen(one: SwitchLabel, labels: &[SwitchLabel]) -> bool
    ensures { result ≡ spec.is_seen one labels.now }
{
    for label in labels {
        if is_same(one, *label) {
            return true;
        }
    }
    false
}

fn span_of(label: &Label) -> Span
    ensures { result ≡ spec.label_span label.now }
{
    match label {
        Label::Case(_, span) => *span,
        Label::Default(span) => *span,
    }
}

/// A label that stands neither among those of earlier sections nor among earlier ones of its section.
fn new_label(
    one: &Label,
    seen: &[SwitchLabel],
    done: &[SwitchLabel],
    found: SwitchLabel,
) -> Judged<SwitchLabel>
    ensures { result ≡ spec.new_label one.now (seen.now ++ done.now) found }
{
    if is_seen(found, seen) || is_seen(found, done) {
        return Err(bad_break(span_of(one)));
    }
    Ok(found)
}

/// The labels of a section, behind those of earlier sections.
pub(crate) fn labels_of<F: Finder>(
    alloc: Global,
    finder: &F,
    source: &Source,
    operand: FundamentalType,
    frame: &Frame,
    seen: &[SwitchLabel],
    labels: &[Label],
) -> Result<Judged<Items<SwitchLabel>>, AllocError>
    requires { length source.now.functions < 2 ^ 32 }
    ensures { IfOk result (λ judged. (choice : Pick) → Chooses source.now.classes choice → judged ≡ spec.labels_of choice (F.finds finder.now) source.now operand frame.now seen.now labels.now []) }
{
    let mut done = Items::new(alloc);
    for one in labels {
        let found = judged!(label(alloc, finder, source, operand, frame, one)?);
        let fresh = judged!(new_label(one, seen, done.as_slice(), found));
        done.push(fresh)?;
    }
    Ok(Ok(done))
}
