// What expressions mean, or why one is refused (ECMA-372, 15; ISO/IEC 14882:2003, 5).
ghost use Rattle.std.specs.Prelude.{◌≡◌, ◌<◌, ◌^◌, [], length, map, IfOk};
ghost use Rattle.cc_operations.specs.Choosing.{Pick, Chooses};
ghost use Rattle.cc_operations.specs.Judgements.{all_values, judged_by, value_of, values_of, meaning_of, operand};
ghost use Rattle.cc_terms.specs.Terms as spec;

use crate::finder::Finder;
use crate::resolving::{console_named, resolved};
use cc_base::List;
use cc_operations::{
    Frame, Given, Judged, Meant, Source, as_operand, as_value, assigned, binary, call, cast_to,
    conditional, constant, constructed, named_cast, no_conversion, number, postfixed, prefixed,
    written,
};
use cc_tree::{Arguments, Expression, FundamentalType};
use std::alloc::{AllocError, Global};

/// What an expression of a function means, or the kind and the node of its refusal: the first node, in postorder, that no
/// case covers. Calls take the functions that the language chooses.
#[cycle(expression)]
pub fn expression<F: Finder>(
    alloc: Global,
    finder: &F,
    source: &Source,
    frame: &Frame,
    x: &Expression,
) -> Result<Judged<Meant>, AllocError>
    requires { length source.now.functions < 2 ^ 32 }
    ensures { IfOk result (λ judged. (choice : Pick) → Chooses source.now.classes choice → judged_by meaning_of judged ≡ spec.typed choice (F.finds finder.now) source.now frame.now x.now) }
{
    match x {
        Expression::Assign(left, operator, right, span) => {
            let target = judged!(operand(alloc, finder, source, frame, left.get())?);
            let given = judged!(value(alloc, finder, source, frame, right.get())?);
            assigned(alloc, *operator, *span, target, given)
        }
        Expression::Conditional(condition, first, second, span) => {
            let condition = judged!(value(alloc, finder, source, frame, condition.get())?);
            let first = judged!(value(alloc, finder, source, frame, first.get())?);
            let second = judged!(value(alloc, finder, source, frame, second.get())?);
            conditional(alloc, *span, condition, first, second)
        }
        Expression::Binary(left, operator, right, span) => {
            let left = judged!(value(alloc, finder, source, frame, left.get())?);
            let right = judged!(value(alloc, finder, source, frame, right.get())?);
            binary(alloc, *operator, *span, left, right)
        }
        Expression::Prefix(operator, x, span) => {
            let meant = judged!(expression(alloc, finder, source, frame, x.get())?);
            prefixed(alloc, *operator, *span, meant)
        }
        Expression::Cast(of, x, span) => {
            let given = judged!(value(alloc, finder, source, frame, x.get())?);
            cast_to(alloc, *span, written(of), given)
        }
        Expression::Call(x, items, span) => {
            let callee = judged!(expression(alloc, finder, source, frame, x.get())?);
            let values = judged!(arguments(alloc, finder, source, frame, items)?);
            call(alloc, *span, source, callee, values)
        }
        Expression::Postfix(x, operator, span) => {
            let meant = judged!(expression(alloc, finder, source, frame, x.get())?);
            postfixed(alloc, *operator, *span, meant)
        }
        Expression::Number(value, suffix, radix, _) => Ok(Ok(number(*value, *suffix, *radix))),
        Expression::Character(unit, _) => Ok(Ok(constant(
            FundamentalType::WideChar,
            u64::from(*unit),
        ))),
        Expression::True(_) => Ok(Ok(constant(FundamentalType::Bool, 1))),
        Expression::False(_) => Ok(Ok(constant(FundamentalType::Bool, 0))),
        Expression::Group(x, _) => expression(alloc, finder, source, frame, x.get()),
        Expression::Name(path, name, _, span) => {
            resolved(alloc, finder, source, frame, path.as_slice(), name, *span)
        }
        Expression::StaticMember(_, name, span) => Ok(console_named(name.name.as_slice(), *span)),
        Expression::Construct(of, items, span) => {
            let values = judged!(arguments(alloc, finder, source, frame, items)?);
            constructed(alloc, *span, written(of), values)
        }
        Expression::NamedCast(word, of, x, span) => {
            let given = judged!(value(alloc, finder, source, frame, x.get())?);
            named_cast(alloc, *word, *span, written(of), given)
        }
        Expression::Index(_, _, span)
        | Expression::Member(_, _, _, _, span)
        | Expression::Finaliser(_, _, _, span)
        | Expression::Strings(_, span)
        | Expression::Nullptr(span)
        | Expression::This(span)
        | Expression::New(_, _, _, span) => Ok(Err(no_conversion(*span))),
    }
}

/// An expression of a function as a value, or its refusal: also where it is the name of functions, which no value is.
#[cycle(expression)]
pub fn value<F: Finder>(
    alloc: Global,
    finder: &F,
    source: &Source,
    frame: &Frame,
    x: &Expression,
) -> Result<Judged<Given>, AllocError>
    requires { length source.now.functions < 2 ^ 32 }
    ensures { IfOk result (λ judged. (choice : Pick) → Chooses source.now.classes choice → judged_by value_of judged ≡ spec.typed_value choice (F.finds finder.now) source.now frame.now x.now) }
{
    let meant = judged!(expression(alloc, finder, source, frame, x)?);
    Ok(as_value(meant))
}

/// An expression as an operand that may be a place.
#[cycle(expression)]
fn operand<F: Finder>(
    alloc: Global,
    finder: &F,
    source: &Source,
    frame: &Frame,
    x: &Expression,
) -> Result<Judged<Meant>, AllocError>
    requires { length source.now.functions < 2 ^ 32 }
    ensures { IfOk result (λ judged. (choice : Pick) → Chooses source.now.classes choice → judged_by meaning_of judged ≡ operand (spec.typed choice (F.finds finder.now) source.now frame.now x.now)) }
{
    let meant = judged!(expression(alloc, finder, source, frame, x)?);
    Ok(as_operand(meant))
}

/// Expressions as values, from left to right.
#[cycle(expression)]
fn values<F: Finder>(
    alloc: Global,
    finder: &F,
    source: &Source,
    frame: &Frame,
    items: &[Expression],
) -> Result<Judged<List<Given>>, AllocError>
    requires { length source.now.functions < 2 ^ 32 }
    ensures { IfOk result (λ judged. (choice : Pick) → Chooses source.now.classes choice → judged_by values_of judged ≡ all_values [] (map (spec.typed choice (F.finds finder.now) source.now frame.now) items.now)) }
{
    let mut values = List::new(alloc);
    for x in items {
        let given = judged!(value(alloc, finder, source, frame, x)?);
        values.push(given)?;
    }
    Ok(Ok(values))
}

/// The arguments of a call as values.
#[cycle(expression)]
fn arguments<F: Finder>(
    alloc: Global,
    finder: &F,
    source: &Source,
    frame: &Frame,
    arguments: &Arguments,
) -> Result<Judged<List<Given>>, AllocError>
    requires { length source.now.functions < 2 ^ 32 }
    ensures { IfOk result (λ judged. (choice : Pick) → Chooses source.now.classes choice → judged_by values_of judged ≡ spec.typed_arguments choice (F.finds finder.now) source.now frame.now arguments.now) }
{
    values(alloc, finder, source, frame, arguments.items.as_slice())
}
