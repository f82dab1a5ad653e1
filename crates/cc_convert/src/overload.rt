// Which of several functions a call takes (ECMA-372, 14.1; C++, 13.3).
ghost use Rattle.std.specs.Prelude.{◌≡◌, ◌<◌, ◌^◌, ◌↔◌, ℕ, length, IfNone, IfSome, IsTrue, MatchBool, slice_get, Some};
ghost use Rattle.cc_core.specs.declared.types.CoreType.{CoreType};
ghost use Rattle.cc_core.specs.Types.{bare};
ghost use Rattle.cc_convert.specs.declared.conversion.Conversion.{Conversion};
ghost use Rattle.cc_convert.specs.Overloads.{handed, IsPassed, IsViable, IsBetterTo, IsBetter, HasBetter, Beats, IsViableAt, BeatsAt, BeatsOthers, NoneViableBefore, IsFirstUnbeaten, IsChoice};

use crate::conversion::{Conversion, convert};
use cc_base::List;
use cc_core::{Classes, CoreType};

/// The parameters of a function that a call may take.
#[derive(Debug, Drop)]
pub struct Signature {
    pub parameters: List<CoreType>,
}

/// Which of some candidates a call takes, each by its place.
#[derive(Clone, Copy, Debug, PartialEq, Eq)]
pub enum Choice {
    /// This one beats all others that are viable.
    One(u32),
    /// None is viable.
    None,
    /// None beats all others: the first that is viable, and the first that it does not beat.
    Tie(u32, u32),
}

/// Which candidate a call takes with arguments of these types, where an argument that is a place of type `T` stands as
/// `Track(T)`. It takes no memory.
pub fn choose(candidates: &[Signature], given: &[CoreType], classes: &Classes) -> Choice
    requires few { length candidates.now < 2 ^ 32 }
    ensures { IsChoice classes.now given.now candidates.now result }
{
    let Some(first) = first_viable(candidates, given, classes) else {
        return Choice::None;
    };
    let Some(second) = first_unbeaten(candidates, first, given, classes) else {
        return Choice::One(first);
    };
    let best = only_best(candidates, first, given, classes);
    match first_unbeaten(candidates, best, given, classes) {
        None => Choice::One(best),
        Some(_) => Choice::Tie(first, second),
    }
}

/// The first candidate that is viable.
fn first_viable(candidates: &[Signature], given: &[CoreType], classes: &Classes) -> Option<u32>
    requires few { length candidates.now < 2 ^ 32 }
    ensures some { IfSome result (λ at. IsViableAt classes.now given.now candidates.now at
        × NoneViableBefore classes.now given.now candidates.now at) }
    ensures none { IfNone result ((at : ℕ) → ¬ IsViableAt classes.now given.now candidates.now at) }
{
    for at in 0..candidates.len() {
        if is_viable_at(candidates, at as u32, given, classes) {
            return Some(at as u32);
        }
    }
    None
}

/// The first viable candidate, besides one of them, that this one does not beat.
fn first_unbeaten(
    candidates: &[Signature],
    one: u32,
    given: &[CoreType],
    classes: &Classes,
) -> Option<u32>
    requires few { length candidates.now < 2 ^ 32 }
    requires viable { IsViableAt classes.now given.now candidates.now one }
    ensures some { IfSome result (IsFirstUnbeaten classes.now given.now candidates.now one) }
    ensures none { IfNone result (BeatsOthers classes.now given.now candidates.now one) }
{
    for at in 0..candidates.len() {
        let other = at as u32;
        if other != one && is_unbeaten(candidates, one, other, given, classes) {
            return Some(other);
        }
    }
    None
}

/// The only candidate from a viable one on that may beat all others.
fn only_best(candidates: &[Signature], first: u32, given: &[CoreType], classes: &Classes) -> u32
    requires few { length candidates.now < 2 ^ 32 }
    requires viable { IsViableAt classes.now given.now candidates.now first }
    ensures viable { IsViableAt classes.now given.now candidates.now result }
    ensures only { (at : ℕ) → IsViableAt classes.now given.now candidates.now at
        → BeatsOthers classes.now given.now candidates.now at → at ≡ result }
{
    let mut best = first;
    for at in 0..candidates.len() {
        if is_unbeaten(candidates, best, at as u32, given, classes) {
            best = at as u32;
        }
    }
    best
}

/// Whether a candidate is viable and another one, which is viable, does not beat it.
fn is_unbeaten(
    candidates: &[Signature],
    one: u32,
    other: u32,
    given: &[CoreType],
    classes: &Classes,
) -> bool
    requires viable { IsViableAt classes.now given.now candidates.now one }
    requires within { other < length candidates.now }
    ensures { MatchBool result
        (IsViableAt classes.now given.now candidates.now other
        × ¬ BeatsAt classes.now given.now candidates.now one other)
        (IsViableAt classes.now given.now candidates.now other
        → BeatsAt classes.now given.now candidates.now one other) }
{
    is_viable_at(candidates, other, given, classes)
        && !beats_at(candidates, one, other, given, classes)
}

/// Whether a candidate is viable.
fn is_viable_at(candidates: &[Signature], at: u32, given: &[CoreType], classes: &Classes) -> bool
    requires within { at < length candidates.now }
    ensures { IsTrue result ↔ IsViableAt classes.now given.now candidates.now at }
{
    is_viable(&candidates[at as usize], given, classes)
}

/// Whether a viable candidate beats another one.
fn beats_at(
    candidates: &[Signature],
    one: u32,
    other: u32,
    given: &[CoreType],
    classes: &Classes,
) -> bool
    requires first { IsViableAt classes.now given.now candidates.now one }
    requires second { IsViableAt classes.now given.now candidates.now other }
    ensures { IsTrue result ↔ BeatsAt classes.now given.now candidates.now one other }
{
    beats(
        &candidates[one as usize],
        &candidates[other as usize],
        given,
        classes,
    )
}

/// Whether the counts of arguments and parameters agree, and each argument converts.
fn is_viable(signature: &Signature, given: &[CoreType], classes: &Classes) -> bool
    ensures { IsTrue result ↔ IsViable classes.now given.now signature.now }
{
    let parameters = signature.parameters.as_slice();
    parameters.len() == given.len() && all_pass(parameters, given, classes)
}

/// Whether each of so many arguments converts for its parameter.
fn all_pass(parameters: &[CoreType], given: &[CoreType], classes: &Classes) -> bool
    requires same_count { length parameters.now ≡ length given.now }
    ensures { IsTrue result
        ↔ ((at : ℕ) (argument parameter : CoreType) → slice_get given.now at ≡ Some argument
        → slice_get parameters.now at ≡ Some parameter
        → (conversion : Conversion) × IsPassed classes.now argument parameter conversion) }
{
    for at in 0..given.len() {
        if passed(&given[at], &parameters[at], classes).is_none() {
            return false;
        }
    }
    true
}

/// Whether none of the conversions for one function is worse than for another one, and one is better.
fn beats(first: &Signature, second: &Signature, given: &[CoreType], classes: &Classes) -> bool
    requires first_count { length first.now.parameters ≡ length given.now }
    requires second_count { length second.now.parameters ≡ length given.now }
    ensures { IsTrue result ↔ Beats classes.now given.now first.now second.now }
{
    let first = first.parameters.as_slice();
    let second = second.parameters.as_slice();
    !has_better(second, first, given, classes) && has_better(first, second, given, classes)
}

/// Whether an argument converts better for its parameter among the first than among the second.
fn has_better(
    first: &[CoreType],
    second: &[CoreType],
    given: &[CoreType],
    classes: &Classes,
) -> bool
    requires first_count { length first.now ≡ length given.now }
    requires second_count { length second.now ≡ length given.now }
    ensures { IsTrue result ↔ HasBetter classes.now given.now first.now second.now }
{
    for at in 0..given.len() {
        if is_better(&given[at], &first[at], &second[at], classes) {
            return true;
        }
    }
    false
}

/// Whether an argument converts better for the first parameter than for the second.
fn is_better(given: &CoreType, first: &CoreType, second: &CoreType, classes: &Classes) -> bool
    ensures { IsTrue result ↔ IsBetter classes.now given.now first.now second.now }
{
    let Some(one) = passed(given, first, classes) else {
        return false;
    };
    let Some(other) = passed(given, second, classes) else {
        return false;
    };
    is_better_to(first, one, second, other, classes)
}

/// Whether a conversion to the first type is better than one to the second.
fn is_better_to(
    first: &CoreType,
    one: Conversion,
    second: &CoreType,
    other: Conversion,
    classes: &Classes,
) -> bool
    ensures { IsTrue result ↔ IsBetterTo classes.now first.now one second.now other }
{
    if one.rank < other.rank {
        return true;
    }
    if one.rank != 3 || other.rank != 3 || first.is_same(second) {
        return false;
    }
    convert(first, second, classes).is_some()
}

/// The conversion of an argument for a parameter, `None` exactly where there is none.
fn passed(given: &CoreType, parameter: &CoreType, classes: &Classes) -> Option<Conversion>
    ensures some { IfSome result (IsPassed classes.now given.now parameter.now) }
    ensures none { IfNone result
        ((conversion : Conversion) → ¬ IsPassed classes.now given.now parameter.now conversion) }
{
    convert(handed(given, parameter), parameter, classes)
}

/// The type that is converted for a parameter: of a place what it holds, where the parameter does not take the place.
fn handed<'a>(given: &'a CoreType, parameter: &CoreType) -> &'a CoreType
    ensures { bare result.now ≡ handed (bare given.now) (bare parameter.now) }
{
    match given {
        CoreType::Track(target) => match parameter {
            CoreType::Track(_) => given,
            _ => target,
        },
        _ => given,
    }
}
