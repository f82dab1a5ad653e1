// The rules on a method's code, by one pass over its instructions (ECMA-335, III.1.7 and III.1.8).
ghost use Rattle.std.specs.Prelude.{◌≡◌, ◌<◌, ◌≤◌, ◌^◌, ◌↔◌, IsTrue, ℕ, List, [], true, false, length, get_or, slice_get, replicate, set, None, Some, Option, IfOk, OnOk};
ghost use Rattle.std.specs.List.{AllByRecursion};
ghost use Rattle.cc_verify.specs.Transitions.{Stack, transition_of, falls, branch_offset, target, jump, branches, at_row};
ghost use Rattle.cc_verify.specs.Regions.{try_past, handler_past, innermost_handler};
ghost use Rattle.cc_verify.specs.Rules.{Agrees, Meets, Brings, may_jump, may_fall, may_end, may_begin, may_protect, is_aimed, has_room, runs_out, keeps_regions, stands, class_of, caught, entry_of, entries, has_edges, is_nested, ClauseVerdict, CodeVerdict};
ghost use Rattle.cc_verify.specs.Passes.{has_at, give_at, at_target, give_target, IsTable, AreStarts, early, late, Visits, Arrives};

use crate::effects::{apply, gives, is_built, stores_fit, takes};
use crate::environment::Environment;
use crate::method::Method;
use crate::places::{Broken, Place};
use crate::regions::{
    each_exits, each_passes, ends_handler, innermost_handler, is_catch_handler, is_cleanup,
    is_out_of_each, no_handler_has, some_try_begins,
};
use crate::stack::StackTypes;
use crate::stack_type::StackType;
use crate::transition::Transition;
use cc_base::ClassId;
use cc_cil::{Clause, ClauseKind};
use std::alloc::{AllocError, Global};

/// What a visit of an instruction finds: the first rule that it breaks, or the stack with which the next one is fallen
/// into, if it is.
#[derive(Drop)]
pub enum Outcome {
    Broken(u8),
    Kept(Option<StackTypes>),
}

// ---- targets

// The place that an offset leads to from the next instruction, if it does not lie before the code.
fn target(next: u32, offset: Option<i32>) -> Option<u64>
    ensures { result ≡ target next offset }
{
    match offset {
        None => None,
        Some(offset) => {
            let to = i64::from(next) + i64::from(offset);
            if to < 0 { None } else { Some(to as u64) }
        }
    }
}

fn jump(transition: Transition, next: u32) -> Option<u64>
    ensures { result ≡ jump transition next }
{
    target(next, transition.branch_offset())
}

/// Whether an instruction begins at the offset.
pub fn is_start(starts: &[bool], at: u64) -> bool
    ensures { result ≡ get_or starts.now at false }
{
    match starts.get(at as usize) {
        None => false,
        Some(start) => *start,
    }
}

fn is_aimed(method: &Method, starts: &[bool], transition: Transition, next: u32) -> bool
    requires { AreStarts starts.now method.now.places }
    ensures { result ≡ is_aimed method.now transition next }
{
    if transition.branch_offset().is_none() {
        return true;
    }
    match jump(transition, next) {
        None => false,
        Some(to) => is_start(starts, to),
    }
}

// ---- single rules

fn has_room(method: &Method, transition: Transition, height: usize) -> bool
    ensures { result ≡ has_room method.now transition height }
{
    let taken = takes(&method.environment, &method.frame, transition);
    if taken > height || height > method.most as usize {
        return false;
    }
    let given = gives(&method.environment, &method.frame, transition);
    height - taken + given <= method.most as usize
}

fn may_jump(transition: Transition, clauses: &[Clause], from: u32, to: Option<u64>) -> bool
    ensures { result ≡ may_jump transition clauses.now from to }
{
    match to {
        None => true,
        Some(to) => {
            if transition.is_leave() {
                each_exits(u64::from(from), to, clauses)
            } else {
                each_passes(u64::from(from), to, clauses)
            }
        }
    }
}

fn may_fall(transition: Transition, clauses: &[Clause], from: u32, next: u32) -> bool
    ensures { result ≡ may_fall transition clauses.now from next }
{
    if transition.falls() {
        each_passes(u64::from(from), u64::from(next), clauses)
    } else {
        true
    }
}

fn may_end(transition: Transition, clauses: &[Clause], at: u32) -> bool
    ensures { result ≡ may_end transition clauses.now at }
{
    match transition {
        Transition::Return => is_out_of_each(u64::from(at), clauses),
        Transition::EndFinally => ends_handler(clauses, u64::from(at)),
        _ => true,
    }
}

fn may_begin(clauses: &[Clause], at: u32) -> bool
    ensures { result ≡ may_begin clauses.now at }
{
    if at == 0 {
        no_handler_has(0, clauses)
    } else {
        true
    }
}

fn may_protect(clauses: &[Clause], at: u32, stack: &StackTypes) -> bool
    ensures { result ≡ may_protect clauses.now at stack.now }
{
    if stack.is_empty() {
        return true;
    }
    !some_try_begins(u64::from(at), clauses)
}

fn keeps_regions(method: &Method, place: &Place, transition: Transition, stack: &StackTypes) -> bool
    ensures { result ≡ keeps_regions method.now place.now transition stack.now }
{
    let clauses = method.clauses.as_slice();
    may_begin(clauses, place.at)
        && (may_protect(clauses, place.at, stack)
            && (may_fall(transition, clauses, place.at, place.next)
                && (may_jump(transition, clauses, place.at, jump(transition, place.next))
                    && may_end(transition, clauses, place.at))))
}

fn stands(transition: Transition, kind: Option<ClauseKind>) -> bool
    ensures { result ≡ stands transition kind }
{
    match transition {
        Transition::EndFinally => is_cleanup(kind),
        Transition::Rethrow => is_catch_handler(kind),
        _ => true,
    }
}

// The first of the rules that is broken which ask for no operands.
fn early_rule(
    method: &Method,
    starts: &[bool],
    place: &Place,
    transition: Transition,
    height: usize,
) -> Option<u8>
    requires { AreStarts starts.now method.now.places }
    ensures { result ≡ early method.now place.now transition height }
{
    if !is_built(&method.environment, &method.frame, transition) {
        return Some(0);
    }
    if !is_aimed(method, starts, transition, place.next) {
        return Some(1);
    }
    if !has_room(method, transition, height) {
        return Some(2);
    }
    None
}

// The first of the rules that is broken which come after those on operands and branches.
fn late_rule(
    method: &Method,
    place: &Place,
    transition: Transition,
    stack: &StackTypes,
) -> Option<u8>
    ensures { result ≡ late method.now place.now transition stack.now }
{
    if transition.falls() && place.next == method.size {
        return Some(5);
    }
    if !keeps_regions(method, place, transition, stack) {
        return Some(7);
    }
    let around = innermost_handler(method.clauses.as_slice(), u64::from(place.at));
    if !stands(transition, around) {
        return Some(8);
    }
    if !stores_fit(&method.frame, transition, stack) {
        return Some(11);
    }
    None
}

// ---- the stacks that offsets have

// Gives a stack to an offset that has none.
fn give(
    alloc: Global,
    known: &mut Vec<Option<StackTypes>>,
    at: u64,
    stack: &StackTypes,
) -> Result<(), AllocError>
    ensures { OnOk result (known.new.items ≡ give_at known.old.items at stack.now) }
{
    let at = at as usize;
    if at >= known.len() {
        return Ok(());
    }
    if known[at].is_none() {
        known[at] = Some(stack.copy(alloc)?);
    }
    Ok(())
}

// Whether what is brought to an offset is what it has.
fn agrees(known: &Vec<Option<StackTypes>>, at: u64, stack: &StackTypes) -> bool
    ensures { IsTrue result ↔ Agrees (has_at known.now.items at) stack.now }
{
    match known.get(at as usize) {
        None => true,
        Some(None) => true,
        Some(Some(has)) => has.is_same(stack),
    }
}

// Brings a stack to a target: false where the target has another one.
fn bring(
    alloc: Global,
    known: &mut Vec<Option<StackTypes>>,
    to: Option<u64>,
    stack: &StackTypes,
) -> Result<bool, AllocError>
    ensures answer { IfOk result (λ ok. IsTrue ok ↔ Brings (at_target known.old.items to) to (Some stack.now)) }
    ensures given { IfOk result (λ ok. ok ≡ true → known.new.items ≡ give_target known.old.items to stack.now) }
{
    match to {
        None => Ok(true),
        Some(at) => {
            if !agrees(known, at, stack) {
                return Ok(false);
            }
            give(alloc, known, at, stack)?;
            Ok(true)
        }
    }
}

// What a place has.
fn has_at(
    alloc: Global,
    known: &Vec<Option<StackTypes>>,
    at: u32,
) -> Result<Option<StackTypes>, AllocError>
    ensures { IfOk result (λ has. has ≡ has_at known.now.items at) }
{
    match known.get(at as usize) {
        None => Ok(None),
        Some(None) => Ok(None),
        Some(Some(has)) => Ok(Some(has.copy(alloc)?)),
    }
}

// The stack before an instruction: none where what is fallen in with is not what the place has.
fn arrive(alloc: Global, fallen: Option<StackTypes>, has: Option<StackTypes>) -> Option<StackTypes>
    ensures { Arrives fallen has result }
{
    match fallen {
        None => match has {
            None => Some(StackTypes::new(alloc)),
            Some(has) => Some(has),
        },
        Some(stack) => match has {
            None => Some(stack),
            Some(has) => {
                if has.is_same(&stack) {
                    Some(stack)
                } else {
                    None
                }
            }
        },
    }
}

// ---- the pass

// Visits an instruction.
fn visit(
    alloc: Global,
    method: &Method,
    starts: &[bool],
    known: &mut Vec<Option<StackTypes>>,
    place: &Place,
    fallen: Option<StackTypes>,
) -> Result<Outcome, AllocError>
    requires { AreStarts starts.now method.now.places }
    ensures { IfOk result (λ visit. Visits method.now known.old.items place.now fallen visit known.new.items) }
{
    let has = has_at(alloc, known, place.at)?;
    let stack = match arrive(alloc, fallen, has) {
        Some(stack) => stack,
        None => return Ok(Outcome::Broken(4)),
    };
    let transition = Transition::of(place.instruction);
    match early_rule(method, starts, place, transition, stack.len()) {
        Some(rule) => return Ok(Outcome::Broken(rule)),
        None => {}
    }
    give(alloc, known, u64::from(place.at), &stack)?;
    let mut behind = stack.copy(alloc)?;
    let fits = apply(&method.environment, &method.frame, transition, &mut behind)?;
    if !fits {
        return Ok(Outcome::Broken(3));
    }
    let to = jump(transition, place.next);
    let brings = bring(alloc, known, to, &behind)?;
    if !brings {
        return Ok(Outcome::Broken(4));
    }
    match late_rule(method, place, transition, &stack) {
        Some(rule) => return Ok(Outcome::Broken(rule)),
        None => {}
    }
    if transition.falls() {
        Ok(Outcome::Kept(Some(behind)))
    } else {
        Ok(Outcome::Kept(None))
    }
}

// So many offsets, none of which has a stack.
fn nothing_known(alloc: Global, count: u32) -> Result<Vec<Option<StackTypes>>, AllocError>
    ensures { IfOk result (λ known. known.items ≡ replicate count None) }
{
    let mut known = Vec::new(alloc);
    for _ in 0..count {
        known.push(None)?;
    }
    Ok(known)
}

fn class_at(classes: &[ClassId], row: u32) -> Option<ClassId>
    ensures { result ≡ at_row classes.now row }
{
    if row == 0 {
        return None;
    }
    classes.get(row as usize - 1).copied()
}

// The class that a catch's token names.
fn class_of(environment: &Environment, token: u32) -> Option<ClassId>
    ensures { result ≡ class_of environment.now token }
{
    let row = token % 0x0100_0000;
    let table = token / 0x0100_0000;
    if table == 0x01 {
        class_at(environment.classes.as_slice(), row)
    } else if table == 0x02 {
        Some(ClassId(27 + row))
    } else {
        None
    }
}

// The stack with which a handler begins.
fn entry_of(
    alloc: Global,
    environment: &Environment,
    clause: &Clause,
) -> Result<StackTypes, AllocError>
    ensures { IfOk result (λ entry. entry ≡ entry_of environment.now clause.now.kind clause.now.class) }
{
    let mut entry = StackTypes::new(alloc);
    match clause.kind {
        ClauseKind::Catch => {
            if let Some(class) = class_of(environment, clause.class) {
                entry.push(StackType::Object(class))?;
            }
        }
        ClauseKind::Finally => {}
        ClauseKind::Fault => {}
    }
    Ok(entry)
}

// What offsets have before the first instruction: the entries of handlers.
fn entries(
    alloc: Global,
    environment: &Environment,
    clauses: &[Clause],
    size: u32,
) -> Result<Vec<Option<StackTypes>>, AllocError>
    requires { AllByRecursion (λ c. c.handler_first < size) clauses.now }
    ensures table { IfOk result (λ known. IsTable known.items (entries environment.now clauses.now)) }
    ensures long { IfOk result (λ known. length known.items ≡ size) }
{
    let mut known = nothing_known(alloc, size)?;
    for clause in clauses {
        let entry = entry_of(alloc, environment, clause)?;
        give(alloc, &mut known, u64::from(clause.handler_first), &entry)?;
    }
    Ok(known)
}

// The first rule that an instruction breaks, where the instructions end at an offset and handlers have their entries.
fn pass_over(
    alloc: Global,
    method: &Method,
    starts: &[bool],
    places: &[Place],
    mut known: Vec<Option<StackTypes>>,
    end: u32,
) -> Result<Option<Broken>, AllocError>
    requires starts { AreStarts starts.now method.now.places }
    requires long { length starts.now ≡ method.now.size }
    requires same { places.now ≡ method.now.places }
    requires table { IsTable known.items (entries method.now.environment method.now.clauses) }
    requires room { length known.items ≡ method.now.size }
    ensures { IfOk result (λ verdict. CodeVerdict method.now end (entries method.now.environment method.now.clauses) None method.now.places verdict) }
{
    let mut fallen: Option<StackTypes> = None;
    for place in places {
        let outcome = visit(alloc, method, starts, &mut known, place, fallen)?;
        match outcome {
            Outcome::Broken(rule) => return Ok(Some(Broken { at: place.at, rule })),
            Outcome::Kept(next) => {
                fallen = next;
            }
        }
    }
    if end == method.size {
        Ok(None)
    } else {
        Ok(Some(Broken { at: end, rule: 1 }))
    }
}

/// The first rule that an instruction of a method breaks, where its instructions end at an offset.
pub fn code_verdict(
    alloc: Global,
    method: &Method,
    starts: &[bool],
    end: u32,
) -> Result<Option<Broken>, AllocError>
    requires starts { AreStarts starts.now method.now.places }
    requires long { length starts.now ≡ method.now.size }
    requires handlers { AllByRecursion (λ c. c.handler_first < method.now.size) method.now.clauses }
    ensures { IfOk result (λ verdict. CodeVerdict method.now end (entries method.now.environment method.now.clauses) None method.now.places verdict) }
{
    let clauses = method.clauses.as_slice();
    let known = entries(alloc, &method.environment, clauses, method.size)?;
    let places = method.places.as_slice();
    let found = pass_over(alloc, method, starts, places, known, end)?;
    Ok(found)
}
