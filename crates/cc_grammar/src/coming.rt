// How deep the trees that can come after a token are at least, up to just over the limit.
ghost use Rattle.std.specs.Prelude.{◌≡◌, ◌≤◌, IfOk, length};
ghost use Rattle.cc_grammar_laws.specs.Heights as law;
ghost use Rattle.cc_grammar.specs.Depths as depths;
ghost use Rattle.cc_grammar.specs.Coming as spec;

use crate::binary::level;
use crate::depth::{capped, copied, least_depth, pass, raise, raised, take_tallest};
use cc_build::Stack;
use cc_table::{Action, Sort, Symbol};
use cc_tree::BinaryOperator;
use std::alloc::{AllocError, Global};

/// What becomes of an operator at a symbol that is expected after its first operand.
#[derive(Clone, Copy)]
pub enum Meeting {
    Act(Action),
    Pass,
    Take,
    End,
}

/// What becomes of an operator so tight at a symbol.
fn meeting_at(symbol: Symbol, tightness: u8) -> Meeting
    ensures { result ≡ spec.meeting_at tightness symbol }
{
    match symbol {
        Symbol::Act(action) => Meeting::Act(action),
        Symbol::Non(Sort::SuffixRest) => Meeting::Pass,
        Symbol::Non(Sort::AfterUnary) => Meeting::Take,
        Symbol::Non(Sort::BinaryRest(least)) => {
            if least <= tightness {
                Meeting::Take
            } else {
                Meeting::Pass
            }
        }
        _ => Meeting::End,
    }
}

/// The least depth where an operator takes the topmost value.
fn operator_taken(
    items: &[Symbol],
    count: usize,
    waiting: u32,
    heights: &mut Stack<u32>,
) -> Result<u32, AllocError>
    requires { count ≤ length items.now }
    ensures { IfOk result (λ least. least ≡ depths.capped (law.operator_taken (depths.from_top count items.now) (law.heights waiting heights.old))) }
{
    let first = take_tallest(1, heights);
    let second = raised(waiting, 1);
    heights.push(raised(u32::max(first, second), 1))?;
    least_depth(items, count, 0, heights)
}

/// The least depth where an operator so tight comes after the topmost value.
fn joined(
    items: &[Symbol],
    count: usize,
    tightness: u8,
    waiting: u32,
    heights: &mut Stack<u32>,
) -> Result<u32, AllocError>
    requires { count ≤ length items.now }
    ensures { IfOk result (λ least. least ≡ depths.capped (law.joined tightness (depths.from_top count items.now) (law.heights waiting heights.old))) }
{
    let mut left = count;
    while left > 0 {
        match meeting_at(items[left - 1], tightness) {
            Meeting::Act(action) => raise(action, heights)?,
            Meeting::Pass => {}
            Meeting::Take => return operator_taken(items, left - 1, waiting, heights),
            Meeting::End => return least_depth(items, left, 0, heights),
        }
        left -= 1;
    }
    Ok(capped(take_tallest(1, heights)))
}

/// The least depth after a `<` that follows a node so deep, which is not on the stack.
fn after_less(
    alloc: Global,
    items: &[Symbol],
    count: usize,
    bare: u32,
    waiting: u32,
    heights: &mut Stack<u32>,
) -> Result<u32, AllocError>
    requires { count ≤ length items.now }
    ensures { IfOk result (λ least. least ≡ depths.capped (law.after_less bare 0 (depths.from_top count items.now) (law.heights waiting heights.old))) }
{
    let mut others = copied(alloc, heights)?;
    let typed = u32::max(bare, raised(u32::max(1, waiting), 2));
    heights.push(typed)?;
    others.push(bare)?;
    let with_types = least_depth(items, count, 0, heights)?;
    let tightness = level(BinaryOperator::Less);
    let without = joined(items, count, tightness, waiting, &mut others)?;
    Ok(u32::min(with_types, without))
}

/// What a `<` stands after.
#[derive(Clone, Copy)]
pub enum Named {
    Name,
    Member,
    Created,
}

/// The least depth after a `<` that stands after one of these.
fn after_name(
    alloc: Global,
    items: &[Symbol],
    count: usize,
    named: Named,
    waiting: u32,
    heights: &mut Stack<u32>,
) -> Result<u32, AllocError>
    requires { count ≤ length items.now }
    ensures { IfOk result (λ least. least ≡ depths.capped (spec.after_name named (depths.from_top count items.now) (law.heights waiting heights.old))) }
{
    match named {
        Named::Name => {
            take_tallest(2, heights);
            after_less(alloc, items, count, 1, waiting, heights)
        }
        Named::Member => {
            take_tallest(1, heights);
            let bare = raised(take_tallest(3, heights), 1);
            after_less(alloc, items, count, bare, waiting, heights)
        }
        Named::Created => {
            take_tallest(3, heights);
            after_less(alloc, items, count, 2, waiting, heights)
        }
    }
}

/// The least depth after a `>` between operands.
fn after_greater(
    alloc: Global,
    items: &[Symbol],
    count: usize,
    heights: &mut Stack<u32>,
) -> Result<u32, AllocError>
    requires { count ≤ length items.now }
    ensures { IfOk result (λ least. least ≡ depths.capped (law.after_greater (depths.from_top count items.now) heights.old)) }
{
    let mut others = copied(alloc, heights)?;
    let tightness = level(BinaryOperator::Greater);
    let relational = joined(items, count, tightness, 0, heights)?;
    let tightness = level(BinaryOperator::ShiftRight);
    let shift = joined(items, count, tightness, 0, &mut others)?;
    Ok(u32::min(relational, shift))
}

/// A sign that was taken and may be an operator or another.
#[derive(Clone, Copy)]
pub enum Sign {
    /// A `>` between operands.
    Greater,
    /// A `<`, after which nothing was read.
    Less(Named),
    /// A `<`, after which a type was begun.
    Types(Named),
}

/// The sign that a symbol stands for.
fn sign_of(symbol: Symbol) -> Option<Sign>
    ensures { result ≡ spec.sign_of symbol }
{
    match symbol {
        Symbol::Non(Sort::GreaterEnd) => Some(Sign::Greater),
        Symbol::Non(Sort::AfterNameLess) => Some(Sign::Less(Named::Name)),
        Symbol::Non(Sort::NameTypes) => Some(Sign::Types(Named::Name)),
        Symbol::Non(Sort::AfterMemberLess) => Some(Sign::Less(Named::Member)),
        Symbol::Non(Sort::MemberTypes) => Some(Sign::Types(Named::Member)),
        Symbol::Non(Sort::AfterNewLess) => Some(Sign::Less(Named::Created)),
        Symbol::Non(Sort::NewTypes) => Some(Sign::Types(Named::Created)),
        _ => None,
    }
}

/// The least depth after a sign.
fn after_sign(
    alloc: Global,
    items: &[Symbol],
    count: usize,
    sign: Sign,
    waiting: u32,
    heights: &mut Stack<u32>,
) -> Result<u32, AllocError>
    requires { count ≤ length items.now }
    ensures { IfOk result (λ least. least ≡ depths.capped (spec.after_sign sign (depths.from_top count items.now) (law.heights waiting heights.old))) }
{
    match sign {
        Sign::Greater => {
            take_tallest(1, heights);
            after_greater(alloc, items, count, heights)
        }
        Sign::Less(named) => after_name(alloc, items, count, named, 0, heights),
        Sign::Types(named) => after_name(alloc, items, count, named, waiting, heights),
    }
}

/// The least depth of the trees that can come after a token.
pub fn least_to_come(
    alloc: Global,
    symbols: &Stack<Symbol>,
    heights: &Stack<u32>,
) -> Result<u32, AllocError>
    ensures { IfOk result (λ least. least ≡ depths.capped (law.least_to_come symbols.now (law.heights 0 heights.now))) }
{
    let items = symbols.from_bottom();
    let mut stack = copied(alloc, heights)?;
    let mut waiting = 0;
    let mut left = items.len();
    while left > 0 {
        left -= 1;
        match sign_of(items[left]) {
            Some(sign) => return after_sign(alloc, items, left, sign, waiting, &mut stack),
            None => waiting = pass(items[left], waiting, &mut stack)?,
        }
    }
    Ok(capped(take_tallest(1, &mut stack)))
}
