// How deep the trees to come are at least, up to just over the limit.
ghost use Rattle.std.specs.Prelude.{◌≡◌, ◌+◌, ◌≤◌, IfOk, OnOk, drop, length};
ghost use Rattle.cc_table.specs.Sizes as sizes;
ghost use Rattle.cc_table.specs.declared.symbols.Symbol.TheVariants.{Non};
ghost use Rattle.cc_grammar_laws.specs.Heights as law;
ghost use Rattle.cc_grammar.specs.Depths as spec;

use cc_build::Stack;
use cc_table::{
    Action, Input, Remains, Sort, Symbol, adds, least, leaves, nests, receives, takes, uses,
};
use std::alloc::{AllocError, Global};

/// How deep a tree may be.
pub const DEPTH_LIMIT: u32 = 256;

/// A height, or just over the limit.
pub fn capped(height: u32) -> u32
    ensures { result ≡ spec.capped height }
{
    height.min(DEPTH_LIMIT + 1)
}

/// A greater height, or just over the limit.
pub fn raised(height: u32, by: u32) -> u32
    ensures { result ≡ spec.capped (height + by) }
{
    capped(capped(height) + capped(by))
}

/// The greatest of the topmost heights, which are taken off.
pub fn take_tallest(count: usize, heights: &mut Stack<u32>) -> u32
    ensures tallest { result ≡ law.tallest count heights.old }
    ensures rest { heights.new ≡ drop count heights.old }
{
    let mut greatest = 0;
    let mut left = count;
    while left > 0 {
        left -= 1;
        if let Some(height) = heights.pop() {
            greatest = u32::max(greatest, height);
        }
    }
    greatest
}

/// The heights after an action.
pub fn raise(action: Action, heights: &mut Stack<u32>) -> Result<(), AllocError>
    ensures { OnOk result (heights.new ≡ spec.acted action heights.old) }
{
    let height = take_tallest(uses(action), heights);
    heights.push(raised(height, nests(action)))?;
    Ok(())
}

/// Whether an input that is put back brings a tree with it.
fn is_tree(input: Input) -> bool
    ensures { result ≡ law.is_tree input }
{
    match input {
        Input::CoreType | Input::OperandType | Input::PropertyType => true,
        _ => false,
    }
}

/// The least height of what a part leaves.
fn part_height(sort: Sort, waiting: u32, heights: &mut Stack<u32>) -> u32
    ensures height { result ≡ spec.capped (law.part_height sort (law.heights waiting heights.old)) }
    ensures rest { heights.new ≡ drop (sizes.takes sort) heights.old }
{
    let taken = take_tallest(takes(sort), heights);
    let received = if receives(sort) { waiting } else { 0 };
    u32::max(
        capped(least(sort)),
        raised(u32::max(received, taken), adds(sort)),
    )
}

/// The heights after a part. What waits in the input then is the answer.
fn pass_part(sort: Sort, waiting: u32, heights: &mut Stack<u32>) -> Result<u32, AllocError>
    ensures { IfOk result (λ left. law.heights left heights.new ≡ spec.passes (Non sort) (law.heights waiting heights.old)) }
{
    let height = part_height(sort, waiting, heights);
    match leaves(sort) {
        Remains::Nothing => Ok(0),
        Remains::OneValue => {
            heights.push(height)?;
            Ok(0)
        }
        Remains::OneInput => Ok(height),
    }
}

/// The heights after a symbol. What waits in the input then is the answer.
pub fn pass(symbol: Symbol, waiting: u32, heights: &mut Stack<u32>) -> Result<u32, AllocError>
    ensures { IfOk result (λ left. law.heights left heights.new ≡ spec.passes symbol (law.heights waiting heights.old)) }
{
    match symbol {
        Symbol::Non(sort) => pass_part(sort, waiting, heights),
        Symbol::Act(action) => {
            raise(action, heights)?;
            Ok(waiting)
        }
        Symbol::Back(input) => {
            let height = take_tallest(1, heights);
            Ok(if is_tree(input) { height } else { 0 })
        }
    }
}

/// The same heights.
pub fn copied(alloc: Global, heights: &Stack<u32>) -> Result<Stack<u32>, AllocError>
    ensures { IfOk result (λ copy. copy ≡ heights.now) }
{
    let items = heights.from_bottom();
    let mut copy = Stack::new(alloc);
    let mut i = 0;
    while i < items.len() {
        copy.push(items[i])?;
        i += 1;
    }
    Ok(copy)
}

/// The least depth of the trees that the lowest symbols, so many, can still leave.
pub fn least_depth(
    items: &[Symbol],
    count: usize,
    pending: u32,
    heights: &mut Stack<u32>,
) -> Result<u32, AllocError>
    requires { count ≤ length items.now }
    ensures { IfOk result (λ least. least ≡ spec.capped (law.least_depth (spec.from_top count items.now) (law.heights pending heights.old))) }
{
    let mut waiting = pending;
    let mut left = count;
    while left > 0 {
        left -= 1;
        waiting = pass(items[left], waiting, heights)?;
    }
    Ok(capped(take_tallest(1, heights)))
}
