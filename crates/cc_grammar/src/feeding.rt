// The parser, token by token.
ghost use Rattle.std.specs.Prelude.{◌≡◌, [], ◌∷◌, IfOk, OnOk};
ghost use Rattle.cc_grammar.specs.Turns as spec;
ghost use Rattle.cc_grammar.specs.Depths as depths;

use crate::pending::{Pending, expect, put_back};
use crate::settle::{act, settle};
use cc_build::{Stack, Value};
use cc_table::{Symbol, otherwise};
use std::alloc::{AllocError, Global};

/// Gives the parser an input, and goes on until it is taken. Whether it is not refused.
pub fn feed(
    alloc: Global,
    first: Pending,
    symbols: &mut Stack<Symbol>,
    values: &mut Stack<Value>,
    heights: &mut Stack<u32>,
) -> Result<bool, AllocError>
    requires typed { depths.Typed symbols.old values.old (spec.one_fed first ∷ []) }
    requires measured { heights.old ≡ depths.measures values.old }
    requires carried { depths.Carry (first ∷ []) }
    ensures feeds { IfOk result (λ goes. spec.Feeds goes symbols.old values.old (spec.one_fed first) symbols.new values.new) }
    ensures measures { OnOk result (heights.new ≡ depths.measures values.new) }
{
    let mut pending = Stack::new(alloc);
    pending.push(first)?;
    while let Some(one) = pending.pop() {
        if !settle(alloc, one, symbols, values, heights, &mut pending)? {
            return Ok(false);
        }
    }
    Ok(true)
}

/// How the parser goes on after the last token.
#[derive(Drop)]
pub enum Ending {
    /// Nothing is expected any more.
    Done,
    Back(Pending),
    Refused,
}

/// Goes on, after the last token, until nothing is expected or a value is put back.
fn settle_end(
    alloc: Global,
    symbols: &mut Stack<Symbol>,
    values: &mut Stack<Value>,
    heights: &mut Stack<u32>,
) -> Result<Ending, AllocError>
    requires typed { depths.Typed symbols.old values.old [] }
    requires measured { heights.old ≡ depths.measures values.old }
    ensures measures { OnOk result (heights.new ≡ depths.measures values.new) }
    ensures carries { IfOk result (λ ending. depths.Carries ending) }
    ensures ends { IfOk result (λ ending. spec.Ends ending symbols.old values.old symbols.new values.new) }
{
    while let Some(symbol) = symbols.pop() {
        match symbol {
            Symbol::Act(action) => act(alloc, action, values, heights)?,
            Symbol::Back(input) => return Ok(Ending::Back(put_back(input, values, heights))),
            Symbol::Non(sort) => match otherwise(sort) {
                Some(part) => expect(symbols, part)?,
                None => return Ok(Ending::Refused),
            },
        }
    }
    Ok(Ending::Done)
}

/// Goes on after the last token. Whether the end is not refused.
pub fn finish(
    alloc: Global,
    symbols: &mut Stack<Symbol>,
    values: &mut Stack<Value>,
    heights: &mut Stack<u32>,
) -> Result<bool, AllocError>
    requires typed { depths.Typed symbols.old values.old [] }
    requires measured { heights.old ≡ depths.measures values.old }
    ensures measures { OnOk result (heights.new ≡ depths.measures values.new) }
    ensures finishes { IfOk result (λ ended. spec.Finishes ended symbols.old values.old values.new) }
{
    'endings: loop {
        match settle_end(alloc, symbols, values, heights)? {
            Ending::Done => return Ok(true),
            Ending::Refused => return Ok(false),
            Ending::Back(one) => {
                if !feed(alloc, one, symbols, values, heights)? {
                    return Ok(false);
                }
            }
        }
    }
}
