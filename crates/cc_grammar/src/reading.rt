// The parser over a list of tokens.
ghost use Rattle.std.specs.Prelude.{◌≡◌, [], IfOk, OnOk};
ghost use Rattle.cc_grammar_laws.specs.Kinds.{AllFed};
ghost use Rattle.cc_grammar.specs.Reading as spec;

use crate::coming::least_to_come;
use crate::depth::{DEPTH_LIMIT, take_tallest};
use crate::feeding::{feed, finish};
use crate::pending::Pending;
use crate::token_value::value;
use cc_build::{Stack, Value};
use cc_table::{Action, Input, Sort, Symbol};
use cc_tree::{Terminal, Token};
use std::alloc::{AllocError, Global};

/// A token with its terminal symbol.
#[derive(Clone, Copy)]
pub struct Sorted<'a> {
    pub terminal: Terminal,
    pub token: &'a Token,
}

/// What is expected at the start.
fn expect_unit(symbols: &mut Stack<Symbol>) -> Result<(), AllocError>
    requires { symbols.old ≡ [] }
    ensures { OnOk result (symbols.new ≡ spec.unit_part) }
{
    symbols.push(Symbol::Act(Action::MakeUnit))?;
    symbols.push(Symbol::Non(Sort::UnitRest))?;
    symbols.push(Symbol::Act(Action::StartOuters))?;
    Ok(())
}

/// What comes of some tokens.
#[derive(Drop)]
pub enum Reading {
    /// The values that they leave.
    Whole(Stack<Value>),
    /// The place of the first token, or of the end, that is refused whatever follows.
    Refused(usize),
    /// The place of the first token after which each tree that may come is too deep.
    TooDeep(usize),
    /// What they leave is too deep.
    TooDeepAtEnd,
}

/// What comes of the tokens.
pub fn read(alloc: Global, tokens: &[Sorted<'_>]) -> Result<Reading, AllocError>
    requires { AllFed (spec.read tokens.now) }
    ensures { IfOk result (λ answer. spec.Reads tokens.now answer) }
{
    let mut symbols = Stack::new(alloc);
    let mut values = Stack::new(alloc);
    let mut heights = Stack::new(alloc);
    expect_unit(&mut symbols)?;
    for (i, one) in tokens.iter().enumerate() {
        let kept = value(alloc, one.terminal, one.token)?;
        let first = Pending {
            input: Input::Token(one.terminal),
            value: kept,
            height: 0,
        };
        if !feed(alloc, first, &mut symbols, &mut values, &mut heights)? {
            return Ok(Reading::Refused(i));
        }
        let least = least_to_come(alloc, &symbols, &heights)?;
        if least > DEPTH_LIMIT {
            return Ok(Reading::TooDeep(i));
        }
    }
    if !finish(alloc, &mut symbols, &mut values, &mut heights)? {
        return Ok(Reading::Refused(tokens.len()));
    }
    let top = take_tallest(1, &mut heights);
    if top > DEPTH_LIMIT {
        return Ok(Reading::TooDeepAtEnd);
    }
    Ok(Reading::Whole(values))
}
