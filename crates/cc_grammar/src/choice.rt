// What a part of the grammar makes of an input.
ghost use Rattle.std.specs.Prelude.{◌≡◌, MatchOption, IfOk, OnOk, None, Some};
ghost use Rattle.cc_pushdown.specs.Machine as machine;
ghost use Rattle.cc_grammar.specs.Turns as spec;

use crate::binary::{level, operator};
use crate::pending::Pending;
use crate::seen::seen;
use cc_build::{Stack, Value};
use cc_table::{Input, Sort, Symbol, Take, otherwise};
use cc_tree::{BinaryOperator, Sign, Terminal};
use std::alloc::AllocError;

/// How an input is taken, and what is expected then.
#[derive(Clone, Copy)]
pub enum Taking {
    Drop(&'static [Symbol]),
    Keep(&'static [Symbol]),
    /// A `>` that may begin a shift, between operands of at least this level.
    Greater(u8),
    /// An operator between operands of at least this level.
    Join(BinaryOperator, u8),
}

/// What a part is at an input for which it has a row.
#[derive(Clone, Copy)]
pub enum Choice {
    Look(&'static [Symbol]),
    Take(Taking),
}

/// What a part is at an input.
#[derive(Clone, Copy)]
pub enum Met {
    Expect(&'static [Symbol]),
    Take(Taking),
    Refuse,
}

/// What the rest of a binary expression is at an input.
fn binary(least: u8, input: Input) -> Option<Taking>
    ensures { MatchOption result (machine.binary least input ≡ None) (λ taking. machine.binary least input ≡ Some (spec.taking_of taking)) }
{
    if let Input::Token(Terminal::Sign(Sign::Greater)) = input {
        return Some(Taking::Greater(least));
    }
    match operator(input) {
        Some(operator) => joined(least, operator),
        None => None,
    }
}

/// An operator between operands of at least a level.
fn joined(least: u8, operator: BinaryOperator) -> Option<Taking>
    ensures { MatchOption result (machine.operator_part least operator ≡ None) (λ taking. machine.operator_part least operator ≡ Some (spec.taking_of taking)) }
{
    if least <= level(operator) {
        Some(Taking::Join(operator, least))
    } else {
        None
    }
}

/// What a part other than the rest of a binary expression is at an input for which it has a row.
fn chosen(sort: Sort, input: Input) -> Option<Choice>
    ensures { MatchOption result (spec.row_at sort input ≡ None) (λ choice. spec.row_at sort input ≡ Some (spec.taken_of choice)) }
{
    let chosen = cc_table::begins(sort, input)?;
    Some(match chosen.take {
        Take::Look => Choice::Look(chosen.part),
        Take::Drop => Choice::Take(Taking::Drop(chosen.part)),
        Take::Keep => Choice::Take(Taking::Keep(chosen.part)),
    })
}

/// What a part is at an input for which it has a row.
fn begins(sort: Sort, input: Input) -> Option<Choice>
    ensures { MatchOption result (machine.begins sort input ≡ None) (λ choice. machine.begins sort input ≡ Some (spec.taken_of choice)) }
{
    match sort {
        Sort::BinaryRest(least) => Some(Choice::Take(binary(least, input)?)),
        _ => chosen(sort, input),
    }
}

/// What a part is at an input for which it has a row.
fn met_by(choice: Choice) -> Met
    ensures { result ≡ spec.met_by choice }
{
    match choice {
        Choice::Look(part) => Met::Expect(part),
        Choice::Take(taking) => Met::Take(taking),
    }
}

/// What a part is at an input for which it has no row.
fn pass(sort: Sort) -> Met
    ensures { spec.Passes result sort }
{
    match otherwise(sort) {
        Some(part) => Met::Expect(part),
        None => Met::Refuse,
    }
}

/// What a part is at an input.
#[tactic(auto, using(crate::proofs::Meeting::passing_meets))]
pub fn meet(sort: Sort, values: &mut Stack<Value>, one: &Pending) -> Result<Met, AllocError>
    ensures meets { IfOk result (λ met. spec.Meets met sort values.old one.now) }
    ensures same { OnOk result (values.new ≡ values.old) }
{
    let input = seen(sort, values, one.input, &one.value)?;
    match begins(sort, input) {
        Some(choice) => Ok(met_by(choice)),
        None => Ok(pass(sort)),
    }
}
