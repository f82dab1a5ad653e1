// How an input is taken or refused.
ghost use Rattle.std.specs.Prelude.{◌≡◌, [], ◌∷◌, ◌++◌, IfOk, OnOk};
ghost use Rattle.cc_pushdown.specs.Build as build;
ghost use Rattle.cc_grammar.specs.Turns as spec;
ghost use Rattle.cc_grammar.specs.Depths as depths;

use crate::binary::level;
use crate::choice::{Met, Taking, meet};
use crate::depth::raise;
use crate::pending::{Pending, expect, put_back};
use cc_actions::made;
use cc_build::take::discard;
use cc_build::{Stack, Value};
use cc_table::{Action, Sort, Symbol};
use std::alloc::{AllocError, Global};

/// Makes of the topmost values what the action says.
pub fn act(
    alloc: Global,
    action: Action,
    values: &mut Stack<Value>,
    heights: &mut Stack<u32>,
) -> Result<(), AllocError>
    ensures makes { OnOk result (values.new ≡ build.build action values.old) }
    ensures raises { OnOk result (heights.new ≡ depths.acted action heights.old) }
{
    let value = made(alloc, action, values)?;
    values.push(value)?;
    raise(action, heights)
}

/// What is expected after an operator.
fn expect_operand(least: u8, tighter: u8, symbols: &mut Stack<Symbol>) -> Result<(), AllocError>
    ensures { OnOk result (symbols.new ≡ spec.operand_part least tighter ++ symbols.old) }
{
    symbols.push(Symbol::Non(Sort::BinaryRest(least)))?;
    symbols.push(Symbol::Act(Action::MakeBinary))?;
    symbols.push(Symbol::Non(Sort::BinaryRest(tighter)))?;
    symbols.push(Symbol::Non(Sort::Unary))?;
    Ok(())
}

/// An input is taken.
fn take(
    taking: Taking,
    one: Pending,
    symbols: &mut Stack<Symbol>,
    values: &mut Stack<Value>,
    heights: &mut Stack<u32>,
) -> Result<(), AllocError>
    ensures expects { OnOk result (symbols.new ≡ spec.part_of taking ++ symbols.old) }
    ensures keeps { OnOk result (values.new ≡ spec.kept taking one.value values.old) }
    ensures height { OnOk result (heights.new ≡ depths.kept_height taking one.height heights.old) }
{
    match taking {
        Taking::Drop(part) => {
            expect(symbols, part)?;
            discard(one.value);
            Ok(())
        }
        Taking::Keep(part) => {
            expect(symbols, part)?;
            values.push(one.value)?;
            heights.push(one.height)?;
            Ok(())
        }
        Taking::Greater(least) => {
            symbols.push(Symbol::Non(Sort::BinaryRest(least)))?;
            symbols.push(Symbol::Non(Sort::GreaterEnd))?;
            values.push(one.value)?;
            heights.push(one.height)?;
            Ok(())
        }
        Taking::Join(operator, least) => {
            expect_operand(least, level(operator) + 1, symbols)?;
            values.push(Value::Operator(operator))?;
            heights.push(0)?;
            Ok(())
        }
    }
}

/// Goes on until the input is taken, or another is put before it. Whether it is not refused.
pub fn settle(
    alloc: Global,
    one: Pending,
    symbols: &mut Stack<Symbol>,
    values: &mut Stack<Value>,
    heights: &mut Stack<u32>,
    pending: &mut Stack<Pending>,
) -> Result<bool, AllocError>
    requires typed { depths.Typed symbols.old values.old (spec.one_fed one ∷ []) }
    requires measured { heights.old ≡ depths.measures values.old }
    requires carried { depths.Carry (one ∷ pending.old) }
    ensures settles { IfOk result (λ goes. spec.Settles goes symbols.old values.old (spec.one_fed one) (spec.feds pending.old) symbols.new values.new (spec.feds pending.new)) }
    ensures measures { OnOk result (heights.new ≡ depths.measures values.new) }
    ensures carries { OnOk result (depths.Carry pending.new) }
{
    while let Some(symbol) = symbols.pop() {
        match symbol {
            Symbol::Act(action) => act(alloc, action, values, heights)?,
            Symbol::Back(input) => {
                pending.push(one)?;
                pending.push(put_back(input, values, heights))?;
                return Ok(true);
            }
            Symbol::Non(sort) => match meet(sort, values, &one)? {
                Met::Expect(part) => expect(symbols, part)?,
                Met::Take(taking) => {
                    take(taking, one, symbols, values, heights)?;
                    return Ok(true);
                }
                Met::Refuse => return Ok(false),
            },
        }
    }
    Ok(false)
}
