// What the parser looks at next, and the symbols that it expects.
ghost use Rattle.std.specs.Prelude.{◌≡◌, ◌++◌, OnOk, drop};
ghost use Rattle.cc_pushdown.specs.Values.{below, top};
ghost use Rattle.cc_grammar_laws.specs.Heights as law;

use crate::depth::take_tallest;
use cc_build::{Stack, Value};
use cc_table::{Input, Symbol};
use std::alloc::AllocError;

/// An input, with its value and how high that is.
#[derive(Drop)]
pub struct Pending {
    pub input: Input,
    pub value: Value,
    pub height: u32,
}

/// The symbols of a part come before those that are expected already.
pub fn expect(symbols: &mut Stack<Symbol>, part: &[Symbol]) -> Result<(), AllocError>
    ensures { OnOk result (symbols.new ≡ part.now ++ symbols.old) }
{
    let mut i = part.len();
    while i > 0 {
        i -= 1;
        symbols.push(part[i])?;
    }
    Ok(())
}

/// The topmost value, taken off.
fn take_top(values: &mut Stack<Value>) -> Value
    ensures top { result ≡ top values.old }
    ensures rest { values.new ≡ below values.old }
{
    match values.pop() {
        Some(value) => value,
        None => Value::NoStorage,
    }
}

/// The topmost value, as an input.
pub fn put_back(input: Input, values: &mut Stack<Value>, heights: &mut Stack<u32>) -> Pending
    ensures input { result.input ≡ input }
    ensures value { result.value ≡ top values.old }
    ensures rest { values.new ≡ below values.old }
    ensures height { result.height ≡ law.tallest 1 heights.old }
    ensures heights { heights.new ≡ drop 1 heights.old }
{
    let value = take_top(values);
    let height = take_tallest(1, heights);
    Pending {
        input,
        value,
        height,
    }
}
