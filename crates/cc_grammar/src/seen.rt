// What the parser sees in an input at some parts: the class's own name, and a `>` that touches the one before it.
ghost use Rattle.std.specs.Prelude.{◌≡◌, IfOk, OnOk};
ghost use Rattle.std.specs.Str.{bytes_eq};
ghost use Rattle.cc_pushdown.specs.Values.{below, top_head, top_mark};
ghost use Rattle.cc_pushdown.specs.Machine as machine;

use cc_build::{Mark, Stack, Value, no_mark};
use cc_table::{Input, Sort};
use cc_tree::{ContextualWord, NameKind, Sign, Terminal};
use std::alloc::AllocError;

/// Whether a word is the name of the class whose head is on top.
fn is_own(values: &mut Stack<Value>, word: &[u8]) -> Result<bool, AllocError>
    ensures own { IfOk result (λ own. own ≡ bytes_eq word.now (top_head values.old).name.name) }
    ensures same { OnOk result (values.new ≡ values.old) }
{
    match values.pop() {
        Some(Value::Head(head)) => {
            let found = word == head.name.name.as_slice();
            values.push(Value::Head(head))?;
            Ok(found)
        }
        Some(other) => {
            values.push(other)?;
            Ok(word == b"".as_slice())
        }
        None => Ok(word == b"".as_slice()),
    }
}

/// Whether a word is the name of the class whose head is below one value.
fn is_own_below(values: &mut Stack<Value>, word: &[u8]) -> Result<bool, AllocError>
    ensures own { IfOk result (λ own. own ≡ bytes_eq word.now (top_head (below values.old)).name.name) }
    ensures same { OnOk result (values.new ≡ values.old) }
{
    match values.pop() {
        Some(value) => {
            let found = is_own(values, word)?;
            values.push(value)?;
            Ok(found)
        }
        None => Ok(word == b"".as_slice()),
    }
}

/// Whether a word is the name of the class whose head is below two values.
fn is_own_below_two(values: &mut Stack<Value>, word: &[u8]) -> Result<bool, AllocError>
    ensures own { IfOk result (λ own. own ≡ bytes_eq word.now (top_head (below (below values.old))).name.name) }
    ensures same { OnOk result (values.new ≡ values.old) }
{
    match values.pop() {
        Some(value) => {
            let found = is_own_below(values, word)?;
            values.push(value)?;
            Ok(found)
        }
        None => Ok(word == b"".as_slice()),
    }
}

/// Whether a word is the name of the class whose head is below three values.
fn is_own_below_three(values: &mut Stack<Value>, word: &[u8]) -> Result<bool, AllocError>
    ensures own { IfOk result (λ own. own ≡ bytes_eq word.now (top_head (below (below (below values.old)))).name.name) }
    ensures same { OnOk result (values.new ≡ values.old) }
{
    match values.pop() {
        Some(value) => {
            let found = is_own_below_two(values, word)?;
            values.push(value)?;
            Ok(found)
        }
        None => Ok(word == b"".as_slice()),
    }
}

/// The sign on top.
fn mark_on_top(values: &mut Stack<Value>) -> Result<Mark, AllocError>
    ensures mark { IfOk result (λ mark. mark ≡ top_mark values.old) }
    ensures same { OnOk result (values.new ≡ values.old) }
{
    match values.pop() {
        Some(Value::Mark(mark)) => {
            values.push(Value::Mark(mark))?;
            Ok(mark)
        }
        Some(other) => {
            values.push(other)?;
            Ok(no_mark())
        }
        None => Ok(no_mark()),
    }
}

/// Whether a sign touches the sign that was read before it.
fn touches(values: &mut Stack<Value>, value: &Value) -> Result<bool, AllocError>
    ensures touching { IfOk result (λ found. found ≡ machine.touches values.old value.now) }
    ensures same { OnOk result (values.new ≡ values.old) }
{
    match value {
        Value::Mark(mark) => {
            let before = mark_on_top(values)?;
            Ok(before.span.past == mark.span.first)
        }
        _ => Ok(false),
    }
}

fn own_or(own: bool, kind: NameKind, word: ContextualWord) -> Input
    ensures { result ≡ machine.own_or own kind word }
{
    if own {
        Input::Own(kind, word)
    } else {
        Input::Token(Terminal::Name(kind, word))
    }
}

/// What a name is where a member begins.
fn seen_member(
    values: &mut Stack<Value>,
    kind: NameKind,
    word: ContextualWord,
    value: &Value,
) -> Result<Input, AllocError>
    ensures sees { IfOk result (λ input. input ≡ machine.own_or (machine.is_own (below (below values.old)) value.now) kind word) }
    ensures same { OnOk result (values.new ≡ values.old) }
{
    match value {
        Value::Name(name) => Ok(own_or(
            is_own_below_two(values, name.identifier.name.as_slice())?,
            kind,
            word,
        )),
        _ => Ok(own_or(false, kind, word)),
    }
}

/// What a name is where the class's name is repeated.
fn seen_name(
    values: &mut Stack<Value>,
    kind: NameKind,
    word: ContextualWord,
    value: &Value,
) -> Result<Input, AllocError>
    ensures sees { IfOk result (λ input. input ≡ machine.own_or (machine.is_own (below (below (below values.old))) value.now) kind word) }
    ensures same { OnOk result (values.new ≡ values.old) }
{
    match value {
        Value::Name(name) => Ok(own_or(
            is_own_below_three(values, name.identifier.name.as_slice())?,
            kind,
            word,
        )),
        _ => Ok(own_or(false, kind, word)),
    }
}

/// What a `>` is after another.
fn seen_greater(values: &mut Stack<Value>, value: &Value) -> Result<Input, AllocError>
    ensures sees { IfOk result (λ input. input ≡ machine.touching_seen values.old (Input.Token (Terminal.Sign Sign.Greater)) value.now) }
    ensures same { OnOk result (values.new ≡ values.old) }
{
    if touches(values, value)? {
        Ok(Input::TouchingGreater)
    } else {
        Ok(Input::Token(Terminal::Sign(Sign::Greater)))
    }
}

/// What an input is at a part.
pub fn seen(
    sort: Sort,
    values: &mut Stack<Value>,
    input: Input,
    value: &Value,
) -> Result<Input, AllocError>
    ensures sees { IfOk result (λ found. found ≡ machine.seen sort values.old input value.now) }
    ensures same { OnOk result (values.new ≡ values.old) }
{
    match (sort, input) {
        (Sort::MemberStart, Input::Token(Terminal::Name(kind, word))) => seen_member(
            values, kind, word, value,
        ),
        (Sort::OwnName, Input::Token(Terminal::Name(kind, word))) => seen_name(
            values, kind, word, value,
        ),
        (Sort::GreaterEnd, Input::Token(Terminal::Sign(Sign::Greater))) => seen_greater(
            values, value,
        ),
        _ => Ok(input),
    }
}
