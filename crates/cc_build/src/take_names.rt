// Names, words and operators, taken off the stack. What isn't of the wanted kind stands for nothing of that kind.
ghost use Rattle.std.specs.Prelude.{◌≡◌};
ghost use Rattle.cc_pushdown.specs.Values as spec;

use crate::absent::{no_mark, no_name};
use crate::parts::nowhere;
use crate::take::discard;
use cc_base::{List, Text};
use cc_pushdown::{Mark, NameToken, Node, Numeral, QualifiedName, Stack, Value};
use cc_tree::{BinaryOperator, ContextualWord, Identifier, Modifier, NameKind, Radix, Suffix};
use sqlite_items::Items;
use std::alloc::Global;

/// The topmost value, as a mark.
pub fn mark(values: &mut Stack<Value>) -> Mark
    ensures top { result ≡ spec.top_mark values.old }
    ensures rest { values.new ≡ spec.below values.old }
{
    match values.pop() {
        Some(Value::Mark(taken)) => taken,
        Some(other) => {
            discard(other);
            no_mark()
        }
        None => no_mark(),
    }
}

/// The topmost value, as a name.
pub fn name(alloc: Global, values: &mut Stack<Value>) -> NameToken
    ensures top { result ≡ spec.top_name values.old }
    ensures rest { values.new ≡ spec.below values.old }
{
    match values.pop() {
        Some(Value::Name(taken)) => taken,
        Some(other) => {
            discard(other);
            NameToken {
                kind: NameKind::Plain,
                word: ContextualWord::Nothing,
                identifier: no_name(alloc),
            }
        }
        None => NameToken {
            kind: NameKind::Plain,
            word: ContextualWord::Nothing,
            identifier: no_name(alloc),
        },
    }
}

/// The topmost value, as a number.
pub fn number(values: &mut Stack<Value>) -> Numeral
    ensures top { result ≡ spec.top_number values.old }
    ensures rest { values.new ≡ spec.below values.old }
{
    match values.pop() {
        Some(Value::Number(taken)) => taken,
        Some(other) => {
            discard(other);
            Numeral {
                value: 0,
                suffix: Suffix::Plain,
                radix: Radix::Octal,
                span: nowhere(),
            }
        }
        None => Numeral {
            value: 0,
            suffix: Suffix::Plain,
            radix: Radix::Octal,
            span: nowhere(),
        },
    }
}

/// The topmost value, as a character.
pub fn character(values: &mut Stack<Value>) -> Node<u16>
    ensures top { result ≡ spec.top_character values.old }
    ensures rest { values.new ≡ spec.below values.old }
{
    match values.pop() {
        Some(Value::Character(taken)) => taken,
        Some(other) => {
            discard(other);
            Node {
                tree: 0,
                span: nowhere(),
            }
        }
        None => Node {
            tree: 0,
            span: nowhere(),
        },
    }
}

/// The topmost value, as a literal.
pub fn literal(alloc: Global, values: &mut Stack<Value>) -> Node<Text>
    ensures top { result ≡ spec.top_literal values.old }
    ensures rest { values.new ≡ spec.below values.old }
{
    match values.pop() {
        Some(Value::Literal(taken)) => taken,
        Some(other) => {
            discard(other);
            Node {
                tree: List::new(alloc),
                span: nowhere(),
            }
        }
        None => Node {
            tree: List::new(alloc),
            span: nowhere(),
        },
    }
}

/// The topmost value, as a path.
pub fn path(alloc: Global, values: &mut Stack<Value>) -> Items<Identifier>
    ensures top { result ≡ spec.top_path values.old }
    ensures rest { values.new ≡ spec.below values.old }
{
    match values.pop() {
        Some(Value::Path(taken)) => taken,
        Some(other) => {
            discard(other);
            Items::new(alloc)
        }
        None => Items::new(alloc),
    }
}

/// The topmost value, as a qualified.
pub fn qualified(alloc: Global, values: &mut Stack<Value>) -> QualifiedName
    ensures top { result ≡ spec.top_qualified values.old }
    ensures rest { values.new ≡ spec.below values.old }
{
    match values.pop() {
        Some(Value::Qualified(taken)) => taken,
        Some(other) => {
            discard(other);
            QualifiedName {
                path: Items::new(alloc),
                name: no_name(alloc),
            }
        }
        None => QualifiedName {
            path: Items::new(alloc),
            name: no_name(alloc),
        },
    }
}

/// The topmost value, as a names.
pub fn names(alloc: Global, values: &mut Stack<Value>) -> Items<Identifier>
    ensures top { result ≡ spec.top_names values.old }
    ensures rest { values.new ≡ spec.below values.old }
{
    match values.pop() {
        Some(Value::Names(taken)) => taken,
        Some(other) => {
            discard(other);
            Items::new(alloc)
        }
        None => Items::new(alloc),
    }
}

/// The topmost value, as an operator.
pub fn operator(values: &mut Stack<Value>) -> BinaryOperator
    ensures top { result ≡ spec.top_operator values.old }
    ensures rest { values.new ≡ spec.below values.old }
{
    match values.pop() {
        Some(Value::Operator(taken)) => taken,
        Some(other) => {
            discard(other);
            BinaryOperator::LogicalOr
        }
        None => BinaryOperator::LogicalOr,
    }
}

/// `static` or `virtual`, where one of them stands.
pub fn storage(values: &mut Stack<Value>) -> Option<Mark>
    ensures top { result ≡ spec.top_storage values.old }
    ensures rest { values.new ≡ spec.below values.old }
{
    match values.pop() {
        Some(Value::Mark(taken)) => Some(taken),
        Some(other) => {
            discard(other);
            None
        }
        None => None,
    }
}

/// A modifier of a function.
pub fn modifier(values: &mut Stack<Value>) -> Modifier
    ensures top { result ≡ spec.top_modifier values.old }
    ensures rest { values.new ≡ spec.below values.old }
{
    match values.pop() {
        Some(Value::Mark(taken)) => Modifier::New(taken.span),
        Some(Value::Name(taken)) => modifier_of(&taken),
        Some(other) => {
            discard(other);
            Modifier::New(nowhere())
        }
        None => Modifier::New(nowhere()),
    }
}

fn modifier_of(name: &NameToken) -> Modifier
    ensures { result ≡ spec.modifier_of name.now.word name.now.identifier.span }
{
    match name.word {
        ContextualWord::Abstract => Modifier::Abstract(name.identifier.span),
        ContextualWord::Override => Modifier::Override(name.identifier.span),
        _ => Modifier::Sealed(name.identifier.span),
    }
}
