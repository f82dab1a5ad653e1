// The value of a token.
ghost use Rattle.std.specs.Prelude.{◌≡◌, IfOk};
ghost use Rattle.cc_pushdown.specs.Machine.{value_of};

use cc_base::{List, Span};
use cc_build::{Mark, NameToken, Node, Numeral, Value};
use cc_tree::{Identifier, Terminal, Token, TokenKind};
use std::alloc::{AllocError, Global};

fn identifier(alloc: Global, letters: &[u8], span: Span) -> Result<Identifier, AllocError>
    ensures { IfOk result (λ made. (made.name ≡ letters.now) × (made.span ≡ span)) }
{
    Ok(Identifier {
        name: List::from_slice(alloc, letters)?,
        span,
    })
}

/// The value of a token.
pub fn value(alloc: Global, terminal: Terminal, token: &Token) -> Result<Value, AllocError>
    ensures { IfOk result (λ made. made ≡ value_of terminal token.now.kind token.now.span) }
{
    let span = token.span;
    match (&token.kind, terminal) {
        (TokenKind::Word(name), Terminal::Name(kind, word)) => Ok(Value::Name(NameToken {
            kind,
            word,
            identifier: identifier(alloc, name.as_slice(), span)?,
        })),
        (TokenKind::Number(value, suffix, radix), _) => Ok(Value::Number(Numeral {
            value: *value,
            suffix: *suffix,
            radix: *radix,
            span,
        })),
        (TokenKind::Character(unit), _) => Ok(Value::Character(Node { tree: *unit, span })),
        (TokenKind::Literal(text), _) => Ok(Value::Literal(Node {
            tree: List::from_slice(alloc, text.as_slice())?,
            span,
        })),
        _ => Ok(Value::Mark(Mark { terminal, span })),
    }
}
