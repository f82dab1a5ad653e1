// Tokens with the first that stands in no source, and with the terminal symbol of the last one.
ghost use Rattle.std.specs.Prelude.{◌<◌, length};

use crate::names::collect;
use crate::scan;
use crate::terminal::terminal;
use cc_base::{Kind, List, Span};
use cc_tree::{ContextualWord, NameKind, Radix, ReservedWord, Suffix, Terminal, Token, TokenKind};
use std::alloc::{AllocError, Global};
use std::test::Fail;

fn kind_of(alloc: Global, part: &[u8]) -> Result<TokenKind, AllocError> {
    match part {
        b"(" => Ok(TokenKind::Sign(2)),
        b"<" => Ok(TokenKind::Sign(6)),
        b">" => Ok(TokenKind::Sign(7)),
        b"," => Ok(TokenKind::Sign(11)),
        b"0" => Ok(TokenKind::Number(0, Suffix::Plain, Radix::Octal)),
        _ => Ok(TokenKind::Word(List::from_slice(alloc, part)?)),
    }
}

/// Tokens of these spellings, where each stands at its place in the list.
fn tokens_of(alloc: Global, parts: &[&[u8]]) -> Result<Vec<Token>, AllocError>
    requires { length parts.now < 100 }
{
    let mut tokens = Vec::new(alloc);
    for (place, part) in parts.iter().enumerate() {
        let first = place as u32;
        let past = first + 1;
        let kind = kind_of(alloc, part)?;
        tokens.push(Token {
            kind,
            span: Span { first, past },
        })?;
    }
    Ok(tokens)
}

/// The kind and the place of the first token that stands in no source.
fn refused(tokens: &[Token]) -> Option<(Kind, u32)> {
    match scan(tokens) {
        Some(fault) => match fault.refusal() {
            Some((kind, span)) => Some((kind, span.first)),
            None => None,
        },
        None => None,
    }
}

fn last_terminal(alloc: Global, tokens: &[Token]) -> Result<Option<Terminal>, AllocError> {
    let names = collect(alloc, tokens)?;
    match tokens.last() {
        Some(token) => Ok(Some(terminal(&names, token))),
        None => Ok(None),
    }
}

const PLAIN: Terminal = Terminal::Name(NameKind::Plain, ContextualWord::Nothing);

const TYPE: Terminal = Terminal::Name(NameKind::Type, ContextualWord::Nothing);

#[test]
fn tokens_are_refused_and_classified(rt: HostRuntime) -> Result<(), Fail> {
    let alloc = rt.alloc();
    let table: [(&[&[u8]], Option<(Kind, u32)>, Terminal); 12] = [
        (
            &[b"x", b"char", b"y"],
            Some((Kind::OutsideProfile, 1)),
            PLAIN,
        ),
        (
            &[b"signed", b"char"],
            None,
            Terminal::Word(ReservedWord::Char),
        ),
        (&[b"long", b"y"], Some((Kind::OutsideProfile, 0)), PLAIN),
        (
            &[b"long", b"long", b"value"],
            None,
            Terminal::Name(NameKind::Plain, ContextualWord::Value),
        ),
        (
            &[b"x", b"float"],
            Some((Kind::FloatType, 1)),
            Terminal::Other,
        ),
        (
            &[b"double", b"extern"],
            Some((Kind::FloatType, 0)),
            Terminal::Other,
        ),
        (&[b"extern", b"Console"], Some((Kind::MixedMode, 0)), TYPE),
        (&[b"(", b"class", b"C"], Some((Kind::MixedMode, 1)), TYPE),
        (
            &[b"ref", b"struct", b"S", b",", b"class", b"C", b"S"],
            None,
            TYPE,
        ),
        (
            &[b"_x", b"__x"],
            Some((Kind::OutsideProfile, 1)),
            Terminal::Other,
        ),
        (
            &[
                b"template",
                b"<",
                b"class",
                b"T",
                b">",
                b"T",
                b"f",
                b"(",
                b"f",
            ],
            None,
            Terminal::Name(NameKind::Function, ContextualWord::Nothing),
        ),
        (
            &[
                b"template",
                b"<",
                b"class",
                b"T",
                b">",
                b"ref",
                b"class",
                b"f",
                b"(",
                b"0",
            ],
            None,
            Terminal::Zero,
        ),
    ];
    for (parts, refusal, symbol) in table {
        assert!(rt; parts.len() < 100);
        let tokens = tokens_of(alloc, parts)?;
        assert!(rt; refused(tokens.as_slice()) == refusal);
        assert!(rt; last_terminal(alloc, tokens.as_slice())? == Some(symbol));
    }
    Ok(())
}
