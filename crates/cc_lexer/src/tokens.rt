// The tokens of a source.
ghost use Rattle.std.specs.Prelude.{◌≡◌, ◌+◌, ◌<◌, ◌≤◌, ◌^◌, length, drop, Err, IfOk, IfErr, OnErr};
ghost use Rattle.cc_tree.specs.declared.piece.Piece.TheVariants as pieces;
ghost use Rattle.cc_tree.specs.Spelling as spec;
ghost use Rattle.cc_lexer.specs.declared.fault.LexFault.TheVariants.{Memory};
ghost use Rattle.cc_lexer.specs.Faults.{refusal, Answers, AnswersOnly, IsPlaceWithin};
ghost use Rattle.cc_lexer.specs.Lengths.{IsPieceWithin, IsToken};

use crate::bytes::{begins, past, span};
use crate::fault::LexFault;
use crate::pieces::piece_at;
use crate::quotes::decode;
use cc_base::{List, Name};
use cc_tree::{Piece, Token, TokenKind};
use std::alloc::Global;

/// How many bytes a source has at most.
const MOST_BYTES: usize = 1_048_576;

fn word(alloc: Global, bytes: &[u8], n: usize) -> Result<(TokenKind, usize), LexFault>
    requires { n ≤ length bytes.now }
    ensures value { Answers result (spec.Makes (pieces.Word n) bytes.now) }
    ensures len { IfOk result (λ made. made.1 ≡ n) }
    ensures err { OnErr result (result ≡ Err Memory) }
{
    let name = Name::from_slice(alloc, &bytes[..n])?;
    Ok((TokenKind::Word(name), n))
}

fn literal(
    alloc: Global,
    bytes: &[u8],
    start: usize,
    end: usize,
) -> Result<(TokenKind, usize), LexFault>
    requires order { start < end }
    requires within { end < length bytes.now }
    requires short { length bytes.now < 2 ^ 31 }
    ensures value { Answers result (spec.Makes (pieces.Literal start end) bytes.now) }
    ensures len { IfOk result (λ made. made.1 ≡ end + 1) }
    ensures near { IfErr result (λ fault. IsPlaceWithin (length bytes.now) (refusal fault)) }
{
    match decode(alloc, &bytes[start + 1..end]) {
        Ok(units) => Ok((TokenKind::Literal(units), end + 1)),
        Err(fault) => Err(fault.moved(start + 1)),
    }
}

fn character(
    alloc: Global,
    bytes: &[u8],
    start: usize,
    end: usize,
) -> Result<(TokenKind, usize), LexFault>
    requires order { start < end }
    requires within { end < length bytes.now }
    requires short { length bytes.now < 2 ^ 31 }
    ensures value { Answers result (spec.Makes (pieces.Character start end) bytes.now) }
    ensures len { IfOk result (λ made. made.1 ≡ end + 1) }
    ensures near { IfErr result (λ fault. IsPlaceWithin (length bytes.now) (refusal fault)) }
{
    match decode(alloc, &bytes[start + 1..end]) {
        Ok(units) => match units.as_slice() {
            [unit] => Ok((TokenKind::Character(*unit), end + 1)),
            _ => Err(LexFault::BadLiteral(span(start, end + 1))),
        },
        Err(fault) => Err(fault.moved(start + 1)),
    }
}

/// The token that a piece spells, and how many bytes it has.
fn token_of(alloc: Global, piece: Piece, bytes: &[u8]) -> Result<(TokenKind, usize), LexFault>
    requires within { IsPieceWithin (length bytes.now) piece }
    requires token { IsToken piece }
    requires short { length bytes.now < 2 ^ 31 }
    ensures value { Answers result (spec.Makes piece bytes.now) }
    ensures len { IfOk result (λ made. (0 < made.1) × (made.1 ≤ length bytes.now)) }
    ensures near { IfErr result (λ fault. IsPlaceWithin (length bytes.now) (refusal fault)) }
{
    match piece {
        Piece::Gap(_, _) => unreachable!(),
        Piece::Word(n) => word(alloc, bytes, n),
        Piece::Number(value, suffix, radix, n) => Ok((TokenKind::Number(value, suffix, radix), n)),
        Piece::Sign(number, n) => Ok((TokenKind::Sign(number), n)),
        Piece::Literal(start, end) => literal(alloc, bytes, start, end),
        Piece::Character(start, end) => character(alloc, bytes, start, end),
        Piece::Refused(kind, place) => Err(LexFault::of(kind, place)),
    }
}

/// The place behind the byte order mark at the start, if there is one.
fn start_of(source: &[u8]) -> usize
    ensures value { result ≡ spec.start_of source.now }
    ensures within { result ≤ length source.now }
{
    if begins(source, b"\xEF\xBB\xBF") {
        3
    } else {
        0
    }
}

/// The tokens of a source, or why it has none.
fn tokens_of(alloc: Global, source: &[u8]) -> Result<List<Token>, LexFault>
    ensures spelled { Answers result (spec.Spelled source.now) }
    ensures count { IfOk result (λ tokens. length tokens ≤ length source.now) }
{
    if source.len() > MOST_BYTES {
        return Err(LexFault::SourceTooLong(span(MOST_BYTES, MOST_BYTES + 1)));
    }
    let mut tokens = List::new(alloc);
    let mut at = start_of(source);
    let mut rest = past(source, at);
    let mut line_start = true;
    'pieces: while rest.len() > 0 {
        match piece_at(rest, line_start) {
            Piece::Gap(n, next) => {
                at += n;
                rest = past(rest, n);
                line_start = next;
                continue;
            }
            piece => match token_of(alloc, piece, rest) {
                Ok((kind, n)) => {
                    tokens.push(Token {
                        kind,
                        span: span(at, at + n),
                    })?;
                    at += n;
                    rest = past(rest, n);
                    line_start = false;
                }
                Err(fault) => return Err(fault.moved(at)),
            },
        }
    }
    Ok(tokens)
}

/// The tokens of a source, in order, each with its span; a byte order mark at the start is skipped (ECMA-372, clause 9).
/// The source is read once, from its start on. `Memory` comes where none is left; each other fault comes exactly where the
/// source is refused so, `SourceTooLong` before the others and else the first place.
pub fn lex(alloc: Global, text: &[u8]) -> Result<List<Token>, LexFault>
    // The tokens spell the text, or it is refused with the fault's kind and place.
    ensures lexed { Answers result (spec.Spelled text.now) }
    // Whatever tokens the text spells, or refusal it has, is the answer.
    ensures only { AnswersOnly result (spec.Spelled text.now) }
    // Each token has a byte of its own.
    ensures count { IfOk result (λ tokens. length tokens ≤ length text.now) }
{
    tokens_of(alloc, text)
}
