// The piece that begins some bytes.
ghost use Rattle.std.specs.Prelude.{◌≡◌, ◌==◌, ◌&&◌, ◌≤◌, ◌<◌, ◌^◌, true, length, slice_index, take, IsTrue};
ghost use Rattle.std.specs.List.{prefix_len};
ghost use Rattle.std.specs.Str.{byte};
ghost use Rattle.cc_tree.specs.Digits.{is_word_byte};
ghost use Rattle.cc_tree.specs.Gaps.{is_on_line};
ghost use Rattle.cc_tree.specs.Pieces as spec;
ghost use Rattle.cc_tree.specs.Signs.{sign_number};
ghost use Rattle.cc_tree.specs.declared.piece.Piece.TheVariants as pieces;
ghost use Rattle.cc_lexer.specs.Lengths.{IsPieceWithin};

use crate::bytes::{begins, byte_at, front, is_word_byte, span};
use crate::directives::read_len;
use crate::gaps::{comment_len, is_blank, line_len};
use crate::numbers::numeral_of;
use crate::quotes::closing;
use crate::signs::sign_number;
use cc_base::Kind;
use cc_tree::{Numeral, Piece};

/// No piece, but a refusal of the first bytes.
fn refused(kind: Kind, past: usize) -> Piece
    requires { past < 2 ^ 32 }
    ensures { result ≡ spec.refused kind past }
{
    Piece::Refused(kind, span(0, past))
}

fn word_len(bytes: &[u8]) -> usize
    ensures value { result ≡ prefix_len is_word_byte bytes.now }
    ensures within { result ≤ length bytes.now }
    ensures moves { 0 < length bytes.now → is_word_byte (slice_index bytes.now 0) ≡ true → 0 < result }
{
    let mut end = 0;
    'bytes: while end < bytes.len() && is_word_byte(bytes[end]) {
        end += 1;
    }
    end
}

fn is_number_byte(b: u8) -> bool
    ensures { result ≡ spec.is_number_byte b }
{
    is_word_byte(b) || b == b'.'
}

fn number_len(bytes: &[u8]) -> usize
    ensures value { result ≡ prefix_len spec.is_number_byte bytes.now }
    ensures within { result ≤ length bytes.now }
    ensures moves { 0 < length bytes.now → spec.is_number_byte (slice_index bytes.now 0) ≡ true → 0 < result }
{
    let mut end = 0;
    'bytes: while end < bytes.len() && is_number_byte(bytes[end]) {
        end += 1;
    }
    end
}

/// A number: a digit with all letters, digits, `_` and `.` that follow.
#[tactic(auto, unfolding(cc_tree::specs::Pieces::number))]
fn number(bytes: &[u8]) -> Piece
    requires some { 0 < length bytes.now }
    requires short { length bytes.now < 2 ^ 31 }
    requires digit { spec.is_number_byte (slice_index bytes.now 0) ≡ true }
    ensures value { result ≡ spec.number bytes.now }
    ensures within { IsPieceWithin (length bytes.now) result }
{
    let n = number_len(bytes);
    match numeral_of(&bytes[..n]) {
        Numeral::Value(value, suffix, radix) => Piece::Number(value, suffix, radix, n),
        Numeral::Malformed => refused(Kind::BadLiteral, n),
        Numeral::TooWide => refused(Kind::NumberTooWide, n),
    }
}

/// The gap of `len` bytes, if the bytes of it that are read are UTF-8.
#[tactic(auto, unfolding(cc_tree::specs::Pieces::checked), using(crate::proofs::Utf8::is_utf8_true, crate::proofs::Utf8::is_utf8_false))]
fn checked(read: &[u8], len: usize, line_start: bool) -> Piece
    requires within { length read.now ≤ len }
    requires some { 0 < len }
    requires short { len < 2 ^ 31 }
    ensures value { result ≡ spec.checked read.now (pieces.Gap len line_start) }
    ensures within { IsPieceWithin len result }
{
    match std::str::from_utf8(read) {
        Ok(_) => Piece::Gap(len, line_start),
        Err(error) => {
            let at = error.valid_up_to();
            Piece::Refused(Kind::BadByte, span(at, at + 1))
        }
    }
}

/// A directive line, from its `#` to before its line feed.
#[tactic(auto, unfolding(cc_tree::specs::Pieces::directive))]
fn directive(bytes: &[u8]) -> Piece
    requires some { 0 < length bytes.now }
    requires short { length bytes.now < 2 ^ 31 }
    requires on { is_on_line (slice_index bytes.now 0) ≡ true }
    ensures value { result ≡ spec.directive bytes.now }
    ensures within { IsPieceWithin (length bytes.now) result }
{
    let line = &bytes[..line_len(bytes)];
    match read_len(line) {
        Some(n) => checked(&line[..n], line.len(), true),
        None => refused(Kind::Directive, line.len()),
    }
}

/// A comment `//`, to before the line feed.
#[tactic(auto, unfolding(cc_tree::specs::Pieces::line_comment))]
fn line_comment(bytes: &[u8], line_start: bool) -> Piece
    requires some { 0 < length bytes.now }
    requires short { length bytes.now < 2 ^ 31 }
    requires on { is_on_line (slice_index bytes.now 0) ≡ true }
    ensures value { result ≡ spec.line_comment bytes.now line_start }
    ensures within { IsPieceWithin (length bytes.now) result }
{
    let n = line_len(bytes);
    checked(&bytes[..n], n, line_start)
}

/// A comment `/* .. */`.
#[tactic(auto, unfolding(cc_tree::specs::Pieces::block_comment))]
fn block_comment(bytes: &[u8], line_start: bool) -> Piece
    requires some { 1 < length bytes.now }
    requires short { length bytes.now < 2 ^ 31 }
    ensures value { result ≡ spec.block_comment bytes.now line_start }
    ensures within { IsPieceWithin (length bytes.now) result }
{
    let n = comment_len(bytes);
    if n == 0 {
        return refused(Kind::UnclosedComment, 2);
    }
    let comment = &bytes[..n];
    checked(comment, n, line_start || line_len(comment) < n)
}

fn is_quote(b: u8) -> bool
    ensures { result ≡ spec.is_quote b }
{
    b == b'"' || b == b'\''
}

/// A string or a character whose opening quote stands at `start`, or the word `L` before a quote that isn't closed.
#[tactic(auto, unfolding(cc_tree::specs::Pieces::quoted))]
fn quoted(bytes: &[u8], start: usize) -> Piece
    requires within { start < length bytes.now }
    requires short { length bytes.now < 2 ^ 31 }
    ensures value { result ≡ spec.quoted bytes.now start }
    ensures within { IsPieceWithin (length bytes.now) result }
{
    match closing(bytes[start], &bytes[start + 1..]) {
        Some(n) => {
            if bytes[start] == b'"' {
                Piece::Literal(start, start + 1 + n)
            } else {
                Piece::Character(start, start + 1 + n)
            }
        }
        None => {
            if start == 0 {
                refused(Kind::UnclosedText, 1)
            } else {
                Piece::Word(1)
            }
        }
    }
}

/// The sign that the first n bytes spell, or another piece.
fn signed(bytes: &[u8], n: usize, other: Piece) -> Piece
    requires some { 0 < length bytes.now }
    requires n { 0 < n }
    requires other { IsPieceWithin (length bytes.now) other }
    ensures value { result ≡ spec.signed (take n bytes.now) (sign_number (take n bytes.now)) other }
    ensures within { IsPieceWithin (length bytes.now) result }
{
    let spelling = front(bytes, n);
    match sign_number(spelling) {
        Some(number) => Piece::Sign(number, spelling.len()),
        None => other,
    }
}

/// The longest sign.
#[tactic(auto, unfolding(cc_tree::specs::Pieces::sign))]
fn sign(bytes: &[u8]) -> Piece
    requires { 0 < length bytes.now }
    ensures value { result ≡ spec.sign bytes.now }
    ensures within { IsPieceWithin (length bytes.now) result }
{
    let none = refused(Kind::BadByte, 1);
    signed(bytes, 3, signed(bytes, 2, signed(bytes, 1, none)))
}

/// A string or a character behind an `L`.
fn begins_wide(bytes: &[u8]) -> bool
    ensures value { result ≡ spec.begins_wide bytes.now }
    ensures within { IsTrue result → 1 < length bytes.now }
{
    byte_at(bytes, 0) == b'L' && is_quote(byte_at(bytes, 1)) && bytes.len() > 1
}

#[tactic(auto, unfolding(cc_tree::specs::Pieces::token))]
fn token(bytes: &[u8]) -> Piece
    requires some { 0 < length bytes.now }
    requires short { length bytes.now < 2 ^ 31 }
    ensures value { result ≡ spec.token bytes.now }
    ensures within { IsPieceWithin (length bytes.now) result }
{
    if bytes[0].is_ascii_digit() {
        number(bytes)
    } else if is_quote(bytes[0]) {
        quoted(bytes, 0)
    } else if begins_wide(bytes) {
        quoted(bytes, 1)
    } else if is_word_byte(bytes[0]) {
        Piece::Word(word_len(bytes))
    } else {
        sign(bytes)
    }
}

/// A directive line begins here.
fn begins_directive(b: u8, line_start: bool) -> bool
    ensures { result ≡ (b == byte "#" && line_start) }
{
    b == b'#' && line_start
}

/// The piece that begins the bytes, where `line_start` says that only blanks and comments stand before it on its line.
#[tactic(auto, unfolding(cc_tree::specs::Pieces::piece))]
pub fn piece_at(bytes: &[u8], line_start: bool) -> Piece
    requires some { 0 < length bytes.now }
    requires short { length bytes.now < 2 ^ 31 }
    ensures value { result ≡ spec.piece bytes.now line_start }
    ensures within { IsPieceWithin (length bytes.now) result }
{
    if is_blank(bytes[0]) {
        Piece::Gap(1, line_start || bytes[0] == b'\n')
    } else if begins_directive(bytes[0], line_start) {
        directive(bytes)
    } else if begins(bytes, b"//") {
        line_comment(bytes, line_start)
    } else if begins(bytes, b"/*") {
        block_comment(bytes, line_start)
    } else {
        token(bytes)
    }
}
