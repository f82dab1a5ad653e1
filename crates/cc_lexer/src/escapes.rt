// What may stand between the quotes of a string or a character (ISO/IEC 14882:2003, 2.13.2).
ghost use Rattle.std.specs.Prelude.{◌≡◌, ◌+◌, ◌≤◌, ◌<◌, ◌^◌, ◌⊎◌, length};
ghost use Rattle.cc_tree.specs.Escapes as spec;
ghost use Rattle.cc_lexer.specs.Lengths.{written_len};

use crate::digits::{digit_count, number};
use bstr::decode_utf8;
use cc_tree::Element;

/// A code point in UTF-16, written by n bytes.
fn encoded(code: u32, n: usize) -> Element
    requires { code < 0x110000 }
    ensures value { result ≡ spec.encoded code n }
    ensures length { written_len result ≡ n }
{
    if code < 0x10000 {
        Element::One(code as u16, n)
    } else {
        let over = code - 0x10000;
        Element::Pair(
            (0xD800 + over / 0x400) as u16,
            (0xDC00 + over % 0x400) as u16,
            n,
        )
    }
}

#[tactic(auto, unfolding(cc_tree::specs::Escapes::numeric))]
fn numeric(radix: u8, least: usize, most: usize, limit: u32, front: usize, bytes: &[u8]) -> Element
    requires radix { 1 ≤ radix }
    requires limit { limit < 0x110000 }
    requires front { front ≤ 2 }
    requires short { length bytes.now < 2 ^ 32 }
    ensures value { result ≡ spec.numeric radix least most limit front bytes.now }
    ensures least { front ≤ written_len result }
    ensures most { written_len result ≤ front + length bytes.now }
{
    let count = digit_count(radix, most, bytes);
    match number(radix as u64, &bytes[..count]) {
        Some(value) => {
            if least <= count && value <= limit as u64 {
                encoded(value as u32, front + count)
            } else {
                Element::BadEscape(front + count)
            }
        }
        None => Element::BadEscape(front + count),
    }
}

/// The unit that a letter after a backslash stands for.
fn letter(b: u8) -> Option<u16>
    ensures { result ≡ spec.letter b }
{
    match b {
        b'n' => Some(10),
        b't' => Some(9),
        b'r' => Some(13),
        b'a' => Some(7),
        b'b' => Some(8),
        b'f' => Some(12),
        b'v' => Some(11),
        b'\\' => Some(92),
        b'\'' => Some(39),
        b'"' => Some(34),
        b'?' => Some(63),
        _ => None,
    }
}

fn lettered(unit: Option<u16>) -> Element
    ensures value { result ≡ spec.lettered unit }
    ensures length { written_len result ≡ 2 }
{
    match unit {
        Some(unit) => Element::One(unit, 2),
        None => Element::BadEscape(2),
    }
}

/// An escape, from the byte after its backslash on.
#[tactic(auto, unfolding(cc_tree::specs::Escapes::escape))]
fn escape(bytes: &[u8]) -> Element
    requires some { 0 < length bytes.now }
    requires short { length bytes.now < 2 ^ 32 }
    ensures value { result ≡ spec.escape bytes.now }
    ensures least { 1 ≤ written_len result }
    ensures most { written_len result ≤ 1 + length bytes.now }
{
    match bytes[0] {
        b'0'..=b'7' => numeric(8, 1, 3, 0xFFFF, 1, bytes),
        b'x' => numeric(16, 1, bytes.len(), 0xFFFF, 2, &bytes[1..]),
        b'u' => numeric(16, 4, 4, 0xFFFF, 2, &bytes[1..]),
        b'U' => numeric(16, 8, 8, 0x10FFFF, 2, &bytes[1..]),
        b => lettered(letter(b)),
    }
}

fn character(code: Option<char>, n: usize) -> Element
    ensures value { result ≡ spec.character code n }
    ensures length { (written_len result ≡ 1) ⊎ (written_len result ≡ n) }
{
    match code {
        Some(code) => encoded(code as u32, n),
        None => Element::BadByte,
    }
}

/// What stands first.
#[tactic(auto, unfolding(cc_tree::specs::Escapes::element), using(crate::proofs::Utf8::decoded_within))]
pub fn element_at(bytes: &[u8]) -> Element
    requires some { 0 < length bytes.now }
    requires short { length bytes.now < 2 ^ 32 }
    ensures value { result ≡ spec.element bytes.now }
    ensures least { 1 ≤ written_len result }
    ensures most { written_len result ≤ length bytes.now }
{
    if bytes[0] == b'\\' && bytes.len() > 1 {
        escape(&bytes[1..])
    } else {
        let (code, n) = decode_utf8(bytes);
        character(code, n)
    }
}
