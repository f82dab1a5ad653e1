// Integer literals (ISO/IEC 14882:2003, 2.13.1).
ghost use Rattle.std.specs.Prelude.{◌≡◌, ◌≤◌, ◌<◌, length};
ghost use Rattle.std.specs.Str.{str_eq_ignore_ascii_case};
ghost use Rattle.cc_tree.specs.Numbers as spec;

use crate::digits::{digit_count, number};
use cc_tree::{Numeral, Radix, Suffix};

fn is_spelled(letters: &[u8], word: &[u8]) -> bool
    ensures { result ≡ str_eq_ignore_ascii_case letters.now word.now }
{
    letters.eq_ignore_ascii_case(word)
}

fn suffix_of(letters: &[u8]) -> Option<Suffix>
    ensures { result ≡ spec.suffix letters.now }
{
    if is_spelled(letters, b"") {
        Some(Suffix::Plain)
    } else if is_spelled(letters, b"u") {
        Some(Suffix::U)
    } else if is_spelled(letters, b"ll") {
        Some(Suffix::Ll)
    } else if is_spelled(letters, b"ull") || is_spelled(letters, b"llu") {
        Some(Suffix::Ull)
    } else {
        None
    }
}

/// A decimal number without `u` has a signed type.
fn is_too_wide(radix: Radix, suffix: Suffix, value: u64) -> bool
    ensures { result ≡ spec.is_too_wide radix suffix value }
{
    match (radix, suffix) {
        (Radix::Decimal, Suffix::Plain | Suffix::Ll) => value >= 1 << 63,
        _ => false,
    }
}

#[tactic(auto, unfolding(cc_tree::specs::Numbers::valued))]
fn valued(radix: Radix, suffix: Suffix, value: Option<u64>) -> Numeral
    ensures { result ≡ spec.valued radix suffix value }
{
    match value {
        None => Numeral::TooWide,
        Some(value) => {
            if is_too_wide(radix, suffix, value) {
                Numeral::TooWide
            } else {
                Numeral::Value(value, suffix, radix)
            }
        }
    }
}

#[tactic(auto, unfolding(cc_tree::specs::Numbers::written))]
fn written(radix: Radix, base: u8, bytes: &[u8]) -> Numeral
    requires { 1 ≤ base }
    ensures { result ≡ spec.written radix base bytes.now }
{
    let count = digit_count(base, bytes.len(), bytes);
    match suffix_of(&bytes[count..]) {
        None => Numeral::Malformed,
        Some(suffix) => {
            if count == 0 {
                Numeral::Malformed
            } else {
                valued(radix, suffix, number(base as u64, &bytes[..count]))
            }
        }
    }
}

/// What a digit and the letters, digits, `_` and `.` behind it write.
#[tactic(auto, unfolding(cc_tree::specs::Numbers::numeral))]
pub fn numeral_of(bytes: &[u8]) -> Numeral
    requires { 0 < length bytes.now }
    ensures { result ≡ spec.numeral bytes.now }
{
    if bytes[0] != b'0' {
        written(Radix::Decimal, 10, bytes)
    } else if bytes.len() > 1 && bytes[1].eq_ignore_ascii_case(&b'x') {
        written(Radix::Hexadecimal, 16, &bytes[2..])
    } else {
        written(Radix::Octal, 8, bytes)
    }
}
