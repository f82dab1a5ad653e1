// Small questions about the front of some bytes.
ghost use Rattle.std.specs.Prelude.{◌≡◌, ◌+◌, ◌≤◌, ◌<◌, ◌^◌, length, min, take, drop, slice_index, nat_eq, IsTrue};
ghost use Rattle.std.specs.List.{starts_with};
ghost use Rattle.cc_tree.specs.Digits.{is_word_byte};
ghost use Rattle.cc_tree.specs.Refusals as spec;

use cc_base::Span;

/// The byte at a place, 0 past the end.
pub fn byte_at(bytes: &[u8], at: usize) -> u8
    ensures { result ≡ slice_index bytes.now at }
{
    if at < bytes.len() { bytes[at] } else { 0 }
}

pub fn begins(bytes: &[u8], front: &[u8]) -> bool
    ensures value { result ≡ starts_with nat_eq bytes.now front.now }
    ensures within { IsTrue result → length front.now ≤ length bytes.now }
{
    bytes.starts_with(front)
}

/// The first n bytes, or all where there are fewer.
pub fn front(bytes: &[u8], n: usize) -> &[u8]
    ensures value { result.now ≡ take n bytes.now }
    ensures len { length result.now ≡ min n (length bytes.now) }
{
    if n < bytes.len() { &bytes[..n] } else { bytes }
}

/// What stands behind the first n bytes.
pub fn past(bytes: &[u8], n: usize) -> &[u8]
    requires { n ≤ length bytes.now }
    ensures rest { result.now ≡ drop n bytes.now }
    ensures shorter { length result.now + n ≡ length bytes.now }
{
    bytes.split_at(n).1
}

/// A letter, a digit or `_`.
pub fn is_word_byte(b: u8) -> bool
    ensures { result ≡ is_word_byte b }
{
    b.is_ascii_alphanumeric() || b == b'_'
}

pub fn span(first: usize, past: usize) -> Span
    requires first { first < 2 ^ 32 }
    requires past { past < 2 ^ 32 }
    ensures { result ≡ spec.span first past }
{
    Span {
        first: first as u32,
        past: past as u32,
    }
}
