// Blanks and comments (ISO/IEC 14882:2003, 2.7).
ghost use Rattle.std.specs.Prelude.{◌≡◌, ◌+◌, ◌≤◌, ◌<◌, true, length, slice_index, IfSome};
ghost use Rattle.std.specs.List.{prefix_len};
ghost use Rattle.cc_tree.specs.Gaps as spec;

use crate::bytes::{begins, past};

/// A space, a tab, a line feed, a vertical tab, a form feed or a carriage return.
pub fn is_blank(b: u8) -> bool
    ensures { result ≡ spec.is_blank b }
{
    matches!(b, b' ' | b'\t' | b'\n' | b'\x0B' | b'\x0C' | b'\r')
}

/// How many bytes stand before the line feed, or before the text's end.
pub fn line_len(bytes: &[u8]) -> usize
    ensures value { result ≡ prefix_len spec.is_on_line bytes.now }
    ensures within { result ≤ length bytes.now }
    ensures moves { 0 < length bytes.now → spec.is_on_line (slice_index bytes.now 0) ≡ true → 0 < result }
{
    let mut end = 0;
    'bytes: while end < bytes.len() && bytes[end] != b'\n' {
        end += 1;
    }
    end
}

/// The place behind the first `*/`, where the first byte stands at `first`.
fn comment_end(first: usize, bytes: &[u8]) -> Option<usize>
    requires { first ≤ 2 }
    ensures value { result ≡ spec.comment_end first bytes.now }
    ensures within { IfSome result (λ end. (first ≤ end) × (end ≤ first + length bytes.now)) }
{
    let mut at = first;
    let mut rest = bytes;
    'bytes: while rest.len() > 0 {
        if begins(rest, b"*/") {
            return Some(at + 2);
        }
        at += 1;
        rest = past(rest, 1);
    }
    None
}

/// How many bytes the comment `/* .. */` at the front has, or 0 where none is closed.
pub fn comment_len(bytes: &[u8]) -> usize
    ensures value { result ≡ spec.comment_len bytes.now }
    ensures within { result ≤ length bytes.now }
{
    if begins(bytes, b"/*") {
        comment_end(2, &bytes[2..]).unwrap_or(0)
    } else {
        0
    }
}

/// How many bytes the blank or comment at the front has, or 0.
fn gap_len(bytes: &[u8]) -> usize
    ensures value { result ≡ spec.gap_len bytes.now }
    ensures within { result ≤ length bytes.now }
{
    if bytes.len() > 0 && is_blank(bytes[0]) {
        1
    } else {
        comment_len(bytes)
    }
}

/// What stands behind the blanks and comments at the front.
pub fn past_gaps(bytes: &[u8]) -> &[u8]
    ensures value { result.now ≡ spec.past_gaps bytes.now }
    ensures within { length result.now ≤ length bytes.now }
{
    let mut rest = bytes;
    'gaps: loop {
        let n = gap_len(rest);
        if n == 0 {
            return rest;
        }
        rest = past(rest, n);
    }
}
