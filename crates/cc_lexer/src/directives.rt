// Directive lines: the two that are skipped.
ghost use Rattle.std.specs.Prelude.{◌≡◌, ◌≤◌, ◌<◌, length, IfSome, IsTrue};
ghost use Rattle.cc_tree.specs.Directives as spec;

use crate::bytes::{begins, byte_at, is_word_byte, past};
use crate::gaps::past_gaps;

fn begins_word(bytes: &[u8], word: &[u8]) -> bool
    ensures value { result ≡ spec.begins_word bytes.now word.now }
    ensures within { IsTrue result → length word.now ≤ length bytes.now }
{
    begins(bytes, word) && !is_word_byte(byte_at(bytes, word.len()))
}

/// Nothing follows, or a comment up to the line's end.
fn is_line_end(bytes: &[u8]) -> bool
    ensures { result ≡ spec.is_line_end bytes.now }
{
    bytes.len() == 0 || begins(bytes, b"//")
}

/// `<mscorlib.dll>`, and then nothing but blanks and comments.
fn is_library(bytes: &[u8]) -> bool
    ensures { result ≡ spec.is_library bytes.now }
{
    begins(bytes, b"<mscorlib.dll>") && is_line_end(past_gaps(past(bytes, 14)))
}

/// How many bytes of a skipped directive line, from its `#` on, are blanks, comments and words: all of a line
/// `#using <mscorlib.dll>`, and of a line with the word `pragma` those before that word. `None` for another directive.
#[tactic(auto, unfolding(cc_tree::specs::Directives::read_len))]
pub fn read_len(line: &[u8]) -> Option<usize>
    requires { 0 < length line.now }
    ensures value { result ≡ spec.read_len line.now }
    ensures within { IfSome result (λ n. n ≤ length line.now) }
{
    let word = past_gaps(past(line, 1));
    if begins_word(word, b"pragma") {
        return Some(line.len() - word.len());
    }
    if begins_word(word, b"using") && is_library(past_gaps(past(word, 5))) {
        return Some(line.len());
    }
    None
}
