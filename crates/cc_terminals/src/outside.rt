// The words that no source of the language has.
ghost use Rattle.std.specs.Prelude.{◌≡◌, ◌≤◌, length, None, Some, IfSome, MatchOption, false};
ghost use Rattle.cc_terminals.specs.Scan as spec;

use crate::fault::ParseFault;
use crate::names::{is_sign, is_word};
use crate::terminal::is_outside_word;
use cc_tree::Token;

/// Whether the word before lets `class` or `struct` stand after it.
fn lets_class(before: &Token) -> bool
    ensures { result ≡ spec.lets_class before.now.kind }
{
    is_word(before, b"ref")
        || is_word(before, b"value")
        || is_word(before, b"interface")
        || is_word(before, b"enum")
        || is_sign(before, 6)
        || is_sign(before, 11)
}

/// Whether the word before lets `char` stand after it.
fn lets_char(before: &Token) -> bool
    ensures { result ≡ spec.lets_char before.now.kind }
{
    is_word(before, b"signed") || is_word(before, b"unsigned")
}

/// Whether a token is `class` or `struct`.
fn is_aggregate(token: &Token) -> bool
    ensures { result ≡ spec.is_aggregate token.now.kind }
{
    is_word(token, b"class") || is_word(token, b"struct")
}

/// Why a token that is no `long` stands in no source.
fn refused(token: &Token, class_may_stand: bool, char_may_stand: bool) -> Option<ParseFault>
    ensures { result ≡ spec.fault_of token.now class_may_stand char_may_stand }
{
    let span = token.span;
    if is_word(token, b"float") || is_word(token, b"double") {
        Some(ParseFault::FloatType(span))
    } else if is_word(token, b"extern") || (is_aggregate(token) && !class_may_stand) {
        Some(ParseFault::MixedMode(span))
    } else if is_outside_word(token) || (is_word(token, b"char") && !char_may_stand) {
        Some(ParseFault::OutsideProfile(span))
    } else {
        None
    }
}

/// What follows a `long` and the `long` that must stand after it.
fn after_second_long<'a>(long: &Token, tokens: &'a [Token]) -> Option<&'a [Token]>
    ensures paired { MatchOption result (spec.first_fault false false (Some long.now) tokens.now ≡ Some (ParseFault.OutsideProfile long.now.span)) (λ rest. spec.first_fault false false (Some long.now) tokens.now ≡ spec.first_fault false false None rest.now) }
    ensures shorter { IfSome result (λ rest. length rest.now ≤ length tokens.now) }
{
    match tokens {
        [second, rest @ ..] => {
            if is_word(second, b"long") {
                Some(rest)
            } else {
                None
            }
        }
        [] => None,
    }
}

/// The first token that stands in no source: a word that is left out of the language, a floating-point type, or what
/// begins a native class or an `extern` declaration.
pub fn scan(tokens: &[Token]) -> Option<ParseFault>
    ensures { result ≡ spec.first_fault false false None tokens.now }
{
    let mut class_may_stand = false;
    let mut char_may_stand = false;
    let mut rest = tokens;
    'tokens: while let [token, more @ ..] = rest {
        if is_word(token, b"long") {
            match after_second_long(token, more) {
                Some(after) => {
                    class_may_stand = false;
                    char_may_stand = false;
                    rest = after;
                }
                None => return Some(ParseFault::OutsideProfile(token.span)),
            }
        } else {
            if let Some(fault) = refused(token, class_may_stand, char_may_stand) {
                return Some(fault);
            }
            class_may_stand = lets_class(token);
            char_may_stand = lets_char(token);
            rest = more;
        }
    }
    None
}
