// Which terminal symbol a token is.
ghost use Rattle.std.specs.Prelude.{◌≡◌, map, unwrap_or, slice_get};
ghost use Rattle.cc_tree.specs.CollectedNames.{collected};
ghost use Rattle.cc_tree.specs.Terminals as terminals;
ghost use Rattle.cc_tree.specs.declared.word.TheConstants.{OUTSIDE_WORDS};
ghost use Rattle.cc_terminals.specs.Scan as scan;
ghost use Rattle.cc_terminals.specs.Words.{found_in};

use crate::names::Names;
use cc_tree::{
    CONTEXTUAL_WORDS, ContextualWord, GRAMMAR_SIGNS, NameKind, OUTSIDE_WORDS, RESERVED_WORDS,
    Radix, ReservedWord, Sign, Suffix, Terminal, Token, TokenKind,
};

/// The reserved word in a list of rows.
fn reserved_in(rows: &[(&[u8], ReservedWord)], word: &[u8]) -> Option<ReservedWord>
    ensures { result ≡ found_in (map (λ row. (row.0.now, row.1)) rows.now) word.now }
{
    let mut rest = rows;
    'rows: while let [(letters, reserved), more @ ..] = rest {
        if *letters == word {
            return Some(*reserved);
        }
        rest = more;
    }
    None
}

fn reserved_word(word: &[u8]) -> Option<ReservedWord>
    ensures { result ≡ terminals.reserved_word word.now }
{
    reserved_in(&RESERVED_WORDS, word)
}

/// The word of the grammar at some places in a list of rows.
fn contextual_in(rows: &[(&[u8], ContextualWord)], word: &[u8]) -> ContextualWord
    ensures { result ≡ unwrap_or (found_in (map (λ row. (row.0.now, row.1)) rows.now) word.now) ContextualWord.Nothing }
{
    let mut rest = rows;
    'rows: while let [(letters, contextual), more @ ..] = rest {
        if *letters == word {
            return *contextual;
        }
        rest = more;
    }
    ContextualWord::Nothing
}

fn contextual_word(word: &[u8]) -> ContextualWord
    ensures { result ≡ terminals.contextual_word word.now }
{
    contextual_in(&CONTEXTUAL_WORDS, word)
}

/// Whether a word is left out of the language.
fn is_outside(word: &[u8]) -> bool
    ensures { result ≡ terminals.is_outside word.now }
{
    is_among_outside(word) || word.starts_with(b"__")
}

fn is_among_outside(word: &[u8]) -> bool
    ensures { result ≡ terminals.is_among (map (λ outside. outside.now) OUTSIDE_WORDS) word.now }
{
    let mut rest: &[&[u8]] = &OUTSIDE_WORDS;
    'words: while let [outside, more @ ..] = rest {
        if *outside == word {
            return true;
        }
        rest = more;
    }
    false
}

/// Whether a token is a word that is left out of the language.
pub fn is_outside_word(token: &Token) -> bool
    ensures { result ≡ scan.is_outside_word token.now.kind }
{
    match &token.kind {
        TokenKind::Word(name) => is_outside(name.as_slice()),
        _ => false,
    }
}

fn name_kind(names: &Names<'_>, word: &[u8]) -> NameKind
    ensures { result ≡ terminals.name_kind (collected names.now.tokens.now) word.now }
{
    if names.types.contains(word) {
        NameKind::Type
    } else if names.functions.contains(word) {
        NameKind::Function
    } else {
        NameKind::Plain
    }
}

fn word_terminal(names: &Names<'_>, word: &[u8]) -> Terminal
    ensures { result ≡ terminals.word_or (terminals.reserved_word word.now) (terminals.free_word (collected names.now.tokens.now) word.now) }
{
    if let Some(reserved) = reserved_word(word) {
        return Terminal::Word(reserved);
    }
    if is_outside(word) {
        return Terminal::Other;
    }
    Terminal::Name(name_kind(names, word), contextual_word(word))
}

/// The sign under a number in a list.
fn sign_in(signs: &[Sign], number: u8) -> Terminal
    ensures { result ≡ terminals.sign_or_other (slice_get signs.now number) }
{
    match signs.get(usize::from(number)) {
        Some(sign) => Terminal::Sign(*sign),
        None => Terminal::Other,
    }
}

/// The terminal symbol that a token is over the names that `names.tokens` collect.
pub fn terminal(names: &Names<'_>, token: &Token) -> Terminal
    ensures { result ≡ terminals.terminal (collected names.now.tokens.now) token.now.kind }
{
    match &token.kind {
        TokenKind::Word(name) => word_terminal(names, name.as_slice()),
        TokenKind::Number(0, Suffix::Plain, Radix::Octal) => Terminal::Zero,
        TokenKind::Number(_, _, _) => Terminal::Number,
        TokenKind::Character(_) => Terminal::Character,
        TokenKind::Literal(_) => Terminal::Literal,
        TokenKind::Sign(number) => sign_in(&GRAMMAR_SIGNS, *number),
    }
}
