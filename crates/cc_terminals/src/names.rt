// The names that a source collects before it is read.
ghost use Rattle.std.specs.Prelude.{ℕ, List, ◌≡◌, ◌||◌, ◌++◌, [], cond, map, OnOk, IfOk};
ghost use Rattle.cc_tree.specs.CollectedNames as collected;
ghost use Rattle.cc_tree.specs.Terminals.{is_among};
ghost use Rattle.cc_tree.specs.declared.word.TheConstants.{LIBRARY_TYPES};
ghost use Rattle.cc_terminals.specs.Awaited as waits;
ghost use Rattle.cc_terminals.specs.Words.{holds, words_of};

use cc_tree::{LIBRARY_TYPES, Token, TokenKind};
use std::alloc::{AllocError, Global};
use std::collections::HashSet;

/// The names of types and of function templates that tokens collect.
#[derive(Drop)]
pub struct Names<'a> {
    /// The tokens whose names these are.
    pub tokens: &'a [Token],
    pub(crate) types: HashSet<&'a [u8]>,
    pub(crate) functions: HashSet<&'a [u8]>,
    ghost types_collected: { (word : List ℕ) → holds types word ≡ is_among (collected.collected tokens.now).types word },
    ghost functions_collected: { (word : List ℕ) → holds functions word ≡ is_among (collected.collected tokens.now).functions word },
}

/// The letters of a word.
pub fn word(token: &Token) -> Option<&[u8]>
    ensures { words_of result ≡ collected.word_in token.now.kind }
{
    match &token.kind {
        TokenKind::Word(name) => Some(name.as_slice()),
        _ => None,
    }
}

/// Whether a token is a word of these letters.
pub fn is_word(token: &Token, letters: &[u8]) -> bool
    ensures { result ≡ collected.is_word letters.now token.now.kind }
{
    match &token.kind {
        TokenKind::Word(name) => name.as_slice() == letters,
        _ => false,
    }
}

/// Whether a token is a sign, by its number.
pub fn is_sign(token: &Token, number: u8) -> bool
    ensures { result ≡ collected.is_sign number token.now.kind }
{
    match token.kind {
        TokenKind::Sign(found) => found == number,
        _ => false,
    }
}

fn introduces_type(token: &Token) -> bool
    ensures { result ≡ collected.introduces_type token.now.kind }
{
    is_word(token, b"class") || is_word(token, b"struct") || is_word(token, b"typename")
}

fn first_word(tokens: &[Token]) -> Option<&[u8]>
    ensures { words_of result ≡ collected.first_word tokens.now }
{
    match tokens {
        [first, ..] => word(first),
        [] => None,
    }
}

/// The word that `class`, `struct` or `typename` makes the name of a type.
fn introduced<'a>(token: &Token, more: &'a [Token]) -> Option<&'a [u8]>
    ensures { words_of result ≡ cond (collected.introduces_type token.now.kind) (collected.first_word more.now) [] }
{
    if introduces_type(token) {
        first_word(more)
    } else {
        None
    }
}

fn begins_key(token: &Token) -> bool
    ensures { result ≡ collected.begins_key token.now.kind }
{
    is_word(token, b"ref") || is_word(token, b"value") || is_word(token, b"interface")
}

fn is_class_or_struct(tokens: &[Token]) -> bool
    ensures { result ≡ collected.is_class_or_struct tokens.now }
{
    match tokens {
        [first, ..] => is_word(first, b"class") || is_word(first, b"struct"),
        [] => false,
    }
}

/// Whether tokens begin with the key of a class.
fn has_class_key(tokens: &[Token]) -> bool
    ensures { result ≡ collected.has_class_key tokens.now }
{
    match tokens {
        [first, more @ ..] => begins_key(first) && is_class_or_struct(more),
        [] => false,
    }
}

/// Puts a word into a set, if there is one.
fn put<'a>(set: &mut HashSet<&'a [u8]>, found: Option<&'a [u8]>) -> Result<(), AllocError>
    ensures { OnOk result ((word : List ℕ) → holds set.new word ≡ (is_among (words_of found.entry) word || holds set.old word)) }
{
    match found {
        Some(name) => {
            set.insert(name)?;
            Ok(())
        }
        None => Ok(()),
    }
}

/// Puts each word of a list into a set.
fn put_all<'a>(set: &mut HashSet<&'a [u8]>, words: &[&'a [u8]]) -> Result<(), AllocError>
    ensures { OnOk result ((word : List ℕ) → holds set.new word ≡ (is_among (map (λ name. name.now) words.now) word || holds set.old word)) }
{
    'words: for name in words {
        put(set, Some(*name))?;
    }
    Ok(())
}

/// Puts the names of types that tokens declare into a set.
fn put_declared<'a>(set: &mut HashSet<&'a [u8]>, tokens: &'a [Token]) -> Result<(), AllocError>
    ensures { OnOk result ((word : List ℕ) → holds set.new word ≡ (is_among (collected.declared_types tokens.now) word || holds set.old word)) }
{
    let mut rest = tokens;
    'tokens: while let Some((token, more)) = rest.split_first() {
        put(set, introduced(token, more))?;
        rest = more;
    }
    Ok(())
}

/// The names of types that tokens collect.
fn collect_types(alloc: Global, tokens: &[Token]) -> Result<HashSet<&[u8]>, AllocError>
    ensures { IfOk result (λ set. (word : List ℕ) → holds set word ≡ is_among (collected.collected tokens.now).types word) }
{
    let mut types = HashSet::new(alloc);
    put_declared(&mut types, tokens)?;
    put_all(&mut types, &LIBRARY_TYPES)?;
    Ok(types)
}

/// What a template's header and what follows it wait for.
#[derive(Clone, Copy)]
struct Awaited {
    /// The `>` that ends the header.
    greater: bool,
    /// The `(` behind the name of a function.
    parenthesis: bool,
}

/// The name of a function template that a token ends.
fn ended<'a>(awaited: Awaited, before: Option<&'a [u8]>, token: &Token) -> Option<&'a [u8]>
    ensures { words_of result ≡ waits.ended awaited (words_of before.entry) token.now.kind }
{
    if awaited.parenthesis && is_sign(token, 2) {
        before
    } else {
        None
    }
}

/// What is waited for behind a token.
fn awaited_after(awaited: Awaited, token: &Token, more: &[Token]) -> Awaited
    ensures { result ≡ waits.awaited_after awaited token.now.kind more.now }
{
    if is_sign(token, 2) {
        Awaited {
            greater: awaited.greater,
            parenthesis: false,
        }
    } else if is_sign(token, 7) {
        Awaited {
            greater: false,
            parenthesis: awaited.parenthesis || (awaited.greater && !has_class_key(more)),
        }
    } else {
        Awaited {
            greater: awaited.greater || is_word(token, b"template"),
            parenthesis: awaited.parenthesis,
        }
    }
}

/// The names of function templates that tokens collect.
fn collect_functions(alloc: Global, tokens: &[Token]) -> Result<HashSet<&[u8]>, AllocError>
    ensures { IfOk result (λ set. (word : List ℕ) → holds set word ≡ is_among (collected.collected tokens.now).functions word) }
{
    let mut functions = HashSet::new(alloc);
    let mut awaited = Awaited {
        greater: false,
        parenthesis: false,
    };
    let mut before = None;
    let mut rest = tokens;
    'tokens: while let Some((token, more)) = rest.split_first() {
        put(&mut functions, ended(awaited, before, token))?;
        awaited = awaited_after(awaited, token, more);
        before = word(token);
        rest = more;
    }
    Ok(functions)
}

/// The names that the tokens collect.
pub fn collect(alloc: Global, tokens: &[Token]) -> Result<Names<'_>, AllocError>
    ensures { IfOk result (λ names. names.tokens.now ≡ tokens.now) }
{
    let types = collect_types(alloc, tokens)?;
    let functions = collect_functions(alloc, tokens)?;
    Ok(Names {
        tokens,
        types,
        functions,
    })
}
