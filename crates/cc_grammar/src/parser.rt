// The tree of some tokens, or why they have none.
ghost use Rattle.std.specs.Prelude.{◌≡◌, IfOk, IfErr};
ghost use Rattle.cc_tree.specs.CollectedNames.{collected};
ghost use Rattle.cc_tree.specs.Terminals.{classify};
ghost use Rattle.cc_grammar.specs.Parse as spec;
ghost use Rattle.cc_grammar.specs.Reading as reading;

use crate::places::{end_of, refused_token, sorted};
use crate::reading::{Reading, Sorted, read};
use cc_build::take;
use cc_terminals::names::{Names, collect};
use cc_terminals::{ParseFault, scan};
use cc_tree::{Token, Unit};
use std::alloc::Global;

/// Why the tokens are refused at a place, that of a token or of the end.
fn refused_at(names: &Names<'_>, sorted: &[Sorted<'_>], place: usize) -> ParseFault
    requires scanned { spec.Scanned names.now.tokens.now }
    requires sorted { reading.classified sorted.now ≡ classify (collected names.now.tokens.now) names.now.tokens.now }
    requires refused { reading.Refused sorted.now place }
    ensures { spec.Refuses names.now.tokens.now result }
{
    match names.tokens.get(place) {
        Some(token) => refused_token(names, token),
        None => ParseFault::Syntax(end_of(names.tokens)),
    }
}

/// Why the tokens are refused at a token after which each tree is too deep.
fn too_deep_at(names: &Names<'_>, sorted: &[Sorted<'_>], place: usize) -> ParseFault
    requires scanned { spec.Scanned names.now.tokens.now }
    requires sorted { reading.classified sorted.now ≡ classify (collected names.now.tokens.now) names.now.tokens.now }
    requires deep { reading.TooDeep sorted.now place }
    ensures { spec.Refuses names.now.tokens.now result }
{
    match names.tokens.get(place) {
        Some(token) => ParseFault::TooDeep(token.span),
        None => unreachable!(),
    }
}

/// The tree of the tokens whose names these are.
fn parse_named(alloc: Global, names: &Names<'_>) -> Result<Unit, ParseFault>
    requires scanned { spec.Scanned names.now.tokens.now }
    ensures tree { IfOk result (λ tree. spec.Accepts names.now.tokens.now tree) }
    ensures refused { IfErr result (λ fault. spec.Refuses names.now.tokens.now fault) }
{
    let sorted = sorted(alloc, names, names.tokens)?;
    match read(alloc, sorted.as_slice())? {
        Reading::Whole(mut values) => Ok(take::unit(alloc, &mut values)),
        Reading::Refused(place) => Err(refused_at(names, sorted.as_slice(), place)),
        Reading::TooDeep(place) => Err(too_deep_at(names, sorted.as_slice(), place)),
        Reading::TooDeepAtEnd => Err(ParseFault::TooDeep(end_of(names.tokens))),
    }
}

/// The tree of the tokens of a source, which is the only one, at most 256 deep. Else why there is none, at the first
/// token that shows it: a word that stands in no source; a token that no source goes on with, or the end; or a token
/// after which each source nests too deep (ECMA-372, 9.4 and 30).
pub fn parse(alloc: Global, tokens: &[Token]) -> Result<Unit, ParseFault>
    ensures tree { IfOk result (λ tree. spec.Accepts tokens.now tree) }
    ensures refused { IfErr result (λ fault. spec.Refuses tokens.now fault) }
{
    if let Some(fault) = scan(tokens) {
        return Err(fault);
    }
    let names = collect(alloc, tokens)?;
    parse_named(alloc, &names)
}
