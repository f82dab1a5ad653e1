// From the bytes of a source to its typed program.
ghost use Rattle.std.specs.Prelude.{◌≡◌, ◌<◌, ◌^◌, length, None, IfOk, IfErr, MatchResult};
ghost use Rattle.cc_forms.specs.Forms as forms;
ghost use Rattle.cc_front.specs.Reading.{Types, IsTreeOf, IsTreeFault, IsProgramOf, IsSourceFault, HasRoom, refusal_of};
ghost use Rattle.cc_names.specs.Refusals as naming;
ghost use Rattle.cc_template.specs.Expansion.{IsWithoutTemplates, AreOf};
ghost use Rattle.cc_template.specs.Walk.{counted};

use crate::fault::{SourceFault, told};
use cc_base::Kind;
use cc_core::Program;
use cc_forms::first_not_built;
use cc_grammar::parse;
use cc_lexer::lex;
use cc_names::{Declarations, declare};
use cc_template::expand;
use cc_tree::Unit;
use cc_typing::elaborate;
use std::alloc::Global;

// The tree of a text.
fn tree_of(alloc: Global, text: &[u8]) -> Result<Unit, SourceFault>
    requires { length text.now < 2 ^ 32 }
    ensures { MatchResult result (λ tree. IsTreeOf text.now tree) (λ fault. IsSourceFault text.now fault) }
{
    let tokens = match lex(alloc, text) {
        Ok(tokens) => tokens,
        Err(fault) => return Err(told(fault.refusal())),
    };
    match parse(alloc, tokens.as_slice()) {
        Ok(tree) => Ok(tree),
        Err(fault) => Err(told(fault.refusal())),
    }
}

// The expansion of a tree, or the first node too many. A unit without templates is its own expansion, so its names needn't
// be declared again.
fn expanded(alloc: Global, tree: &Unit, names: &Declarations) -> Result<Unit, SourceFault>
    requires built { forms.first_not_built tree.now ≡ None }
    requires declared { AreOf names.now tree.now }
    requires named { naming.refusal tree.now ≡ None }
    ensures { MatchResult result (λ _. HasRoom tree.now) (λ fault. IsTreeFault tree.now fault) }
{
    match expand(alloc, tree, names) {
        Ok(expanded) => Ok(expanded),
        Err(fault) => Err(told(fault.refusal())),
    }
}

// The typed program of a tree whose names and number of nodes are allowed.
fn elaborated(alloc: Global, tree: &Unit, names: &Declarations) -> Result<Program, SourceFault>
    requires built { forms.first_not_built tree.now ≡ None }
    requires declared { AreOf names.now tree.now }
    requires named { naming.refusal tree.now ≡ None }
    requires room { HasRoom tree.now }
    ensures { MatchResult result (λ program. IsProgramOf tree.now program) (λ fault. IsTreeFault tree.now fault) }
{
    match elaborate(alloc, tree, names) {
        Ok(program) => Ok(program),
        Err(fault) => Err(told(fault.refusal())),
    }
}

// The typed program of a tree of built forms.
fn program_of(alloc: Global, tree: &Unit) -> Result<Program, SourceFault>
    requires { forms.first_not_built tree.now ≡ None }
    ensures { MatchResult result (λ program. (naming.refusal tree.now ≡ None) × HasRoom tree.now × IsProgramOf tree.now program) (λ fault. IsTreeFault tree.now fault) }
{
    let names = match declare(alloc, tree) {
        Ok(names) => names,
        Err(fault) => return Err(told(fault.refusal())),
    };
    let _expanded = expanded(alloc, tree, &names)?;
    let program = elaborated(alloc, tree, &names)?;
    Ok(program)
}

/// The typed program of a source. A source without tokens is refused with the kind and place of the first byte at which
/// none begins; tokens without a tree with the kind and place of the parser; a tree with a form that isn't built with
/// `NotYet` and its first node of such a form; another one as the rules refuse its names (20 to 26), or else with the
/// first node too many, or else as its types are refused (50 to 63): the first of these in order of place, at one place
/// the lowest kind (ECMA-372, 9 to 20).
pub fn typed_program(alloc: Global, text: &[u8]) -> Result<Program, SourceFault>
    requires { length text.now < 2 ^ 32 }
    ensures accepted { IfOk result (λ program. Types text.now program) }
    ensures refused { IfErr result (λ fault. IsSourceFault text.now fault) }
{
    let tree = tree_of(alloc, text)?;
    match first_not_built(&tree) {
        Some(place) => Err(SourceFault::Refused(Kind::NotYet, place)),
        None => {
            let program = program_of(alloc, &tree)?;
            Ok(program)
        }
    }
}
