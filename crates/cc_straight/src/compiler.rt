// Compiles or checks a straight program: from the bytes of a source to checked code, or to the word that it is allowed.
ghost use Rattle.std.specs.Prelude.{◌≡◌, ◌<◌, ◌^◌, length, None, Err, IfOk, IfErr, OnOk, MatchResult};
ghost use Rattle.cc_core.specs.StraightSource.{Source};
ghost use Rattle.cc_straight.specs.Form.{IsStraight, unit_source};
ghost use Rattle.cc_straight.specs.Straight.{RunsAs, IsSmall, greatest_height};
ghost use Rattle.cc_straight.specs.declared.fault.CompileFault.TheVariants.{Memory};
ghost use Rattle.cc_straight.specs.Reading.{Purpose, execution, checking, Reads, IsTreeOf, IsFirst, IsNotTyped, IsCompiled, IsCompileFault, refusal_of};
ghost use Rattle.cc_lexer.specs.Faults as lexing;
ghost use Rattle.cc_terminals.specs.Faults as faults;
ghost use Rattle.cc_cil.specs.Steps.{Checks};

use crate::emit::emit;
use crate::fault::{CompileFault, not_yet};
use crate::rules::allow;
use crate::unit::add_unit;
use cc_base::{List, Span};
use cc_cil::Body;
use cc_forms::first_not_built;
use cc_grammar::{ParseFault, parse};
use cc_lexer::{LexFault, lex};
use cc_machine::{CheckFault, Checked};
use cc_tree::Unit;
use std::alloc::{AllocError, Global};

// Checks the code of a program, which holds no more values than a source's terms do.
fn checked(alloc: Global, code: Vec<u8>) -> Result<Checked, AllocError>
    requires long { length code.items < 2 ^ 32 }
    requires fine { Checks code.items greatest_height 0 0 None }
    ensures { IfOk result (λ body. (body.code ≡ code.items)) }
{
    let body = Body {
        max_stack: 256,
        locals: 0,
        code: List::from_vec(code),
        clauses: List::new(alloc),
    };
    match Checked::of(alloc, body) {
        Ok(code) => Ok(code),
        Err(refusal) => match refusal.fault {
            CheckFault::Memory => Err(AllocError),
            CheckFault::Bad(_) => unreachable!(),
        },
    }
}

// Compiles a tree, where it is a straight program.
fn compile_tree(alloc: Global, tree: &Unit) -> Result<Checked, CompileFault>
    requires { (source : Source) → IsStraight tree.now source → IsSmall source }
    ensures { IsCompiled result (unit_source tree.now) }
{
    let mut operations = Vec::new(alloc);
    add_unit(tree, &mut operations)?;
    let code = emit(alloc, operations.as_slice())?;
    let code = checked(alloc, code)?;
    Ok(code)
}

// The first node of a tree that isn't straight.
fn first_not_straight(alloc: Global, tree: &Unit) -> Result<Option<Span>, CompileFault>
    ensures { MatchResult result (λ first. IsFirst first (unit_source tree.now)) (λ fault. fault ≡ Memory) }
{
    let mut operations = Vec::new(alloc);
    match add_unit(tree, &mut operations) {
        Ok(()) => Ok(None),
        Err(CompileFault::Refused(_, place)) => Ok(Some(place)),
        Err(CompileFault::Memory) => Err(CompileFault::Memory),
    }
}

// What a tree is refused for when it is checked and isn't straight, from this node on.
fn not_typed(alloc: Global, tree: &Unit, place: Span) -> CompileFault
    requires { unit_source tree.now ≡ Err place }
    ensures { IsNotTyped tree.now place result }
{
    if let Some(other) = first_not_built(tree) {
        return not_yet(other);
    }
    match allow(alloc, tree) {
        Ok(()) => not_yet(place),
        Err(fault) => fault,
    }
}

// Why a source has no tokens, as a fault of compilation.
fn lexical(fault: LexFault) -> CompileFault
    ensures { lexing.refusal fault ≡ refusal_of result }
{
    match fault.refusal() {
        Some((kind, place)) => CompileFault::Refused(kind, place),
        None => CompileFault::Memory,
    }
}

// Why tokens have no tree, as a fault of compilation.
fn parsing(fault: ParseFault) -> CompileFault
    ensures { faults.refusal fault ≡ refusal_of result }
{
    match fault.refusal() {
        Some((kind, place)) => CompileFault::Refused(kind, place),
        None => CompileFault::Memory,
    }
}

// The tree of a text.
fn tree_of(alloc: Global, text: &[u8]) -> Result<Unit, CompileFault>
    requires { length text.now < 2 ^ 32 }
    ensures { MatchResult result (λ tree. IsTreeOf text.now tree) (λ fault. (purpose : Purpose) → IsCompileFault purpose text.now fault) }
{
    let tokens = match lex(alloc, text) {
        Ok(tokens) => tokens,
        Err(fault) => return Err(lexical(fault)),
    };
    match parse(alloc, tokens.as_slice()) {
        Ok(tree) => Ok(tree),
        Err(fault) => Err(parsing(fault)),
    }
}

/// Checked code that runs as a source means. A source without tokens is refused with the kind and place of the first
/// byte at which none begins; tokens without a tree with the kind and place of the parser; a tree that is no straight
/// program with `NotYet` and its first node that isn't built; another one as the rules refuse its names, or else with
/// the first node too many (ECMA-372, 9 to 30).
pub fn compile(alloc: Global, text: &[u8]) -> Result<Checked, CompileFault>
    requires { length text.now < 2 ^ 32 }
    // Some source that the text spells is what the code does ..
    ensures compiled { IfOk result (λ code. (source : Source) × Reads text.now source × RunsAs code source) }
    // .. and so is each that it spells.
    ensures each { IfOk result (λ code. (source : Source) → Reads text.now source → RunsAs code source) }
    ensures refused { IfErr result (λ fault. IsCompileFault execution text.now fault) }
{
    let tree = tree_of(alloc, text)?;
    let code = compile_tree(alloc, &tree)?;
    allow(alloc, &tree)?;
    Ok(code)
}

/// Refuses a source that has no tree as `compile` does; one that isn't of the function language with `NotYet` and its
/// first node of another form; another one as the rules refuse its names, or else with the first node too many, or else,
/// where it is no straight program, with `NotYet` and its first node that is none. It makes no code.
pub fn check(alloc: Global, text: &[u8]) -> Result<(), CompileFault>
    requires { length text.now < 2 ^ 32 }
    ensures accepted { OnOk result ((source : Source) × Reads text.now source) }
    ensures refused { IfErr result (λ fault. IsCompileFault checking text.now fault) }
{
    let tree = tree_of(alloc, text)?;
    match first_not_straight(alloc, &tree)? {
        None => {
            allow(alloc, &tree)?;
            Ok(())
        }
        Some(place) => Err(not_typed(alloc, &tree, place)),
    }
}
