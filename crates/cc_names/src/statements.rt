// The scopes and the variables of statements (ECMA-372, 16).
ghost use Rattle.std.specs.Prelude.{◌≡◌, ℕ, Some, map, length, OnOk, IfOk};
ghost use Rattle.cc_names.specs.Parts.{added, in_order, both};
ghost use Rattle.cc_names.specs.Statements as spec;

use crate::scope::{Declared, ScopeKind};
use cc_base::Span;
use cc_tree::{Block, Catch, Caught, ForStart, Label, Local, Section, Statement};
use std::alloc::{AllocError, Global};

/// Whether a statement is a scope by itself.
#[tactic(auto, using(crate::proofs::Pieces::pieces))]
fn is_scope(statement: &Statement) -> bool
    ensures { result ≡ (spec.piece statement.now).is_scope }
{
    match statement {
        Statement::Block(_) => true,
        Statement::Empty(_) => false,
        Statement::Local(_, _) => false,
        Statement::Expression(_, _) => false,
        Statement::Delete(_, _) => false,
        Statement::If(_, _, _, _) => false,
        Statement::While(_, _, _) => false,
        Statement::Do(_, _, _) => false,
        Statement::For(_, _, _, _, _) => true,
        Statement::ForEach(_, _, _, _, _) => true,
        Statement::Switch(_, _, _) => false,
        Statement::Break(_) => false,
        Statement::Continue(_) => false,
        Statement::Return(_, _) => false,
        Statement::Throw(_, _) => false,
        Statement::Try(_, _, _, _) => false,
    }
}

/// The bytes that a statement takes.
#[tactic(auto, using(crate::proofs::Pieces::pieces))]
fn span_of(statement: &Statement) -> Span
    ensures { result ≡ (spec.piece statement.now).span }
{
    match statement {
        Statement::Block(block) => block.span,
        Statement::Empty(span) => *span,
        Statement::Local(_, span) => *span,
        Statement::Expression(_, span) => *span,
        Statement::Delete(_, span) => *span,
        Statement::If(_, _, _, span) => *span,
        Statement::While(_, _, span) => *span,
        Statement::Do(_, _, span) => *span,
        Statement::For(_, _, _, _, span) => *span,
        Statement::ForEach(_, _, _, _, span) => *span,
        Statement::Switch(_, _, span) => *span,
        Statement::Break(span) => *span,
        Statement::Continue(span) => *span,
        Statement::Return(_, span) => *span,
        Statement::Throw(_, span) => *span,
        Statement::Try(_, _, _, span) => *span,
    }
}

/// The bytes that a label takes.
fn label_span(label: &Label) -> Span
    ensures { result ≡ spec.label_span label.now }
{
    match label {
        Label::Case(_, span) => *span,
        Label::Default(span) => *span,
    }
}

/// The last label's bytes, or those before where there is no label.
fn last_label(before: Span, labels: &[Label]) -> Span
    ensures { result ≡ spec.last_of before (map spec.label_span labels.now) }
{
    let mut last = before;
    for label in labels {
        last = label_span(label);
    }
    last
}

/// The last statement's bytes, or those before where there is no statement.
fn last_statement(before: Span, statements: &[Statement]) -> Span
    ensures { result ≡ spec.last_of before (map (λ piece. piece.span) (map spec.piece statements.now)) }
{
    let mut last = before;
    for statement in statements {
        last = span_of(statement);
    }
    last
}

/// The bytes from the first label of a section to its last statement, or to its last label.
fn section_span(labels: &[Label], statements: &[Statement]) -> Span
    ensures { result ≡ spec.section_span (map spec.label_span labels.now) (map (λ piece. piece.span) (map spec.piece statements.now)) }
{
    match labels {
        [] => Span { first: 0, past: 0 },
        [label, more @ ..] => {
            let first = label_span(label);
            let last = last_statement(last_label(first, more), statements);
            Span {
                first: first.first,
                past: last.past,
            }
        }
    }
}

/// Adds the variables of a declaration.
#[tactic(auto, using(crate::proofs::Adding::adding))]
fn collect_local(
    declared: &mut Declared,
    alloc: Global,
    local: &Local,
    around: u32,
) -> Result<(), AllocError>
    ensures { OnOk result (declared.new ≡ added (spec.local_declares local.now) around declared.old) }
{
    for declarator in local.declarators.as_slice() {
        declared.declare_variable(alloc, &declarator.name, around)?;
    }
    Ok(())
}

/// Adds the variables that a `for` declares in its parentheses.
#[tactic(auto, using(crate::proofs::Adding::adding))]
fn collect_start(
    declared: &mut Declared,
    alloc: Global,
    start: &ForStart,
    around: u32,
) -> Result<(), AllocError>
    ensures { OnOk result (declared.new ≡ added (spec.start_declares start.now) around declared.old) }
{
    match start {
        ForStart::Nothing => Ok(()),
        ForStart::Local(local) => collect_local(declared, alloc, local, around),
        ForStart::Expression(_) => Ok(()),
    }
}

/// Adds the variable of a catch.
#[tactic(auto, using(crate::proofs::Adding::adding))]
fn collect_caught(
    declared: &mut Declared,
    alloc: Global,
    caught: &Caught,
    around: u32,
) -> Result<(), AllocError>
    ensures { OnOk result (declared.new ≡ added (spec.caught_declares caught.now) around declared.old) }
{
    match caught {
        Caught::All => Ok(()),
        Caught::Typed(_, None) => Ok(()),
        Caught::Typed(_, Some(name)) => declared.declare_variable(alloc, name, around),
    }
}

/// Adds the scopes and variables of a statement.
#[cycle(statements)]
#[tactic(auto, using(crate::proofs::Adding::adding, crate::proofs::Pieces::pieces))]
fn collect_statement(
    declared: &mut Declared,
    alloc: Global,
    statement: &Statement,
    around: u32,
) -> Result<(), AllocError>
    ensures { OnOk result (declared.new ≡ added (spec.statement_declares statement.now) around declared.old) }
{
    match statement {
        Statement::Block(block) => collect_block(declared, alloc, block, around),
        Statement::Local(local, _) => collect_local(declared, alloc, local, around),
        Statement::If(_, first, second, _) => {
            collect_substatement(declared, alloc, first.get(), around)?;
            match second {
                None => Ok(()),
                Some(second) => collect_substatement(declared, alloc, second.get(), around),
            }
        }
        Statement::While(_, body, _) => collect_substatement(declared, alloc, body.get(), around),
        Statement::Do(body, _, _) => collect_substatement(declared, alloc, body.get(), around),
        Statement::For(start, _, _, body, span) => {
            let scope = declared.open(ScopeKind::Local, around, *span)?;
            collect_start(declared, alloc, start, scope)?;
            collect_substatement(declared, alloc, body.get(), scope)
        }
        Statement::ForEach(_, name, _, body, span) => {
            let scope = declared.open(ScopeKind::Local, around, *span)?;
            declared.declare_variable(alloc, name, scope)?;
            collect_substatement(declared, alloc, body.get(), scope)
        }
        Statement::Switch(_, sections, _) => {
            collect_sections(declared, alloc, sections.as_slice(), around)
        }
        Statement::Try(body, catches, at_last, _) => {
            collect_block(declared, alloc, body, around)?;
            collect_catches(declared, alloc, catches.as_slice(), around)?;
            match at_last {
                None => Ok(()),
                Some(block) => collect_block(declared, alloc, block, around),
            }
        }
        Statement::Empty(_) => Ok(()),
        Statement::Expression(_, _) => Ok(()),
        Statement::Delete(_, _) => Ok(()),
        Statement::Break(_) => Ok(()),
        Statement::Continue(_) => Ok(()),
        Statement::Return(_, _) => Ok(()),
        Statement::Throw(_, _) => Ok(()),
    }
}

/// Adds the scopes and variables of a statement that is a part of another one, and a scope for it where it is none.
#[cycle(statements)]
#[tactic(auto, using(crate::proofs::Adding::adding, crate::proofs::Pieces::pieces))]
fn collect_substatement(
    declared: &mut Declared,
    alloc: Global,
    statement: &Statement,
    around: u32,
) -> Result<(), AllocError>
    ensures { OnOk result (declared.new ≡ added (spec.substatement_declares (spec.piece statement.now)) around declared.old) }
{
    if is_scope(statement) {
        collect_statement(declared, alloc, statement, around)
    } else {
        let scope = declared.open(ScopeKind::Local, around, span_of(statement))?;
        collect_statement(declared, alloc, statement, scope)
    }
}

/// Adds the scopes and variables of statements in a row.
#[cycle(statements)]
#[tactic(auto, using(crate::proofs::Adding::adding, crate::proofs::Pieces::pieces))]
fn collect_statements(
    declared: &mut Declared,
    alloc: Global,
    statements: &[Statement],
    around: u32,
) -> Result<(), AllocError>
    ensures { OnOk result (declared.new ≡ added (in_order (map spec.statement_declares statements.now)) around declared.old) }
{
    for statement in statements {
        collect_statement(declared, alloc, statement, around)?;
    }
    Ok(())
}

/// Adds the scope of a block, with what is in it.
#[cycle(statements)]
#[tactic(auto, using(crate::proofs::Adding::adding, crate::proofs::Pieces::pieces))]
pub(crate) fn collect_block(
    declared: &mut Declared,
    alloc: Global,
    block: &Block,
    around: u32,
) -> Result<(), AllocError>
    ensures { OnOk result (declared.new ≡ added (spec.body_declares block.now) around declared.old) }
{
    let scope = declared.open(ScopeKind::Local, around, block.span)?;
    collect_statements(declared, alloc, block.statements.as_slice(), scope)
}

/// Adds the scopes and variables of the catches of a `try`.
#[cycle(statements)]
#[tactic(auto, using(crate::proofs::Adding::adding, crate::proofs::Pieces::pieces))]
fn collect_catches(
    declared: &mut Declared,
    alloc: Global,
    catches: &[Catch],
    around: u32,
) -> Result<(), AllocError>
    ensures { OnOk result (declared.new ≡ added (in_order (map spec.catch_declares catches.now)) around declared.old) }
{
    for catch in catches {
        collect_catch(declared, alloc, catch, around)?;
    }
    Ok(())
}

/// Adds the scope of a catch's block, to which its variable belongs, with what is in it.
#[cycle(statements)]
#[tactic(auto, using(crate::proofs::Adding::adding, crate::proofs::Pieces::pieces))]
fn collect_catch(
    declared: &mut Declared,
    alloc: Global,
    catch: &Catch,
    around: u32,
) -> Result<(), AllocError>
    ensures { OnOk result (declared.new ≡ added (spec.catch_declares catch.now) around declared.old) }
{
    let scope = declared.open(ScopeKind::Local, around, catch.block.span)?;
    collect_caught(declared, alloc, &catch.caught, scope)?;
    collect_statements(declared, alloc, catch.block.statements.as_slice(), scope)
}

/// Adds the scopes and variables of the sections of a switch.
#[cycle(statements)]
#[tactic(auto, using(crate::proofs::Adding::adding, crate::proofs::Pieces::pieces))]
fn collect_sections(
    declared: &mut Declared,
    alloc: Global,
    sections: &[Section],
    around: u32,
) -> Result<(), AllocError>
    ensures { OnOk result (declared.new ≡ added (in_order (map spec.section_declares sections.now)) around declared.old) }
{
    for section in sections {
        collect_section(declared, alloc, section, around)?;
    }
    Ok(())
}

/// Adds the scope of a section, with what is in it.
#[cycle(statements)]
#[tactic(auto, using(crate::proofs::Adding::adding, crate::proofs::Pieces::pieces))]
fn collect_section(
    declared: &mut Declared,
    alloc: Global,
    section: &Section,
    around: u32,
) -> Result<(), AllocError>
    ensures { OnOk result (declared.new ≡ added (spec.section_declares section.now) around declared.old) }
{
    let statements = section.statements.as_slice();
    let span = section_span(section.labels.as_slice(), statements);
    let scope = declared.open(ScopeKind::Local, around, span)?;
    collect_statements(declared, alloc, statements, scope)
}
