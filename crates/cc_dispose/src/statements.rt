// Statements become regions.
ghost use Rattle.std.specs.Prelude.{◌≡◌, ◌+◌, IfOk, map, option_map};
ghost use Rattle.cc_core.specs.Bare.{term_of, step_of};
ghost use Rattle.cc_region.specs.Bare.{region_of};
ghost use Rattle.cc_dispose.specs.Lower.{lowered, lowered_section, bare_section};

use crate::copied::{copied, copied_if, copied_type};
use cc_core::{Expression, Section, Statement};
use cc_region::{RegionExit, RegionSection, RegionStatement};
use sqlite_items::Items;
use std::alloc::{AllocError, Global};

/// The region of a statement, where so many Switches stand between it and the innermost Loop around it.
#[cycle(statement)]
pub(crate) fn lower_statement(
    alloc: Global,
    inner: u32,
    statement: &Statement,
) -> Result<RegionStatement, AllocError>
    ensures { IfOk result (λ region. region_of region ≡ lowered inner (step_of statement.now)) }
{
    match statement {
        Statement::Block(statements) => {
            let regions = lower_all(alloc, inner, statements.as_slice())?;
            Ok(RegionStatement::Sequence(regions))
        }
        Statement::Do(e) => Ok(RegionStatement::Do(copied(alloc, e)?)),
        Statement::Declare(local, of, initial) => {
            let initial = copied_if(alloc, initial)?;
            Ok(RegionStatement::Declare(*local, copied_type(alloc, of)?, initial))
        }
        Statement::If(condition, first, second) => {
            let first = lower_statement(alloc, inner, first)?;
            let second = lower_statement(alloc, inner, second)?;
            let (first, second) = two_boxes(alloc, first, second)?;
            Ok(RegionStatement::If(copied(alloc, condition)?, first, second))
        }
        Statement::Loop(kind, condition, after, body) => {
            let body = lower_statement(alloc, 0, body)?;
            let (condition, after) = condition_and_after(alloc, condition, after)?;
            Ok(RegionStatement::Loop(*kind, condition, after, Box::new(alloc, body)?))
        }
        Statement::Switch(local, e, sections) => {
            let inner = one_more(inner)?;
            let sections = lower_sections(alloc, inner, sections.as_slice())?;
            Ok(RegionStatement::Switch(*local, copied(alloc, e)?, sections))
        }
        Statement::Break => Ok(RegionStatement::Exit(RegionExit::Break(0))),
        Statement::Continue => Ok(RegionStatement::Exit(RegionExit::Continue(inner))),
        Statement::Return(e) => {
            let e = copied_if(alloc, e)?;
            Ok(RegionStatement::Exit(RegionExit::Return(e)))
        }
        Statement::Throw(e) => Ok(RegionStatement::Throw(copied(alloc, e)?)),
        Statement::DeclareStack(_, _)
        | Statement::ForEach(_, _, _)
        | Statement::Rethrow
        | Statement::Try(_, _, _)
        | Statement::Delete(_) => Ok(RegionStatement::Rethrow),
    }
}

/// The regions of statements.
#[cycle(statement)]
fn lower_all(
    alloc: Global,
    inner: u32,
    statements: &[Statement],
) -> Result<Items<RegionStatement>, AllocError>
    ensures { IfOk result (λ regions. map region_of regions ≡ map (λ a. lowered inner (step_of a)) statements.now) }
{
    let mut regions = Items::new(alloc);
    for statement in statements {
        regions.push(lower_statement(alloc, inner, statement)?)?;
    }
    Ok(regions)
}

/// The section of a Switch of a switch's section.
#[cycle(statement)]
fn lower_section(alloc: Global, inner: u32, section: &Section) -> Result<RegionSection, AllocError>
    ensures { IfOk result (λ made. bare_section made ≡ lowered_section inner section.now) }
{
    let labels = Items::from_slice(alloc, section.labels.as_slice())?;
    let body = lower_all(alloc, inner, section.body.as_slice())?;
    Ok(RegionSection { labels, body })
}

/// The sections of a Switch of a switch's sections.
#[cycle(statement)]
fn lower_sections(
    alloc: Global,
    inner: u32,
    sections: &[Section],
) -> Result<Items<RegionSection>, AllocError>
    ensures { IfOk result (λ made. map bare_section made ≡ map (lowered_section inner) sections.now) }
{
    let mut made = Items::new(alloc);
    for section in sections {
        made.push(lower_section(alloc, inner, section)?)?;
    }
    Ok(made)
}

/// One Switch more. Nobody's memory holds 2^32 of them one in the other.
fn one_more(inner: u32) -> Result<u32, AllocError>
    ensures { IfOk result (λ more. more ≡ inner + 1) }
{
    inner.checked_add(1).ok_or(AllocError)
}

fn two_boxes(
    alloc: Global,
    first: RegionStatement,
    second: RegionStatement,
) -> Result<(Box<RegionStatement>, Box<RegionStatement>), AllocError>
    ensures first { IfOk result (λ boxes. boxes.0.value ≡ first) }
    ensures second { IfOk result (λ boxes. boxes.1.value ≡ second) }
{
    let first = Box::new(alloc, first)?;
    Ok((first, Box::new(alloc, second)?))
}

/// The same condition of a loop, and what is evaluated after each turn.
fn condition_and_after(
    alloc: Global,
    condition: &Expression,
    after: &Option<Expression>,
) -> Result<(Expression, Option<Expression>), AllocError>
    ensures condition { IfOk result (λ parts. term_of parts.0 ≡ term_of condition.now) }
    ensures after { IfOk result (λ parts. option_map term_of parts.1 ≡ option_map term_of after.now) }
{
    let after = copied_if(alloc, after)?;
    Ok((copied(alloc, condition)?, after))
}
