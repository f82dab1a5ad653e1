// Statements (ECMA-372, 16).
ghost use Rattle.std.specs.Prelude.{◌≡◌, IfOk};

use crate::copied::{Copied, copied_items, copied_option};
use cc_tree::{Block, Catch, Section, Statement};
use sqlite_items::{Boxed, Items};
use std::alloc::{AllocError, Global};

#[cycle(statement)]
fn copied_statement(alloc: Global, of: &Statement) -> Result<Statement, AllocError>
    ensures { IfOk result (λ copy. copy ≡ of.now) }
{
    match of {
        Statement::Block(block) => {
            let block = copied_block(alloc, block)?;
            Ok(Statement::Block(block))
        }
        Statement::Empty(span) => Ok(Statement::Empty(*span)),
        Statement::Local(local, span) => {
            let local = local.copied(alloc)?;
            Ok(Statement::Local(local, *span))
        }
        Statement::Expression(value, span) => {
            let value = value.copied(alloc)?;
            Ok(Statement::Expression(value, *span))
        }
        Statement::Delete(value, span) => {
            let value = value.copied(alloc)?;
            Ok(Statement::Delete(value, *span))
        }
        Statement::If(condition, then, otherwise, span) => {
            let condition = condition.copied(alloc)?;
            let then = boxed_statement(alloc, then)?;
            let otherwise = optional_statement(alloc, otherwise)?;
            Ok(Statement::If(condition, then, otherwise, *span))
        }
        Statement::While(condition, body, span) => {
            let condition = condition.copied(alloc)?;
            let body = boxed_statement(alloc, body)?;
            Ok(Statement::While(condition, body, *span))
        }
        Statement::Do(body, condition, span) => {
            let body = boxed_statement(alloc, body)?;
            let condition = condition.copied(alloc)?;
            Ok(Statement::Do(body, condition, *span))
        }
        Statement::For(start, condition, step, body, span) => {
            let start = start.copied(alloc)?;
            let condition = copied_option(alloc, condition)?;
            let step = copied_option(alloc, step)?;
            let body = boxed_statement(alloc, body)?;
            Ok(Statement::For(start, condition, step, body, *span))
        }
        Statement::ForEach(of, name, over, body, span) => {
            let of = of.copied(alloc)?;
            let name = name.copied(alloc)?;
            let over = over.copied(alloc)?;
            let body = boxed_statement(alloc, body)?;
            Ok(Statement::ForEach(of, name, over, body, *span))
        }
        Statement::Switch(value, sections, span) => {
            let value = value.copied(alloc)?;
            let sections = copied_sections(alloc, sections.as_slice())?;
            Ok(Statement::Switch(value, sections, *span))
        }
        Statement::Break(span) => Ok(Statement::Break(*span)),
        Statement::Continue(span) => Ok(Statement::Continue(*span)),
        Statement::Return(value, span) => {
            let value = copied_option(alloc, value)?;
            Ok(Statement::Return(value, *span))
        }
        Statement::Throw(value, span) => {
            let value = copied_option(alloc, value)?;
            Ok(Statement::Throw(value, *span))
        }
        Statement::Try(block, catches, at_last, span) => {
            let block = copied_block(alloc, block)?;
            let catches = copied_catches(alloc, catches.as_slice())?;
            let at_last = optional_block(alloc, at_last)?;
            Ok(Statement::Try(block, catches, at_last, *span))
        }
    }
}

#[cycle(statement)]
fn boxed_statement(alloc: Global, of: &Boxed<Statement>) -> Result<Boxed<Statement>, AllocError>
    ensures { IfOk result (λ copy. copy ≡ of.now) }
{
    let copy = copied_statement(alloc, of.get())?;
    Boxed::new(alloc, copy)
}

#[cycle(statement)]
fn optional_statement(
    alloc: Global,
    of: &Option<Boxed<Statement>>,
) -> Result<Option<Boxed<Statement>>, AllocError>
    ensures { IfOk result (λ copy. copy ≡ of.now) }
{
    match of {
        None => Ok(None),
        Some(of) => {
            let copy = copied_statement(alloc, of.get())?;
            let copy = Boxed::new(alloc, copy)?;
            Ok(Some(copy))
        }
    }
}

#[cycle(statement)]
fn copied_statements(
    alloc: Global,
    statements: &[Statement],
) -> Result<Items<Statement>, AllocError>
    ensures { IfOk result (λ copy. copy ≡ statements.now) }
{
    let mut copies = Items::new(alloc);
    for statement in statements {
        copies.push(copied_statement(alloc, statement)?)?;
    }
    Ok(copies)
}

#[cycle(statement)]
fn copied_block(alloc: Global, block: &Block) -> Result<Block, AllocError>
    ensures { IfOk result (λ copy. copy ≡ block.now) }
{
    let statements = copied_statements(alloc, block.statements.as_slice())?;
    Ok(Block {
        statements,
        span: block.span,
    })
}

#[cycle(statement)]
fn optional_block(alloc: Global, block: &Option<Block>) -> Result<Option<Block>, AllocError>
    ensures { IfOk result (λ copy. copy ≡ block.now) }
{
    match block {
        None => Ok(None),
        Some(block) => {
            let copy = copied_block(alloc, block)?;
            Ok(Some(copy))
        }
    }
}

#[cycle(statement)]
fn copied_section(alloc: Global, section: &Section) -> Result<Section, AllocError>
    ensures { IfOk result (λ copy. copy ≡ section.now) }
{
    let labels = copied_items(alloc, section.labels.as_slice())?;
    let statements = copied_statements(alloc, section.statements.as_slice())?;
    Ok(Section { labels, statements })
}

#[cycle(statement)]
fn copied_sections(alloc: Global, sections: &[Section]) -> Result<Items<Section>, AllocError>
    ensures { IfOk result (λ copy. copy ≡ sections.now) }
{
    let mut copies = Items::new(alloc);
    for section in sections {
        copies.push(copied_section(alloc, section)?)?;
    }
    Ok(copies)
}

#[cycle(statement)]
fn copied_catch(alloc: Global, one: &Catch) -> Result<Catch, AllocError>
    ensures { IfOk result (λ copy. copy ≡ one.now) }
{
    let caught = one.caught.copied(alloc)?;
    let block = copied_block(alloc, &one.block)?;
    Ok(Catch { caught, block })
}

#[cycle(statement)]
fn copied_catches(alloc: Global, catches: &[Catch]) -> Result<Items<Catch>, AllocError>
    ensures { IfOk result (λ copy. copy ≡ catches.now) }
{
    let mut copies = Items::new(alloc);
    for one in catches {
        copies.push(copied_catch(alloc, one)?)?;
    }
    Ok(copies)
}

impl Copied for Block {
    fn copied(&self, alloc: Global) -> Result<Block, AllocError>
        ensures { IfOk result (λ copy. copy ≡ self.now) }
    {
        copied_block(alloc, self)
    }
}
