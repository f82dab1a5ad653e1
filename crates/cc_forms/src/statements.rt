// Statements that are built (ECMA-372, 16).
ghost use Rattle.std.specs.Prelude.{◌≡◌, map};
ghost use Rattle.cc_forms.specs.Forms.{found, first_of, optional_of, declarator_form, local_form, start_form, label_form, statement_form, block_form, section_form};

use crate::expressions::{expression, optional_expression};
use crate::types::type_name;
use cc_base::Span;
use cc_tree::{Block, Declarator, ForStart, Initializer, Label, Local, Section, Statement};
use sqlite_items::{Boxed, Items};

fn declarator(declarator: &Declarator) -> Result<(), Span>
    ensures { found result ≡ declarator_form declarator.now }
{
    match &declarator.initializer {
        Initializer::Nothing => Ok(()),
        Initializer::Value(value) => expression(value),
        Initializer::Elements(_) => Err(declarator.span),
        Initializer::Arguments(_) => Err(declarator.span),
    }
}

fn declarators(declarators: &[Declarator]) -> Result<(), Span>
    ensures { found result ≡ first_of (map declarator_form declarators.now) }
{
    'declarators: for declarator in declarators {
        self::declarator(declarator)?;
    }
    Ok(())
}

fn local(local: &Local) -> Result<(), Span>
    ensures { found result ≡ local_form local.now }
{
    type_name(&local.of)?;
    declarators(local.declarators.as_slice())
}

fn label(label: &Label) -> Result<(), Span>
    ensures { found result ≡ label_form label.now }
{
    match label {
        Label::Case(value, _) => expression(value),
        Label::Default(_) => Ok(()),
    }
}

fn labels(labels: &[Label]) -> Result<(), Span>
    ensures { found result ≡ first_of (map label_form labels.now) }
{
    'labels: for label in labels {
        self::label(label)?;
    }
    Ok(())
}

fn for_start(start: &ForStart) -> Result<(), Span>
    ensures { found result ≡ start_form start.now }
{
    match start {
        ForStart::Nothing => Ok(()),
        ForStart::Local(local) => self::local(local),
        ForStart::Expression(value) => expression(value),
    }
}

#[cycle(statement)]
fn statement(statement: &Statement) -> Result<(), Span>
    ensures { found result ≡ statement_form statement.now }
{
    match statement {
        Statement::Block(block) => self::block(block),
        Statement::Local(local, _) => self::local(local),
        Statement::Expression(value, _) => expression(value),
        Statement::If(condition, first, second, _) => {
            expression(condition)?;
            self::statement(first.get())?;
            optional_statement(second)
        }
        Statement::While(condition, body, _) => {
            expression(condition)?;
            self::statement(body.get())
        }
        Statement::Do(body, condition, _) => {
            self::statement(body.get())?;
            expression(condition)
        }
        Statement::For(start, condition, advance, body, _) => {
            for_start(start)?;
            optional_expression(condition)?;
            optional_expression(advance)?;
            self::statement(body.get())
        }
        Statement::Switch(value, sections, _) => {
            expression(value)?;
            self::sections(sections)
        }
        Statement::Return(value, _) => optional_expression(value),
        Statement::Empty(_) | Statement::Break(_) | Statement::Continue(_) => Ok(()),
        Statement::Delete(_, span)
        | Statement::ForEach(_, _, _, _, span)
        | Statement::Throw(_, span)
        | Statement::Try(_, _, _, span) => Err(*span),
    }
}

#[cycle(statement)]
fn optional_statement(statement: &Option<Boxed<Statement>>) -> Result<(), Span>
    ensures { found result ≡ optional_of statement_form statement.now }
{
    match statement {
        None => Ok(()),
        Some(statement) => self::statement(statement.get()),
    }
}

#[cycle(statement)]
fn statements(statements: &[Statement]) -> Result<(), Span>
    ensures { found result ≡ first_of (map statement_form statements.now) }
{
    'statements: for statement in statements {
        self::statement(statement)?;
    }
    Ok(())
}

#[cycle(statement)]
pub(crate) fn block(block: &Block) -> Result<(), Span>
    ensures { found result ≡ block_form block.now }
{
    statements(block.statements.as_slice())
}

#[cycle(statement)]
fn section(section: &Section) -> Result<(), Span>
    ensures { found result ≡ section_form section.now }
{
    labels(section.labels.as_slice())?;
    statements(section.statements.as_slice())
}

#[cycle(statement)]
fn sections(sections: &Items<Section>) -> Result<(), Span>
    ensures { found result ≡ first_of (map section_form sections.now) }
{
    let items = sections.as_slice();
    'sections: for section in items {
        self::section(section)?;
    }
    Ok(())
}
