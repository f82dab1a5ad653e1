// Which statements end, by their form.
use cc_base::Span;
use cc_terms::block_way;
use cc_tree::{Block, Expression, ForStart, Label, Section, Statement};
use sqlite_items::{Boxed, Items};
use std::alloc::{AllocError, Global};
use std::test::Fail;

const AT: Span = Span { first: 9, past: 10 };

/// Whether a block of one statement ends.
fn ends(alloc: Global, statement: Statement) -> Result<bool, AllocError> {
    let mut statements = Items::new(alloc);
    statements.push(statement)?;
    Ok(
        block_way(&Block {
            statements,
            span: AT,
        })
        .ends,
    )
}

fn while_ends(alloc: Global, condition: Expression, body: Statement) -> Result<bool, AllocError> {
    let body = Boxed::new(alloc, body)?;
    ends(alloc, Statement::While(condition, body, AT))
}

fn do_ends(alloc: Global) -> Result<bool, AllocError> {
    let body = Boxed::new(alloc, Statement::Empty(AT))?;
    ends(alloc, Statement::Do(body, Expression::True(AT), AT))
}

fn for_ends(alloc: Global) -> Result<bool, AllocError> {
    let body = Boxed::new(alloc, Statement::Empty(AT))?;
    ends(
        alloc,
        Statement::For(ForStart::Nothing, None, None, body, AT),
    )
}

/// `(true)`.
fn grouped(alloc: Global) -> Result<Expression, AllocError> {
    Ok(Expression::Group(Boxed::new(alloc, Expression::True(AT))?, AT))
}

#[test]
fn loops_end_that_nothing_ends(rt: HostRuntime) -> Result<(), Fail> {
    let alloc = rt.alloc();
    assert!(rt; while_ends(alloc, Expression::True(AT), Statement::Empty(AT))?);
    assert!(rt; !while_ends(alloc, Expression::True(AT), Statement::Break(AT))?);
    assert!(rt; !while_ends(alloc, grouped(alloc)?, Statement::Empty(AT))?);
    assert!(rt; do_ends(alloc)?);
    assert!(rt; for_ends(alloc)?);
    Ok(())
}

fn returns(alloc: Global) -> Result<Boxed<Statement>, AllocError> {
    Boxed::new(alloc, Statement::Return(None, AT))
}

/// Whether an `if` ends whose parts return.
fn if_ends(alloc: Global, has_else: bool) -> Result<bool, AllocError> {
    let first = returns(alloc)?;
    let second = if has_else {
        Some(returns(alloc)?)
    } else {
        None
    };
    ends(
        alloc,
        Statement::If(Expression::True(AT), first, second, AT),
    )
}

/// Whether a switch ends whose one section returns.
fn switch_ends(alloc: Global, label: Label) -> Result<bool, AllocError> {
    let mut labels = Items::new(alloc);
    labels.push(label)?;
    let mut statements = Items::new(alloc);
    statements.push(Statement::Return(None, AT))?;
    let mut sections = Items::new(alloc);
    sections.push(Section { labels, statements })?;
    ends(alloc, Statement::Switch(Expression::True(AT), sections, AT))
}

#[test]
fn branches_end_where_all_of_them_do(rt: HostRuntime) -> Result<(), Fail> {
    let alloc = rt.alloc();
    assert!(rt; if_ends(alloc, true)?);
    assert!(rt; !if_ends(alloc, false)?);
    assert!(rt; switch_ends(alloc, Label::Default(AT))?);
    assert!(rt; !switch_ends(alloc, Label::Case(Expression::True(AT), AT))?);
    Ok(())
}
