// Which statements end by their form (ECMA-372, 16; ISO/IEC 14882:2003, 6.6.3).
ghost use Rattle.std.specs.Prelude.{◌≡◌, ◌&&◌, ◌||◌, map, option_map};
ghost use Rattle.std.specs.List.{list_any};
ghost use Rattle.cc_terms.specs.Ends as spec;

use cc_tree::{Block, Catch, Expression, Label, Section, Statement};
use sqlite_items::{Boxed, Items};

/// How control leaves a statement, by its form alone.
#[derive(Clone, Copy, Debug, PartialEq, Eq)]
pub struct Way {
    /// Nothing directly behind the statement is reached.
    pub ends: bool,
    /// A `break` in it is aimed at something around it.
    pub breaks: bool,
}

/// A section of a switch: whether it has the label `default`, and the way of its statements.
#[derive(Clone, Copy, Debug, PartialEq, Eq)]
pub(crate) struct Branch {
    has_default: bool,
    way: Way,
}

fn told(ends: bool, breaks: bool) -> Way
    ensures { result ≡ spec.told ends breaks }
{
    Way { ends, breaks }
}

fn goes_on() -> Way
    ensures { result ≡ spec.goes_on }
{
    told(false, false)
}

/// Whether one or the other holds, both of which are known.
fn or(one: bool, other: bool) -> bool
    ensures { result ≡ (one || other) }
{
    one || other
}

/// Whether both hold, both of which are known.
fn and(one: bool, other: bool) -> bool
    ensures { result ≡ (one && other) }
{
    one && other
}

/// Either of two statements is executed.
fn either(first: Way, second: Way) -> Way
    ensures { result ≡ spec.either first second }
{
    Way {
        ends: first.ends && second.ends,
        breaks: first.breaks || second.breaks,
    }
}

/// A loop, which goes on by its form or not, with the way of its body.
fn looped(always: bool, body: Way) -> Way
    ensures { result ≡ spec.looped always body }
{
    Way {
        ends: always && !body.breaks,
        breaks: false,
    }
}

/// A guarded block, with the way of its catches and that of the block of its `finally`.
fn guarded(body: Way, catches: Way, at_last: Way) -> Way
    ensures { result ≡ spec.guarded body catches at_last }
{
    Way {
        ends: body.ends && catches.ends || at_last.ends,
        breaks: body.breaks || catches.breaks || at_last.breaks,
    }
}

/// Whether a condition is the literal `true` itself.
fn is_true(condition: &Expression) -> bool
    ensures { result ≡ spec.is_true condition.now }
{
    matches!(condition, Expression::True(_))
}

/// Whether a loop has no condition.
fn is_absent(condition: &Option<Expression>) -> bool
    ensures { result ≡ spec.is_absent condition.now }
{
    condition.is_none()
}

/// Whether a section has the label `default`.
fn has_default(labels: &[Label]) -> bool
    ensures { result ≡ list_any spec.is_default labels.now }
{
    for label in labels {
        if matches!(label, Label::Default(_)) {
            return true;
        }
    }
    false
}

#[cycle(statement)]
fn statement(statement: &Statement) -> Way
    ensures { result ≡ spec.statement_way statement.now }
{
    match statement {
        Statement::Block(block) => self::block_way(block),
        Statement::If(_, first, second, _) => {
            either(self::statement(first.get()), otherwise(second))
        }
        Statement::While(condition, body, _) => {
            looped(is_true(condition), self::statement(body.get()))
        }
        Statement::Do(body, condition, _) => {
            looped(is_true(condition), self::statement(body.get()))
        }
        Statement::For(_, condition, _, body, _) => {
            looped(is_absent(condition), self::statement(body.get()))
        }
        Statement::ForEach(_, _, _, body, _) => looped(false, self::statement(body.get())),
        Statement::Switch(_, sections, _) => switched(sections),
        Statement::Try(body, catches, at_last, _) => {
            guarded(
                self::block_way(body),
                self::catches(catches),
                last_block(at_last),
            )
        }
        Statement::Break(_) => told(false, true),
        Statement::Return(_, _) | Statement::Throw(_, _) => told(true, false),
        Statement::Empty(_)
        | Statement::Local(_, _)
        | Statement::Expression(_, _)
        | Statement::Delete(_, _)
        | Statement::Continue(_) => goes_on(),
    }
}

/// What follows an `else`.
#[cycle(statement)]
fn otherwise(second: &Option<Boxed<Statement>>) -> Way
    ensures { result ≡ spec.or_goes_on (option_map spec.statement_way second.now) }
{
    match second {
        None => goes_on(),
        Some(second) => statement(second.get()),
    }
}

/// The block of a `finally`.
#[cycle(statement)]
fn last_block(block: &Option<Block>) -> Way
    ensures { result ≡ spec.or_goes_on (option_map spec.block_way block.now) }
{
    match block {
        None => goes_on(),
        Some(block) => block_way(block),
    }
}

/// Statements in a row.
#[cycle(statement)]
fn row(statements: &[Statement]) -> Way
    ensures { result ≡ spec.row (map spec.statement_way statements.now) }
{
    let mut ends = false;
    let mut breaks = false;
    for statement in statements {
        let way = self::statement(statement);
        ends = or(ends, way.ends);
        breaks = or(breaks, way.breaks);
    }
    told(ends, breaks)
}

/// Whether control goes on behind a block, by the form of its statements.
#[cycle(statement)]
pub fn block_way(block: &Block) -> Way
    ensures { result ≡ spec.block_way block.now }
{
    row(block.statements.as_slice())
}

#[cycle(statement)]
fn one_catch(one: &Catch) -> Way
    ensures { result ≡ spec.catch_way one.now }
{
    block_way(&one.block)
}

/// The catches of a `try`, one of which is executed.
#[cycle(statement)]
fn catches(catches: &Items<Catch>) -> Way
    ensures { result ≡ spec.one_of (map spec.catch_way catches.now) }
{
    let items = catches.as_slice();
    let mut ends = true;
    let mut breaks = false;
    for one in items {
        let way = one_catch(one);
        ends = and(ends, way.ends);
        breaks = or(breaks, way.breaks);
    }
    told(ends, breaks)
}

#[cycle(statement)]
fn section(section: &Section) -> Branch
    ensures { result ≡ spec.branch_of section.now }
{
    Branch {
        has_default: has_default(section.labels.as_slice()),
        way: row(section.statements.as_slice()),
    }
}

/// The sections of a switch, at which the `break`s in it are aimed.
#[cycle(statement)]
fn switched(sections: &Items<Section>) -> Way
    ensures { result ≡ spec.switched (map spec.branch_of sections.now) }
{
    let items = sections.as_slice();
    let mut has_default = false;
    let mut breaks = false;
    let mut last = false;
    for section in items {
        let branch = self::section(section);
        has_default = or(has_default, branch.has_default);
        breaks = or(breaks, branch.way.breaks);
        last = branch.way.ends;
    }
    told(has_default && !breaks && last, false)
}
