// How many values the evaluation stack holds at most.
ghost use Rattle.std.specs.Prelude.{◌≡◌, ◌<◌, ◌^◌, option_map};
ghost use Rattle.cc_core.specs.Types.{bare};
ghost use Rattle.cc_core.specs.Bare.{term_of};
ghost use Rattle.cc_core.specs.Lists.{terms_of};
ghost use Rattle.cc_region.specs.Bare.{exit_of, region_of};
ghost use Rattle.cc_region.specs.Lists.{regions_of, sections_of};
ghost use Rattle.cc_code.specs.Heights as spec;
ghost use Rattle.cc_code.specs.Sizes.{step_of};

use crate::sizes::type_of;
use cc_core::{CoreType, Expression, LoopKind, UnaryOperator, UpdateResult};
use cc_region::{RegionExit, RegionSection, RegionStatement};

/// How many values an expression of a type leaves.
pub(crate) fn values_of(of: &CoreType) -> u16
    ensures { result ≡ spec.values_of (bare of.now) }
{
    if matches!(of, CoreType::Void) { 0 } else { 1 }
}

fn conversion_height(to: &CoreType) -> u16
    ensures { result ≡ spec.conversion_height (bare to.now) }
{
    if matches!(to, CoreType::Bool) { 2 } else { 1 }
}

fn unary_height(operator: UnaryOperator) -> u16
    ensures { result ≡ spec.unary_height operator }
{
    match operator {
        UnaryOperator::Not => 2,
        UnaryOperator::Complement | UnaryOperator::Negate => 1,
    }
}

/// What an update keeps under its operand.
fn kept(of: UpdateResult) -> u16
    ensures { result ≡ spec.kept of }
{
    match of {
        UpdateResult::New => 1,
        UpdateResult::Old => 2,
    }
}

/// An expression.
#[cycle(term)]
fn term_height(e: &Expression) -> u16
    requires { spec.term_height (term_of e.now) < 2 ^ 16 }
    ensures { result ≡ spec.term_height (term_of e.now) }
{
    match e {
        Expression::Number(_, _) => 1,
        Expression::Local(_, _) => 1,
        Expression::Convert(of, operand) => term_height(operand).max(conversion_height(of)),
        Expression::Unary(_, operator, operand) => {
            term_height(operand).max(unary_height(*operator))
        }
        Expression::Binary(_, _, left, right) => term_height(left).max(term_height(right) + 1),
        Expression::And(_, first, second) => term_height(first).max(term_height(second).max(2)),
        Expression::Or(_, first, second) => term_height(first).max(term_height(second).max(2)),
        Expression::Choose(_, condition, first, second) => {
            term_height(condition).max(term_height(first).max(term_height(second)))
        }
        Expression::Assign(_, _, value) => term_height(value).max(2),
        Expression::Update(_, _, _, result, _, operand) => term_height(operand) + kept(*result),
        Expression::Call(of, _, _, arguments) => {
            terms_height(arguments.as_slice()).max(values_of(of))
        }
        Expression::Library(of, _, arguments) => {
            terms_height(arguments.as_slice()).max(values_of(of))
        }
        Expression::Let(_, _, first, second) => term_height(first).max(term_height(second)),
        Expression::Then(_, first, second) => term_height(first).max(term_height(second)),
        Expression::Literal(_, _)
        | Expression::Null(_)
        | Expression::This(_)
        | Expression::Field(_, _, _)
        | Expression::StaticField(_, _)
        | Expression::Element(_, _, _)
        | Expression::New(_, _, _, _)
        | Expression::NewArray(_, _, _)
        | Expression::ArrayOf(_, _, _)
        | Expression::Cast(_, _, _)
        | Expression::PlaceOf(_, _)
        | Expression::HandleOf(_, _) => 0,
    }
}

/// Arguments, each above the values of those before it.
#[cycle(term)]
fn terms_height(items: &[Expression]) -> u16
    requires { spec.terms_height (terms_of items.now) < 2 ^ 16 }
    ensures { result ≡ spec.terms_height (terms_of items.now) }
{
    let mut height = 0;
    let mut below = 0;
    for item in items {
        height = (term_height(item) + below).max(height);
        below += values_of(type_of(item));
    }
    height.max(below)
}

fn height_if(e: &Option<Expression>) -> u16
    requires { spec.height_if (option_map term_of e.now) < 2 ^ 16 }
    ensures { result ≡ spec.height_if (option_map term_of e.now) }
{
    match e {
        Some(e) => term_height(e),
        None => 0,
    }
}

/// What a loop does after each turn.
fn step_height(kind: LoopKind, after: &Option<Expression>) -> u16
    requires { spec.height_if (step_of kind (option_map term_of after.now)) < 2 ^ 16 }
    ensures { result ≡ spec.height_if (step_of kind (option_map term_of after.now)) }
{
    match kind {
        LoopKind::TestFirst => height_if(after),
        LoopKind::BodyFirst => 0,
    }
}

fn exit_height(exit: &RegionExit) -> u16
    requires { spec.region_height (exit_of exit.now) < 2 ^ 16 }
    ensures { result ≡ spec.region_height (exit_of exit.now) }
{
    match exit {
        RegionExit::Break(_) => 0,
        RegionExit::Continue(_) => 0,
        RegionExit::Return(e) => height_if(e),
    }
}

/// A region.
#[cycle(region)]
pub(crate) fn region_height(region: &RegionStatement) -> u16
    requires { spec.region_height (region_of region.now) < 2 ^ 16 }
    ensures { result ≡ spec.region_height (region_of region.now) }
{
    match region {
        RegionStatement::Sequence(regions) => regions_height(regions.as_slice()),
        RegionStatement::Do(e) => term_height(e),
        RegionStatement::Declare(_, _, initial) => height_if(initial).max(1),
        RegionStatement::If(condition, first, second) => {
            let parts = region_height(first).max(region_height(second));
            term_height(condition).max(parts)
        }
        RegionStatement::Block(body) => region_height(body),
        RegionStatement::Switch(_, e, sections) => {
            term_height(e)
                .max(2)
                .max(sections_height(sections.as_slice()))
        }
        RegionStatement::Loop(kind, condition, after, body) => {
            let turn = step_height(*kind, after).max(region_height(body));
            term_height(condition).max(turn)
        }
        RegionStatement::Exit(exit) => exit_height(exit),
        RegionStatement::Guard(_, _)
        | RegionStatement::OnThrow(_, _)
        | RegionStatement::Catch(_, _)
        | RegionStatement::Finally(_, _)
        | RegionStatement::Throw(_)
        | RegionStatement::Rethrow => 0,
    }
}

/// Regions one after another.
#[cycle(region)]
fn regions_height(regions: &[RegionStatement]) -> u16
    requires { spec.regions_height (regions_of regions.now) < 2 ^ 16 }
    ensures { result ≡ spec.regions_height (regions_of regions.now) }
{
    let mut height = 0;
    for region in regions {
        height = region_height(region).max(height);
    }
    height
}

/// Sections one after another.
#[cycle(region)]
fn sections_height(sections: &[RegionSection]) -> u16
    requires { spec.sections_height (sections_of sections.now) < 2 ^ 16 }
    ensures { result ≡ spec.sections_height (sections_of sections.now) }
{
    let mut height = 0;
    for section in sections {
        height = regions_height(section.body.as_slice()).max(height);
    }
    height
}
