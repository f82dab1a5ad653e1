// How many bytes the code of expressions and of regions takes.
ghost use Rattle.std.specs.Prelude.{◌≡◌, ◌<◌, ◌^◌, option_map};
ghost use Rattle.cc_core.specs.Types.{bare};
ghost use Rattle.cc_core.specs.Term.{type_of};
ghost use Rattle.cc_core.specs.Bare.{term_of};
ghost use Rattle.cc_core.specs.Lists.{terms_of};
ghost use Rattle.cc_region.specs.Bare.{exit_of, region_of};
ghost use Rattle.cc_region.specs.Lists.{regions_of, sections_of};
ghost use Rattle.cc_code.specs.Sizes as spec;

use crate::operators::{
    constant_size, conversion_size, count_size, drop_size, operator_size, unary_size, zero_size,
};
use cc_core::{CoreType, Expression, LoopKind, SwitchLabel};
use cc_numbers::is_wide;
use cc_region::{RegionExit, RegionSection, RegionStatement};

/// The type of an expression's value.
pub(crate) fn type_of(e: &Expression) -> &CoreType
    ensures { bare result.now ≡ type_of (term_of e.now) }
{
    match e {
        Expression::Number(of, _) => of,
        Expression::Literal(of, _) => of,
        Expression::Null(of) => of,
        Expression::This(of) => of,
        Expression::Local(of, _) => of,
        Expression::Field(of, _, _) => of,
        Expression::StaticField(of, _) => of,
        Expression::Element(of, _, _) => of,
        Expression::Convert(of, _) => of,
        Expression::Unary(of, _, _) => of,
        Expression::Binary(of, _, _, _) => of,
        Expression::And(of, _, _) => of,
        Expression::Or(of, _, _) => of,
        Expression::Choose(of, _, _, _) => of,
        Expression::Assign(of, _, _) => of,
        Expression::Update(of, _, _, _, _, _) => of,
        Expression::Call(of, _, _, _) => of,
        Expression::New(of, _, _, _) => of,
        Expression::NewArray(of, _, _) => of,
        Expression::ArrayOf(of, _, _) => of,
        Expression::Cast(of, _, _) => of,
        Expression::Library(of, _, _) => of,
        Expression::PlaceOf(of, _) => of,
        Expression::HandleOf(of, _) => of,
        Expression::Let(of, _, _, _) => of,
        Expression::Then(of, _, _) => of,
    }
}

/// The truth of an expression's value, behind that value.
pub(crate) fn truth_size(e: &Expression) -> u32
    ensures { result ≡ spec.truth_size (type_of (term_of e.now)) }
{
    conversion_size(type_of(e), &CoreType::Bool)
}

/// Where an expression names a variable, its load or its store.
fn variable_size(e: &Expression) -> u32
    ensures { result ≡ spec.variable_size (term_of e.now) }
{
    match e {
        Expression::Local(_, _) => 4,
        _ => 0,
    }
}

/// The code of an expression.
#[cycle(term)]
pub(crate) fn term_size(e: &Expression) -> u32
    requires { spec.term_size (term_of e.now) < 2 ^ 31 }
    ensures { result ≡ spec.term_size (term_of e.now) }
{
    match e {
        Expression::Number(of, _) => constant_size(of),
        Expression::Local(_, _) => 4,
        Expression::Convert(of, operand) => {
            term_size(operand) + conversion_size(type_of(operand), of)
        }
        Expression::Unary(_, operator, operand) => {
            term_size(operand) + unary_size(*operator, type_of(operand))
        }
        Expression::Binary(_, operator, left, right) => {
            let operands = term_size(left) + term_size(right);
            operands + count_size(*operator, type_of(right)) + operator_size(*operator)
        }
        Expression::And(_, first, second) => {
            term_size(first) + term_size(second) + truth_size(second) + 11
        }
        Expression::Or(_, first, second) => {
            term_size(first) + term_size(second) + truth_size(second) + 11
        }
        Expression::Choose(_, condition, first, second) => {
            term_size(condition) + term_size(first) + term_size(second) + 10
        }
        Expression::Assign(_, place, value) => term_size(value) + variable_size(place) + 1,
        Expression::Update(of, operator, common, _, place, operand) => {
            let access = variable_size(place) + variable_size(place);
            let before = term_size(operand) + access + conversion_size(of, common);
            let count = count_size(*operator, type_of(operand));
            before + count + operator_size(*operator) + conversion_size(common, of) + 1
        }
        Expression::Call(_, _, _, arguments) => terms_size(arguments.as_slice()) + 5,
        Expression::Library(_, _, arguments) => terms_size(arguments.as_slice()) + 5,
        Expression::Let(_, _, first, second) => term_size(first) + term_size(second) + 4,
        Expression::Then(_, first, second) => {
            term_size(first) + term_size(second) + drop_size(type_of(first))
        }
        Expression::Literal(_, _)
        | Expression::Null(_)
        | Expression::This(_)
        | Expression::Field(_, _, _)
        | Expression::StaticField(_, _)
        | Expression::Element(_, _, _)
        | Expression::New(_, _, _, _)
        | Expression::NewArray(_, _, _)
        | Expression::ArrayOf(_, _, _)
        | Expression::Cast(_, _, _)
        | Expression::PlaceOf(_, _)
        | Expression::HandleOf(_, _) => 0,
    }
}

/// The code of arguments.
#[cycle(term)]
fn terms_size(items: &[Expression]) -> u32
    requires { spec.terms_size (terms_of items.now) < 2 ^ 31 }
    ensures { result ≡ spec.terms_size (terms_of items.now) }
{
    let mut size = 0;
    for item in items {
        size += term_size(item);
    }
    size
}

/// An expression whose value is dropped.
pub(crate) fn do_size(e: &Expression) -> u32
    requires { spec.do_size (term_of e.now) < 2 ^ 31 }
    ensures { result ≡ spec.do_size (term_of e.now) }
{
    term_size(e) + drop_size(type_of(e))
}

/// What a loop does after each turn.
pub(crate) fn step_size(kind: LoopKind, after: &Option<Expression>) -> u32
    requires { spec.do_if_size (spec.step_of kind (option_map term_of after.now)) < 2 ^ 31 }
    ensures { result ≡ spec.do_if_size (spec.step_of kind (option_map term_of after.now)) }
{
    match (kind, after) {
        (LoopKind::TestFirst, Some(e)) => do_size(e),
        (LoopKind::TestFirst, None) => 0,
        (LoopKind::BodyFirst, _) => 0,
    }
}

/// The branch to the test, with which a loop begins that tests first.
pub(crate) fn entry_size(kind: LoopKind) -> u32
    ensures { result ≡ spec.entry_size kind }
{
    match kind {
        LoopKind::TestFirst => 5,
        LoopKind::BodyFirst => 0,
    }
}

/// What a variable is set to.
fn initial_size(of: &CoreType, initial: &Option<Expression>) -> u32
    requires { spec.initial_size (bare of.now) (option_map term_of initial.now) < 2 ^ 31 }
    ensures { result ≡ spec.initial_size (bare of.now) (option_map term_of initial.now) }
{
    match initial {
        Some(e) => term_size(e),
        None => zero_size(of),
    }
}

/// Whether a label may be that of an operand of this type.
pub(crate) fn is_tested(of: &CoreType, label: SwitchLabel) -> bool
    ensures { result ≡ spec.is_tested (bare of.now) label }
{
    match label {
        SwitchLabel::Case(bits) => is_wide(of) || bits < 0x1_0000_0000,
        SwitchLabel::Default => false,
    }
}

/// The test of a label.
pub(crate) fn test_size(of: &CoreType, label: SwitchLabel) -> u32
    ensures { result ≡ spec.test_size (bare of.now) label }
{
    if is_tested(of, label) {
        constant_size(of) + 9
    } else {
        0
    }
}

/// The tests of labels.
pub(crate) fn labels_size(of: &CoreType, labels: &[SwitchLabel]) -> u32
    requires { spec.labels_size (bare of.now) labels.now < 2 ^ 31 }
    ensures { result ≡ spec.labels_size (bare of.now) labels.now }
{
    let mut size = 0;
    for label in labels {
        size += test_size(of, *label);
    }
    size
}

/// The tests of the labels of sections.
pub(crate) fn tests_size(of: &CoreType, sections: &[RegionSection]) -> u32
    requires { spec.tests_size (bare of.now) (sections_of sections.now) < 2 ^ 31 }
    ensures { result ≡ spec.tests_size (bare of.now) (sections_of sections.now) }
{
    let mut size = 0;
    for section in sections {
        size += labels_size(of, section.labels.as_slice());
    }
    size
}

/// The code of an exit.
fn exit_size(exit: &RegionExit) -> u32
    requires { spec.region_size (exit_of exit.now) < 2 ^ 31 }
    ensures { result ≡ spec.region_size (exit_of exit.now) }
{
    match exit {
        RegionExit::Break(_) => 5,
        RegionExit::Continue(_) => 5,
        RegionExit::Return(None) => 1,
        RegionExit::Return(Some(e)) => term_size(e) + 1,
    }
}

/// The code of a region.
#[cycle(region)]
pub(crate) fn region_size(region: &RegionStatement) -> u32
    requires { spec.region_size (region_of region.now) < 2 ^ 31 }
    ensures { result ≡ spec.region_size (region_of region.now) }
{
    match region {
        RegionStatement::Sequence(regions) => regions_size(regions.as_slice()),
        RegionStatement::Do(e) => do_size(e),
        RegionStatement::Declare(_, of, initial) => initial_size(of, initial) + 4,
        RegionStatement::If(condition, first, second) => {
            term_size(condition) + region_size(second) + region_size(first) + 11
        }
        RegionStatement::Block(body) => region_size(body) + 1,
        RegionStatement::Switch(_, e, sections) => {
            let tests = tests_size(type_of(e), sections.as_slice());
            term_size(e) + tests + sections_size(sections.as_slice()) + 10
        }
        RegionStatement::Loop(kind, condition, after, body) => {
            let turn = entry_size(*kind) + region_size(body) + step_size(*kind, after);
            turn + term_size(condition) + 6
        }
        RegionStatement::Exit(exit) => exit_size(exit),
        RegionStatement::Guard(_, _)
        | RegionStatement::OnThrow(_, _)
        | RegionStatement::Catch(_, _)
        | RegionStatement::Finally(_, _)
        | RegionStatement::Throw(_)
        | RegionStatement::Rethrow => 0,
    }
}

/// The code of regions one after another.
#[cycle(region)]
pub(crate) fn regions_size(regions: &[RegionStatement]) -> u32
    requires { spec.regions_size (regions_of regions.now) < 2 ^ 31 }
    ensures { result ≡ spec.regions_size (regions_of regions.now) }
{
    let mut size = 0;
    for region in regions {
        size += region_size(region);
    }
    size
}

/// The code of sections one after another.
#[cycle(region)]
pub(crate) fn sections_size(sections: &[RegionSection]) -> u32
    requires { spec.sections_size (sections_of sections.now) < 2 ^ 31 }
    ensures { result ≡ spec.sections_size (sections_of sections.now) }
{
    let mut size = 0;
    for section in sections {
        size += regions_size(section.body.as_slice());
    }
    size
}
