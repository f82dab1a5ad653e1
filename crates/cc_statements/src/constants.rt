// Constants (ISO/IEC 14882:2003, 5.19).
ghost use Rattle.std.specs.Prelude.{◌≡◌, Some};
ghost use Rattle.cc_core.specs.Bare.{term_of};
ghost use Rattle.cc_core.specs.Numbers as numbers;
ghost use Rattle.cc_core.specs.Term.{type_of};
ghost use Rattle.cc_core.specs.Types.{bare};
ghost use Rattle.cc_core.specs.Value as value;
ghost use Rattle.cc_statements.specs.Constants as spec;

use cc_core::{Computed, CoreType, Expression as Term, Operator, UnaryOperator, Value};
use cc_numbers::{computed, computed_alone, converted, is_signed, is_true, is_wide, truth};

/// The value of a typed term that is a constant.
pub(crate) fn constant_value(term: &Term) -> Option<Value>
    ensures { result ≡ spec.constant_value (term_of term.now) }
{
    match term {
        Term::Number(of, n) => Some(constant(of, *n)),
        Term::Convert(to, x) => converted_if(type_of(x), to, constant_value(x)),
        Term::Unary(_, operator, x) => alone(*operator, constant_value(x)),
        Term::Binary(_, operator, left, right) => {
            operate(
                type_of(left),
                *operator,
                constant_value(left),
                constant_value(right),
            )
        }
        Term::And(_, first, second) => both(constant_value(first), constant_value(second)),
        Term::Or(_, first, second) => either(constant_value(first), constant_value(second)),
        _ => None,
    }
}

/// The bits of a number.
pub(crate) fn bits(value: Option<Value>) -> Option<u64>
    ensures { result ≡ spec.and_then value spec.bits }
{
    match value {
        None => None,
        Some(Value::Int32(n)) => Some(u64::from(n)),
        Some(Value::Int64(n)) => Some(n),
        Some(_) => None,
    }
}

/// A constant of a type.
fn constant(of: &CoreType, n: u64) -> Value
    ensures { result ≡ value.constant (bare of.now) n }
{
    if is_wide(of) {
        Value::Int64(n)
    } else {
        Value::Int32((n % 0x1_0000_0000) as u32)
    }
}

/// A value that there is, converted.
pub(crate) fn converted_if(from: &CoreType, to: &CoreType, value: Option<Value>) -> Option<Value>
    ensures { result ≡ spec.and_then value (numbers.converted (bare from.now) (bare to.now)) }
{
    match value {
        None => None,
        Some(value) => converted(from, to, &value),
    }
}

fn alone(operator: UnaryOperator, value: Option<Value>) -> Option<Value>
    ensures { result ≡ spec.and_then value (numbers.computed_alone operator) }
{
    match value {
        None => None,
        Some(value) => computed_alone(operator, &value),
    }
}

fn divides(operator: Operator) -> bool
    ensures { result ≡ spec.divides operator }
{
    matches!(operator, Operator::Divide | Operator::Remainder)
}

/// Whether it is 0, or -1 of a type with a sign.
fn is_edge(signed: bool, value: &Value) -> bool
    ensures { result ≡ spec.is_edge signed value.now }
{
    match value {
        Value::Int32(n) => *n == 0 || (signed && *n == u32::MAX),
        Value::Int64(n) => *n == 0 || (signed && *n == u64::MAX),
        _ => false,
    }
}

fn given_by(made: Option<Computed>) -> Option<Value>
    ensures { result ≡ spec.gives_value made }
{
    match made {
        Some(Computed::Gives(value)) => Some(value),
        Some(Computed::Throws(_)) => None,
        None => None,
    }
}

fn operate(
    of: &CoreType,
    operator: Operator,
    left: Option<Value>,
    right: Option<Value>,
) -> Option<Value>
    ensures { result ≡ spec.operate (bare of.now) operator left right }
{
    match left {
        None => None,
        Some(left) => match right {
            None => None,
            Some(right) => operate_on(of, operator, &left, &right),
        },
    }
}

fn operate_on(of: &CoreType, operator: Operator, left: &Value, right: &Value) -> Option<Value>
    ensures { result ≡ spec.operate (bare of.now) operator (Some left.now) (Some right.now) }
{
    if divides(operator) && is_edge(is_signed(of), right) {
        return None;
    }
    given_by(computed(of, operator, left, right))
}

fn both(first: Option<Value>, second: Option<Value>) -> Option<Value>
    ensures { result ≡ spec.both first second }
{
    match first {
        None => None,
        Some(first) => match second {
            None => None,
            Some(second) => Some(truth(is_true(&first) && is_true(&second))),
        },
    }
}

fn either(first: Option<Value>, second: Option<Value>) -> Option<Value>
    ensures { result ≡ spec.either first second }
{
    match first {
        None => None,
        Some(first) => match second {
            None => None,
            Some(second) => Some(truth(is_true(&first) || is_true(&second))),
        },
    }
}

/// The type of a term's value.
fn type_of(term: &Term) -> &CoreType
    ensures { bare result.now ≡ type_of (term_of term.now) }
{
    match term {
        Term::Number(of, _) => of,
        Term::Literal(of, _) => of,
        Term::Null(of) => of,
        Term::This(of) => of,
        Term::Local(of, _) => of,
        Term::Field(of, _, _) => of,
        Term::StaticField(of, _) => of,
        Term::Element(of, _, _) => of,
        Term::Convert(of, _) => of,
        Term::Unary(of, _, _) => of,
        Term::Binary(of, _, _, _) => of,
        Term::And(of, _, _) => of,
        Term::Or(of, _, _) => of,
        Term::Choose(of, _, _, _) => of,
        Term::Assign(of, _, _) => of,
        Term::Update(of, _, _, _, _, _) => of,
        Term::Call(of, _, _, _) => of,
        Term::New(of, _, _, _) => of,
        Term::NewArray(of, _, _) => of,
        Term::ArrayOf(of, _, _) => of,
        Term::Cast(of, _, _) => of,
        Term::Library(of, _, _) => of,
        Term::PlaceOf(of, _) => of,
        Term::HandleOf(of, _) => of,
        Term::Let(of, _, _, _) => of,
        Term::Then(of, _, _) => of,
    }
}
