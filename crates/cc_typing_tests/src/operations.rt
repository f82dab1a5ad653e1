// What operators, casts and calls make of operands of some types.
use cc_base::{Kind, List, LocalId, Span};
use cc_core::{Classes, Expression};
use cc_operations::{
    Given, Judged, Known, Meant, Source, assigned, binary, call, cast_to, conditional, constructed,
    core, named_cast, number_type, postfixed, prefixed,
};
use cc_tree::{
    AssignmentOperator, BinaryOperator, CastWord, FundamentalType, PostfixOperator, PrefixOperator,
    Radix, Suffix,
};
use std::alloc::{AllocError, Global};
use std::test::Fail;

const AT: Span = Span { first: 1, past: 2 };

fn value(of: FundamentalType) -> Given {
    Given {
        of,
        term: Expression::Number(core(of), 1),
    }
}

fn values(alloc: Global, of: FundamentalType) -> Result<List<Given>, AllocError> {
    let mut values = List::new(alloc);
    values.push(value(of))?;
    Ok(values)
}

fn type_of(judged: &Judged<Meant>) -> Option<FundamentalType> {
    match judged {
        Ok(Meant::Value(given)) => Some(given.of),
        _ => None,
    }
}

fn kind_of(judged: &Judged<Meant>) -> Option<Kind> {
    match judged {
        Err(refusal) => Some(refusal.kind),
        Ok(_) => None,
    }
}

/// The type of two operands under an operator.
fn under(
    alloc: Global,
    operator: BinaryOperator,
    left: FundamentalType,
    right: FundamentalType,
) -> Result<Option<FundamentalType>, AllocError> {
    Ok(type_of(&binary(alloc, operator, AT, value(left), value(right))?))
}

#[test]
fn numbers_have_the_first_type_that_holds_them(rt: HostRuntime) -> Result<(), Fail> {
    let decimal = Radix::Decimal;
    let hexadecimal = Radix::Hexadecimal;
    assert!(rt; number_type(2_147_483_647, Suffix::Plain, decimal) == FundamentalType::Int);
    assert!(rt; number_type(2_147_483_648, Suffix::Plain, decimal) == FundamentalType::LongLong);
    assert!(rt;
        number_type(0x8000_0000, Suffix::Plain, hexadecimal) == FundamentalType::UnsignedInt
    );
    assert!(rt;
        number_type(0x1_0000_0000, Suffix::U, decimal) == FundamentalType::UnsignedLongLong
    );
    assert!(rt; number_type(1, Suffix::Ll, hexadecimal) == FundamentalType::LongLong);
    assert!(rt; number_type(1, Suffix::Ull, Radix::Octal) == FundamentalType::UnsignedLongLong);
    Ok(())
}

#[test]
fn operators_have_the_common_type(rt: HostRuntime) -> Result<(), Fail> {
    let alloc = rt.alloc();
    let of = under(
        alloc,
        BinaryOperator::Add,
        FundamentalType::WideChar,
        FundamentalType::Bool,
    )?;
    assert!(rt; of == Some(FundamentalType::Int));
    let of = under(
        alloc,
        BinaryOperator::And,
        FundamentalType::UnsignedInt,
        FundamentalType::Int,
    )?;
    assert!(rt; of == Some(FundamentalType::UnsignedInt));
    let of = under(
        alloc,
        BinaryOperator::Less,
        FundamentalType::LongLong,
        FundamentalType::Int,
    )?;
    assert!(rt; of == Some(FundamentalType::Bool));
    let of = under(
        alloc,
        BinaryOperator::ShiftLeft,
        FundamentalType::Short,
        FundamentalType::LongLong,
    )?;
    assert!(rt; of == Some(FundamentalType::Int));
    let of = under(
        alloc,
        BinaryOperator::Add,
        FundamentalType::Void,
        FundamentalType::Int,
    )?;
    assert!(rt; of == None);
    Ok(())
}

#[test]
fn other_operators_and_casts_have_their_types(rt: HostRuntime) -> Result<(), Fail> {
    let alloc = rt.alloc();
    let short = FundamentalType::Short;
    let made = prefixed(
        alloc,
        PrefixOperator::Negate,
        AT,
        Meant::Value(value(short)),
    )?;
    assert!(rt; type_of(&made) == Some(FundamentalType::Int));
    let place = Meant::Place(short, LocalId(0));
    let made = postfixed(alloc, PostfixOperator::Increment, AT, place)?;
    assert!(rt; type_of(&made) == Some(short));
    let place = Meant::Place(short, LocalId(0));
    let made = assigned(
        alloc,
        AssignmentOperator::Add,
        AT,
        place,
        value(FundamentalType::Int),
    )?;
    assert!(rt; type_of(&made) == Some(short));
    let number = Meant::Value(value(short));
    let made = assigned(alloc, AssignmentOperator::Assign, AT, number, value(short))?;
    assert!(rt; kind_of(&made) == Some(Kind::NotAssignable));
    let test = value(FundamentalType::Bool);
    let made = conditional(
        alloc,
        AT,
        test,
        value(short),
        value(FundamentalType::UnsignedInt),
    )?;
    assert!(rt; type_of(&made) == Some(FundamentalType::UnsignedInt));
    let made = cast_to(alloc, AT, FundamentalType::Bool, value(short))?;
    assert!(rt; type_of(&made) == Some(FundamentalType::Bool));
    let made = named_cast(alloc, CastWord::Dynamic, AT, short, value(short))?;
    assert!(rt; kind_of(&made) == Some(Kind::NoConversion));
    let made = constructed(alloc, AT, FundamentalType::WideChar, values(alloc, short)?)?;
    assert!(rt; type_of(&made) == Some(FundamentalType::WideChar));
    Ok(())
}

/// A function of one parameter that gives what it takes.
fn function(alloc: Global, of: FundamentalType, number: u32) -> Result<Known, AllocError> {
    let mut parameters = List::new(alloc);
    parameters.push(of)?;
    Ok(Known {
        name: List::new(alloc),
        path: List::new(alloc),
        parameters,
        result: of,
        number,
    })
}

/// The functions at places 0 and 1.
fn both(alloc: Global) -> Result<Meant, AllocError> {
    let mut places = List::new(alloc);
    places.push(0)?;
    places.push(1)?;
    Ok(Meant::Functions(AT, places))
}

#[test]
fn calls_take_the_best_function(rt: HostRuntime) -> Result<(), Fail> {
    let alloc = rt.alloc();
    let mut functions = List::new(alloc);
    functions.push(function(alloc, FundamentalType::Int, 0)?)?;
    functions.push(function(alloc, FundamentalType::LongLong, 1)?)?;
    let source = Source {
        functions,
        directed: List::new(alloc),
        classes: Classes::new(alloc, List::new(alloc))?,
    };
    let given = values(alloc, FundamentalType::WideChar)?;
    let made = call(alloc, AT, &source, both(alloc)?, given)?;
    assert!(rt; type_of(&made) == Some(FundamentalType::Int));
    let given = values(alloc, FundamentalType::UnsignedInt)?;
    let made = call(alloc, AT, &source, both(alloc)?, given)?;
    assert!(rt; kind_of(&made) == Some(Kind::AmbiguousCall));
    let made = call(alloc, AT, &source, both(alloc)?, List::new(alloc))?;
    assert!(rt; kind_of(&made) == Some(Kind::NoOverload));
    Ok(())
}
