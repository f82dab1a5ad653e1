// Units with how much their nodes count, or with the place of the first node that makes a count pass its limit.
ghost use Rattle.std.specs.Prelude.{◌<◌, ◌+◌, ◌*◌};

use cc_base::{Kind, List, Span};
use cc_template::count_nodes;
use cc_tree::{
    Accessor, AccessorWord, AggregateWord, Block, Class, ClassKey, ClassWord, Enumeration,
    Enumerator, Expression, Function, FundamentalType, Identifier, Member, Outer, Parameters,
    PropertyName, Radix, Statement, Storage, Suffix, Template, TypeName, Unit,
};
use sqlite_items::Items;
use std::alloc::{AllocError, Global};
use std::test::Fail;

/// A place that no row asks for.
const SOMEWHERE: Span = Span { first: 1, past: 2 };

fn at(first: u32) -> Span
    requires { first < 1_000_000 }
{
    Span {
        first,
        past: first + 1,
    }
}

/// A name of one byte.
const SHORT: &[u8] = b"n";

/// A name of 32 bytes.
const LONG: &[u8] = b"nnnnnnnnnnnnnnnnnnnnnnnnnnnnnnnn";

/// A name of 60 bytes.
const LONGER: &[u8] = b"nnnnnnnnnnnnnnnnnnnnnnnnnnnnnnnnnnnnnnnnnnnnnnnnnnnnnnnnnnnn";

fn name(alloc: Global, spelling: &[u8]) -> Result<Identifier, AllocError> {
    Ok(Identifier {
        name: List::from_slice(alloc, spelling)?,
        span: SOMEWHERE,
    })
}

fn one<T: Drop>(alloc: Global, item: T) -> Result<Items<T>, AllocError> {
    let mut items = Items::new(alloc);
    items.push(item)?;
    Ok(items)
}

fn unit(alloc: Global, outer: Outer) -> Result<Unit, AllocError> {
    Ok(Unit {
        outers: one(alloc, outer)?,
        span: SOMEWHERE,
    })
}

fn int() -> TypeName {
    TypeName::Fundamental(FundamentalType::Int, SOMEWHERE)
}

fn no_parameters(alloc: Global) -> Parameters {
    Parameters {
        items: Items::new(alloc),
        span: SOMEWHERE,
    }
}

fn block(statements: Items<Statement>) -> Block {
    Block {
        statements,
        span: SOMEWHERE,
    }
}

/// `int f() { .. }`
fn function(alloc: Global, statements: Items<Statement>) -> Result<Function, AllocError> {
    Ok(Function {
        result: int(),
        name: name(alloc, SHORT)?,
        parameters: no_parameters(alloc),
        body: Some(block(statements)),
        span: SOMEWHERE,
    })
}

fn zero(first: u32) -> Expression
    requires { first < 1_000_000 }
{
    Expression::Number(0, Suffix::Plain, Radix::Octal, at(first))
}

/// `int main() {`, 9,997 times `0;`, `;` where it is asked for, and `return 0; }`: two nodes for each statement with a `0`, one
/// for a `;`, and four for the function, its type, its parameters and its block.
fn long_main(alloc: Global, has_empty: bool) -> Result<Unit, AllocError> {
    let mut statements = Items::new(alloc);
    for turn in 0..9_997u32 {
        let first = 12 + 2 * turn;
        statements.push(Statement::Expression(zero(first), at(first)))?;
    }
    if has_empty {
        statements.push(Statement::Empty(at(20_006)))?;
    }
    statements.push(Statement::Return(Some(zero(20_014)), at(20_007)))?;
    unit(alloc, Outer::Function(function(alloc, statements)?))
}

/// So many `;`, where the last stands at the given place.
fn empties(alloc: Global, count: u32, last: u32) -> Result<Items<Statement>, AllocError>
    requires { last < 1_000_000 }
{
    let mut statements = Items::new(alloc);
    for _ in 1..count {
        statements.push(Statement::Empty(SOMEWHERE))?;
    }
    statements.push(Statement::Empty(at(last)))?;
    Ok(statements)
}

fn accessor(
    alloc: Global,
    word: AccessorWord,
    statements: Items<Statement>,
) -> Result<Accessor, AllocError> {
    Ok(Accessor {
        is_virtual: false,
        of: int(),
        word,
        word_span: SOMEWHERE,
        parameters: no_parameters(alloc),
        modifiers: Items::new(alloc),
        overridden: None,
        body: Some(block(statements)),
        span: SOMEWHERE,
    })
}

fn class(alloc: Global, members: Items<Member>) -> Result<Class, AllocError> {
    Ok(Class {
        key: ClassKey {
            word: ClassWord::Ref,
            aggregate: AggregateWord::Class,
            span: SOMEWHERE,
        },
        name: name(alloc, SHORT)?,
        modifiers: Items::new(alloc),
        bases: Items::new(alloc),
        members,
        span: SOMEWHERE,
    })
}

/// A property with two accessors of so many `;`: two nodes, and four for each accessor beside its statements.
fn long_property(alloc: Global, get: u32, set: u32) -> Result<Unit, AllocError> {
    let mut accessors = Items::new(alloc);
    accessors.push(accessor(alloc, AccessorWord::Get, empties(alloc, get, 7)?)?)?;
    accessors.push(accessor(alloc, AccessorWord::Set, empties(alloc, set, 9)?)?)?;
    let property = Member::Property(
        Storage::Nothing,
        int(),
        PropertyName::Named(name(alloc, SHORT)?),
        accessors,
        SOMEWHERE,
    );
    let members = one(alloc, property)?;
    unit(alloc, Outer::Class(class(alloc, members)?))
}

/// `ref class n { int n, n, n; n() { } };`
fn class_with_constructor(alloc: Global) -> Result<Unit, AllocError> {
    let mut names = Items::new(alloc);
    names.push(name(alloc, SHORT)?)?;
    names.push(name(alloc, SHORT)?)?;
    names.push(name(alloc, SHORT)?)?;
    let mut members = Items::new(alloc);
    members.push(Member::Constructor(
        name(alloc, SHORT)?,
        no_parameters(alloc),
        Items::new(alloc),
        block(Items::new(alloc)),
        SOMEWHERE,
    ))?;
    members.push(Member::Fields(false, int(), names, SOMEWHERE))?;
    unit(alloc, Outer::Class(class(alloc, members)?))
}

fn enumerator(alloc: Global, span: Span) -> Result<Enumerator, AllocError> {
    Ok(Enumerator {
        name: name(alloc, SHORT)?,
        value: None,
        span,
    })
}

/// An enum with so many enumerators, the last at the given place.
fn enumeration(
    alloc: Global,
    spelling: &[u8],
    count: u32,
    last: u32,
) -> Result<Enumeration, AllocError>
    requires { last < 1_000_000 }
{
    let mut items = Items::new(alloc);
    for _ in 1..count {
        items.push(enumerator(alloc, SOMEWHERE)?)?;
    }
    items.push(enumerator(alloc, at(last))?)?;
    Ok(Enumeration {
        aggregate: AggregateWord::Class,
        name: name(alloc, spelling)?,
        items,
        span: SOMEWHERE,
    })
}

/// An enum in a namespace with a name of 60 bytes.
fn enum_in_namespace(alloc: Global, spelling: &[u8]) -> Result<Unit, AllocError> {
    let outers = one(
        alloc,
        Outer::Enumeration(enumeration(alloc, spelling, 1, 3)?),
    )?;
    unit(
        alloc,
        Outer::Namespace(name(alloc, LONGER)?, outers, SOMEWHERE),
    )
}

/// A function with one statement, adjacent strings of 31, 30 and three units of which the last are each a `{`.
fn strings(alloc: Global) -> Result<Unit, AllocError> {
    let mut texts = Items::new(alloc);
    texts.push(List::from_slice(alloc, &[97; 31])?)?;
    texts.push(List::from_slice(alloc, &[97; 30])?)?;
    texts.push(List::from_slice(alloc, &[123; 3])?)?;
    let value = Expression::Strings(texts, SOMEWHERE);
    let statements = one(alloc, Statement::Expression(value, SOMEWHERE))?;
    unit(alloc, Outer::Function(function(alloc, statements)?))
}

fn long_enum(alloc: Global, count: u32) -> Result<Unit, AllocError> {
    unit(
        alloc,
        Outer::Enumeration(enumeration(alloc, SHORT, count, 5)?),
    )
}

/// A template of a function that is longer than a function may be.
fn template(alloc: Global) -> Result<Unit, AllocError> {
    let function = function(alloc, empties(alloc, 30_000, 3)?)?;
    unit(
        alloc,
        Outer::Template(Template::Function(Items::new(alloc), function, SOMEWHERE)),
    )
}

/// What a unit of the table is made of.
#[derive(Clone, Copy)]
enum Case {
    Nothing,
    Template,
    /// An enum of such a name in a namespace with a name of 60 bytes.
    EnumInNamespace(&'static [u8]),
    ClassWithConstructor,
    Strings,
    /// The function of nearly 20,000 nodes, with a `;` or without.
    LongMain(bool),
    /// So many `;` in the accessors of a property.
    LongProperty(u32, u32),
    /// An enum with so many enumerators.
    LongEnum(u32),
}

fn unit_of(alloc: Global, case: &Case) -> Result<Unit, AllocError> {
    match case {
        Case::Nothing => Ok(Unit {
            outers: Items::new(alloc),
            span: SOMEWHERE,
        }),
        Case::Template => template(alloc),
        Case::EnumInNamespace(spelling) => enum_in_namespace(alloc, *spelling),
        Case::ClassWithConstructor => class_with_constructor(alloc),
        Case::Strings => strings(alloc),
        Case::LongMain(has_empty) => long_main(alloc, *has_empty),
        Case::LongProperty(get, set) => long_property(alloc, *get, *set),
        Case::LongEnum(count) => long_enum(alloc, *count),
    }
}

/// How much a unit counts, or the kind and the first byte of its refusal.
fn answer(unit: &Unit) -> Result<u32, Option<(Kind, u32)>> {
    match count_nodes(unit) {
        Ok(count) => Ok(count),
        Err(fault) => match fault.refusal() {
            Some((kind, span)) => Err(Some((kind, span.first))),
            None => Err(None),
        },
    }
}

const fn refused(first: u32) -> Result<u32, Option<(Kind, u32)>> {
    Err(Some((Kind::TooManyNodes, first)))
}

#[test]
fn nodes_are_counted_up_to_their_limits(rt: HostRuntime) -> Result<(), Fail> {
    let alloc = rt.alloc();
    let table = [
        (Case::Nothing, Ok(1)),
        (Case::Template, Ok(1)),
        (Case::EnumInNamespace(b"nn"), Ok(5)),
        (Case::EnumInNamespace(b"nnn"), Ok(6)),
        (Case::EnumInNamespace(LONG), Ok(7)),
        (Case::ClassWithConstructor, Ok(13)),
        (Case::Strings, Ok(12)),
        (Case::LongMain(false), Ok(20_001)),
        (Case::LongMain(true), refused(20_014)),
        (Case::LongProperty(9_995, 9_995), Ok(20_003)),
        (Case::LongProperty(9_995, 9_996), refused(9)),
        (Case::LongEnum(199_998), Ok(200_000)),
        (Case::LongEnum(199_999), refused(5)),
    ];
    for (case, expected) in &table {
        let unit = unit_of(alloc, case)?;
        assert!(rt; answer(&unit) == *expected);
    }
    Ok(())
}
