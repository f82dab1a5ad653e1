// Calls of functions and of members of the console (ECMA-372, 14.1 and 15.3.3).
ghost use Rattle.std.specs.Prelude.{◌≡◌, ◌<◌, ◌^◌, length, map, nat_lt, option_map, slice_get, IfOk, Some, List};
ghost use Rattle.cc_core.specs.Lists.{terms_of};
ghost use Rattle.cc_core.specs.Term as term;
ghost use Rattle.cc_core.specs.declared.tree.Dispatch.TheVariants.{Direct};
ghost use Rattle.cc_tree.specs.declared.type_name.FundamentalType.TheVariants as f;
ghost use Rattle.cc_operations.specs.Choosing.{Types, Pick, Chooses, taken, given_types, signature_of, signatures_of};
ghost use Rattle.cc_operations.specs.Judgements.{judged_by, value_of, values_of, meaning_of};
ghost use Rattle.cc_operations.specs.Numbers as numbers;
ghost use Rattle.cc_operations.specs.Operations as spec;

use crate::judged::{ConsoleMember, Given, Judged, Meant, Refusal};
use crate::numbers::core;
use crate::operators::{convert, no_conversion};
use crate::source::{Known, Source};
use cc_base::{Kind, List, MethodId, Span};
use cc_convert::{Choice, Signature, choose};
use cc_core::{Classes, CoreType, Dispatch, Expression, LibraryCall, Printed};
use cc_tree::FundamentalType;
use sqlite_items::Items;
use std::alloc::{AllocError, Global};

/// The greatest number of arguments.
const MOST_ARGUMENTS: usize = 250;

/// Types as types of typed terms.
fn core_types(alloc: Global, types: &[FundamentalType]) -> Result<List<CoreType>, AllocError>
    ensures { IfOk result (λ made. made ≡ given_types types.now) }
{
    let mut made = Vec::new(alloc);
    for of in types {
        made.push(core(*of))?;
    }
    Ok(List::from_vec(made))
}

/// A function with these parameters as one that a call may take.
fn signature(alloc: Global, types: &[FundamentalType]) -> Result<Signature, AllocError>
    ensures { IfOk result (λ made. made ≡ signature_of types.now) }
{
    Ok(Signature {
        parameters: core_types(alloc, types)?,
    })
}

/// The types of some values.
fn types_of(alloc: Global, values: &[Given]) -> Result<List<CoreType>, AllocError>
    ensures { IfOk result (λ types. types ≡ given_types (spec.types_of (map value_of values.now))) }
{
    let mut types = Vec::new(alloc);
    for value in values {
        types.push(core(value.of))?;
    }
    Ok(List::from_vec(types))
}

/// The candidate that a call takes, by its place among them, which is refused where there is none and where it is open.
fn pick(candidates: &[Signature], given: &[CoreType], classes: &Classes, span: Span) -> Judged<u32>
    requires few { length candidates.now < 2 ^ 32 }
    ensures { (choice : Pick) → Chooses classes.now choice → (parameters : List Types) (arguments : Types) → candidates.now ≡ signatures_of parameters → given.now ≡ given_types arguments → result ≡ taken (choice parameters arguments) span }
{
    taken(choose(candidates, given, classes), span)
}

/// The candidate of a choice.
fn taken(choice: Choice, span: Span) -> Judged<u32>
    ensures { result ≡ taken choice span }
{
    match choice {
        Choice::One(best) => Ok(best),
        Choice::None => Err(Refusal {
            kind: Kind::NoOverload,
            span,
        }),
        Choice::Tie(_, _) => Err(Refusal {
            kind: Kind::AmbiguousCall,
            span,
        }),
    }
}

/// The arguments of a call, each converted for its parameter.
#[tactic(auto, using(crate::proofs::Arguments::passed_ends))]
fn passed(
    alloc: Global,
    types: &[FundamentalType],
    values: List<Given>,
) -> Result<Items<Expression>, AllocError>
    ensures { IfOk result (λ made. terms_of made ≡ spec.passed types.now (values_of values)) }
{
    let mut values = values.into_vec();
    values.reverse();
    let mut rest = Items::from_vec(values);
    let mut made = Items::new(alloc);
    for of in types {
        let Some(value) = rest.pop() else {
            return Ok(made);
        };
        let given = convert(alloc, *of, value)?;
        made.push(given.term)?;
    }
    Ok(made)
}

/// Whether there are more arguments than a call may have.
#[tactic(auto, using(crate::proofs::Arguments::counted))]
fn are_too_many(values: &[Given]) -> bool
    ensures { result ≡ nat_lt 250 (length (map value_of values.now)) }
{
    MOST_ARGUMENTS < values.len()
}

/// A call of a function with converted arguments.
fn call_term(of: FundamentalType, at: u32, arguments: Items<Expression>) -> Given
    ensures { value_of result ≡ spec.valued_as of (term.Call (numbers.core of) (spec.method_at at) Direct (terms_of arguments)) }
{
    Given {
        of,
        term: Expression::Call(core(of), MethodId(at), Dispatch::Direct, arguments),
    }
}

/// A call of a function with its arguments.
fn call_of(
    alloc: Global,
    span: Span,
    at: u32,
    function: &Known,
    values: List<Given>,
) -> Result<Judged<Meant>, AllocError>
    ensures { IfOk result (λ judged. judged_by meaning_of judged ≡ spec.call_of span at (Some function.now) (values_of values)) }
{
    if are_too_many(values.as_slice()) {
        return Ok(Err(Refusal {
            kind: Kind::TooManyArguments,
            span,
        }));
    }
    let arguments = passed(alloc, function.parameters.as_slice(), values)?;
    Ok(Ok(Meant::Value(call_term(function.result, at, arguments))))
}

/// A call of the function at a place, if there is one.
fn call_at(
    alloc: Global,
    span: Span,
    functions: &[Known],
    at: Option<u32>,
    values: List<Given>,
) -> Result<Judged<Meant>, AllocError>
    ensures { IfOk result (λ judged. judged_by meaning_of judged ≡ spec.call_at span functions.now (values_of values) at) }
{
    match at {
        None => Ok(Err(no_conversion(span))),
        Some(at) => match functions.get(at as usize) {
            None => Ok(Err(no_conversion(span))),
            Some(function) => call_of(alloc, span, at, function, values),
        },
    }
}

/// The parameters of the function at a place, none where there is no function.
fn parameters_at(functions: &[Known], at: u32) -> &[FundamentalType]
    ensures { result.now ≡ spec.parameters_at functions.now at }
{
    match functions.get(at as usize) {
        None => &[],
        Some(one) => one.parameters.as_slice(),
    }
}

/// The functions at some places as those that a call may take.
fn signatures_at(
    alloc: Global,
    functions: &[Known],
    places: &[u32],
) -> Result<List<Signature>, AllocError>
    ensures { IfOk result (λ made. made ≡ signatures_of (map (spec.parameters_at functions.now) places.now)) }
{
    let mut made = Vec::new(alloc);
    for at in places {
        made.push(signature(alloc, parameters_at(functions, *at))?)?;
    }
    Ok(List::from_vec(made))
}

/// A call of one of some functions.
fn called(
    alloc: Global,
    span: Span,
    source: &Source,
    candidates: &[u32],
    values: List<Given>,
) -> Result<Judged<Meant>, AllocError>
    ensures { IfOk result (λ judged. (choice : Pick) → Chooses source.now.classes choice → judged_by meaning_of judged ≡ spec.called choice span source.now.functions candidates.now (values_of values)) }
{
    let functions = source.functions.as_slice();
    let signatures = signatures_at(alloc, functions, candidates)?;
    let given = types_of(alloc, values.as_slice())?;
    if u32::try_from(signatures.len()).is_err() {
        return Err(AllocError);
    }
    match pick(
        signatures.as_slice(),
        given.as_slice(),
        &source.classes,
        span,
    ) {
        Ok(best) => {
            let at = sqlite_items::at(candidates, best as usize).copied();
            call_at(alloc, span, functions, at, values)
        }
        Err(refusal) => Ok(Err(refusal)),
    }
}

/// What `Write` of the console prints, with the types that its functions take, in order of declaration.
const WRITE: [(LibraryCall, &[FundamentalType]); 6] = [
    (LibraryCall::Write(Printed::I32), &[FundamentalType::Int]),
    (
        LibraryCall::Write(Printed::U32),
        &[FundamentalType::UnsignedInt],
    ),
    (
        LibraryCall::Write(Printed::I64),
        &[FundamentalType::LongLong],
    ),
    (
        LibraryCall::Write(Printed::U64),
        &[FundamentalType::UnsignedLongLong],
    ),
    (LibraryCall::Write(Printed::Bool), &[FundamentalType::Bool]),
    (
        LibraryCall::Write(Printed::Char),
        &[FundamentalType::WideChar],
    ),
];

/// The same of `WriteLine`.
const WRITE_LINE: [(LibraryCall, &[FundamentalType]); 7] = [
    (LibraryCall::WriteEmptyLine, &[]),
    (
        LibraryCall::WriteLine(Printed::I32),
        &[FundamentalType::Int],
    ),
    (
        LibraryCall::WriteLine(Printed::U32),
        &[FundamentalType::UnsignedInt],
    ),
    (
        LibraryCall::WriteLine(Printed::I64),
        &[FundamentalType::LongLong],
    ),
    (
        LibraryCall::WriteLine(Printed::U64),
        &[FundamentalType::UnsignedLongLong],
    ),
    (
        LibraryCall::WriteLine(Printed::Bool),
        &[FundamentalType::Bool],
    ),
    (
        LibraryCall::WriteLine(Printed::Char),
        &[FundamentalType::WideChar],
    ),
];

/// The functions of a member of the console.
fn console_rows(member: ConsoleMember) -> &'static [(LibraryCall, &'static [FundamentalType])]
    ensures { map (λ row. (row.0, row.1.now)) result.now ≡ spec.console_rows member }
{
    match member {
        ConsoleMember::Write => WRITE.as_slice(),
        ConsoleMember::WriteLine => WRITE_LINE.as_slice(),
    }
}

/// The functions of some rows as those that a call may take.
fn signatures_in(
    alloc: Global,
    rows: &[(LibraryCall, &[FundamentalType])],
) -> Result<List<Signature>, AllocError>
    ensures { IfOk result (λ made. made ≡ signatures_of (map (λ row. row.1.now) rows.now)) }
{
    let mut made = Vec::new(alloc);
    for row in rows {
        made.push(signature(alloc, row.1)?)?;
    }
    Ok(List::from_vec(made))
}

/// The functions of a member of the console as those that a call may take.
fn console_signatures(alloc: Global, member: ConsoleMember) -> Result<List<Signature>, AllocError>
    ensures { IfOk result (λ made. made ≡ signatures_of (map (λ row. row.1) (spec.console_rows member))) }
{
    signatures_in(alloc, console_rows(member))
}

/// The function at a place among those of a member of the console.
fn console_row(member: ConsoleMember, at: u32) -> Option<(LibraryCall, &'static [FundamentalType])>
    ensures { option_map (λ row. (row.0, row.1.now)) result ≡ slice_get (spec.console_rows member) at }
{
    sqlite_items::at(console_rows(member), at as usize).copied()
}

/// A call of a member of the library with converted arguments.
fn library_term(call: LibraryCall, arguments: Items<Expression>) -> Given
    ensures { value_of result ≡ spec.valued_as f.Void (term.Library (numbers.core f.Void) call (terms_of arguments)) }
{
    Given {
        of: FundamentalType::Void,
        term: Expression::Library(core(FundamentalType::Void), call, arguments),
    }
}

/// A call of a member of the library, if there is one.
fn library_call(
    alloc: Global,
    span: Span,
    row: Option<(LibraryCall, &'static [FundamentalType])>,
    values: List<Given>,
) -> Result<Judged<Meant>, AllocError>
    ensures { IfOk result (λ judged. judged_by meaning_of judged ≡ spec.library_call span (option_map (λ row. (row.0, row.1.now)) row.entry) (values_of values)) }
{
    match row {
        None => Ok(Err(no_conversion(span))),
        Some((call, types)) => {
            let arguments = passed(alloc, types, values)?;
            Ok(Ok(Meant::Value(library_term(call, arguments))))
        }
    }
}

/// A call of a member of the console.
fn console_called(
    alloc: Global,
    span: Span,
    classes: &Classes,
    member: ConsoleMember,
    values: List<Given>,
) -> Result<Judged<Meant>, AllocError>
    ensures { IfOk result (λ judged. (choice : Pick) → Chooses classes.now choice → judged_by meaning_of judged ≡ spec.console_called choice span member (values_of values)) }
{
    let signatures = console_signatures(alloc, member)?;
    let given = types_of(alloc, values.as_slice())?;
    if u32::try_from(signatures.len()).is_err() {
        return Err(AllocError);
    }
    match pick(signatures.as_slice(), given.as_slice(), classes, span) {
        Ok(best) => library_call(alloc, span, console_row(member, best), values),
        Err(refusal) => Ok(Err(refusal)),
    }
}

/// A call of what an expression means.
pub fn call(
    alloc: Global,
    span: Span,
    source: &Source,
    callee: Meant,
    values: List<Given>,
) -> Result<Judged<Meant>, AllocError>
    ensures { IfOk result (λ judged. (choice : Pick) → Chooses source.now.classes choice → judged_by meaning_of judged ≡ spec.call choice span source.now.functions (meaning_of callee) (values_of values)) }
{
    match callee {
        Meant::Value(_) => Ok(Err(no_conversion(span))),
        Meant::Place(_, _) => Ok(Err(no_conversion(span))),
        Meant::Functions(_, candidates) => {
            called(alloc, span, source, candidates.as_slice(), values)
        }
        Meant::Console(_, member) => {
            console_called(alloc, span, &source.classes, member, values)
        }
    }
}
