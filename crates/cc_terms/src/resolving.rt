// What a name means at a place of a function (ECMA-372, 10.4; ISO/IEC 14882:2003, 3.4.1 and 3.4.3).
ghost use Rattle.std.specs.Prelude.{◌≡◌, ◌<◌, ◌^◌, [], ◌∷◌, ◌++◌, cond, length, IfOk, OnOk};
ghost use Rattle.std.specs.Option.{option_copied};
ghost use Rattle.cc_operations.specs.Judgements.{judged_by, meaning_of};
ghost use Rattle.cc_terms.specs.Resolving as spec;

use crate::finder::Finder;
use cc_base::{Kind, List, Name, Span};
use cc_operations::{
    ConsoleMember, Directed, Frame, Judged, Known, Meant, Refusal, Source, Variable,
};
use cc_tree::Identifier;
use std::alloc::{AllocError, Global};

fn unknown(span: Span) -> Refusal
    ensures { spec.unknown span ≡ Err result }
{
    Refusal {
        kind: Kind::UnknownMember,
        span,
    }
}

/// Whether a namespace is around a place, or is that in which the place stands.
fn encloses(path: &[u8], here: &[u8]) -> bool
    ensures { result ≡ spec.encloses path.now here.now }
{
    here.starts_with(path)
}

/// Whether a function has a name and stands in a namespace.
fn stands_there(path: &[u8], name: &[u8], one: &Known) -> bool
    ensures { result ≡ spec.stands_there path.now name.now one.now }
{
    one.path.as_slice() == path && one.name.as_slice() == name
}

/// Whether a using directive before a place names a namespace.
fn is_directed(directed: &[Directed], at: u32, path: &[u8]) -> bool
    ensures { result ≡ spec.is_directed directed.now at path.now }
{
    for one in directed {
        if one.past <= at && one.path.as_slice() == path {
            return true;
        }
    }
    false
}

/// Whether a function has a name and stands in a namespace that a using directive before a place names.
fn comes_by(directed: &[Directed], at: u32, name: &[u8], one: &Known) -> bool
    ensures { result ≡ spec.comes_by directed.now at name.now one.now }
{
    is_directed(directed, at, one.path.as_slice()) && one.name.as_slice() == name
}

/// Adds a place where the function there passes a test.
fn add_if(places: &mut List<u32>, at: usize, passes: bool) -> Result<(), AllocError>
    requires { at < 2 ^ 32 }
    ensures { OnOk result (places.new ≡ places.old ++ cond passes (at ∷ []) []) }
{
    if passes {
        places.push(at as u32)?;
    }
    Ok(())
}

/// The functions of a name in a namespace, by their places.
fn functions_there(
    alloc: Global,
    functions: &[Known],
    path: &[u8],
    name: &[u8],
) -> Result<List<u32>, AllocError>
    requires { length functions.now < 2 ^ 32 }
    ensures { IfOk result (λ places. places ≡ spec.those (spec.stands_there path.now name.now) functions.now) }
{
    let mut places = List::new(alloc);
    for at in 0..functions.len() {
        let passes = stands_there(path, name, &functions[at]);
        add_if(&mut places, at, passes)?;
    }
    Ok(places)
}

/// The functions of a name in the namespaces that the using directives before a place name, by their places.
fn functions_by(
    alloc: Global,
    source: &Source,
    at: u32,
    name: &[u8],
) -> Result<List<u32>, AllocError>
    requires { length source.now.functions < 2 ^ 32 }
    ensures { IfOk result (λ places. places ≡ spec.those (spec.comes_by source.now.directed at name.now) source.now.functions) }
{
    let functions = source.functions.as_slice();
    let directed = source.directed.as_slice();
    let mut places = List::new(alloc);
    for place in 0..functions.len() {
        let passes = comes_by(directed, at, name, &functions[place]);
        add_if(&mut places, place, passes)?;
    }
    Ok(places)
}

/// The function whose declaration has a number.
fn numbered(number: u32, functions: &[Known]) -> Option<&Known>
    ensures { option_copied result ≡ spec.numbered number functions.now }
{
    for one in functions {
        if one.number == number {
            return Some(one);
        }
    }
    None
}

/// The candidates of a name, by their places, once one declaration of it is found.
fn candidates_by(
    alloc: Global,
    source: &Source,
    here: &[u8],
    at: u32,
    name: &[u8],
    found: Option<&Known>,
) -> Result<List<u32>, AllocError>
    requires { length source.now.functions < 2 ^ 32 }
    ensures { IfOk result (λ places. places ≡ spec.candidates_by source.now here.now at name.now (option_copied found.entry)) }
{
    match found {
        None => Ok(List::new(alloc)),
        Some(one) => {
            let path = one.path.as_slice();
            if encloses(path, here) {
                functions_there(alloc, source.functions.as_slice(), path, name)
            } else {
                functions_by(alloc, source, at, name)
            }
        }
    }
}

/// Functions at some places, or the refusal of a name of which there is none.
fn functions_or_unknown(span: Span, candidates: List<u32>) -> Judged<Meant>
    ensures { judged_by meaning_of result ≡ spec.functions_or_unknown span candidates }
{
    if candidates.is_empty() {
        return Err(unknown(span));
    }
    Ok(Meant::Functions(span, candidates))
}

/// What a name means by the declaration that is found for it.
fn by_found(
    alloc: Global,
    source: &Source,
    here: &[u8],
    span: Span,
    name: &[u8],
    found: Option<u32>,
) -> Result<Judged<Meant>, AllocError>
    requires { length source.now.functions < 2 ^ 32 }
    ensures { IfOk result (λ judged. judged_by meaning_of judged ≡ spec.by_found source.now here.now span name.now found) }
{
    match found {
        None => Ok(Err(unknown(span))),
        Some(number) => {
            let one = numbered(number, source.functions.as_slice());
            let candidates = candidates_by(alloc, source, here, span.first, name, one)?;
            Ok(functions_or_unknown(span, candidates))
        }
    }
}

/// The newest variable of a name.
fn newest<'a>(name: &[u8], variables: &'a [Variable]) -> Option<&'a Variable>
    ensures { option_copied result ≡ spec.newest name.now variables.now }
{
    let mut found = None;
    for variable in variables {
        if variable.name.as_slice() == name {
            found = Some(variable);
        }
    }
    found
}

/// The path of namespaces in one another.
fn path_of(alloc: Global, names: &[Identifier]) -> Result<Name, AllocError>
    ensures { IfOk result (λ path. path ≡ spec.path_from [] names.now) }
{
    let mut path = Vec::new(alloc);
    for name in names {
        path.extend_from_slice(name.name.as_slice())?;
        path.push(b'.')?;
    }
    Ok(List::from_vec(path))
}

/// What a name alone means, for which a variable is found or none.
fn plain<F: Finder>(
    alloc: Global,
    finder: &F,
    source: &Source,
    frame: &Frame,
    name: &Name,
    span: Span,
) -> Result<Judged<Meant>, AllocError>
    requires { length source.now.functions < 2 ^ 32 }
    ensures { IfOk result (λ judged. judged_by meaning_of judged ≡ spec.plain (F.finds finder.now) source.now frame.now name.now span (spec.newest name.now frame.now.variables)) }
{
    match newest(name.as_slice(), frame.variables.as_slice()) {
        Some(one) => Ok(Ok(Meant::Place(one.of, one.local))),
        None => {
            let found = finder.find(frame.scope, span.first, name);
            by_found(
                alloc,
                source,
                frame.path.as_slice(),
                span,
                name.as_slice(),
                found,
            )
        }
    }
}

/// What a name with the namespaces that are written before it means in a function; the span is that of the whole. A name that
/// means nothing is refused as UnknownMember.
pub(crate) fn resolved<F: Finder>(
    alloc: Global,
    finder: &F,
    source: &Source,
    frame: &Frame,
    path: &[Identifier],
    name: &Identifier,
    span: Span,
) -> Result<Judged<Meant>, AllocError>
    requires { length source.now.functions < 2 ^ 32 }
    ensures { IfOk result (λ judged. judged_by meaning_of judged ≡ spec.resolved (F.finds finder.now) source.now frame.now path.now name.now span) }
{
    if path.is_empty() {
        return plain(alloc, finder, source, frame, &name.name, span);
    }
    let path = path_of(alloc, path)?;
    let functions = source.functions.as_slice();
    let candidates = functions_there(alloc, functions, path.as_slice(), name.name.as_slice())?;
    Ok(functions_or_unknown(span, candidates))
}

/// What a name behind `System::Console` means; one that is no member is refused as UnknownMember.
pub(crate) fn console_named(name: &[u8], span: Span) -> Judged<Meant>
    ensures { judged_by meaning_of result ≡ spec.console_named name.now span }
{
    if name == b"Write".as_slice() {
        return Ok(Meant::Console(span, ConsoleMember::Write));
    }
    if name == b"WriteLine".as_slice() {
        return Ok(Meant::Console(span, ConsoleMember::WriteLine));
    }
    Err(unknown(span))
}
