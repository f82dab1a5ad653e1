// What stands in the namespaces of a source, in order of place (ECMA-372, 10 and 25; ISO/IEC 14882:2003, 7.3).
ghost use Rattle.std.specs.Prelude.{◌≡◌, [], ◌∷◌, ◌++◌, map, OnOk, IfOk};
ghost use Rattle.cc_terms.specs.Resolving as resolving;
ghost use Rattle.cc_typing.specs.Told as held;
ghost use Rattle.cc_typing_laws.specs.Contents as spec;

use cc_base::{List, Name, Span};
use cc_operations::Directed;
use cc_tree::{Block, Function, Identifier, Outer, Unit};
use std::alloc::{AllocError, Global};

/// A function with a body, and the path of the namespaces around it: their names from the outermost in, each with a `.`
/// behind it.
#[derive(Drop)]
pub(crate) struct Placed<'a> {
    pub(crate) path: Name,
    pub(crate) function: &'a Function,
    pub(crate) body: &'a Block,
}

/// The path of a namespace in another one.
fn within(alloc: Global, path: &[u8], name: &[u8]) -> Result<Name, AllocError>
    ensures { IfOk result (λ inner. inner ≡ resolving.within path.now name.now) }
{
    let mut inner = Vec::from_slice(alloc, path)?;
    inner.extend_from_slice(name)?;
    inner.push(b'.')?;
    Ok(List::from_vec(inner))
}

/// Adds a function, if it has a body.
fn add_function<'a>(
    all: &mut Vec<Placed<'a>>,
    alloc: Global,
    path: &[u8],
    function: &'a Function,
) -> Result<(), AllocError>
    ensures { OnOk result (held.told_all all.new.items ≡ held.told_all all.old.items ++ spec.placed function.now function.now.body path.now) }
{
    match &function.body {
        None => Ok(()),
        Some(body) => {
            let path = List::from_slice(alloc, path)?;
            all.push(Placed {
                path,
                function,
                body,
            })?;
            Ok(())
        }
    }
}

/// Adds the functions of a declaration outside classes.
#[cycle(functions)]
fn add_functions<'a>(
    all: &mut Vec<Placed<'a>>,
    alloc: Global,
    path: &[u8],
    outer: &'a Outer,
) -> Result<(), AllocError>
    ensures { OnOk result (held.told_all all.new.items ≡ held.told_all all.old.items ++ spec.functions_of outer.now path.now) }
{
    match outer {
        Outer::Namespace(name, outers, _) => {
            let inner = within(alloc, path, name.name.as_slice())?;
            add_all_functions(all, alloc, inner.as_slice(), outers.as_slice())
        }
        Outer::Function(function) => add_function(all, alloc, path, function),
        Outer::Using(_, _)
        | Outer::Class(_)
        | Outer::Enumeration(_)
        | Outer::VisibleClass(_, _, _)
        | Outer::VisibleEnumeration(_, _, _)
        | Outer::Forward(_, _, _)
        | Outer::Template(_) => Ok(()),
    }
}

/// Adds the functions of declarations outside classes, in a row.
#[cycle(functions)]
fn add_all_functions<'a>(
    all: &mut Vec<Placed<'a>>,
    alloc: Global,
    path: &[u8],
    outers: &'a [Outer],
) -> Result<(), AllocError>
    ensures { OnOk result (held.told_all all.new.items ≡ held.told_all all.old.items ++ spec.in_order (map spec.functions_of outers.now) path.now) }
{
    for outer in outers {
        add_functions(all, alloc, path, outer)?;
    }
    Ok(())
}

/// The functions of a unit that have a body.
pub(crate) fn functions_in(alloc: Global, unit: &Unit) -> Result<Vec<Placed<'_>>, AllocError>
    ensures { IfOk result (λ all. held.told_all all.items ≡ spec.functions unit.now) }
{
    let mut all = Vec::new(alloc);
    add_all_functions(&mut all, alloc, &[], unit.outers.as_slice())?;
    Ok(all)
}

/// The path of some names in a row.
fn path_of(alloc: Global, names: &[Identifier]) -> Result<Name, AllocError>
    ensures { IfOk result (λ path. path ≡ resolving.path_from [] names.now) }
{
    let mut path = Vec::new(alloc);
    for name in names {
        path.extend_from_slice(name.name.as_slice())?;
        path.push(b'.')?;
    }
    Ok(List::from_vec(path))
}

/// Adds a using directive.
fn add_directive(
    all: &mut List<Directed>,
    alloc: Global,
    names: &[Identifier],
    span: Span,
) -> Result<(), AllocError>
    ensures { OnOk result (all.new ≡ all.old ++ spec.directive names.now span ∷ []) }
{
    let path = path_of(alloc, names)?;
    all.push(Directed {
        path,
        past: span.past,
    })?;
    Ok(())
}

/// Adds the using directives of a declaration outside classes.
#[cycle(directed)]
fn add_directed(all: &mut List<Directed>, alloc: Global, outer: &Outer) -> Result<(), AllocError>
    ensures { OnOk result (all.new ≡ all.old ++ spec.directed_of outer.now) }
{
    match outer {
        Outer::Using(names, span) => add_directive(all, alloc, names.as_slice(), *span),
        Outer::Namespace(_, outers, _) => add_all_directed(all, alloc, outers.as_slice()),
        Outer::Class(_)
        | Outer::Enumeration(_)
        | Outer::VisibleClass(_, _, _)
        | Outer::VisibleEnumeration(_, _, _)
        | Outer::Forward(_, _, _)
        | Outer::Template(_)
        | Outer::Function(_) => Ok(()),
    }
}

/// Adds the using directives of declarations outside classes, in a row.
#[cycle(directed)]
fn add_all_directed(
    all: &mut List<Directed>,
    alloc: Global,
    outers: &[Outer],
) -> Result<(), AllocError>
    ensures { OnOk result (all.new ≡ all.old ++ spec.joined (map spec.directed_of outers.now)) }
{
    for outer in outers {
        add_directed(all, alloc, outer)?;
    }
    Ok(())
}

/// The using directives of a unit.
pub(crate) fn directed_in(alloc: Global, unit: &Unit) -> Result<List<Directed>, AllocError>
    ensures { IfOk result (λ all. all ≡ spec.directed unit.now) }
{
    let mut all = List::new(alloc);
    add_all_directed(&mut all, alloc, unit.outers.as_slice())?;
    Ok(all)
}
