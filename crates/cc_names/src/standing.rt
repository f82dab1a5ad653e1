// What stands outside classes, one after another, each with the namespace around it (ECMA-372, 10; ISO/IEC 14882:2003, 7.3).
ghost use Rattle.std.specs.Prelude.{◌≡◌, ◌++◌, map, OnOk, IfOk};
ghost use Rattle.cc_names.specs.Outermost as spec;
ghost use Rattle.cc_names.specs.Told.{told, told_all};

use cc_base::{List, Name, Span};
use cc_tree::{Class, Enumeration, Function, Identifier, Outer, Template, Unit};
use std::alloc::{AllocError, Global};

/// What stands outside classes.
#[derive(Clone, Copy)]
pub(crate) enum Outermost<'a> {
    Directive(&'a [Identifier], Span),
    /// A part of the namespace of the path.
    Part,
    Class(&'a Class),
    Enumeration(&'a Enumeration),
    Forward(&'a Identifier),
    Template(&'a Template),
    Function(&'a Function),
}

/// One of them, with the namespace in which it stands: the names from the outermost in, each with `::` after it.
#[derive(Drop)]
pub(crate) struct Standing<'a> {
    pub(crate) path: Name,
    pub(crate) what: Outermost<'a>,
}

/// The name of a namespace in another one.
pub(crate) fn within(alloc: Global, path: &[u8], name: &[u8]) -> Result<Name, AllocError>
    ensures { IfOk result (λ inner. inner ≡ spec.within path.now name.now) }
{
    let mut inner = Vec::from_slice(alloc, path)?;
    inner.extend_from_slice(name)?;
    inner.extend_from_slice(b"::")?;
    Ok(List::from_vec(inner))
}

/// Adds what stands in a namespace.
fn add<'a>(
    all: &mut Vec<Standing<'a>>,
    alloc: Global,
    path: &[u8],
    what: Outermost<'a>,
) -> Result<(), AllocError>
    ensures { OnOk result (told_all all.new.items ≡ told_all all.old.items ++ spec.standing (told what.entry) path.now) }
{
    let path = List::from_slice(alloc, path)?;
    all.push(Standing { path, what })?;
    Ok(())
}

/// Adds what a declaration outside classes has.
#[cycle(standing)]
fn add_outer<'a>(
    all: &mut Vec<Standing<'a>>,
    alloc: Global,
    path: &[u8],
    outer: &'a Outer,
) -> Result<(), AllocError>
    ensures { OnOk result (told_all all.new.items ≡ told_all all.old.items ++ spec.standing_of outer.now path.now) }
{
    match outer {
        Outer::Using(names, span) => add(
            all,
            alloc,
            path,
            Outermost::Directive(names.as_slice(), *span),
        ),
        Outer::Namespace(name, outers, _) => {
            let inner = within(alloc, path, name.name.as_slice())?;
            add(all, alloc, inner.as_slice(), Outermost::Part)?;
            add_outers(all, alloc, inner.as_slice(), outers.as_slice())
        }
        Outer::Class(class) => add(all, alloc, path, Outermost::Class(class)),
        Outer::Enumeration(enumeration) => {
            add(all, alloc, path, Outermost::Enumeration(enumeration))
        }
        Outer::VisibleClass(_, class, _) => add(all, alloc, path, Outermost::Class(class)),
        Outer::VisibleEnumeration(_, enumeration, _) => {
            add(all, alloc, path, Outermost::Enumeration(enumeration))
        }
        Outer::Forward(_, name, _) => add(all, alloc, path, Outermost::Forward(name)),
        Outer::Template(template) => add(all, alloc, path, Outermost::Template(template)),
        Outer::Function(function) => add(all, alloc, path, Outermost::Function(function)),
    }
}

/// Adds what declarations outside classes have, in a row.
#[cycle(standing)]
fn add_outers<'a>(
    all: &mut Vec<Standing<'a>>,
    alloc: Global,
    path: &[u8],
    outers: &'a [Outer],
) -> Result<(), AllocError>
    ensures { OnOk result (told_all all.new.items ≡ told_all all.old.items ++ spec.all_standing (map spec.standing_of outers.now) path.now) }
{
    for outer in outers {
        add_outer(all, alloc, path, outer)?;
    }
    Ok(())
}

/// All that stands outside classes in a unit, in order of place.
pub(crate) fn standings(alloc: Global, unit: &Unit) -> Result<Vec<Standing<'_>>, AllocError>
    ensures { IfOk result (λ all. told_all all.items ≡ spec.standings unit.now) }
{
    let mut all = Vec::new(alloc);
    add_outers(&mut all, alloc, &[], unit.outers.as_slice())?;
    Ok(all)
}
