// The library's types and what they declare (ECMA-372, 12.1 and 12.3; ECMA-335, IV.5).
ghost use Rattle.std.specs.Prelude.{◌≡◌, ℕ, ◌+◌, ◌<◌, ◌^◌, List, [], ◌∷◌, ◌++◌, map, length, Some, OnOk, IfOk};
ghost use Rattle.std.specs.List.{enumerate_from};
ghost use Rattle.cc_names.specs.LibraryRows as spec;

use crate::catalogue::LIBRARY;
use crate::index::number_of;
use crate::scope::{Declared, Item, ItemKind, Scope, ScopeKind};
use cc_base::{List, Name, Span};
use cc_tree::ClassWord;
use std::alloc::{AllocError, Global};

/// What a type of the library is to a source.
#[derive(Clone, Copy, Debug, PartialEq, Eq)]
pub enum LibraryForm {
    /// A class that handles refer to, and that a class may derive from.
    Class,
    /// A class that handles refer to, and that no class derives from.
    SealedClass,
    /// An interface that handles refer to.
    Interface,
    /// A fundamental type under its library name.
    Fundamental,
    /// A class that is only named.
    NamedOnly,
}

/// A row of the table of the library's types.
pub(crate) type Row = (&'static [u8], LibraryForm, ClassWord, &'static [u8]);

const NOWHERE: Span = Span { first: 0, past: 0 };

/// Adds the scopes of the library's classes, which stand in the scope of its namespace.
fn add_class_scopes(
    scopes: &mut List<Scope>,
    alloc: Global,
    rows: &[Row],
    first: u32,
) -> Result<(), AllocError>
    ensures { OnOk result (scopes.new ≡ scopes.old ++ map (λ row. spec.class_scope_of first row.0.now) rows.now) }
{
    for row in rows {
        scopes.push(Scope {
            kind: ScopeKind::Class(List::from_slice(alloc, row.0)?),
            parent: Some(first),
            span: NOWHERE,
        })?;
    }
    Ok(())
}

/// The bases of a class of the library.
fn base_names(alloc: Global, base: &[u8]) -> Result<List<Name>, AllocError>
    ensures { IfOk result (λ names. names ≡ spec.base_names base.now) }
{
    let mut names = List::new(alloc);
    match base {
        [] => Ok(names),
        [_, ..] => {
            names.push(List::from_slice(alloc, base)?)?;
            Ok(names)
        }
    }
}

/// The number of the scope of a class of the library, by the class's number.
fn scope_of_class(first: u32, class: usize) -> Result<u32, AllocError>
    requires { class < 2 ^ 32 }
    ensures { IfOk result (λ number. number ≡ first + 1 + class) }
{
    number_of(first as usize + 1 + class)
}

/// The declaration of a class of the library.
fn class_item(alloc: Global, row: &Row, class: usize, first: u32) -> Result<Item, AllocError>
    requires { class < 2 ^ 32 }
    ensures { IfOk result (λ item. item ≡ spec.class_item_of first class row.now.0.now row.now.2 row.now.3.now) }
{
    let scope = scope_of_class(first, class)?;
    let bases = base_names(alloc, row.3)?;
    let name = List::from_slice(alloc, row.0)?;
    Ok(Item {
        kind: ItemKind::Class(row.2, scope, bases),
        name,
        span: NOWHERE,
        scope: first,
    })
}

/// Adds the library's classes.
fn add_class_items(
    items: &mut List<Item>,
    alloc: Global,
    rows: &[Row],
    first: u32,
) -> Result<(), AllocError>
    requires { length rows.now < 2 ^ 32 }
    ensures { OnOk result (items.new ≡ items.old ++ map (λ row. spec.class_item_of first row.0 row.1.0.now row.1.2 row.1.3.now) (enumerate_from 0 rows.now)) }
{
    for (class, row) in rows.iter().enumerate() {
        items.push(class_item(alloc, row, class, first)?)?;
    }
    Ok(())
}

/// A member of a class of the library.
fn member_item(
    alloc: Global,
    kind: ItemKind,
    name: &[u8],
    first: u32,
    class: usize,
) -> Result<Item, AllocError>
    requires { class < 2 ^ 32 }
    ensures { IfOk result (λ item. item ≡ spec.member_item_of first kind name.now class) }
{
    let scope = scope_of_class(first, class)?;
    let name = List::from_slice(alloc, name)?;
    Ok(Item {
        kind,
        name,
        span: NOWHERE,
        scope,
    })
}

/// The library's declarations.
fn library_items(alloc: Global, first: u32) -> Result<List<Item>, AllocError>
    ensures { IfOk result (λ items. items ≡ spec.library_items first) }
{
    let mut items = List::new(alloc);
    items.push(Item {
        kind: ItemKind::Namespace(first),
        name: List::from_slice(alloc, b"System")?,
        span: NOWHERE,
        scope: 0,
    })?;
    add_class_items(&mut items, alloc, &LIBRARY, first)?;
    let to_string = ItemKind::Function(List::new(alloc));
    items.push(member_item(alloc, to_string, b"ToString", first, 0)?)?;
    items.push(member_item(alloc, ItemKind::Property, b"Message", first, 17)?)?;
    let getter = ItemKind::Function(List::new(alloc));
    items.push(member_item(alloc, getter, b"get_Message", first, 17)?)?;
    Ok(items)
}

/// The scope of the library's namespace.
fn system_scope(alloc: Global) -> Result<Scope, AllocError>
    ensures { IfOk result (λ scope. scope ≡ spec.system_scope) }
{
    let name = List::from_slice(alloc, b"System")?;
    Ok(Scope {
        kind: ScopeKind::Namespace(name),
        parent: Some(0),
        span: NOWHERE,
    })
}

/// Adds the library's scopes.
fn add_scopes(scopes: &mut List<Scope>, alloc: Global, first: u32) -> Result<(), AllocError>
    ensures { OnOk result (scopes.new ≡ scopes.old ++ spec.library_scopes first) }
{
    scopes.push(system_scope(alloc)?)?;
    add_class_scopes(scopes, alloc, &LIBRARY, first)?;
    Ok(())
}

/// The scopes and declarations of a unit with the library's: its scopes behind them, its declarations before them.
pub(crate) fn with_library(alloc: Global, own: Declared) -> Result<Declared, AllocError>
    ensures { IfOk result (λ all. all ≡ spec.with_library own) }
{
    let first = own.next_scope()?;
    let mut items = library_items(alloc, first)?.into_vec();
    let Declared {
        mut scopes,
        items: own_items,
    } = own;
    items.append(&mut own_items.into_vec())?;
    add_scopes(&mut scopes, alloc, first)?;
    Ok(Declared {
        scopes,
        items: List::from_vec(items),
    })
}
