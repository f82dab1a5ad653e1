// The names of namespaces (ISO/IEC 14882:2003, 7.3).
ghost use Rattle.std.specs.Prelude.{◌≡◌, ◌++◌, IfOk, OnOk};
ghost use Rattle.std.specs.Option.{option_copied};
ghost use Rattle.cc_names.specs.Outermost as spec;

use cc_base::{List, Name};
use cc_tree::Identifier;
use std::alloc::{AllocError, Global};

/// What follows a first part of a text, where it begins with that part.
fn after<'a>(text: &'a [u8], part: &[u8]) -> Option<&'a [u8]>
    ensures { option_copied result ≡ spec.after text.now part.now }
{
    if part.len() > text.len() {
        return None;
    }
    let (front, rest) = text.split_at(part.len());
    if front == part { Some(rest) } else { None }
}

/// Whether a namespace is another one or around it.
pub(crate) fn encloses(outer: &[u8], inner: &[u8]) -> bool
    ensures { result ≡ spec.encloses outer.now inner.now }
{
    match after(inner, outer) {
        None => false,
        Some(_) => true,
    }
}

/// What follows the name of a namespace in the name of one in it.
fn after_name<'a>(path: &'a [u8], name: &[u8]) -> Option<&'a [u8]>
    ensures { option_copied result ≡ spec.after_name path.now name.now }
{
    match after(path, name) {
        None => None,
        Some(rest) => after(rest, b"::"),
    }
}

/// Whether a namespace is the one of some names from the outermost in.
pub(crate) fn is_path(path: &[u8], names: &[Identifier]) -> bool
    ensures { result ≡ spec.is_path path.now names.now }
{
    let mut rest = path;
    for name in names {
        match after_name(rest, name.name.as_slice()) {
            None => return false,
            Some(inner) => {
                rest = inner;
            }
        }
    }
    rest.is_empty()
}

/// The namespace of some names from the outermost in.
pub(crate) fn path_of(alloc: Global, names: &[Identifier]) -> Result<Name, AllocError>
    ensures { IfOk result (λ path. path ≡ spec.path_of names.now) }
{
    let mut path = Vec::new(alloc);
    for name in names {
        path.extend_from_slice(name.name.as_slice())?;
        path.extend_from_slice(b"::")?;
    }
    Ok(List::from_vec(path))
}
