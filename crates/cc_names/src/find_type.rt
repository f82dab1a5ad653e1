// Which type a name means at a place (ECMA-372, 10.4; ISO/IEC 14882:2003, 3.4.1 and 7.3.4).
ghost use Rattle.std.specs.Prelude.{◌≡◌, ◌&&◌, find, nat_le, slice_get};
ghost use Rattle.std.specs.List.{list_any};
ghost use Rattle.std.specs.Option.{option_copied};
ghost use Rattle.std.specs.Str.{bytes_eq};
ghost use Rattle.cc_names.specs.Types as spec;
ghost use Rattle.cc_names.specs.Spaces.{space};

use crate::known::{Known, Space};
use crate::paths::{encloses, is_path};
use cc_tree::Identifier;

/// A place: what may be named there, and the namespace around it.
#[derive(Clone, Copy)]
pub(crate) struct Here<'a> {
    pub(crate) space: &'a Space,
    pub(crate) path: &'a [u8],
}

impl Here<'_> {
    /// Whether a directive before a place names a namespace.
    fn is_directed(&self, at: u32, path: &[u8]) -> bool
        ensures { result ≡ spec.is_directed (space self.now.space.now).directives at path.now }
    {
        for one in self.space.directives.as_slice() {
            if one.past <= at && one.path.as_slice() == path {
                return true;
            }
        }
        false
    }

    /// Whether a type is found by its name alone, or after names of namespaces.
    fn is_in_sight(&self, at: u32, names: &[Identifier], known: &Known) -> bool
        ensures { result ≡ spec.is_in_sight (space self.now.space.now).directives (record { path = self.now.path.now; at = at }) names.now known.now }
    {
        let path = known.path.as_slice();
        match names {
            [] => encloses(path, self.path) || self.is_directed(at, path),
            [_, ..] => is_path(path, names),
        }
    }

    fn is_number_in_sight(&self, at: u32, names: &[Identifier], number: u32) -> bool
        ensures { result ≡ spec.is_type_in_sight (space self.now.space.now).directives (record { path = self.now.path.now; at = at }) names.now (slice_get (space self.now.space.now).types number) }
    {
        match self.space.types.get(number as usize) {
            None => false,
            Some(known) => self.is_in_sight(at, names, known),
        }
    }

    /// The number of the type that a name means.
    fn found_number(&self, at: u32, names: &[Identifier], name: &[u8]) -> Option<u32>
        ensures { result ≡ spec.found_number (space self.now.space.now).types (space self.now.space.now).names (space self.now.space.now).directives (record { path = self.now.path.now; at = at }) names.now name.now }
    {
        for number in self.space.names.places(name) {
            if self.is_number_in_sight(at, names, *number) {
                return Some(*number);
            }
        }
        None
    }

    /// The type that a name means at a place, with the names of namespaces before it.
    pub(crate) fn found_type(&self, at: u32, names: &[Identifier], name: &[u8]) -> Option<&Known>
        ensures { option_copied result ≡ spec.found_type (space self.now.space.now).types (space self.now.space.now).names (space self.now.space.now).directives (record { path = self.now.path.now; at = at }) names.now name.now }
    {
        match self.found_number(at, names, name) {
            None => None,
            Some(number) => self.space.types.get(number as usize),
        }
    }
}
