// The declarations of a source, and what names them.
ghost use Rattle.std.specs.Prelude.{◌≡◌, ℕ, List, slice_get};
ghost use Rattle.std.specs.Option.{option_copied};
ghost use Rattle.cc_names.specs.Index.{numbers_under};
ghost use Rattle.cc_names.specs.Lookup.{named};

use crate::lookup::Directive;
use crate::scope::{Item, Scope};
use cc_base::List;
use std::collections::HashMap;

/// The scopes and the declarations of a source, with the library's (ECMA-372, 10.3 and 10.4).
#[derive(Drop)]
pub struct Declarations {
    /// The unit, the scopes in it in order of place, an outer one before an inner one, and last those of the library.
    pub scopes: List<Scope>,
    /// Those of the library, and then those of the unit in order of place.
    pub items: List<Item>,
    /// The using directives, in order of place.
    pub directives: List<Directive>,
    pub(crate) numbers: HashMap<Vec<u8>, List<u32>>,
    ghost indexed: { (name : List ℕ) → numbers_under numbers name ≡ named items name },
}

impl Declarations {
    /// The numbers of the declarations of a name, in order.
    pub(crate) fn named(&self, name: &[u8]) -> &[u32]
        ensures { result.now ≡ named self.now.items name.now }
    {
        match self.numbers.get(name) {
            Some(numbers) => numbers.as_slice(),
            None => &[],
        }
    }

    /// The declaration of a number.
    pub(crate) fn item(&self, number: u32) -> Option<&Item>
        ensures { option_copied result ≡ slice_get self.now.items number }
    {
        self.items.get(number as usize)
    }
}
