// The full names of the types that a source writes (ECMA-372, 10.4; ISO/IEC 14882:2003, 3.4.1 and 7.3.4).
ghost use Rattle.std.specs.Prelude.{◌≡◌, IfOk};
ghost use Rattle.std.specs.Option.{option_copied};
ghost use Rattle.cc_names.specs.FullNames as spec;
ghost use Rattle.cc_names.specs.Spaces.{space};

use crate::find_type::Here;
use crate::forming::is_array;
use crate::known::Known;
use crate::spelling::spelling;
use crate::standing::within;
use cc_base::Name;
use cc_tree::TypeName;
use std::alloc::{AllocError, Global};

impl Here<'_> {
    /// The type that a name without `^` or `%` means at its place, where it is found.
    fn named_type(&self, of: &TypeName) -> Option<&Known>
        ensures { option_copied result ≡ spec.named_type (space self.now.space.now) self.now.path.now of.now }
    {
        match of {
            TypeName::Fundamental(_, _) => None,
            TypeName::Named(names, name, _, span) => {
                let names = names.as_slice();
                let name = name.name.as_slice();
                if is_array(names, name) {
                    None
                } else {
                    self.found_type(span.first, names, name)
                }
            }
            TypeName::Marked(_, _, _, _) => None,
        }
    }

    /// The full name of a type that is found: its namespace's name with its spelling in it.
    pub(crate) fn full_name(&self, alloc: Global, of: &TypeName) -> Result<Option<Name>, AllocError>
        ensures { IfOk result (λ name. name ≡ spec.full_name (space self.now.space.now) self.now.path.now of.now) }
    {
        match self.named_type(of) {
            None => Ok(None),
            Some(known) => {
                let spelled = spelling(alloc, of)?;
                let name = within(alloc, known.path.as_slice(), spelled.as_slice())?;
                Ok(Some(name))
            }
        }
    }

    /// The same of a type that may be missing.
    pub(crate) fn optional_full_name(
        &self,
        alloc: Global,
        of: Option<&TypeName>,
    ) -> Result<Option<Name>, AllocError>
        ensures { IfOk result (λ name. name ≡ spec.optional_full_name (space self.now.space.now) self.now.path.now (option_copied of.entry)) }
    {
        match of {
            None => Ok(None),
            Some(of) => self.full_name(alloc, of),
        }
    }
}
