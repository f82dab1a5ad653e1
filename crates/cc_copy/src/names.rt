// Names and texts.
ghost use Rattle.std.specs.Prelude.{◌≡◌, IfOk};

use crate::copied::Copied;
use cc_base::{List, Text};
use cc_tree::Identifier;
use std::alloc::{AllocError, Global};

impl Copied for Identifier {
    fn copied(&self, alloc: Global) -> Result<Identifier, AllocError>
        ensures { IfOk result (λ copy. copy ≡ self.now) }
    {
        let name = List::from_slice(alloc, self.name.as_slice())?;
        Ok(Identifier {
            name,
            span: self.span,
        })
    }
}

impl Copied for List<u16> {
    fn copied(&self, alloc: Global) -> Result<List<u16>, AllocError>
        ensures { IfOk result (λ copy. copy ≡ self.now) }
    {
        List::from_slice(alloc, self.as_slice())
    }
}
