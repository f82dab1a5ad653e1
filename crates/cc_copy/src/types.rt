// Types (ECMA-372, 12).
ghost use Rattle.std.specs.Prelude.{◌≡◌, IfOk};

use crate::copied::{Copied, copied_items};
use cc_tree::{TypeArguments, TypeName};
use sqlite_items::{Boxed, Items};
use std::alloc::{AllocError, Global};

#[cycle(types)]
fn copied_type(alloc: Global, of: &TypeName) -> Result<TypeName, AllocError>
    ensures { IfOk result (λ copy. copy ≡ of.now) }
{
    match of {
        TypeName::Fundamental(of, span) => Ok(TypeName::Fundamental(*of, *span)),
        TypeName::Named(path, name, arguments, span) => {
            let path = copied_items(alloc, path.as_slice())?;
            let name = name.copied(alloc)?;
            let arguments = copied_types(alloc, arguments.as_slice())?;
            Ok(TypeName::Named(path, name, arguments, *span))
        }
        TypeName::Marked(core, is_handle, is_tracking, span) => {
            let core = boxed_type(alloc, core)?;
            Ok(TypeName::Marked(core, *is_handle, *is_tracking, *span))
        }
    }
}

#[cycle(types)]
fn boxed_type(alloc: Global, of: &Boxed<TypeName>) -> Result<Boxed<TypeName>, AllocError>
    ensures { IfOk result (λ copy. copy ≡ of.now) }
{
    let copy = copied_type(alloc, of.get())?;
    Boxed::new(alloc, copy)
}

#[cycle(types)]
fn copied_types(alloc: Global, types: &[TypeName]) -> Result<Items<TypeName>, AllocError>
    ensures { IfOk result (λ copy. copy ≡ types.now) }
{
    let mut copies = Items::new(alloc);
    for of in types {
        copies.push(copied_type(alloc, of)?)?;
    }
    Ok(copies)
}

impl Copied for TypeName {
    fn copied(&self, alloc: Global) -> Result<TypeName, AllocError>
        ensures { IfOk result (λ copy. copy ≡ self.now) }
    {
        copied_type(alloc, self)
    }
}

impl Copied for TypeArguments {
    fn copied(&self, alloc: Global) -> Result<TypeArguments, AllocError>
        ensures { IfOk result (λ copy. copy ≡ self.now) }
    {
        let types = copied_items(alloc, self.types.as_slice())?;
        Ok(TypeArguments {
            types,
            span: self.span,
        })
    }
}
