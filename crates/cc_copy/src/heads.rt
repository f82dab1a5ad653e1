// What stands before the body of a function (ECMA-372, 18.4).
ghost use Rattle.std.specs.Prelude.{◌≡◌, IfOk};

use crate::copied::{Copied, copied_items, copied_option};
use cc_tree::{Modifier, NamedFunction, Overridden, Parameter, Parameters};
use std::alloc::{AllocError, Global};

impl Copied for Parameter {
    fn copied(&self, alloc: Global) -> Result<Parameter, AllocError>
        ensures { IfOk result (λ copy. copy ≡ self.now) }
    {
        let of = self.of.copied(alloc)?;
        let name = copied_option(alloc, &self.name)?;
        Ok(Parameter { of, name })
    }
}

impl Copied for Parameters {
    fn copied(&self, alloc: Global) -> Result<Parameters, AllocError>
        ensures { IfOk result (λ copy. copy ≡ self.now) }
    {
        let items = copied_items(alloc, self.items.as_slice())?;
        Ok(Parameters {
            items,
            span: self.span,
        })
    }
}

impl Copied for Modifier {
    fn copied(&self, alloc: Global) -> Result<Modifier, AllocError>
        ensures { IfOk result (λ copy. copy ≡ self.now) }
    {
        match self {
            Modifier::Abstract(span) => Ok(Modifier::Abstract(*span)),
            Modifier::Override(span) => Ok(Modifier::Override(*span)),
            Modifier::Sealed(span) => Ok(Modifier::Sealed(*span)),
            Modifier::New(span) => Ok(Modifier::New(*span)),
        }
    }
}

impl Copied for NamedFunction {
    fn copied(&self, alloc: Global) -> Result<NamedFunction, AllocError>
        ensures { IfOk result (λ copy. copy ≡ self.now) }
    {
        let class = self.class.copied(alloc)?;
        let name = self.name.copied(alloc)?;
        Ok(NamedFunction {
            class,
            name,
            accessor: self.accessor,
            span: self.span,
        })
    }
}

impl Copied for Overridden {
    fn copied(&self, alloc: Global) -> Result<Overridden, AllocError>
        ensures { IfOk result (λ copy. copy ≡ self.now) }
    {
        match self {
            Overridden::Pure(span) => Ok(Overridden::Pure(*span)),
            Overridden::Functions(functions, span) => {
                let functions = copied_items(alloc, functions.as_slice())?;
                Ok(Overridden::Functions(functions, *span))
            }
        }
    }
}
