// Parts of statements that hold no statement (ECMA-372, 16).
ghost use Rattle.std.specs.Prelude.{◌≡◌, IfOk};

use crate::copied::{Copied, copied_items, copied_option};
use cc_tree::{Caught, Declarator, ForStart, Initializer, Label, Local};
use std::alloc::{AllocError, Global};

impl Copied for Initializer {
    fn copied(&self, alloc: Global) -> Result<Initializer, AllocError>
        ensures { IfOk result (λ copy. copy ≡ self.now) }
    {
        match self {
            Initializer::Nothing => Ok(Initializer::Nothing),
            Initializer::Value(value) => {
                let value = value.copied(alloc)?;
                Ok(Initializer::Value(value))
            }
            Initializer::Elements(elements) => {
                let elements = elements.copied(alloc)?;
                Ok(Initializer::Elements(elements))
            }
            Initializer::Arguments(arguments) => {
                let arguments = copied_items(alloc, arguments.as_slice())?;
                Ok(Initializer::Arguments(arguments))
            }
        }
    }
}

impl Copied for Declarator {
    fn copied(&self, alloc: Global) -> Result<Declarator, AllocError>
        ensures { IfOk result (λ copy. copy ≡ self.now) }
    {
        let name = self.name.copied(alloc)?;
        let initializer = self.initializer.copied(alloc)?;
        Ok(Declarator {
            name,
            initializer,
            span: self.span,
        })
    }
}

impl Copied for Local {
    fn copied(&self, alloc: Global) -> Result<Local, AllocError>
        ensures { IfOk result (λ copy. copy ≡ self.now) }
    {
        let of = self.of.copied(alloc)?;
        let declarators = copied_items(alloc, self.declarators.as_slice())?;
        Ok(Local {
            of,
            declarators,
            span: self.span,
        })
    }
}

impl Copied for ForStart {
    fn copied(&self, alloc: Global) -> Result<ForStart, AllocError>
        ensures { IfOk result (λ copy. copy ≡ self.now) }
    {
        match self {
            ForStart::Nothing => Ok(ForStart::Nothing),
            ForStart::Local(local) => {
                let local = local.copied(alloc)?;
                Ok(ForStart::Local(local))
            }
            ForStart::Expression(value) => {
                let value = value.copied(alloc)?;
                Ok(ForStart::Expression(value))
            }
        }
    }
}

impl Copied for Label {
    fn copied(&self, alloc: Global) -> Result<Label, AllocError>
        ensures { IfOk result (λ copy. copy ≡ self.now) }
    {
        match self {
            Label::Case(value, span) => {
                let value = value.copied(alloc)?;
                Ok(Label::Case(value, *span))
            }
            Label::Default(span) => Ok(Label::Default(*span)),
        }
    }
}

impl Copied for Caught {
    fn copied(&self, alloc: Global) -> Result<Caught, AllocError>
        ensures { IfOk result (λ copy. copy ≡ self.now) }
    {
        match self {
            Caught::All => Ok(Caught::All),
            Caught::Typed(of, name) => {
                let of = of.copied(alloc)?;
                let name = copied_option(alloc, name)?;
                Ok(Caught::Typed(of, name))
            }
        }
    }
}
