// Members of classes (ECMA-372, 18 and 19).
ghost use Rattle.std.specs.Prelude.{◌≡◌, IfOk};

use crate::copied::{Copied, copied_items, copied_option};
use cc_tree::{Accessor, Member, MemberInitializer, PropertyName};
use std::alloc::{AllocError, Global};

impl Copied for MemberInitializer {
    fn copied(&self, alloc: Global) -> Result<MemberInitializer, AllocError>
        ensures { IfOk result (λ copy. copy ≡ self.now) }
    {
        match self {
            MemberInitializer::Member(name, arguments, span) => {
                let name = name.copied(alloc)?;
                let arguments = arguments.copied(alloc)?;
                Ok(MemberInitializer::Member(name, arguments, *span))
            }
            MemberInitializer::Base(of, arguments, span) => {
                let of = of.copied(alloc)?;
                let arguments = arguments.copied(alloc)?;
                Ok(MemberInitializer::Base(of, arguments, *span))
            }
        }
    }
}

impl Copied for PropertyName {
    fn copied(&self, alloc: Global) -> Result<PropertyName, AllocError>
        ensures { IfOk result (λ copy. copy ≡ self.now) }
    {
        match self {
            PropertyName::Named(name) => {
                let name = name.copied(alloc)?;
                Ok(PropertyName::Named(name))
            }
            PropertyName::Indexed(span, of) => {
                let of = of.copied(alloc)?;
                Ok(PropertyName::Indexed(*span, of))
            }
        }
    }
}

impl Copied for Accessor {
    fn copied(&self, alloc: Global) -> Result<Accessor, AllocError>
        ensures { IfOk result (λ copy. copy ≡ self.now) }
    {
        let of = self.of.copied(alloc)?;
        let parameters = self.parameters.copied(alloc)?;
        let modifiers = copied_items(alloc, self.modifiers.as_slice())?;
        let overridden = copied_option(alloc, &self.overridden)?;
        let body = copied_option(alloc, &self.body)?;
        Ok(Accessor {
            is_virtual: self.is_virtual,
            of,
            word: self.word,
            word_span: self.word_span,
            parameters,
            modifiers,
            overridden,
            body,
            span: self.span,
        })
    }
}

impl Copied for Member {
    fn copied(&self, alloc: Global) -> Result<Member, AllocError>
        ensures { IfOk result (λ copy. copy ≡ self.now) }
    {
        match self {
            Member::Access(word, span) => Ok(Member::Access(*word, *span)),
            Member::Fields(is_static, of, names, span) => {
                let of = of.copied(alloc)?;
                let names = copied_items(alloc, names.as_slice())?;
                Ok(Member::Fields(*is_static, of, names, *span))
            }
            Member::Function(storage, of, name, parameters, modifiers, overridden, body, span) => {
                let of = of.copied(alloc)?;
                let name = name.copied(alloc)?;
                let parameters = parameters.copied(alloc)?;
                let modifiers = copied_items(alloc, modifiers.as_slice())?;
                let overridden = copied_option(alloc, overridden)?;
                let body = copied_option(alloc, body)?;
                Ok(Member::Function(
                    *storage, of, name, parameters, modifiers, overridden, body, *span,
                ))
            }
            Member::Constructor(name, parameters, initializers, body, span) => {
                let name = name.copied(alloc)?;
                let parameters = parameters.copied(alloc)?;
                let initializers = copied_items(alloc, initializers.as_slice())?;
                let body = body.copied(alloc)?;
                Ok(Member::Constructor(name, parameters, initializers, body, *span))
            }
            Member::Destructor(is_virtual, name, body, span) => {
                let name = name.copied(alloc)?;
                let body = body.copied(alloc)?;
                Ok(Member::Destructor(*is_virtual, name, body, *span))
            }
            Member::Finaliser(name, body, span) => {
                let name = name.copied(alloc)?;
                let body = body.copied(alloc)?;
                Ok(Member::Finaliser(name, body, *span))
            }
            Member::Property(storage, of, name, accessors, span) => {
                let of = of.copied(alloc)?;
                let name = name.copied(alloc)?;
                let accessors = copied_items(alloc, accessors.as_slice())?;
                Ok(Member::Property(*storage, of, name, accessors, *span))
            }
        }
    }
}
