// Classes and enums (ECMA-372, 20 to 24).
ghost use Rattle.std.specs.Prelude.{◌≡◌, IfOk};

use crate::copied::{Copied, copied_items, copied_option};
use cc_tree::{Base, Class, ClassKey, Enumeration, Enumerator, EnumeratorValue};
use sqlite_items::Items;
use std::alloc::{AllocError, Global};

impl Copied for ClassKey {
    /// It takes no memory.
    fn copied(&self, _alloc: Global) -> Result<ClassKey, AllocError>
        ensures { IfOk result (λ copy. copy ≡ self.now) }
    {
        Ok(ClassKey {
            word: self.word,
            aggregate: self.aggregate,
            span: self.span,
        })
    }
}

impl Copied for EnumeratorValue {
    /// It takes no memory.
    fn copied(&self, _alloc: Global) -> Result<EnumeratorValue, AllocError>
        ensures { IfOk result (λ copy. copy ≡ self.now) }
    {
        Ok(EnumeratorValue {
            is_negative: self.is_negative,
            number: self.number,
        })
    }
}

impl Copied for Base {
    fn copied(&self, alloc: Global) -> Result<Base, AllocError>
        ensures { IfOk result (λ copy. copy ≡ self.now) }
    {
        let of = self.of.copied(alloc)?;
        Ok(Base {
            is_public: self.is_public,
            of,
            span: self.span,
        })
    }
}

impl Copied for Class {
    fn copied(&self, alloc: Global) -> Result<Class, AllocError>
        ensures { IfOk result (λ copy. copy ≡ self.now) }
    {
        let key = self.key.copied(alloc)?;
        let name = self.name.copied(alloc)?;
        let modifiers = Items::from_slice(alloc, self.modifiers.as_slice())?;
        let bases = copied_items(alloc, self.bases.as_slice())?;
        let members = copied_items(alloc, self.members.as_slice())?;
        Ok(Class {
            key,
            name,
            modifiers,
            bases,
            members,
            span: self.span,
        })
    }
}

impl Copied for Enumerator {
    fn copied(&self, alloc: Global) -> Result<Enumerator, AllocError>
        ensures { IfOk result (λ copy. copy ≡ self.now) }
    {
        let name = self.name.copied(alloc)?;
        let value = copied_option(alloc, &self.value)?;
        Ok(Enumerator {
            name,
            value,
            span: self.span,
        })
    }
}

impl Copied for Enumeration {
    fn copied(&self, alloc: Global) -> Result<Enumeration, AllocError>
        ensures { IfOk result (λ copy. copy ≡ self.now) }
    {
        let name = self.name.copied(alloc)?;
        let items = copied_items(alloc, self.items.as_slice())?;
        Ok(Enumeration {
            aggregate: self.aggregate,
            name,
            items,
            span: self.span,
        })
    }
}
