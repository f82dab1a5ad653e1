// Parts of trees that can be copied, lists of them and parts that may be absent.
ghost use Rattle.std.specs.Prelude.{◌≡◌, IfOk};

use sqlite_items::Items;
use std::alloc::{AllocError, Global};

/// A part of a tree of which an equal one can be made.
pub(crate) trait Copied: Drop {
    /// An equal part. Its only error is want of memory.
    fn copied(&self, alloc: Global) -> Result<Self, AllocError>
        ensures { IfOk result (λ copy. copy ≡ self.now) };
}

/// Equal parts in a row.
pub(crate) fn copied_items<T: Copied>(alloc: Global, items: &[T]) -> Result<Items<T>, AllocError>
    ensures { IfOk result (λ copy. copy ≡ items.now) }
{
    let mut copies = Items::new(alloc);
    for item in items {
        copies.push(item.copied(alloc)?)?;
    }
    Ok(copies)
}

/// An equal part where there is one.
pub(crate) fn copied_option<T: Copied>(
    alloc: Global,
    part: &Option<T>,
) -> Result<Option<T>, AllocError>
    ensures { IfOk result (λ copy. copy ≡ part.now) }
{
    match part {
        None => Ok(None),
        Some(part) => {
            let copy = part.copied(alloc)?;
            Ok(Some(copy))
        }
    }
}
