// What an index into a heap tells (ECMA-335, II.24.2.6).
ghost use Rattle.std.specs.Prelude.{◌≡◌, ℕ, List, IfOk};
ghost use Rattle.cc_tables.specs.Forms.{form_of, StandsAt, FoundAt};

use crate::entry::split_entry;
use crate::heap::HeapKind;
use cc_base::List;
use std::alloc::{AllocError, Global};

/// The text at a place of a stream; the empty text where no entry stands.
pub(crate) fn text_at(
    alloc: Global,
    kind: HeapKind,
    stream: &[u8],
    place: u64,
) -> Result<List<u8>, AllocError>
    ensures found { IfOk result (FoundAt (form_of kind) stream.now place) }
    ensures only { IfOk result (λ text. (other : List ℕ) → StandsAt (form_of kind) stream.now place other → text ≡ other) }
{
    if place == 0 {
        return Ok(List::new(alloc));
    }
    if place > stream.len() as u64 {
        return Ok(List::new(alloc));
    }
    let (_, rest) = stream.split_at(place as usize);
    match split_entry(kind, rest) {
        Some((text, _)) => {
            let text = List::from_slice(alloc, text)?;
            Ok(text)
        }
        None => Ok(List::new(alloc)),
    }
}
