// The forms of `#Strings` and `#Blob` (ECMA-335, II.24.2.3 and II.24.2.4).
ghost use Rattle.std.specs.Prelude.{◌≡◌, ◌<◌, ◌+◌, ◌^◌, ℕ, List, length, IfSome, IfNone};
ghost use Rattle.cc_module.specs.Heaps.{heap_bytes};
ghost use Rattle.cc_tables.specs.Forms.{form_of, heap_entry, Entries, HasForm, BeginsWithZero, FormFault};

use crate::ends::end_fault;
use crate::entry::split_entry;
use crate::fault::TableFault;
use crate::heap::HeapKind;

// How many bytes the zero and the entries behind it have.
fn entries_end(kind: HeapKind, stream: &[u8]) -> usize
    requires { BeginsWithZero stream.now }
    ensures { (texts : List (List ℕ)) × (rest : List ℕ) × Entries (form_of kind) stream.now texts rest × (result ≡ length (heap_bytes (heap_entry (form_of kind)) texts)) }
{
    let (_, mut rest) = stream.split_at(1);
    while let Some((_, after)) = split_entry(kind, rest) {
        rest = after;
    }
    stream.len() - rest.len()
}

/// The first fault of the form of `#Strings` or `#Blob`, where the stream stands from `at` on: a zero, entries, and zeros to
/// a multiple of four.
pub fn form_fault(kind: HeapKind, stream: &[u8], at: u32) -> Option<TableFault>
    requires { at + length stream.now < 2 ^ 32 }
    ensures form { IfNone result ((texts : List (List ℕ)) × HasForm (form_of kind) stream.now texts) }
    ensures fault { IfSome result (FormFault (form_of kind) at stream.now) }
{
    if stream.is_empty() || stream[0] != 0 {
        return Some(TableFault::BadStream(at));
    }
    let used = entries_end(kind, stream);
    end_fault(at, used as u64, stream)
}
