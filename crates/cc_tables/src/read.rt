// The metadata of modules, read (ECMA-335, II.24).
ghost use Rattle.std.specs.Prelude.{◌≡◌, ◌≢◌, ◌<◌, ◌≤◌, ◌+◌, ◌^◌, [], length, drop, Some, None, Err, IfOk, OnOk, IsOkUnless};
ghost use Rattle.std.specs.List.{AllByRecursion, flat_map};
ghost use Rattle.cc_layout.specs.Layout.{peeked};
ghost use Rattle.cc_module.specs.declared.module.Module.{Module};
ghost use Rattle.cc_module.specs.Rows.{all_cells};
ghost use Rattle.cc_module.specs.Metadata.{tables, names_of, blobs_of};
ghost use Rattle.cc_module.specs.Signatures.{IsSignature};
ghost use Rattle.cc_module.specs.Storable.{IsSortedModule};
ghost use Rattle.cc_tables.specs.Counts.{counts_in};
ghost use Rattle.cc_tables.specs.Forms.{user_strings_heap, HasForm};
ghost use Rattle.cc_tables.specs.Numbering.{IsHeap, heap_texts};
ghost use Rattle.cc_tables.specs.Reading.{streams_end, streams_in, heap_lengths, tables_fault, signature_of, AreFormed, FormsFault, HasRows, RowFault, rows_of, heaps_fault, ContentFault, IsFirstFault, IsTables};
ghost use Rattle.cc_tables.specs.declared.fault.TableFault.{TableFault};
ghost use Rattle.cc_tables.specs.declared.fault.TableFault.TheVariants.{Memory};
ghost use Rattle.cc_tables.specs.declared.heap.HeapKind.TheVariants.{Names, Blobs};

use crate::counts::TableCounts;
use crate::fault::TableFault;
use crate::forms::form_fault;
use crate::headers::StreamLengths;
use crate::heap::HeapKind;
use crate::order::order_fault;
use crate::read_rows::{RowSource, RowsRead, read_rows};
use crate::signatures::check_signatures;
use crate::start::{piece, read_start};
use crate::tables_form::rows_place;
use crate::user_strings_form::read_user_strings;
use crate::width::StreamSizes;
use cc_base::{List, Text};
use cc_module::Module;
use std::alloc::Global;

// The user strings, where the heaps have their forms.
fn read_forms(alloc: Global, lengths: StreamLengths, bytes: &[u8]) -> Result<List<Text>, TableFault>
    requires whole { streams_end lengths ≡ length bytes.now }
    requires small { length bytes.now < 2 ^ 28 }
    ensures texts { IfOk result (HasForm user_strings_heap (streams_in lengths bytes.now).user_strings) }
    ensures formed { OnOk result (AreFormed (streams_in lengths bytes.now)) }
    ensures fault { (fault : TableFault) → result ≡ Err fault → fault ≢ Memory → FormsFault lengths (streams_in lengths bytes.now) fault }
{
    let strings = 108 + lengths.tables;
    let user_strings = strings + lengths.strings;
    let blobs = user_strings + lengths.user_strings + 16;
    let stream = piece(bytes, strings, lengths.strings);
    if let Some(fault) = form_fault(HeapKind::Names, stream, strings as u32) {
        return Err(fault);
    }
    let stream = piece(bytes, user_strings, lengths.user_strings);
    let texts = read_user_strings(alloc, stream, user_strings as u32)?;
    let stream = piece(bytes, blobs, lengths.blobs);
    if let Some(fault) = form_fault(HeapKind::Blobs, stream, blobs as u32) {
        return Err(fault);
    }
    Ok(texts)
}

// The rows of all tables, as a module with these user strings.
fn read_content(
    alloc: Global,
    lengths: StreamLengths,
    counts: &TableCounts,
    texts: List<Text>,
    bytes: &[u8],
) -> Result<RowsRead, TableFault>
    requires whole { streams_end lengths ≡ length bytes.now }
    requires small { length bytes.now < 2 ^ 28 }
    requires counts { let stream = (streams_in lengths bytes.now).tables in counts.now.counts.items ≡ counts_in (peeked 8 8 stream) 24 tables stream }
    requires formed { tables_fault (heap_lengths lengths) (streams_in lengths bytes.now).tables ≡ None }
    ensures rows { IfOk result (λ r. HasRows lengths (streams_in lengths bytes.now) r.content) }
    ensures names { IfOk result (λ r. IsHeap Names r.names × (heap_texts r.names ≡ names_of (all_cells r.content))) }
    ensures blobs { IfOk result (λ r. IsHeap Blobs r.blobs × (heap_texts r.blobs ≡ blobs_of (all_cells r.content))) }
    ensures texts { IfOk result (λ r. r.content.texts ≡ texts) }
    ensures bodies { IfOk result (λ r. r.content.bodies ≡ []) }
    ensures entry { IfOk result (λ r. r.content.entry ≡ 0) }
    ensures fault { (fault : TableFault) → result ≡ Err fault → fault ≢ Memory → let s = streams_in lengths bytes.now in RowFault s.strings s.blobs [] (rows_of lengths s) fault }
{
    let strings = 108 + lengths.tables;
    let blobs = strings + lengths.strings + lengths.user_strings + 16;
    let source = RowSource {
        counts,
        sizes: StreamSizes {
            strings: lengths.strings as usize,
            blobs: lengths.blobs as usize,
        },
        strings: piece(bytes, strings, lengths.strings),
        blobs: piece(bytes, blobs, lengths.blobs),
    };
    let (_, rows) = piece(bytes, 108, lengths.tables).split_at(rows_place(counts) as usize);
    read_rows(alloc, &source, rows, texts)
}

// The entries of the heaps, the order of rows and the signatures.
fn check_content(
    alloc: Global,
    lengths: StreamLengths,
    read: &RowsRead,
    bytes: &[u8],
) -> Result<(), TableFault>
    requires whole { streams_end lengths ≡ length bytes.now }
    requires small { length bytes.now < 2 ^ 28 }
    requires rows { HasRows lengths (streams_in lengths bytes.now) read.now.content }
    requires names { IsHeap Names read.now.names × (heap_texts read.now.names ≡ names_of (all_cells read.now.content)) }
    requires blobs { IsHeap Blobs read.now.blobs × (heap_texts read.now.blobs ≡ blobs_of (all_cells read.now.content)) }
    ensures used { OnOk result (heaps_fault lengths (streams_in lengths bytes.now) (all_cells read.now.content) ≡ None) }
    ensures sorted { OnOk result (IsSortedModule read.now.content) }
    ensures signatures { OnOk result (AllByRecursion IsSignature (flat_map signature_of (all_cells read.now.content))) }
    ensures fault { (fault : TableFault) → result ≡ Err fault → fault ≢ Memory → ContentFault lengths (streams_in lengths bytes.now) read.now.content fault }
{
    let strings = 108 + lengths.tables;
    let blobs = strings + lengths.strings + lengths.user_strings + 16;
    let stream = piece(bytes, strings, lengths.strings);
    read.names.check_used(alloc, stream, strings as u32)?;
    let stream = piece(bytes, blobs, lengths.blobs);
    read.blobs.check_used(alloc, stream, blobs as u32)?;
    if let Some(fault) = order_fault(&read.content) {
        return Err(fault);
    }
    check_signatures(alloc, &read.content, &read.blobs, blobs as u32)
}

/// The module whose metadata the bytes are, without bodies and without an entry (ECMA-335, II.24). It errs at the first check
/// that fails: the size of the file (`BadRoot` at 0), the root (`BadRoot`), the headers of the streams, their sizes, `#~` but
/// for its rows, `#Strings`, `#US` and `#Blob` (`BadStream`), the rows (`BadTable`), the entries that no row uses
/// (`BadStream`), the order of rows (`NotSorted`), the signatures (`BadBlob`).
pub fn read_metadata(alloc: Global, bytes: &[u8]) -> Result<Module, TableFault>
    ensures tables { IfOk result (λ m. IsTables m bytes.now) }
    ensures only { (m : Module) → IsTables m bytes.now → IfOk result (λ r. r ≡ m) × IsOkUnless result Memory }
    ensures fault { (fault : TableFault) → result ≡ Err fault → fault ≢ Memory → IsFirstFault bytes.now fault }
{
    let (lengths, counts) = read_start(alloc, bytes)?;
    let texts = read_forms(alloc, lengths, bytes)?;
    let read = read_content(alloc, lengths, &counts, texts, bytes)?;
    check_content(alloc, lengths, &read, bytes)?;
    Ok(read.content)
}
