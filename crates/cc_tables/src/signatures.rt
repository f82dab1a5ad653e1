// The signatures of a module (ECMA-335, II.23.2): the first blob that is none.
ghost use Rattle.std.specs.Prelude.{◌≡◌, ◌≢◌, ◌<◌, ◌≤◌, ◌+◌, ◌^◌, ℕ, List, length, map, Err, OnOk};
ghost use Rattle.std.specs.List.{AllByRecursion, flat_map};
ghost use Rattle.cc_layout.specs.Compressed.{compressed};
ghost use Rattle.cc_module.specs.Signatures.{IsSignature};
ghost use Rattle.cc_module.specs.Rows.{all_cells};
ghost use Rattle.cc_tables.specs.Numbering.{IsHeap, AreShort, heap_texts};
ghost use Rattle.cc_tables.specs.Reading.{signature_of, blob_place, IsBadSignature, SignatureFault};
ghost use Rattle.cc_tables.specs.declared.fault.TableFault.{TableFault};
ghost use Rattle.cc_tables.specs.declared.fault.TableFault.TheVariants.{Memory};
ghost use Rattle.cc_tables.specs.declared.heap.HeapKind.TheVariants.{Blobs};

use crate::fault::TableFault;
use crate::heap::Heap;
use cc_base::List;
use cc_module::{
    BlobFault, FieldRow, MemberRefRow, MethodDefRow, MethodSpecRow, Module, PropertyRow,
    StandAloneSigRow, TypeSpecRow, read_signature,
};
use std::alloc::Global;

/// A row with a signature.
trait Signed {
    ghost signature: { Self → List ℕ };

    fn signature(&self) -> &[u8]
        ensures { result.now ≡ signature self.now };
}

impl Signed for FieldRow {
    ghost signature = { λ r. r.signature };

    fn signature(&self) -> &[u8] {
        self.signature.as_slice()
    }
}

impl Signed for MethodDefRow {
    ghost signature = { λ r. r.signature };

    fn signature(&self) -> &[u8] {
        self.signature.as_slice()
    }
}

impl Signed for MemberRefRow {
    ghost signature = { λ r. r.signature };

    fn signature(&self) -> &[u8] {
        self.signature.as_slice()
    }
}

impl Signed for StandAloneSigRow {
    ghost signature = { λ r. r.signature };

    fn signature(&self) -> &[u8] {
        self.signature.as_slice()
    }
}

impl Signed for PropertyRow {
    ghost signature = { λ r. r.signature };

    fn signature(&self) -> &[u8] {
        self.signature.as_slice()
    }
}

impl Signed for TypeSpecRow {
    ghost signature = { λ r. r.signature };

    fn signature(&self) -> &[u8] {
        self.signature.as_slice()
    }
}

impl Signed for MethodSpecRow {
    ghost signature = { λ r. r.instantiation };

    fn signature(&self) -> &[u8] {
        self.instantiation.as_slice()
    }
}

// How many bytes the length of a blob has.
fn length_size(count: usize) -> u32
    ensures size { result ≡ length (compressed count) }
    ensures few { result ≤ 4 }
{
    if count < 0x80 {
        1
    } else if count < 0x4000 {
        2
    } else {
        4
    }
}

// Where the bytes of a blob begin, where the heap stands from `at` on.
fn blob_place(heap: &Heap, at: u32, text: &[u8]) -> u32
    requires heap { IsHeap Blobs heap.now }
    requires room { at + length heap.now.bytes.items < 2 ^ 30 }
    ensures place { result ≡ blob_place at (heap_texts heap.now) text.now }
    ensures within { result ≤ at + length heap.now.bytes.items + 4 }
{
    at + heap.place_of(text) as u32 + length_size(text.len())
}

// Whether a blob is a signature. It errs at the first byte with which none goes on.
fn check_signature(alloc: Global, text: &[u8], heap: &Heap, at: u32) -> Result<(), TableFault>
    requires heap { IsHeap Blobs heap.now }
    requires room { at + length heap.now.bytes.items < 2 ^ 30 }
    requires short { length text.now < 2 ^ 29 }
    ensures found { OnOk result (IsSignature text.now) }
    ensures fault { (fault : TableFault) → result ≡ Err fault → fault ≢ Memory → IsBadSignature at (heap_texts heap.now) text.now fault }
{
    match read_signature(alloc, text) {
        Ok(_) => Ok(()),
        Err(BlobFault::Memory) => Err(TableFault::Memory),
        Err(BlobFault::Bad(behind)) => {
            Err(TableFault::BadBlob(blob_place(heap, at, text) + behind))
        }
    }
}

// The signatures of rows, in order.
fn check_rows<R: Signed>(alloc: Global, rows: &[R], heap: &Heap, at: u32) -> Result<(), TableFault>
    requires heap { IsHeap Blobs heap.now }
    requires room { at + length heap.now.bytes.items < 2 ^ 30 }
    requires short { AllByRecursion (λ text. length text < 2 ^ 29) (map R.signature rows.now) }
    ensures found { OnOk result (AllByRecursion IsSignature (map R.signature rows.now)) }
    ensures fault { (fault : TableFault) → result ≡ Err fault → fault ≢ Memory → SignatureFault at (heap_texts heap.now) (map R.signature rows.now) fault }
{
    for row in rows {
        check_signature(alloc, row.signature(), heap, at)?;
    }
    Ok(())
}

// The signatures of a table.
fn check_table<R: Signed>(
    alloc: Global,
    rows: &List<R>,
    heap: &Heap,
    at: u32,
) -> Result<(), TableFault>
    requires heap { IsHeap Blobs heap.now }
    requires room { at + length heap.now.bytes.items < 2 ^ 30 }
    requires short { AllByRecursion (λ text. length text < 2 ^ 29) (map R.signature rows.now) }
    ensures found { OnOk result (AllByRecursion IsSignature (map R.signature rows.now)) }
    ensures fault { (fault : TableFault) → result ≡ Err fault → fault ≢ Memory → SignatureFault at (heap_texts heap.now) (map R.signature rows.now) fault }
{
    check_rows(alloc, rows.as_slice(), heap, at)
}

/// The signatures of a module, where the heap holds its blobs and stands from `at` on. It errs at the first blob that is no
/// signature, at the first byte with which none goes on.
pub(crate) fn check_signatures(
    alloc: Global,
    source: &Module,
    heap: &Heap,
    at: u32,
) -> Result<(), TableFault>
    requires heap { IsHeap Blobs heap.now }
    requires room { at + length heap.now.bytes.items < 2 ^ 30 }
    requires short { AreShort source.now }
    ensures found { OnOk result (AllByRecursion IsSignature (flat_map signature_of (all_cells source.now))) }
    ensures fault { (fault : TableFault) → result ≡ Err fault → fault ≢ Memory → SignatureFault at (heap_texts heap.now) (flat_map signature_of (all_cells source.now)) fault }
{
    check_table(alloc, &source.fields, heap, at)?;
    check_table(alloc, &source.methods, heap, at)?;
    check_table(alloc, &source.member_refs, heap, at)?;
    check_table(alloc, &source.stand_alone_sigs, heap, at)?;
    check_table(alloc, &source.properties, heap, at)?;
    check_table(alloc, &source.type_specs, heap, at)?;
    check_table(alloc, &source.method_specs, heap, at)?;
    Ok(())
}
