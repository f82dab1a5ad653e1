// Heaps of names and blobs, each entry once, where it is used first (ECMA-335, II.24.2.3 and II.24.2.4).
ghost use Rattle.std.specs.Prelude.{◌≡◌, ◌≢◌, ◌<◌, ◌≤◌, ◌+◌, ◌^◌, ◌++◌, [], ◌∷◌, Some, None, Err, length, IfOk, OnOk};
ghost use Rattle.std.specs.Str.{bytes_eq};
ghost use Rattle.indexmap.specs.IndexMap.{get_by};
ghost use Rattle.cc_module.specs.Heaps.{padded, filled, heap_bytes, place_of};
ghost use Rattle.cc_tables.specs.declared.heap.HeapKind.TheVariants.{Blobs};
ghost use Rattle.cc_tables.specs.Numbering.{entry_of, heap_texts, with_texts, IsHeap};
ghost use Rattle.cc_tables.specs.Reading.{unused_fault};
ghost use Rattle.cc_tables.specs.declared.fault.TableFault.{TableFault};
ghost use Rattle.cc_tables.specs.declared.fault.TableFault.TheVariants.{Memory};

use crate::fault::TableFault;
use crate::pad::pad;
use cc_layout::write_compressed;
use indexmap::IndexMap;
use std::alloc::{AllocError, Global};

/// What a heap holds.
#[derive(Clone, Copy, Debug, PartialEq, Eq)]
pub enum HeapKind {
    /// Names, each with a zero behind it (II.24.2.3).
    Names,
    /// Blobs, each behind its compressed length (II.24.2.4).
    Blobs,
}

/// The entries met so far.
#[derive(Drop)]
pub(crate) struct Heap {
    pub(crate) kind: HeapKind,
    /// Where the entry of each text begins.
    pub(crate) places: IndexMap<Vec<u8>, usize>,
    pub(crate) bytes: Vec<u8>,
}

fn write_entry(kind: HeapKind, text: &[u8], into: &mut Vec<u8>) -> Result<(), AllocError>
    requires { kind ≡ Blobs → length text.now < 2 ^ 29 }
    ensures { OnOk result (into.new.items ≡ into.old.items ++ entry_of kind text.now) }
{
    match kind {
        HeapKind::Names => {
            into.extend_from_slice(text)?;
            into.push(0)?;
        }
        HeapKind::Blobs => {
            write_compressed(text.len() as u32, into)?;
            into.extend_from_slice(text)?;
        }
    }
    Ok(())
}

impl Heap {
    /// A heap without entries, whose first byte is 0.
    pub(crate) fn new(alloc: Global, kind: HeapKind) -> Result<Heap, AllocError>
        ensures heap { IfOk result (IsHeap kind) }
        ensures empty { IfOk result (λ heap. heap_texts heap ≡ []) }
    {
        Ok(Heap {
            kind,
            places: IndexMap::new(alloc),
            bytes: vec![in alloc; 0]?,
        })
    }

    /// The place of a text's entry, which is made where there is none. The empty text has the place 0.
    pub(crate) fn place(&mut self, alloc: Global, text: &[u8]) -> Result<usize, AllocError>
        requires heap { IsHeap self.old.kind self.old }
        requires short { self.old.kind ≡ Blobs → length text.now < 2 ^ 29 }
        ensures heap { OnOk result (IsHeap self.old.kind self.new) }
        ensures place { IfOk result (λ place. place ≡ place_of (entry_of self.old.kind) (heap_texts self.old) text.now) }
        ensures texts { OnOk result (heap_texts self.new ≡ with_texts (heap_texts self.old) (filled text.now)) }
    {
        if text.is_empty() {
            return Ok(0);
        }
        if let Some(place) = self.find(text) {
            return Ok(place);
        }
        let place = self.add(alloc, text)?;
        Ok(place)
    }

    fn find(&self, text: &[u8]) -> Option<usize>
        ensures { result ≡ get_by (λ key. bytes_eq text.now key.items) self.now.places }
    {
        self.places.get(text).copied()
    }

    /// The place of a text's entry; where the entries end, if it has none. The empty text has the place 0.
    pub(crate) fn place_of(&self, text: &[u8]) -> usize
        requires { IsHeap self.now.kind self.now }
        ensures place { result ≡ place_of (entry_of self.now.kind) (heap_texts self.now) text.now }
        ensures within { result ≤ length self.now.bytes.items }
    {
        if text.is_empty() {
            return 0;
        }
        match self.find(text) {
            Some(place) => place,
            None => self.bytes.len(),
        }
    }

    /// Whether the entries are all that a stream holds, which stands from `at` on. It errs at the first byte behind them.
    pub(crate) fn check_used(&self, alloc: Global, stream: &[u8], at: u32) -> Result<(), TableFault>
        requires heap { IsHeap self.now.kind self.now }
        requires room { at + length stream.now < 2 ^ 32 }
        ensures found { OnOk result (unused_fault (entry_of self.now.kind) at stream.now (heap_texts self.now) ≡ None) }
        ensures fault { (fault : TableFault) → result ≡ Err fault → fault ≢ Memory → unused_fault (entry_of self.now.kind) at stream.now (heap_texts self.now) ≡ Some fault }
    {
        let mut used = Vec::from_slice(alloc, &self.bytes)?;
        pad(&mut used)?;
        if used.as_slice() == stream {
            Ok(())
        } else {
            let end = self.bytes.len().min(stream.len());
            Err(TableFault::BadStream(at + end as u32))
        }
    }

    /// The bytes of the heap, with zeros up to a multiple of four.
    pub(crate) fn into_stream(self) -> Result<Vec<u8>, AllocError>
        requires { IsHeap self.kind self }
        ensures { IfOk result (λ bytes. bytes.items ≡ padded (heap_bytes (entry_of self.kind) (heap_texts self))) }
    {
        let mut bytes = self.bytes;
        pad(&mut bytes)?;
        Ok(bytes)
    }

    // The place of an entry that is new.
    fn add(&mut self, alloc: Global, text: &[u8]) -> Result<usize, AllocError>
        requires heap { IsHeap self.old.kind self.old }
        requires short { self.old.kind ≡ Blobs → length text.now < 2 ^ 29 }
        requires absent { get_by (λ key. bytes_eq text.now key.items) self.old.places ≡ None }
        ensures heap { OnOk result (IsHeap self.old.kind self.new) }
        ensures place { IfOk result (λ place. place ≡ length self.old.bytes.items) }
        ensures texts { OnOk result (heap_texts self.new ≡ heap_texts self.old ++ text.now ∷ []) }
    {
        let place = self.bytes.len();
        let key = Vec::from_slice(alloc, text)?;
        write_entry(self.kind, text, &mut self.bytes)?;
        self.places.insert(key, place)?;
        Ok(place)
    }
}
