// Metadata before its heaps: its size, the root, the headers of the streams, their sizes, and `#~` but for what its rows are
// (ECMA-335, II.24.2).
ghost use Rattle.std.specs.Prelude.{◌≡◌, ◌≢◌, ◌≤◌, ◌<◌, ◌+◌, ◌^◌, length, Some, None, Err, IfOk, OnOk};
ghost use Rattle.cc_layout.specs.Layout.{peeked};
ghost use Rattle.cc_module.specs.Metadata.{tables};
ghost use Rattle.cc_tables.specs.Counts.{counts_in};
ghost use Rattle.cc_tables.specs.Faults.{lengths_in, AreLengths, headers_fault};
ghost use Rattle.cc_tables.specs.Reading.{size_fault, length_fault, streams_end, piece, streams_in, heap_lengths, start_fault, tables_fault};
ghost use Rattle.cc_tables.specs.declared.fault.TableFault.{TableFault};
ghost use Rattle.cc_tables.specs.declared.fault.TableFault.TheVariants.{Memory};

use crate::counts::TableCounts;
use crate::fault::TableFault;
use crate::headers::{StreamLengths, read_headers};
use crate::tables_form::read_tables_form;
use crate::width::StreamSizes;
use std::alloc::Global;

// Whether a file with this metadata and without bodies is too large.
fn size_fault(bytes: &[u8]) -> Option<TableFault>
    ensures fault { result ≡ size_fault bytes.now }
    ensures small { result ≡ None → length bytes.now < 2 ^ 28 }
{
    let used = 0x48 + bytes.len() as u64;
    if 0x200 + (used + 0x1FF) / 0x200 * 0x200 < 1 << 28 {
        None
    } else {
        Some(TableFault::BadRoot(0))
    }
}

// Whether the streams end where the bytes do.
fn length_fault(lengths: StreamLengths, bytes: &[u8]) -> Option<TableFault>
    requires lengths { AreLengths lengths }
    requires small { length bytes.now < 2 ^ 28 }
    ensures fault { result ≡ length_fault lengths bytes.now }
    ensures whole { result ≡ None → streams_end lengths ≡ length bytes.now }
{
    let end = 108 + lengths.tables + lengths.strings + lengths.user_strings + 16 + lengths.blobs;
    let length = bytes.len() as u64;
    if length < end {
        return Some(TableFault::BadStream(length as u32));
    }
    if end < length {
        return Some(TableFault::BadStream(end as u32));
    }
    None
}

/// So many bytes from a place on.
pub(crate) fn piece(bytes: &[u8], place: u64, size: u64) -> &[u8]
    requires { place + size ≤ length bytes.now }
    ensures { result.now ≡ piece place size bytes.now }
{
    let (_, rest) = bytes.split_at(place as usize);
    let (part, _) = rest.split_at(size as usize);
    part
}

/// The sizes of the streams and the numbers of rows. It errs at the first check that fails: a file of 2^28 bytes or more, the
/// root, the headers of the streams, their sizes, `#~` but for what its rows are.
pub fn read_start(alloc: Global, bytes: &[u8]) -> Result<(StreamLengths, TableCounts), TableFault>
    ensures lengths { IfOk result (λ r. r.0 ≡ lengths_in bytes.now) }
    ensures counts { IfOk result (λ r. let stream = (streams_in (lengths_in bytes.now) bytes.now).tables in r.1.counts.items ≡ counts_in (peeked 8 8 stream) 24 tables stream) }
    ensures whole { IfOk result (λ r. streams_end r.0 ≡ length bytes.now) }
    ensures small { OnOk result (length bytes.now < 2 ^ 28) }
    ensures found { OnOk result (start_fault bytes.now ≡ None) }
    ensures fault { (fault : TableFault) → result ≡ Err fault → fault ≢ Memory → start_fault bytes.now ≡ Some fault }
{
    if let Some(fault) = size_fault(bytes) {
        return Err(fault);
    }
    let lengths = read_headers(alloc, bytes)?;
    if let Some(fault) = length_fault(lengths, bytes) {
        return Err(fault);
    }
    let sizes = StreamSizes {
        strings: lengths.strings as usize,
        blobs: lengths.blobs as usize,
    };
    let counts = read_tables_form(alloc, piece(bytes, 108, lengths.tables), sizes)?;
    Ok((lengths, counts))
}
