// The root and the headers of the streams, read (ECMA-335, II.24.2.1 and II.24.2.2).
ghost use Rattle.std.specs.Prelude.{◌≡◌, ◌≢◌, ◌<◌, ◌^◌, ◌++◌, length, Some, None, Err, IfOk, OnOk};
ghost use Rattle.cc_layout.specs.Layout.{number, run, fault_of};
ghost use Rattle.cc_module.specs.Metadata.{root, stream_header, stream_headers};
ghost use Rattle.cc_tables.specs.Faults.{whole, lengths_in, AreLengths, headers, located, headers_fault};
ghost use Rattle.cc_tables.specs.declared.fault.TableFault.{TableFault};
ghost use Rattle.cc_tables.specs.declared.fault.TableFault.TheVariants.{Memory};

use crate::fault::TableFault;
use cc_layout::{Field, FieldFault, first_fault, peek_number};
use std::alloc::{AllocError, Global};

/// The sizes of the streams but `#GUID`, as their headers tell them.
#[derive(Clone, Copy, Debug, PartialEq, Eq)]
pub struct StreamLengths {
    pub tables: u64,
    pub strings: u64,
    pub user_strings: u64,
    pub blobs: u64,
}

fn push_run(bytes: &[u8], into: &mut Vec<Field>) -> Result<(), AllocError>
    ensures { OnOk result (into.new.items ≡ into.old.items ++ run bytes.now) }
{
    for byte in bytes {
        into.push(Field::number(1, *byte as u64))?;
    }
    Ok(())
}

fn push_root(into: &mut Vec<Field>) -> Result<(), AllocError>
    ensures { OnOk result (into.new.items ≡ into.old.items ++ root) }
{
    push_run(b"BSJB", into)?;
    into.extend_from_slice(&[
        Field::number(2, 1),
        Field::number(2, 1),
        Field::number(4, 0),
        Field::number(4, 12),
    ])?;
    push_run(b"v4.0.30319\0\0", into)?;
    into.extend_from_slice(&[Field::number(2, 0), Field::number(2, 5)])?;
    Ok(())
}

fn push_stream_header(
    offset: u64,
    size: u64,
    title: &[u8],
    into: &mut Vec<Field>,
) -> Result<(), AllocError>
    ensures { OnOk result (into.new.items ≡ into.old.items ++ stream_header offset size title.now) }
{
    into.push(Field::number(4, offset))?;
    into.push(Field::number(4, size))?;
    push_run(title, into)?;
    Ok(())
}

fn push_stream_headers(lengths: StreamLengths, into: &mut Vec<Field>) -> Result<(), AllocError>
    requires { AreLengths lengths }
    ensures { OnOk result (into.new.items ≡ into.old.items ++ stream_headers lengths.tables lengths.strings lengths.user_strings lengths.blobs) }
{
    let strings = 108 + lengths.tables;
    let user_strings = strings + lengths.strings;
    let unique = user_strings + lengths.user_strings;
    let blobs = unique + 16;
    push_stream_header(108, lengths.tables, b"#~\0\0", into)?;
    push_stream_header(strings, lengths.strings, b"#Strings\0\0\0\0", into)?;
    push_stream_header(user_strings, lengths.user_strings, b"#US\0", into)?;
    push_stream_header(unique, 16, b"#GUID\0\0\0", into)?;
    push_stream_header(blobs, lengths.blobs, b"#Blob\0\0\0", into)?;
    Ok(())
}

fn header_fields(alloc: Global, lengths: StreamLengths) -> Result<Vec<Field>, AllocError>
    requires { AreLengths lengths }
    ensures { IfOk result (λ fields. fields.items ≡ headers lengths) }
{
    let mut fields = Vec::new(alloc);
    push_root(&mut fields)?;
    push_stream_headers(lengths, &mut fields)?;
    Ok(fields)
}

// A multiple of four.
fn whole(size: u64) -> u64
    ensures { result ≡ whole size }
{
    size / 4 * 4
}

// The sizes that stand in the headers, 0 where the bytes end before.
fn lengths_in(bytes: &[u8]) -> StreamLengths
    ensures lengths { result ≡ lengths_in bytes.now }
    ensures fit { AreLengths result }
{
    StreamLengths {
        tables: whole(peek_number(bytes, 36, 4)),
        strings: whole(peek_number(bytes, 48, 4)),
        user_strings: whole(peek_number(bytes, 68, 4)).min(0xFF_FFFC),
        blobs: whole(peek_number(bytes, 96, 4)),
    }
}

fn located(fault: FieldFault) -> TableFault
    ensures { result ≡ located fault }
{
    let (FieldFault::Missing(place) | FieldFault::Differs(place)) = fault;
    if place < 32 {
        TableFault::BadRoot(place)
    } else {
        TableFault::BadStream(place)
    }
}

/// The sizes of the streams of metadata. It errs at the first field of the root or of a stream's header that is missing or
/// differs; a size that no stream of the kind has differs too.
pub fn read_headers(alloc: Global, bytes: &[u8]) -> Result<StreamLengths, TableFault>
    requires { length bytes.now < 2 ^ 32 }
    ensures lengths { IfOk result (λ lengths. lengths ≡ lengths_in bytes.now) }
    ensures fit { IfOk result AreLengths }
    ensures found { OnOk result (headers_fault bytes.now ≡ None) }
    ensures fault { (fault : TableFault) → result ≡ Err fault → fault ≢ Memory → headers_fault bytes.now ≡ Some fault }
{
    let lengths = lengths_in(bytes);
    let fields = header_fields(alloc, lengths)?;
    match first_fault(&fields, bytes, 0) {
        None => Ok(lengths),
        Some(fault) => Err(located(fault)),
    }
}
