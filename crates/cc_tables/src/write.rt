// The metadata of a module as bytes (ECMA-335, II.24.2).
ghost use Rattle.std.specs.Prelude.{◌≡◌, ◌<◌, ◌^◌, ◌+◌, ◌++◌, length, replicate, IfOk, OnOk};
ghost use Rattle.cc_layout.specs.Layout.{bytes_of};
ghost use Rattle.cc_module.specs.Metadata.{stream_header, stream_headers, joined_streams, metadata_bytes, GUID_SIZE};
ghost use Rattle.cc_module.specs.Storable.{IsStorable};

use crate::numbering::Numbering;
use crate::row::number_module;
use crate::table_stream::table_stream;
use crate::user_strings::user_strings_stream;
use crate::width::StreamSizes;
use cc_layout::write_number;
use cc_module::Module;
use std::alloc::{AllocError, Global};

/// The root before the headers of the streams (II.24.2.1): `BSJB`, the versions 1 and 1, the length and the text of the
/// version of the format, and the number of streams.
static ROOT: [u8; 32] = [
    0x42, 0x53, 0x4A, 0x42, 1, 0, 1, 0, 0, 0, 0, 0, 12, 0, 0, 0, 0x76, 0x34, 0x2E, 0x30, 0x2E,
    0x33, 0x30, 0x33, 0x31, 0x39, 0, 0, 0, 0, 5, 0,
];

/// Where the first stream begins: behind the root and the headers of the streams.
const FIRST_STREAM: u64 = 108;

fn write_stream_header(
    offset: u64,
    size: u64,
    title: &[u8],
    into: &mut Vec<u8>,
) -> Result<(), AllocError>
    ensures { OnOk result (into.new.items ≡ into.old.items ++ bytes_of (stream_header offset size title.now)) }
{
    write_number(4, offset, into)?;
    write_number(4, size, into)?;
    into.extend_from_slice(title)?;
    Ok(())
}

fn write_stream_headers(
    tables: u64,
    strings: u64,
    user_strings: u64,
    blobs: u64,
    into: &mut Vec<u8>,
) -> Result<(), AllocError>
    requires { tables + strings + user_strings + blobs < 2 ^ 32 }
    ensures { OnOk result (into.new.items ≡ into.old.items ++ bytes_of (stream_headers tables strings user_strings blobs)) }
{
    let mut offset = FIRST_STREAM;
    write_stream_header(offset, tables, b"#~\0\0", into)?;
    offset += tables;
    write_stream_header(offset, strings, b"#Strings\0\0\0\0", into)?;
    offset += strings;
    write_stream_header(offset, user_strings, b"#US\0", into)?;
    offset += user_strings;
    write_stream_header(offset, 16, b"#GUID\0\0\0", into)?;
    offset += 16;
    write_stream_header(offset, blobs, b"#Blob\0\0\0", into)?;
    Ok(())
}

// The root, the headers of the streams and the streams, with zeros as the GUID.
fn join_streams(
    alloc: Global,
    tables: &[u8],
    strings: &[u8],
    user_strings: &[u8],
    blobs: &[u8],
) -> Result<Vec<u8>, AllocError>
    requires { length tables.now + length strings.now + length user_strings.now + length blobs.now < 2 ^ 32 }
    ensures { IfOk result (λ bytes. bytes.items ≡ joined_streams tables.now strings.now user_strings.now (replicate GUID_SIZE 0) blobs.now) }
{
    let mut bytes = Vec::from_slice(alloc, &ROOT)?;
    let (a, b) = (tables.len() as u64, strings.len() as u64);
    let (c, d) = (user_strings.len() as u64, blobs.len() as u64);
    write_stream_headers(a, b, c, d, &mut bytes)?;
    bytes.extend_from_slice(tables)?;
    bytes.extend_from_slice(strings)?;
    bytes.extend_from_slice(user_strings)?;
    bytes.extend_from_slice(&[0; 16])?;
    bytes.extend_from_slice(blobs)?;
    Ok(bytes)
}

/// The metadata of a module that a file can hold (ECMA-335, II.24): the root, `#~`, `#Strings`, `#US`, `#GUID` and `#Blob`.
/// It errs only where memory does not suffice.
pub fn write_metadata(alloc: Global, module: &Module) -> Result<Vec<u8>, AllocError>
    requires { IsStorable «module».now }
    ensures { IfOk result (λ bytes. bytes.items ≡ metadata_bytes «module».now) }
{
    let mut numbering = Numbering::new(alloc)?;
    number_module(alloc, module, &mut numbering)?;
    let Numbering {
        names,
        blobs,
        slots,
    } = numbering;
    let strings = names.into_stream()?;
    let blobs = blobs.into_stream()?;
    let user_strings = user_strings_stream(alloc, module.texts.as_slice())?;
    let sizes = StreamSizes {
        strings: strings.len(),
        blobs: blobs.len(),
    };
    let tables = table_stream(alloc, module, sizes, &slots)?;
    let bytes = join_streams(alloc, &tables, &strings, &user_strings, &blobs)?;
    Ok(bytes)
}
