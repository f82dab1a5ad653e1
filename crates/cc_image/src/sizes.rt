// What the headers of an image tell, and what stands in their fields (ECMA-335, II.25.2 and II.25.3.3).
ghost use Rattle.std.specs.Prelude.{◌≡◌, ◌<◌, ◌≤◌, ◌^◌, ◌+◌, ◌*◌, ◌/◌};
ghost use Rattle.cc_module.specs.Storable.{file_aligned};
ghost use Rattle.cc_image.specs.Headers.{first_size, size_again, value_in, written_for, bytes_in, field_of};

use crate::layout::{Item, Value, Width};
use cc_layout::Field;

/// What the headers tell of an image.
#[derive(Clone, Copy, Debug, PartialEq, Eq)]
pub struct Sizes {
    /// The size of the section in the file.
    pub section: u32,
    /// How much of the section is used.
    pub used: u32,
    /// Where the metadata are loaded.
    pub metadata_place: u32,
    /// The size of the metadata.
    pub metadata_size: u32,
    /// The token of the method that a run begins with.
    pub entry: u32,
}

/// No field of four bytes has it.
const NO_NUMBER: u64 = 0x1_0000_0000;

fn first_size(section: u32) -> u64
    ensures { result ≡ first_size section }
{
    if 0x200 + (section as u64) < 0x1000_0000 {
        section as u64
    } else {
        NO_NUMBER
    }
}

fn size_again(section: u32, used: u32) -> u64
    ensures { result ≡ size_again section used }
{
    if section as u64 == (used as u64 + 0x1FF) / 0x200 * 0x200 {
        section as u64
    } else {
        NO_NUMBER
    }
}

fn value_in(value: Value, sizes: &Sizes) -> Option<u64>
    ensures { result ≡ value_in sizes.now value }
{
    match value {
        Value::Is(number) => Some(number as u64),
        Value::Ignored(_) => None,
        Value::SectionSize => Some(first_size(sizes.section)),
        Value::SectionSizeAgain => Some(size_again(sizes.section, sizes.used)),
        Value::UsedSize => Some(sizes.used as u64),
        Value::ImageSize => Some(0x2000 + (sizes.section as u64 + 0x1FFF) / 0x2000 * 0x2000),
        Value::MetadataPlace => Some(sizes.metadata_place as u64),
        Value::MetadataSize => Some(sizes.metadata_size as u64),
        Value::Entry => Some(sizes.entry as u64),
    }
}

/// What is written where any number will do.
pub fn written_for(value: Value) -> u64
    ensures { result ≡ written_for value }
{
    match value {
        Value::Ignored(number) => number as u64,
        Value::Is(_)
        | Value::SectionSize
        | Value::SectionSizeAgain
        | Value::UsedSize
        | Value::ImageSize
        | Value::MetadataPlace
        | Value::MetadataSize
        | Value::Entry => 0,
    }
}

fn bytes_in(width: Width) -> u8
    ensures { result ≡ bytes_in width }
{
    match width {
        Width::U8 => 1,
        Width::U16 => 2,
        Width::U32 => 4,
    }
}

/// A field of a header of an image with these sizes.
pub fn field_of(item: &Item, sizes: &Sizes) -> Field
    ensures field { result ≡ field_of sizes.now item.now }
    ensures width { result.width ≤ 8 }
{
    Field {
        width: bytes_in(item.0),
        value: value_in(item.1, sizes),
    }
}
