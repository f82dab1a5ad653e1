// Numbers and layouts written as bytes.
ghost use Rattle.std.specs.Prelude.{◌≡◌, ◌≤◌, ◌++◌, OnOk, OnErr};
ghost use Rattle.std.specs.List.{AllByRecursion};
ghost use Rattle.cc_layout.specs.Numbers.{little_endian, Extends};
ghost use Rattle.cc_layout.specs.Layout.{bytes_of, HasWidth};

use crate::field::Field;
use byteorder::{ByteOrder, LittleEndian};
use std::alloc::AllocError;

/// Appends the `width` lowest bytes of a number, the lowest first. Without memory nothing is appended.
pub fn write_number(width: u8, value: u64, into: &mut Vec<u8>) -> Result<(), AllocError>
    requires { width ≤ 8 }
    ensures ok { OnOk result (into.new.items ≡ into.old.items ++ little_endian width value) }
    ensures err { OnErr result (into.new.items ≡ into.old.items) }
{
    let mut bytes = [0; 8];
    LittleEndian::write_u64(&mut bytes, value);
    let (low, _) = bytes.split_at(width as usize);
    into.extend_from_slice(low)?;
    Ok(())
}

/// Appends the bytes of a layout, with zeros where any value will do. Without memory a prefix of them is appended.
pub fn write_fields(fields: &[Field], into: &mut Vec<u8>) -> Result<(), AllocError>
    requires { AllByRecursion HasWidth fields.now }
    ensures ok { OnOk result (into.new.items ≡ into.old.items ++ bytes_of fields.now) }
    ensures err { OnErr result (Extends into.old.items into.new.items (bytes_of fields.now)) }
{
    for field in fields {
        write_number(field.width, field.value.unwrap_or(0), into)?;
    }
    Ok(())
}
