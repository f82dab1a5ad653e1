// Compressed unsigned numbers (ECMA-335, II.23.2).
ghost use Rattle.std.specs.Prelude.{◌≡◌, ◌<◌, ◌^◌, ◌++◌, IfOk, IfErr, OnOk, OnErr};
ghost use Rattle.cc_layout.specs.Codes.{IsBad};
ghost use Rattle.cc_layout.specs.Compressed.{compressed, IsCompressed};

use byteorder::{BigEndian, ByteOrder};
use std::alloc::AllocError;

/// The compressed number at the front and the bytes after it. An error is the first place at which no compressed number
/// continues the bytes before it, as in a form that is not the shortest, or the length of bytes that end too early.
#[tactic(auto, using(crate::proofs::CompressedForms::at_empty, crate::proofs::CompressedForms::at_first, crate::proofs::CompressedForms::at_second, crate::proofs::CompressedForms::at_third, crate::proofs::CompressedForms::at_short_1, crate::proofs::CompressedForms::at_short_2, crate::proofs::CompressedForms::at_short_3))]
pub fn split_compressed(bytes: &[u8]) -> Result<(u32, &[u8]), u32>
    ensures ok { IfOk result (λ r. (r.0 < 2 ^ 29) × (bytes.now ≡ compressed r.0 ++ r.1.now)) }
    ensures err { IfErr result (λ n. IsBad IsCompressed bytes.now n) }
{
    if bytes.is_empty() {
        return Err(0);
    }
    let a = bytes[0];
    if a < 0x80 {
        return Ok((a as u32, &bytes[1..]));
    }
    if a >= 0xE0 {
        return Err(0);
    }
    if bytes.len() == 1 {
        return Err(1);
    }
    let b = bytes[1];
    if a < 0xC0 {
        if a == 0x80 && b < 0x80 {
            return Err(1);
        }
        return Ok(((a as u32 - 0x80) * 0x100 + b as u32, &bytes[2..]));
    }
    if bytes.len() == 2 {
        return Err(2);
    }
    let c = bytes[2];
    if a == 0xC0 && b == 0 && c < 0x40 {
        return Err(2);
    }
    if bytes.len() == 3 {
        return Err(3);
    }
    let high = (a as u32 - 0xC0) * 0x100 + b as u32;
    let low = c as u32 * 0x100 + bytes[3] as u32;
    Ok((high * 0x10000 + low, &bytes[4..]))
}

/// Appends a number in its shortest compressed form. Without memory nothing is appended.
pub fn write_compressed(value: u32, into: &mut Vec<u8>) -> Result<(), AllocError>
    requires { value < 2 ^ 29 }
    ensures ok { OnOk result (into.new.items ≡ into.old.items ++ compressed value) }
    ensures err { OnErr result (into.new.items ≡ into.old.items) }
{
    let mut bytes = [0; 4];
    if value < 0x80 {
        into.push(value as u8)?;
    } else if value < 0x4000 {
        BigEndian::write_u16(&mut bytes, 0x8000 + value as u16);
        into.extend_from_slice(&bytes[..2])?;
    } else {
        BigEndian::write_u32(&mut bytes, 0xC000_0000 + value);
        into.extend_from_slice(&bytes)?;
    }
    Ok(())
}
