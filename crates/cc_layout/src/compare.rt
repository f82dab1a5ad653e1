// Bytes compared with a layout.
ghost use Rattle.std.specs.Prelude.{◌≡◌, ◌<◌, ◌≤◌, ◌^◌, ◌+◌, ℕ, length, take, drop, IfNone};
ghost use Rattle.std.specs.List.{AllByRecursion};
ghost use Rattle.cc_layout.specs.Numbers.{value_of};
ghost use Rattle.cc_layout.specs.Layout.{peeked, fault_of, HasWidth, agrees, width_of};

use crate::field::{Field, FieldFault};
use byteorder::{ByteOrder, LittleEndian};

/// The number of the first bytes, of which there are one to eight.
pub fn number_at(bytes: &[u8], width: u8) -> u64
    requires width { (1 ≤ width) × (width ≤ 8) }
    requires room { width ≤ length bytes.now }
    ensures value { result ≡ value_of (take width bytes.now) }
    ensures fits { result < 256 ^ width }
{
    LittleEndian::read_uint(bytes, width as usize)
}

/// The number of `width` bytes at a place, 0 where they are not all there.
pub fn peek_number(bytes: &[u8], place: u32, width: u8) -> u64
    requires { (1 ≤ width) × (width ≤ 8) }
    ensures value { result ≡ peeked width place bytes.now }
    ensures fits { result < 256 ^ width }
{
    if bytes.len() < place as usize + width as usize {
        return 0;
    }
    let (_, rest) = bytes.split_at(place as usize);
    number_at(rest, width)
}

fn agrees(value: Option<u64>, n: u64) -> bool
    ensures { result ≡ agrees value n }
{
    match value {
        None => true,
        Some(v) => v == n,
    }
}

/// The first field that the bytes do not have, with its place, where the bytes stand from `at` on.
pub fn first_fault(fields: &[Field], bytes: &[u8], at: u32) -> Option<FieldFault>
    requires widths { AllByRecursion HasWidth fields.now }
    requires room { at + length bytes.now < 2 ^ 32 }
    ensures fault { result ≡ fault_of at fields.now bytes.now }
    ensures room { IfNone result (width_of fields.now ≤ length bytes.now) }
{
    let mut rest = bytes;
    let mut place = at;
    for field in fields {
        if rest.len() < field.width as usize {
            return Some(FieldFault::Missing(place + rest.len() as u32));
        }
        if !agrees(field.value, number_at(rest, field.width)) {
            return Some(FieldFault::Differs(place));
        }
        let (_, after) = rest.split_at(field.width as usize);
        rest = after;
        place += field.width as u32;
    }
    None
}
