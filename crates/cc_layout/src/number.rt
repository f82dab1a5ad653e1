// Little-endian numbers at the front of bytes.
ghost use Rattle.std.specs.Prelude.{◌≡◌, ◌<◌, ◌++◌, length, MatchOption};
ghost use Rattle.cc_layout.specs.Numbers.{little_endian};

use byteorder::{ByteOrder, LittleEndian};

/// The number of the first byte and the bytes after it, `None` exactly where there is no byte.
pub fn split_u8(bytes: &[u8]) -> Option<(u8, &[u8])>
    ensures { MatchOption result (length bytes.now < 1) (λ r. bytes.now ≡ little_endian 1 r.0 ++ r.1.now) }
{
    match bytes {
        [] => None,
        [first, rest @ ..] => Some((*first, rest)),
    }
}

/// The number of the first two bytes and the bytes after them, `None` exactly where there are fewer.
pub fn split_u16(bytes: &[u8]) -> Option<(u16, &[u8])>
    ensures { MatchOption result (length bytes.now < 2) (λ r. bytes.now ≡ little_endian 2 r.0 ++ r.1.now) }
{
    if bytes.len() < 2 {
        return None;
    }
    Some((LittleEndian::read_u16(bytes), &bytes[2..]))
}

/// The number of the first four bytes and the bytes after them, `None` exactly where there are fewer.
pub fn split_u32(bytes: &[u8]) -> Option<(u32, &[u8])>
    ensures { MatchOption result (length bytes.now < 4) (λ r. bytes.now ≡ little_endian 4 r.0 ++ r.1.now) }
{
    if bytes.len() < 4 {
        return None;
    }
    Some((LittleEndian::read_u32(bytes), &bytes[4..]))
}

/// The number of the first eight bytes and the bytes after them, `None` exactly where there are fewer.
pub fn split_u64(bytes: &[u8]) -> Option<(u64, &[u8])>
    ensures { MatchOption result (length bytes.now < 8) (λ r. bytes.now ≡ little_endian 8 r.0 ++ r.1.now) }
{
    if bytes.len() < 8 {
        return None;
    }
    Some((LittleEndian::read_u64(bytes), &bytes[8..]))
}
