// The ends of streams (ECMA-335, II.24.2.2).
ghost use Rattle.std.specs.Prelude.{◌≡◌, ◌<◌, ◌≤◌, ◌+◌, ◌^◌, length};
ghost use Rattle.cc_tables.specs.Faults.{in_stream, rest_fault, end_fault};

use crate::fault::TableFault;
use cc_layout::{Field, FieldFault, first_fault};

/// The fault of a field of a stream.
pub(crate) fn in_stream(fault: FieldFault) -> TableFault
    ensures { result ≡ in_stream fault }
{
    match fault {
        FieldFault::Missing(place) | FieldFault::Differs(place) => TableFault::BadStream(place),
    }
}

// The first byte that keeps bytes from being so many zeros.
fn rest_fault(place: u32, count: usize, rest: &[u8]) -> Option<TableFault>
    requires few { count ≤ 3 }
    requires room { place + length rest.now < 2 ^ 32 }
    ensures { result ≡ rest_fault place count rest.now }
{
    let zeros = [Field::number(1, 0); 3];
    if let Some(fault) = first_fault(&zeros[..count], rest, place) {
        return Some(in_stream(fault));
    }
    if count < rest.len() {
        return Some(TableFault::BadStream(place + count as u32));
    }
    None
}

/// The first fault behind the bytes of a stream that are used, where the stream stands from `at` on: zeros to a multiple of
/// four follow, and nothing else.
pub fn end_fault(at: u32, used: u64, stream: &[u8]) -> Option<TableFault>
    requires { at + length stream.now < 2 ^ 32 }
    ensures { result ≡ end_fault at used stream.now }
{
    if (stream.len() as u64) < used {
        return Some(TableFault::BadStream(at + stream.len() as u32));
    }
    let (_, rest) = stream.split_at(used as usize);
    let count = (4 - used % 4) % 4;
    rest_fault(at + used as u32, count as usize, rest)
}
