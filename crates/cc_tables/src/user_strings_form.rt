// The form of `#US` (ECMA-335, II.24.2.4), and the user strings that it holds.
ghost use Rattle.std.specs.Prelude.{◌≡◌, ◌≢◌, ◌≤◌, ◌<◌, ◌+◌, ◌*◌, ◌^◌, ◌++◌, ℕ, List, length, Err, IfOk, IfSome, IfNone};
ghost use Rattle.std.specs.List.{flat_map, AllByRecursion};
ghost use Rattle.cc_layout.specs.Numbers.{little_endian};
ghost use Rattle.cc_module.specs.Heaps.{heap_bytes};
ghost use Rattle.cc_tables.specs.Forms.{user_strings_heap, IsHeapText, heap_entry, BeginsNone, Entries, HasForm, BeginsWithZero, FormFault};
ghost use Rattle.cc_tables.specs.declared.fault.TableFault.{TableFault};
ghost use Rattle.cc_tables.specs.declared.fault.TableFault.TheVariants.{Memory};

use crate::ends::end_fault;
use crate::fault::TableFault;
use crate::user_strings::special_mark;
use cc_base::{List, Text};
use cc_layout::{split_compressed, split_u16};
use std::alloc::{AllocError, Global};

// The units that stand in bytes, two bytes each.
fn units_of(alloc: Global, pairs: &[u8]) -> Result<Vec<u16>, AllocError>
    requires { (count : ℕ) × (length pairs.now ≡ 2 * count) }
    ensures pairs { IfOk result (λ units. flat_map (little_endian 2) units.items ≡ pairs.now) }
    ensures units { IfOk result (λ units. AllByRecursion (λ unit. unit < 2 ^ 16) units.items) }
{
    let mut units = Vec::new(alloc);
    let mut rest = pairs;
    while let Some((unit, after)) = split_u16(rest) {
        units.push(unit)?;
        rest = after;
    }
    Ok(units)
}

// The user string that the bytes begin with, and what stands behind it.
fn split_user_string(alloc: Global, bytes: &[u8]) -> Result<Option<(Vec<u16>, &[u8])>, AllocError>
    ensures some { IfOk result (λ found. IfSome found (λ r. IsHeapText user_strings_heap r.0.items × (bytes.now ≡ heap_entry user_strings_heap r.0.items ++ r.1.now))) }
    ensures none { IfOk result (λ found. IfNone found (BeginsNone user_strings_heap bytes.now)) }
{
    let Ok((length, rest)) = split_compressed(bytes) else {
        return Ok(None);
    };
    if length % 2 == 0 {
        return Ok(None);
    }
    if rest.len() < length as usize {
        return Ok(None);
    }
    let (pairs, tail) = rest.split_at(length as usize - 1);
    let units = units_of(alloc, pairs)?;
    if tail[0] != special_mark(&units) {
        return Ok(None);
    }
    let (_, after) = tail.split_at(1);
    Ok(Some((units, after)))
}

// The user strings of a stream, and how many bytes the zero and their entries have.
fn split_user_strings(alloc: Global, stream: &[u8]) -> Result<(Vec<Text>, usize), AllocError>
    requires { BeginsWithZero stream.now }
    ensures { IfOk result (λ r. (rest : List ℕ) × Entries user_strings_heap stream.now r.0.items rest × (r.1 ≡ length (heap_bytes (heap_entry user_strings_heap) r.0.items))) }
{
    let mut texts = Vec::new(alloc);
    let (_, mut rest) = stream.split_at(1);
    while let Some((units, after)) = split_user_string(alloc, rest)? {
        texts.push(List::from_vec(units))?;
        rest = after;
    }
    Ok((texts, stream.len() - rest.len()))
}

/// The user strings of the stream `#US`, where it stands from `at` on. It errs at the first byte that keeps the stream from
/// being a zero, user strings, and zeros to a multiple of four.
pub fn read_user_strings(alloc: Global, stream: &[u8], at: u32) -> Result<List<Text>, TableFault>
    requires { at + length stream.now < 2 ^ 32 }
    ensures form { IfOk result (HasForm user_strings_heap stream.now) }
    ensures fault { (fault : TableFault) → result ≡ Err fault → fault ≢ Memory → FormFault user_strings_heap at stream.now fault }
{
    if stream.is_empty() || stream[0] != 0 {
        return Err(TableFault::BadStream(at));
    }
    let (texts, used) = split_user_strings(alloc, stream)?;
    match end_fault(at, used as u64, stream) {
        None => Ok(List::from_vec(texts)),
        Some(fault) => Err(fault),
    }
}
