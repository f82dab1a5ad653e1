// Entries at the front of bytes of a heap (ECMA-335, II.24.2.3 and II.24.2.4).
ghost use Rattle.std.specs.Prelude.{◌≡◌, ◌<◌, ◌≤◌, ◌++◌, length, take, slice_index, true, false, IsUtf8, IfSome, IfNone};
ghost use Rattle.std.specs.List.{AllByRecursion};
ghost use Rattle.cc_tables.specs.Forms.{IsHeapText, heap_entry, strings_heap, blob_heap, form_of, BeginsNone};

use crate::heap::HeapKind;
use cc_layout::split_compressed;
use std::str;

// How many bytes stand before the first zero, or at all.
fn name_length(bytes: &[u8]) -> usize
    ensures within { result ≤ length bytes.now }
    ensures filled { AllByRecursion (λ byte. 0 < byte) (take result bytes.now) }
    ensures end { result < length bytes.now → slice_index bytes.now result ≡ 0 }
{
    let mut length = 0;
    for byte in bytes {
        if *byte == 0 {
            return length;
        }
        length += 1;
    }
    length
}

fn is_utf8(text: &[u8]) -> bool
    ensures yes { result ≡ true → IsUtf8 text.now }
    ensures no { result ≡ false → IsUtf8 text.now → ⊥ }
{
    match str::from_utf8(text) {
        Ok(_) => true,
        Err(_) => false,
    }
}

// The name that the bytes begin with, and what stands behind its zero.
fn split_name(bytes: &[u8]) -> Option<(&[u8], &[u8])>
    ensures some { IfSome result (λ r. IsHeapText strings_heap r.0.now × (bytes.now ≡ heap_entry strings_heap r.0.now ++ r.1.now)) }
    ensures none { IfNone result (BeginsNone strings_heap bytes.now) }
{
    let length = name_length(bytes);
    if length == 0 {
        return None;
    }
    if length == bytes.len() {
        return None;
    }
    let (text, rest) = bytes.split_at(length);
    if !is_utf8(text) {
        return None;
    }
    let (_, after) = rest.split_at(1);
    Some((text, after))
}

// The blob that the bytes begin with, and what stands behind it.
fn split_blob(bytes: &[u8]) -> Option<(&[u8], &[u8])>
    ensures some { IfSome result (λ r. IsHeapText blob_heap r.0.now × (bytes.now ≡ heap_entry blob_heap r.0.now ++ r.1.now)) }
    ensures none { IfNone result (BeginsNone blob_heap bytes.now) }
{
    let Ok((length, rest)) = split_compressed(bytes) else {
        return None;
    };
    if length == 0 {
        return None;
    }
    if rest.len() < length as usize {
        return None;
    }
    let (text, after) = rest.split_at(length as usize);
    Some((text, after))
}

/// The text whose entry the bytes begin with, and what stands behind the entry.
pub(crate) fn split_entry(kind: HeapKind, bytes: &[u8]) -> Option<(&[u8], &[u8])>
    ensures some { IfSome result (λ r. IsHeapText (form_of kind) r.0.now × (bytes.now ≡ heap_entry (form_of kind) r.0.now ++ r.1.now)) }
    ensures none { IfNone result (BeginsNone (form_of kind) bytes.now) }
{
    match kind {
        HeapKind::Names => split_name(bytes),
        HeapKind::Blobs => split_blob(bytes),
    }
}
