// The ends of the bodies and the metadata of an image, and the zeros behind them (ECMA-335, II.25).
ghost use Rattle.std.specs.Prelude.{◌≡◌, ◌≢◌, ◌<◌, ◌≤◌, ◌^◌, ◌+◌, length, drop, Some, None, Err, OnOk};
ghost use Rattle.cc_image.specs.Headers.{HEADERS};
ghost use Rattle.cc_image.specs.ImageFaults.{place_fault, size_fault, zeros_fault, ends_fault};
ghost use Rattle.cc_image.specs.declared.fault.ImageFault.{ImageFault};

use crate::bodies::{Bodies, SECTION_SHIFT, zeros_fault};
use crate::fault::ImageFault;
use crate::sizes::Sizes;

// Whether the metadata begin where the bodies end.
fn place_fault(sizes: &Sizes, end: u32) -> Option<ImageFault>
    ensures { result ≡ place_fault sizes.now end }
{
    if sizes.metadata_place as u64 == end as u64 + SECTION_SHIFT as u64 {
        None
    } else {
        Some(ImageFault::BadField(520))
    }
}

// Whether the metadata end where the used part of the section ends.
fn size_fault(sizes: &Sizes) -> Option<ImageFault>
    ensures { result ≡ size_fault sizes.now }
{
    let end = sizes.metadata_place as u64 + sizes.metadata_size as u64;
    if end == 0x200 + sizes.used as u64 + SECTION_SHIFT as u64 {
        None
    } else {
        Some(ImageFault::BadField(524))
    }
}

/// The first field that differs: where the metadata are, where they end, and the zeros behind bodies and behind the metadata.
pub fn ends_fault(sizes: &Sizes, bodies: &Bodies, bytes: &[u8]) -> Option<ImageFault>
    requires used { HEADERS + sizes.now.used ≤ length bytes.now }
    requires room { length bytes.now < 2 ^ 28 }
    ensures { result ≡ ends_fault sizes.now bodies.now.end bodies.now.gap bytes.now }
{
    if let Some(fault) = place_fault(sizes, bodies.end) {
        return Some(fault);
    }
    if let Some(fault) = size_fault(sizes) {
        return Some(fault);
    }
    if let Some(fault) = bodies.gap {
        return Some(fault);
    }
    let end = 0x200 + sizes.used;
    let (_, rest) = bytes.split_at(end as usize);
    zeros_fault(rest, end)
}
