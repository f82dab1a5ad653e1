// Zeros up to a multiple of four.
ghost use Rattle.std.specs.Prelude.{◌≡◌, OnOk};
ghost use Rattle.cc_module.specs.Heaps.{padded};

use std::alloc::AllocError;

/// Zeros up to a multiple of four.
pub(crate) fn pad(bytes: &mut Vec<u8>) -> Result<(), AllocError>
    ensures { OnOk result (bytes.new.items ≡ padded bytes.old.items) }
{
    let count = (4 - bytes.len() % 4) % 4;
    bytes.extend_from_slice(&[0; 3][..count])?;
    Ok(())
}
