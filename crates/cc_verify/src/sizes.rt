// Sizes of a module that the numbers of a refusal can hold.
ghost use Rattle.std.specs.Prelude.{◌≡◌, ◌<◌, ◌^◌, IfOk, OnOk};

use std::alloc::AllocError;

/// A number of rows or of bytes, as far as it fits; a module with more is not read.
pub fn short(count: usize) -> Result<u32, AllocError>
    ensures fits { IfOk result (λ n. n ≡ count) }
    ensures below { OnOk result (count < 2 ^ 32) }
{
    if count > 0xFFFF_FFFF {
        return Err(AllocError);
    }
    Ok(count as u32)
}
