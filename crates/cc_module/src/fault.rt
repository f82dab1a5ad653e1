// Why a blob is refused.
ghost use Rattle.std.specs.Prelude.{◌≡◌, ◌<◌, ◌+◌, ◌^◌, ℕ};
ghost use Rattle.cc_module.specs.Signatures.{moved};
ghost use Rattle.cc_module.specs.declared.fault.BlobFault.TheVariants.{Memory};

use std::alloc::AllocError;
use thiserror::Error;

/// Why a blob is no signature.
#[derive(Clone, Copy, Debug, PartialEq, Eq, Drop, Error)]
pub enum BlobFault {
    /// The first place at which no signature continues the bytes before it, or the length of a blob that ends too early.
    #[error("the signature is wrong at {0}")]
    Bad(u32),
    /// Memory did not suffice.
    #[error("memory does not suffice")]
    Memory,
}

impl From<AllocError> for BlobFault {
    ghost from_gives = { λ _ fault. fault ≡ Memory };

    fn from(_error: AllocError) -> BlobFault {
        BlobFault::Memory
    }
}

impl BlobFault {
    /// The fault where so many bytes stand before the ones that it counts from.
    pub(crate) fn after(self, before: u32) -> BlobFault
        requires { (n : ℕ) → self ≡ BlobFault.Bad n → before + n < 2 ^ 32 }
        ensures { result ≡ moved before self }
    {
        match self {
            BlobFault::Bad(place) => BlobFault::Bad(before + place),
            BlobFault::Memory => BlobFault::Memory,
        }
    }
}
