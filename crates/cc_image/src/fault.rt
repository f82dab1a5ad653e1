// Why an image is refused.
ghost use Rattle.std.specs.Prelude.{◌≡◌};
ghost use Rattle.cc_image.specs.declared.fault.ImageFault.TheVariants.{Memory};

use cc_cil::CodeFault;
use cc_tables::TableFault;
use std::alloc::AllocError;
use thiserror::Error;

/// Why bytes are no image, with the first place that shows it, counted from the file's start.
#[derive(Clone, Copy, Debug, PartialEq, Eq, Drop, Error)]
pub enum ImageFault {
    /// 90: the file ends too early, at this place.
    #[error("the file ends at {0}, too early")]
    Short(u32),
    /// 91: the field at this place is wrong (ECMA-335, II.25.2 and II.25.3.3).
    #[error("the field at {0} is wrong")]
    BadField(u32),
    /// 92: the metadata are none (II.24), with the place counted from their root.
    #[error("{0}")]
    Metadata(TableFault),
    /// 93: the body of the method of this row is none (II.25.4).
    #[error("method {0}: {1}")]
    Code(u32, CodeFault),
    /// Memory did not suffice.
    #[error("memory does not suffice")]
    Memory,
}

impl From<AllocError> for ImageFault {
    ghost from_gives = { λ _ fault. fault ≡ Memory };

    fn from(_error: AllocError) -> ImageFault {
        ImageFault::Memory
    }
}
