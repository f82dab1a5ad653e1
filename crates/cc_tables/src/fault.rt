// Why metadata is refused.
ghost use Rattle.std.specs.Prelude.{◌≡◌};
ghost use Rattle.cc_tables.specs.declared.fault.TableFault.TheVariants.{Memory};

use std::alloc::AllocError;
use thiserror::Error;

/// Why bytes are no metadata, with the first place that shows it, counted from the root.
#[derive(Clone, Copy, Debug, PartialEq, Eq, Drop, Error)]
pub enum TableFault {
    /// 80: the root is none (ECMA-335, II.24.2.1).
    #[error("the root of the metadata is wrong at {0}")]
    BadRoot(u32),
    /// 81: a stream or its header is none (II.24.2.2 to II.24.2.6).
    #[error("a stream of the metadata is wrong at {0}")]
    BadStream(u32),
    /// 82: the row of the table is none (II.22).
    #[error("row {1} of table {0} is wrong")]
    BadTable(u8, u32),
    /// 83: a blob is no signature (II.23.2).
    #[error("a signature is wrong at {0}")]
    BadBlob(u32),
    /// 84: the table is not sorted (II.22).
    #[error("table {0} is not sorted")]
    NotSorted(u8),
    /// Memory did not suffice.
    #[error("memory does not suffice")]
    Memory,
}

impl From<AllocError> for TableFault {
    ghost from_gives = { λ _ fault. fault ≡ Memory };

    fn from(_error: AllocError) -> TableFault {
        TableFault::Memory
    }
}
