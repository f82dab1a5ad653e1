// A count without bound.
ghost use Rattle.std.specs.Prelude.{◌≡◌, ◌+◌, min, OnOk};

use sqlite_items::Items;
use std::alloc::{AllocError, Global};
use std::marker::Model;

/// A count that has no greatest number.
#[derive(Debug, Drop)]
pub struct Count {
    low: u64,
    // one for each time that `low` went past its end
    carries: Items<u8>,
}

impl Model for Count {
    ghost use Rattle.std.specs.Prelude.{ℕ, ◌+◌, ◌*◌, ◌^◌, length};

    ghost Value = { ℕ };

    ghost view = { λ count. count.low + 2 ^ 64 * length count.carries };
}

impl Count {
    /// Zero. It takes no memory.
    pub fn new(alloc: Global) -> Count
        ensures { result ≡ 0 }
    {
        Count {
            low: 0,
            carries: Items::new(alloc),
        }
    }

    /// Counts one more.
    pub fn add_one(&mut self) -> Result<(), AllocError>
        ensures { OnOk result (self.new ≡ self.old + 1) }
    {
        if self.low < u64::MAX {
            self.low += 1;
        } else {
            self.carries.push(0)?;
            self.low = 0;
        }
        Ok(())
    }

    /// The count, or the greatest `u64` where it is larger.
    pub fn capped(&self) -> u64
        ensures { result ≡ min self.now u64.MAX }
    {
        let low = self.low;
        if self.carries.is_empty() {
            low
        } else {
            u64::MAX
        }
    }
}
