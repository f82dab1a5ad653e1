// Where branches lead.
ghost use Rattle.std.specs.Prelude.{◌≡◌, if◌then◌else◌};
ghost use Rattle.cc_execution.specs.Step.{is_truth};
ghost use Rattle.cc_machine_next.specs.Cells.{value_of};

use crate::cell::Cell;

/// Whether the truth of a value is this.
#[inline]
pub fn is_truth(truth: bool, cell: Cell) -> bool
    ensures { result ≡ is_truth truth (value_of cell) }
{
    if truth {
        cell.is_true()
    } else {
        !cell.is_true()
    }
}

/// The target where the branch is taken, and else the next offset.
#[inline]
pub fn place_after(taken: bool, target: u32, next: u32) -> u32
    ensures { result ≡ (if taken then target else next) }
{
    if taken { target } else { next }
}
