// What a command comes to, before anything is written.
ghost use Rattle.std.specs.Prelude.{◌≡◌};
ghost use Rattle.cppcli.specs.declared.outcome.Stop.TheVariants.{OutOfMemory};

use crate::Status;
use cc_base::List;
use std::alloc::AllocError;

/// What a call answers and writes where no write fails.
#[derive(Debug, Drop)]
pub struct Outcome {
    pub status: Status,
    /// The bytes for the output.
    pub output: List<u8>,
    /// The line for the notes with its line feed, or nothing.
    pub note: List<u8>,
}

/// Why the steps of a command end early.
#[derive(Debug, Drop)]
pub enum Stop {
    OutOfMemory,
    With(Outcome),
}

impl From<AllocError> for Stop {
    ghost from_gives = { λ _ stop. stop ≡ OutOfMemory };

    fn from(_: AllocError) -> Stop {
        Stop::OutOfMemory
    }
}
