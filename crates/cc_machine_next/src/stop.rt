// Why a call of a machine comes back.
use cc_base::Ending;

/// Why a call of a machine comes back.
#[derive(Drop)]
pub enum Stop {
    /// The run ended.
    Ended(Ending),
    /// The run has not ended after the steps of this call.
    StepLimit,
    /// Memory did not suffice.
    Memory,
}
