// What a step leads to.
use cc_base::ClassId;

/// What a step leads to (ECMA-335, I.12.3).
#[derive(Clone, Copy)]
pub enum Flow {
    /// The run goes on.
    Goes,
    /// The entry returned this number, given as its bits.
    Returned(u32),
    /// No handler was found for an exception of this class, whose message is the name of its class.
    Aborted(ClassId),
    /// An allocation would have passed the limit of cells.
    HeapLimit,
    /// A call would have passed the limit of frames.
    DepthLimit,
    /// Memory did not suffice.
    OutOfMemory,
}
