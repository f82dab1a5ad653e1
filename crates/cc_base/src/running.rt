// The limits of a run, how it ends, and what is told of its objects.
use crate::Text;

/// What a run may use: frames that are open at a time, and cells of the heap in all.
#[derive(Clone, Copy, Debug, PartialEq, Eq)]
pub struct Limits {
    pub frames: u32,
    pub cells: u32,
}

/// How a run of a program ends.
#[derive(Debug, Drop)]
pub enum Ending {
    /// `main` returned this number.
    Returned(i32),
    /// No handler was found for an exception: the full name of its class, and its message.
    Aborted(Text, Text),
    /// An allocation would have passed the limit of cells.
    HeapLimit,
    /// A call would have passed the limit of frames.
    DepthLimit,
}

/// What a run tells of the life of its numbered objects.
#[derive(Debug, Drop)]
pub enum Event {
    /// The constructor of the object with this number returned; the full name of its class.
    Made(u32, Text),
    /// The object with this number is being disposed.
    Disposed(u32),
}
