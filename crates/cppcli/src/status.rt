// How a call of the program ends.
use cc_base::{Kind, Span, Text};
use cc_image::ImageFault;
use cc_verify::VerifyFault;

/// How a call of the program ends.
#[derive(Debug, Drop)]
pub enum Status {
    /// The command was done.
    Done,
    /// The executed program returned this number from `main`.
    Ended(i32),
    /// The words are no command.
    Usage,
    /// Nothing is there under the name that a command loads.
    Absent,
    /// A file could not be read.
    ReadFault,
    /// The output, the notes or a file could not be written.
    WriteFault,
    /// A file is longer than its limit.
    TooLong,
    /// The rules of the language refuse the source, for this reason and at this place.
    Refused(Kind, Span),
    /// The bytes of a file are no image, for this reason.
    NotImage(ImageFault),
    /// The module of a file is not verified: the first rule that it breaks, and where.
    Unverified(VerifyFault),
    /// The executed program threw an exception that nothing caught: its type and its message.
    Aborted(Text, Text),
    /// The executed program would have passed the limit of cells.
    HeapLimit,
    /// The executed program would have passed the limit of frames.
    DepthLimit,
    /// The executed program had not ended after the greatest number of steps.
    StepLimit,
    /// The meaning of the source had not ended after the greatest number of turns.
    Going,
    /// There was not enough memory.
    Memory,
}

impl Status {
    ghost use Rattle.std.specs.Prelude.{◌≡◌};
    ghost use Rattle.cppcli.specs.Exit.{exit_of};

    /// The number with which the program ends, from 0 to 255. It may equal a program's own result.
    pub fn exit(&self) -> u8
        ensures { result ≡ exit_of self.now }
    {
        match self {
            Status::Done => 0,
            Status::Ended(n) => (n.cast_unsigned() % 256) as u8,
            Status::Usage => 240,
            Status::Absent => 241,
            Status::ReadFault => 242,
            Status::WriteFault => 243,
            Status::TooLong => 244,
            Status::Refused(_, _) => 245,
            Status::NotImage(_) => 246,
            Status::Unverified(_) => 247,
            Status::Aborted(_, _) => 248,
            Status::HeapLimit => 249,
            Status::DepthLimit => 250,
            Status::StepLimit => 251,
            Status::Memory => 252,
            Status::Going => 253,
        }
    }
}
