// What a call writes.
ghost use Rattle.cppcli.specs.Answers.{IsDelivered};

use crate::Status;
use cc_base::{Sink, write_whole};

/// Writes the output and then the note. The first write that fails ends it. It takes no memory.
pub fn deliver<O: Sink, E: Sink>(
    status: Status,
    output: &[u8],
    note: &[u8],
    output_sink: &mut O,
    notes_sink: &mut E,
) -> Status
    ensures { IsDelivered (record { status = status; output = output.now; note = note.now })
        (record { output = O.state output_sink.old; output' = O.state output_sink.new; output_takes = O.quiet output_sink.old; notes = E.state notes_sink.old; notes' = E.state notes_sink.new; notes_takes = E.quiet notes_sink.old }) result }
{
    if write_whole(output_sink, output).is_err() {
        return Status::WriteFault;
    }
    match write_whole(notes_sink, note) {
        Ok(()) => status,
        Err(_) => Status::WriteFault,
    }
}
