// The call that is the program.
ghost use Rattle.std.specs.Prelude.{◌≡◌, List, ℕ, map, string_bytes};
ghost use Rattle.cppcli.specs.Answers.{IsAnswer, FilesRun, SinksRun};
ghost use Rattle.cppcli.specs.Complete.{DoesAll};
ghost use Rattle.cppcli.specs.Rows.{AnswerTable};

use crate::Status;
use crate::commands::perform;
use crate::deliver::deliver;
use crate::note::USAGE;
use cc_base::{Files, Sink, Source};
use cc_words::read_words;
use std::alloc::Global;

// What `cppcli` does.
fn answer<F: Files, I: Source, O: Sink, E: Sink>(
    alloc: Global,
    words: &[String],
    files: &mut F,
    input: &mut I,
    output: &mut O,
    notes: &mut E,
) -> Status
    ensures answer { IsAnswer (map (λ word. string_bytes word) words.now) (record { before = F.state files.old; after = F.state files.new; quiet = F.quiet files.old })
        (record { output = O.state output.old; output' = O.state output.new; output_takes = O.quiet output.old; notes = E.state notes.old; notes' = E.state notes.new; notes_takes = E.quiet notes.old }) result }
    ensures input { I.state input.new ≡ I.state input.old }
{
    let _ = input;
    let request = match read_words(alloc, words) {
        Ok(Some(request)) => request,
        Ok(None) => return deliver(Status::Usage, &[], USAGE.as_bytes(), output, notes),
        Err(_) => return Status::Memory,
    };
    match perform(alloc, request, files) {
        Ok(outcome) => deliver(
            outcome.status,
            outcome.output.as_slice(),
            outcome.note.as_slice(),
            output,
            notes,
        ),
        Err(_) => Status::Memory,
    }
}

/// Does what the words ask for, with these files and streams, and answers how it ended.
///
/// The words are those after the program's name. The command's output is written to `output`, and
/// then the line for the status to `notes`; a write that fails ends the call with `WriteFault`.
/// At `Memory` nothing has been written.
pub fn cppcli<F: Files, I: Source, O: Sink, E: Sink>(
    alloc: Global,
    words: &[String],
    files: &mut F,
    input: &mut I,
    output: &mut O,
    notes: &mut E,
) -> Status
    ensures answer { IsAnswer (map (λ word. string_bytes word) words.now) (record { before = F.state files.old; after = F.state files.new; quiet = F.quiet files.old })
        (record { output = O.state output.old; output' = O.state output.new; output_takes = O.quiet output.old; notes = E.state notes.old; notes' = E.state notes.new; notes_takes = E.quiet notes.old }) result }
    ensures table { AnswerTable (map (λ word. string_bytes word) words.now) (record { before = F.state files.old; after = F.state files.new; quiet = F.quiet files.old })
        (record { output = O.state output.old; output' = O.state output.new; output_takes = O.quiet output.old; notes = E.state notes.old; notes' = E.state notes.new; notes_takes = E.quiet notes.old }) result }
    ensures complete { DoesAll (map (λ word. string_bytes word) words.now) (record { before = F.state files.old; after = F.state files.new; quiet = F.quiet files.old })
        (record { output = O.state output.old; output' = O.state output.new; output_takes = O.quiet output.old; notes = E.state notes.old; notes' = E.state notes.new; notes_takes = E.quiet notes.old }) result }
    ensures input { I.state input.new ≡ I.state input.old }
{
    answer(alloc, words, files, input, output, notes)
}
