// The commands, each as its steps.
ghost use Rattle.std.specs.Prelude.{◌≡◌, ◌≢◌, ℕ, List, Some, IfOk, map, string_bytes};
ghost use Rattle.cppcli.specs.Answers.{IsOutcomeOf, KeepsFiles, FilesRun, image_name, done, printed};
ghost use Rattle.cc_base.specs.Outside.{GivesSame, GivesSameBut};
ghost use Rattle.cc_words.specs.Shown.{shown};
ghost use Rattle.cppcli.specs.Stops.{IsEnd, answered_status, ended_status};

use crate::Status;
use crate::arguments::texts_of;
use crate::outcome::{Outcome, Stop};
use crate::steps::{
    compile, execute, execute_meaning, image_name, image_of, list_module, load, read_module, store,
    type_source, verify_module,
};
use cc_base::{Files, List};
use cc_words::{Command, Request};
use std::alloc::{AllocError, Global};

/// The longest source, in bytes.
const SOURCE_LIMIT: u32 = 1048576;

/// The longest image, in bytes.
const IMAGE_LIMIT: u32 = 268435456;

fn run<F: Files>(
    alloc: Global,
    file: &str,
    steps: u32,
    arguments: &[String],
    files: &mut F,
) -> Result<Outcome, Stop>
    ensures outcome { IsEnd result (IsOutcomeOf (record { command = Command.Run; file = file.now; bound = steps; arguments = map (λ word. string_bytes word) arguments.now }) (record { before = F.state files.old; after = F.state files.new; quiet = F.quiet files.old })) }
    ensures same { GivesSame (F.state files.old) (F.state files.new) }
{
    let bytes = load(alloc, files, file, SOURCE_LIMIT)?;
    let code = compile(alloc, file, &bytes)?;
    let texts = texts_of(alloc, arguments)?;
    execute(alloc, code, texts.as_slice(), steps)
}

// What a command that writes nothing comes to.
fn done(alloc: Global) -> Outcome
    ensures { result ≡ done }
{
    Outcome {
        status: Status::Done,
        output: List::new(alloc),
        note: List::new(alloc),
    }
}

fn check<F: Files>(alloc: Global, file: &str, files: &mut F) -> Result<Outcome, Stop>
    ensures outcome { (bound : ℕ) (arguments : List (List ℕ)) → IsEnd result (IsOutcomeOf (record { command = Command.Check; file = file.now; bound = bound; arguments = arguments }) (record { before = F.state files.old; after = F.state files.new; quiet = F.quiet files.old })) }
    ensures same { GivesSame (F.state files.old) (F.state files.new) }
{
    let bytes = load(alloc, files, file, SOURCE_LIMIT)?;
    type_source(alloc, file, &bytes)?;
    Ok(done(alloc))
}

fn build<F: Files>(alloc: Global, file: &str, files: &mut F) -> Result<Outcome, Stop>
    ensures outcome { (bound : ℕ) (arguments : List (List ℕ)) → IsEnd result (IsOutcomeOf (record { command = Command.Build; file = file.now; bound = bound; arguments = arguments }) (record { before = F.state files.old; after = F.state files.new; quiet = F.quiet files.old })) }
    ensures others { GivesSameBut (image_name file.now) (F.state files.old) (F.state files.new) }
    ensures kept { ended_status result ≢ Status.Done → ended_status result ≢ Status.WriteFault → GivesSame (F.state files.old) (F.state files.new) }
{
    let bytes = load(alloc, files, file, SOURCE_LIMIT)?;
    let code = compile(alloc, file, &bytes)?;
    let image = image_of(alloc, &code)?;
    let name = image_name(alloc, file)?;
    store(alloc, files, name.as_str(), image.as_slice())?;
    Ok(done(alloc))
}

// What a command that prints a text comes to.
fn printed(alloc: Global, text: Vec<u8>) -> Outcome
    ensures { result ≡ printed text.items }
{
    Outcome {
        status: Status::Done,
        output: List::from_vec(text),
        note: List::new(alloc),
    }
}

fn dump<F: Files>(alloc: Global, file: &str, files: &mut F) -> Result<Outcome, Stop>
    ensures outcome { (bound : ℕ) (arguments : List (List ℕ)) → IsEnd result (IsOutcomeOf (record { command = Command.Dump; file = file.now; bound = bound; arguments = arguments }) (record { before = F.state files.old; after = F.state files.new; quiet = F.quiet files.old })) }
    ensures same { GivesSame (F.state files.old) (F.state files.new) }
{
    let bytes = load(alloc, files, file, IMAGE_LIMIT)?;
    let module = read_module(alloc, file, &bytes)?;
    let text = list_module(alloc, &module)?;
    Ok(printed(alloc, text))
}

fn verify<F: Files>(alloc: Global, file: &str, files: &mut F) -> Result<Outcome, Stop>
    ensures outcome { (bound : ℕ) (arguments : List (List ℕ)) → IsEnd result (IsOutcomeOf (record { command = Command.Verify; file = file.now; bound = bound; arguments = arguments }) (record { before = F.state files.old; after = F.state files.new; quiet = F.quiet files.old })) }
    ensures same { GivesSame (F.state files.old) (F.state files.new) }
{
    let bytes = load(alloc, files, file, IMAGE_LIMIT)?;
    let module = read_module(alloc, file, &bytes)?;
    verify_module(alloc, file, module)?;
    Ok(done(alloc))
}

fn mean<F: Files>(
    alloc: Global,
    file: &str,
    turns: u32,
    arguments: &[String],
    files: &mut F,
) -> Result<Outcome, Stop>
    ensures outcome { IsEnd result (IsOutcomeOf (record { command = Command.Mean; file = file.now; bound = turns; arguments = map (λ word. string_bytes word) arguments.now }) (record { before = F.state files.old; after = F.state files.new; quiet = F.quiet files.old })) }
    ensures same { GivesSame (F.state files.old) (F.state files.new) }
{
    let bytes = load(alloc, files, file, SOURCE_LIMIT)?;
    let program = type_source(alloc, file, &bytes)?;
    let texts = texts_of(alloc, arguments)?;
    execute_meaning(alloc, &program, texts.as_slice(), turns)
}

// How the steps of a command end.
fn end_of<F: Files>(alloc: Global, request: Request<'_>, files: &mut F) -> Result<Outcome, Stop>
    ensures outcome { IsEnd result (IsOutcomeOf (shown request.entry) (record { before = F.state files.old; after = F.state files.new; quiet = F.quiet files.old })) }
    ensures files { KeepsFiles (Some (shown request.entry)) (record { before = F.state files.old; after = F.state files.new; quiet = F.quiet files.old }) (ended_status result) }
{
    match request.command {
        Command::Run => run(alloc, request.file, request.bound, request.arguments, files),
        Command::Check => check(alloc, request.file, files),
        Command::Build => build(alloc, request.file, files),
        Command::Dump => dump(alloc, request.file, files),
        Command::Verify => verify(alloc, request.file, files),
        Command::Mean => mean(alloc, request.file, request.bound, request.arguments, files),
    }
}

/// Does a command, short of writing to the output and the notes.
pub fn perform<F: Files>(
    alloc: Global,
    request: Request<'_>,
    files: &mut F,
) -> Result<Outcome, AllocError>
    ensures outcome { IfOk result (IsOutcomeOf (shown request.entry) (record { before = F.state files.old; after = F.state files.new; quiet = F.quiet files.old })) }
    ensures files { KeepsFiles (Some (shown request.entry)) (record { before = F.state files.old; after = F.state files.new; quiet = F.quiet files.old }) (answered_status result) }
{
    match end_of(alloc, request, files) {
        Ok(outcome) => Ok(outcome),
        Err(Stop::With(outcome)) => Ok(outcome),
        Err(Stop::OutOfMemory) => Err(AllocError),
    }
}
