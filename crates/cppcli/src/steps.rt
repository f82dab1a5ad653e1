// The steps of the commands.
ghost use Rattle.std.specs.Prelude.{◌≡◌, ◌≢◌, ◌≤◌, ◌<◌, ◌^◌, [], List, ℕ, Some, Err, length, string_bytes, IfOk, IsTrue, MatchResult};
ghost use Rattle.std.specs.List.{All};
ghost use Rattle.cc_base.specs.Outside.{GivesSame, GivesSameBut, GoesOn, Holds, Rose};
ghost use Rattle.cc_core.specs.StraightSource.{Source};
ghost use Rattle.cc_straight.specs.Reading.{execution, Reads, Refuses};
ghost use Rattle.cc_core.specs.declared.tree.ProgramParts.{ProgramParts};
ghost use Rattle.cc_front.specs.Reading as front;
ghost use Rattle.cc_front.specs.Reading.{Types};
ghost use Rattle.cc_straight.specs.Straight.{RunsAs};
ghost use Rattle.cc_emit.specs.Program.{module_of, code_limit};
ghost use Rattle.cc_image.specs.Images.{IsImage};
ghost use Rattle.cc_image.specs.declared.fault.ImageFault.{ImageFault};
ghost use Rattle.cc_module.specs.Storable.{IsStorable};
ghost use Rattle.cc_listing.specs.Listing.{ListsModule};
ghost use Rattle.cc_verify.specs.Verified.{FirstFault, IsVerified};
ghost use Rattle.cc_verify.specs.declared.fault.VerifyFault.{VerifyFault};
ghost use Rattle.cppcli.specs.Answers.{FilesRun, IsLoadFault, IsExecuted, stopped, status_of, meant_status, meaning_of, meant, image_name, ForSource, IsModuleOf, IsNoImage};
ghost use Rattle.cppcli.specs.Stops.{IsStop, IsEnd};

use crate::Status;
use crate::note::note;
use crate::outcome::{Outcome, Stop};
use cc_base::{Ending, Files, Kind, Limits, List, LoadFault, Span, StoreFault, Text};
use cc_core::Program;
use cc_emit::emit;
use cc_front::{SourceFault, typed_program};
use cc_image::{ImageFault, read_image, write_image};
use cc_listing::list;
use cc_machine::Checked;
use cc_mean::mean;
use cc_module::Module;
use cc_straight::CompileFault;
use cc_verify::{Verified, VerifyFault, verify};
use std::alloc::{AllocError, Global};

/// What an executed program may use.
const LIMITS: Limits = Limits {
    frames: 4096,
    cells: 8000000,
};

/// What the meaning of a program may use.
const MEANING_LIMITS: Limits = Limits {
    frames: 16,
    cells: 8000000,
};

// Ends with a status and its note about a file.
fn stop(alloc: Global, status: Status, file: &str, bytes: &[u8]) -> Stop
    requires { length bytes.now < 2 ^ 32 }
    ensures { IsStop result (λ outcome. outcome ≡ stopped status file.now bytes.now) }
{
    match note(alloc, &status, file, bytes) {
        Ok(note) => Stop::With(Outcome {
            status,
            output: List::new(alloc),
            note,
        }),
        Err(_) => Stop::OutOfMemory,
    }
}

/// Loads a name, of at most `limit` bytes.
pub fn load<F: Files>(alloc: Global, files: &mut F, name: &str, limit: u32) -> Result<Vec<u8>, Stop>
    ensures load { MatchResult result
        (λ bytes. Holds (F.state files.old) name.now bytes.items × (length bytes.items ≤ limit))
        (λ stop. IsStop stop (λ outcome. IsLoadFault (record { before = F.state files.old; after = F.state files.new; quiet = F.quiet files.old }) (F.state files.old) name.now limit outcome.status
        × (outcome ≡ stopped outcome.status name.now []))) }
    ensures same { GivesSame (F.state files.old) (F.state files.new) }
    ensures goes_on { GoesOn (F.state files.old) (F.state files.new) }
    ensures quiet { F.quiet files.old → F.quiet files.new }
{
    let mut bytes = Vec::new(alloc);
    let status = match files.load(name, limit, &mut bytes) {
        Ok(()) => return Ok(bytes),
        Err(LoadFault::Absent) => Status::Absent,
        Err(LoadFault::TooLong) => Status::TooLong,
        Err(LoadFault::Failed) => Status::ReadFault,
        Err(LoadFault::Memory) => return Err(Stop::OutOfMemory),
    };
    Err(stop(alloc, status, name, &[]))
}

/// Compiles the bytes of a file, to be executed.
pub fn compile(alloc: Global, file: &str, bytes: &[u8]) -> Result<Checked, Stop>
    requires { length bytes.now < 2 ^ 32 }
    ensures { MatchResult result
        (λ code. ForSource bytes.now (λ source. RunsAs code source))
        (λ stop. IsStop stop (λ outcome. (kind : Kind) × (span : Span) × Refuses execution bytes.now kind span × (outcome ≡ stopped (Status.Refused kind span) file.now bytes.now))) }
{
    match cc_straight::compile(alloc, bytes) {
        Ok(code) => Ok(code),
        Err(CompileFault::Refused(kind, span)) => {
            Err(stop(alloc, Status::Refused(kind, span), file, bytes))
        }
        Err(CompileFault::Memory) => Err(Stop::OutOfMemory),
    }
}

/// The typed program of the bytes of a file.
pub fn type_source(alloc: Global, file: &str, bytes: &[u8]) -> Result<Program, Stop>
    requires { length bytes.now < 2 ^ 32 }
    ensures { MatchResult result
        (λ program. Types bytes.now program)
        (λ stop. IsStop stop (λ outcome. (kind : Kind) × (span : Span) × front.Refuses bytes.now kind span × (outcome ≡ stopped (Status.Refused kind span) file.now bytes.now))) }
{
    match typed_program(alloc, bytes) {
        Ok(program) => Ok(program),
        Err(SourceFault::Refused(kind, span)) => {
            Err(stop(alloc, Status::Refused(kind, span), file, bytes))
        }
        Err(SourceFault::Memory) => Err(Stop::OutOfMemory),
    }
}

fn status_of(ending: Option<Ending>) -> Status
    ensures { result ≡ status_of ending }
{
    match ending {
        Some(Ending::Returned(number)) => Status::Ended(number),
        Some(Ending::Aborted(class, message)) => Status::Aborted(class, message),
        Some(Ending::HeapLimit) => Status::HeapLimit,
        Some(Ending::DepthLimit) => Status::DepthLimit,
        None => Status::StepLimit,
    }
}

/// Executes at most `steps` instructions of a program with these arguments.
pub fn execute(
    alloc: Global,
    code: Checked,
    arguments: &[Text],
    steps: u32,
) -> Result<Outcome, Stop>
    requires count { length arguments.now < 2 ^ 32 }
    requires texts { All (λ text. length text < 2 ^ 32) arguments.now }
    ensures { IsEnd result (λ outcome. (source : Source) → RunsAs code source → IsExecuted source arguments.now steps outcome) }
{
    let executed = cc_straight::execute(alloc, code, arguments, LIMITS, steps as u64)?;
    let status = status_of(executed.ending);
    let note = note(alloc, &status, "", &[])?;
    Ok(Outcome {
        status,
        output: executed.output,
        note,
    })
}

fn meant_status(end: Option<Ending>) -> Status
    ensures { result ≡ meant_status end }
{
    match end {
        Some(end) => status_of(Some(end)),
        None => Status::Going,
    }
}

/// Executes the meaning of a program with these arguments and without input, where each run of a loop makes at most
/// `turns` turns.
pub fn execute_meaning(
    alloc: Global,
    program: &Program,
    arguments: &[Text],
    turns: u32,
) -> Result<Outcome, Stop>
    requires count { length arguments.now < 2 ^ 32 }
    requires texts { All (λ text. length text < 2 ^ 32) arguments.now }
    ensures { IsEnd result (λ outcome. outcome ≡ meant (meaning_of program.now arguments.now turns)) }
{
    let executed = mean(alloc, program, &[], arguments, MEANING_LIMITS, turns)?;
    let status = meant_status(executed.end);
    let note = note(alloc, &status, "", &[])?;
    Ok(Outcome {
        status,
        output: executed.output,
        note,
    })
}

/// The image of a program.
pub fn image_of(alloc: Global, code: &Checked) -> Result<Vec<u8>, AllocError>
    requires { length code.now.code ≤ code_limit }
    ensures { IfOk result (λ image. IsImage (module_of code.now.code) image.items) }
{
    let module = emit(alloc, code.body().code.as_slice())?;
    write_image(alloc, &module)
}

// What a fault of an image ends with.
fn image_stop(alloc: Global, fault: ImageFault, file: &str, bytes: &[u8]) -> Stop
    requires { length bytes.now < 2 ^ 32 }
    ensures { IsStop result (λ outcome. (fault ≢ ImageFault.Memory) × (outcome ≡ stopped (Status.NotImage fault) file.now bytes.now)) }
{
    match fault {
        ImageFault::Memory => Stop::OutOfMemory,
        ImageFault::Short(_)
        | ImageFault::BadField(_)
        | ImageFault::Metadata(_)
        | ImageFault::Code(_, _) => stop(alloc, Status::NotImage(fault), file, bytes),
    }
}

/// Reads the bytes of a file as an image.
pub fn read_module(alloc: Global, file: &str, bytes: &[u8]) -> Result<Module, Stop>
    requires { length bytes.now < 2 ^ 32 }
    ensures { MatchResult result
        (λ m. IsModuleOf bytes.now m)
        (λ stop. IsStop stop (λ outcome. (fault : ImageFault) × IsNoImage bytes.now fault × (outcome ≡ stopped (Status.NotImage fault) file.now bytes.now))) }
{
    match read_image(alloc, bytes) {
        Ok(module) => Ok(module),
        Err(fault) => Err(image_stop(alloc, fault, file, bytes)),
    }
}

// What a broken rule ends with.
fn rule_stop(alloc: Global, fault: VerifyFault, file: &str) -> Stop
    ensures { IsStop result (λ outcome. (fault ≢ VerifyFault.Memory) × (outcome ≡ stopped (Status.Unverified fault) file.now [])) }
{
    match fault {
        VerifyFault::Memory => Stop::OutOfMemory,
        VerifyFault::BadClass(_, _) | VerifyFault::BadCode(_, _, _) => {
            stop(alloc, Status::Unverified(fault), file, &[])
        }
    }
}

/// Verifies the module of a file.
pub fn verify_module(alloc: Global, file: &str, module: Module) -> Result<Verified, Stop>
    ensures { MatchResult result
        (λ verified. (verified ≡ «module») × IsVerified «module»)
        (λ stop. IsStop stop (λ outcome. (fault : VerifyFault) × FirstFault «module» (Some fault) × (outcome ≡ stopped (Status.Unverified fault) file.now []))) }
{
    match verify(alloc, module) {
        Ok(verified) => Ok(verified),
        Err(refusal) => Err(rule_stop(alloc, refusal.fault, file)),
    }
}

/// The listing of a module that was read.
pub fn list_module(alloc: Global, module: &Module) -> Result<Vec<u8>, AllocError>
    requires { IsStorable «module».now }
    ensures { IfOk result (λ text. ListsModule «module».now text.items) }
{
    list(alloc, module)
}

/// The name of the image of a file.
pub fn image_name(alloc: Global, file: &str) -> Result<String, AllocError>
    ensures { IfOk result (λ name. string_bytes name ≡ image_name file.now) }
{
    format!(in alloc; "{file}.exe")
}

// Ends with a store that failed. It takes no memory.
fn write_fault(alloc: Global) -> Stop
    ensures { (file : List ℕ) → result ≡ Stop.With (stopped Status.WriteFault file []) }
{
    Stop::With(Outcome {
        status: Status::WriteFault,
        output: List::new(alloc),
        note: List::new(alloc),
    })
}

/// Stores bytes under a name.
pub fn store<F: Files>(alloc: Global, files: &mut F, name: &str, bytes: &[u8]) -> Result<(), Stop>
    ensures store { MatchResult result
        (λ _. IsTrue ((F.state files.old).keeps name.now) → (F.state files.new).gives name.now ≡ Some (Some bytes.now))
        (λ stop. IsStop stop (λ outcome. Rose ((F.state files.old).store_faults name.now) ((F.state files.new).store_faults name.now)
        × (¬ F.quiet files.old) × (outcome ≡ stopped Status.WriteFault name.now []))) }
    ensures others { GivesSameBut name.now (F.state files.old) (F.state files.new) }
    ensures memory { result ≡ Err Stop.OutOfMemory → GivesSame (F.state files.old) (F.state files.new) }
    ensures goes_on { GoesOn (F.state files.old) (F.state files.new) }
{
    match files.store(name, bytes) {
        Ok(()) => Ok(()),
        Err(StoreFault::Failed) => Err(write_fault(alloc)),
        Err(StoreFault::Memory) => Err(Stop::OutOfMemory),
    }
}
