// The source meaning of a whole program, executed.
ghost use Rattle.std.specs.Prelude.{◌≡◌, ◌≤◌, ◌<◌, ◌-◌, ◌^◌, [], All, IfOk, if◌then◌else◌, length, min, nat_lt, slice_get};
ghost use Rattle.std.specs.Option.{option_copied};
ghost use Rattle.cc_base.specs.Cells.{arguments_cells, arguments_pass, any_long};
ghost use Rattle.cc_core.specs.SourceRun.{start, message_of, uncaught, finish_of, meaning_of, run_of};
ghost use Rattle.cc_core.specs.Frames.{calls_with};
ghost use Rattle.cc_mean.specs.Ends.{end_of, meant_of};

use crate::code::Code;
use crate::frames::call_within;
use cc_base::{Ending, Event, Limits, List, MethodId, Text};
use cc_core::{ClassInfo, Contents, Count, Program, State, Stop, Value, World};
use sqlite_items::{Items, at};
use std::alloc::{AllocError, Global};

/// What the source meaning of a program has done within its bound.
#[derive(Debug, Drop)]
pub struct Meant {
    /// The bytes that were printed.
    pub output: List<u8>,
    pub events: List<Event>,
    /// How much work was begun, at most the greatest `u64`.
    pub work: u64,
    /// How the run ended; `None` where it goes on past its bound.
    pub end: Option<Ending>,
}

/// The state at the start, with so many cells left.
fn start(alloc: Global, cells: u32, input: &[u8]) -> Result<State, AllocError>
    ensures { IfOk result (λ state. state ≡ start cells input.now) }
{
    let input = Items::from_slice(alloc, input)?;
    Ok(State {
        world: World {
            variables: Items::new(alloc),
            callers: Items::new(alloc),
            heap: Items::new(alloc),
            statics: Items::new(alloc),
            cells,
            output: Items::new(alloc),
            input,
            events: List::new(alloc),
            suppressed: Items::new(alloc),
        },
        work: Count::new(alloc),
    })
}

// An argument is longer than a string can be.
fn any_long(arguments: &[Text]) -> bool
    ensures { result ≡ any_long arguments.now }
{
    for text in arguments {
        if text.len() > 2_147_483_647 {
            return true;
        }
    }
    false
}

/// The cells of the arguments, or more than there are.
fn cells_of(arguments: &[Text], cells: u32) -> Option<u64>
    requires count { length arguments.now < 2 ^ 32 }
    requires texts { All (λ text. length text < 2 ^ 32) arguments.now }
    ensures { result ≡ (if nat_lt cells (arguments_cells arguments.now) then None else Some (arguments_cells arguments.now)) }
{
    let most = u64::from(cells);
    let mut total = 2 + arguments.len() as u64;
    for text in arguments {
        if total > most {
            return None;
        }
        total += 2 + (text.len() as u64 + 3) / 4;
    }
    if total > most { None } else { Some(total) }
}

/// The cells that are left once the arguments are made; `None` exactly where there are too few.
fn cells_left(arguments: &[Text], cells: u32) -> Option<u32>
    requires count { length arguments.now < 2 ^ 32 }
    requires texts { All (λ text. length text < 2 ^ 32) arguments.now }
    ensures { result ≡ (if arguments_pass cells arguments.now then None else Some (cells - arguments_cells arguments.now)) }
{
    if any_long(arguments) {
        return None;
    }
    match cells_of(arguments, cells) {
        Some(taken) => Some((u64::from(cells) - taken) as u32),
        None => None,
    }
}

/// The message of an exception: its text, or without one the name of its class.
fn message_of<'a>(name: &'a Text, contents: &'a Contents) -> Option<&'a Text>
    ensures { option_copied result ≡ message_of (Some name.now) contents.now }
{
    let Contents::Fields(fields) = contents else {
        return None;
    };
    match fields.as_slice() {
        [Value::Null, ..] => Some(name),
        [Value::Literal(text), ..] => Some(text),
        _ => None,
    }
}

/// The end of a run by an exception that no handler caught.
fn aborted(
    alloc: Global,
    classes: &[ClassInfo],
    state: &State,
    place: usize,
) -> Result<Option<Ending>, AllocError>
    ensures { IfOk result (λ end. end ≡ end_of (uncaught classes.now (slice_get state.now.world.heap place))) }
{
    let Some(object) = state.world.heap.get(place) else {
        return Ok(None);
    };
    let Some(info) = at(classes, object.class.0 as usize) else {
        return Ok(None);
    };
    let Some(message) = message_of(&info.name, &object.holds) else {
        return Ok(None);
    };
    let class = List::from_slice(alloc, info.name.as_slice())?;
    let message = List::from_slice(alloc, message.as_slice())?;
    Ok(Some(Ending::Aborted(class, message)))
}

/// How a run ends by what `main` gave, or by why it stopped.
fn end_of(
    alloc: Global,
    classes: &[ClassInfo],
    state: &State,
    ran: Result<Value, Stop>,
) -> Result<Option<Ending>, AllocError>
    ensures { IfOk result (λ end. end ≡ end_of (finish_of classes.now (ran, state.now))) }
{
    match ran {
        Ok(Value::Int32(n)) => Ok(Some(Ending::Returned(n.cast_signed()))),
        Ok(_) => Ok(None),
        Err(Stop::Throws(place)) => aborted(alloc, classes, state, place),
        Err(Stop::HeapLimit) => Ok(Some(Ending::HeapLimit)),
        Err(Stop::DepthLimit) => Ok(Some(Ending::DepthLimit)),
        Err(Stop::Going) => Ok(None),
        Err(Stop::Wrong) => Ok(None),
    }
}

/// What was done before memory was taken for the arguments: nothing.
fn without_room(alloc: Global) -> Meant
    ensures { result ≡ record { output = []; events = []; work = 0; end = Some Ending.HeapLimit } }
{
    Meant {
        output: List::new(alloc),
        events: List::new(alloc),
        work: 0,
        end: Some(Ending::HeapLimit),
    }
}

/// The state at the end of a run that begins with so many cells left, and how it stands there.
fn run(
    alloc: Global,
    code: &Code,
    main: MethodId,
    input: &[u8],
    cells: u32,
    frames: u32,
) -> Result<Meant, AllocError>
    requires { frames ≤ 15 }
    ensures { let run = meaning_of code.now.classes.now (calls_with code.now.classes.now code.now.bodies.now code.now.turns frames main [] (start cells input.now)) in IfOk result (λ meant. meant ≡ meant_of run) }
{
    let mut state = start(alloc, cells, input)?;
    let ran = call_within(alloc, code, frames, &mut state, main, Items::new(alloc))?;
    let end = end_of(alloc, code.classes, &state, ran)?;
    let output = List::from_slice(alloc, state.world.output.as_slice())?;
    let State { world, work } = state;
    Ok(Meant {
        output,
        events: world.events,
        work: work.capped(),
        end,
    })
}

/// Executes the source meaning of code from the function `main` on.
pub(crate) fn executed(
    alloc: Global,
    code: &Code,
    main: MethodId,
    input: &[u8],
    arguments: &[Text],
    limits: Limits,
) -> Result<Meant, AllocError>
    requires frames { limits.frames ≤ 16 }
    requires count { length arguments.now < 2 ^ 32 }
    requires texts { All (λ text. length text < 2 ^ 32) arguments.now }
    ensures { let run = run_of code.now.classes.now code.now.bodies.now main input.now arguments.now limits code.now.turns in IfOk result (λ meant. meant ≡ meant_of run) }
{
    match cells_left(arguments, limits.cells) {
        Some(cells) => run(
            alloc,
            code,
            main,
            input,
            cells,
            limits.frames.saturating_sub(1),
        ),
        None => Ok(without_room(alloc)),
    }
}

/// Executes the source meaning of a program with an input, arguments and limits, where each run of a loop makes at most
/// so many turns (ECMA-372, 8 to 16).
pub fn mean(
    alloc: Global,
    program: &Program,
    input: &[u8],
    arguments: &[Text],
    limits: Limits,
    turns: u32,
) -> Result<Meant, AllocError>
    requires frames { limits.frames ≤ 16 }
    requires count { length arguments.now < 2 ^ 32 }
    requires texts { All (λ text. length text < 2 ^ 32) arguments.now }
    ensures output { let run = run_of program.now.classes program.now.bodies program.now.main input.now arguments.now limits turns in IfOk result (λ meant. meant.output ≡ run.output) }
    ensures events { let run = run_of program.now.classes program.now.bodies program.now.main input.now arguments.now limits turns in IfOk result (λ meant. meant.events ≡ run.events) }
    ensures work { let run = run_of program.now.classes program.now.bodies program.now.main input.now arguments.now limits turns in IfOk result (λ meant. meant.work ≡ min run.work u64.MAX) }
    ensures end { let run = run_of program.now.classes program.now.bodies program.now.main input.now arguments.now limits turns in IfOk result (λ meant. meant.end ≡ end_of run.finish) }
{
    let code = Code {
        classes: program.classes().as_slice(),
        bodies: program.bodies(),
        turns,
    };
    executed(alloc, &code, program.main(), input, arguments, limits)
}
