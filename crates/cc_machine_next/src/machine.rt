// A machine: a module that is executed, and its run as far as it has come.
ghost use Rattle.std.specs.Prelude.{◌≡◌, ◌<◌, ◌^◌, ℕ, List, [], All, IfOk, Some, length, slice_get};
ghost use Rattle.std.specs.Int.{w32, cast_signed};
ghost use Rattle.cc_core.specs.declared.world.World.{World};
ghost use Rattle.cc_execution.specs.Handlers.{aborts};
ghost use Rattle.cc_base.specs.declared.running.Ending.TheVariants as ending;
ghost use Rattle.cc_execution.specs.Run.{first_world, begin};
ghost use Rattle.cc_execution.specs.State.{Next, Goes, Ends};
ghost use Rattle.cc_machine_next.specs.RunState.{state_of, world_of, IsFine, HasRoom};
ghost use Rattle.cc_machine_next.specs.Running.{IsFineRun, IsFineEntry, begins, ends_early, at_entry, Answers, RunsTo, printed_by};
ghost use Rattle.cc_machine_next.specs.Tables.{IsTable, HasNoClauses};

use crate::arguments::cells_left;
use crate::flow::Flow;
use crate::frames::FrameStack;
use crate::state::RunState;
use crate::stop::Stop;
use crate::tables::Tables;
use cc_base::{ClassId, Ending, Limits, List, Text};
use cc_execution::Executable;
use std::alloc::{AllocError, Global};
use std::marker::Model;

/// A module that is executed (ECMA-335, I.12.3): contracts see it as what its steps up to now lead to.
#[derive(Drop)]
pub struct Machine {
    alloc: Global,
    code: Executable,
    tables: Tables,
    limit: u32,
    state: RunState,
    flow: Flow,
}

impl Model for Machine {
    ghost use Rattle.cc_machine_next.specs.Running.{Running};
    ghost use Rattle.cc_base.specs.contracts.running.Ending as endings;
    ghost use Rattle.cc_core.specs.contracts.world.Value as values;
    ghost use Rattle.cc_core.specs.contracts.world.World as worlds;
    ghost use Rattle.cc_execution.specs.contracts.executable.Executable as executables;
    ghost use Rattle.std.specs.Coded.{codes};

    ghost Value = { Running };

    ghost coded = { Prim.hlevel (codes, values.the_row.coded, endings.the_row.coded, worlds.the_row.coded, executables.the_row.coded) };

    ghost use Rattle.cc_machine_next.specs.Whole.{running_of, IsRunning};

    ghost view = { running_of };

    ghost invariant = { IsRunning };
}

// A state without frames of methods, for a run that ends before its first step.
fn empty_state(alloc: Global, room: u32) -> Result<RunState, AllocError>
    ensures { IfOk result (λ s. world_of s ≡ first_world room []) }
{
    let frames = FrameStack::first(alloc, 0, &[], 0)?;
    Ok(RunState {
        frames,
        heap: Vec::new(alloc),
        room,
        output: Vec::new(alloc),
    })
}

// The state in which the entry begins.
fn entry_state(
    alloc: Global,
    code: &Executable,
    tables: &Tables,
    limit: u32,
    room: u32,
) -> Result<RunState, AllocError>
    requires frames { 0 < limit }
    requires table { IsTable code.now tables.now }
    requires fine { IsFine code.now (begin code.now limit (first_world room [])) }
    ensures begins { IfOk result (λ s. begin code.now limit (first_world room []) ≡ Goes (state_of s)) }
    ensures room { IfOk result (λ s. HasRoom code.now s.frames) }
{
    let entry = tables.method_at(code.entry as usize);
    let most = usize::from(entry.max_stack);
    let frames = FrameStack::first(alloc, code.entry as usize, entry.locals.as_slice(), most)?;
    Ok(RunState {
        frames,
        heap: Vec::new(alloc),
        room,
        output: Vec::new(alloc),
    })
}

// How a run ends by a number that the entry returned, given as its bits.
fn returned(n: u32) -> Ending
    ensures { result ≡ ending.Returned (cast_signed w32 n) }
{
    Ending::Returned(n.cast_signed())
}

// How a run ends by an exception of a class that was not caught; its message is the name of the class.
fn aborted(alloc: Global, names: &[Text], class: ClassId) -> Result<Ending, AllocError>
    requires { (name : List ℕ) × (slice_get names.now class.0 ≡ Some name) }
    ensures { IfOk result (λ e. (w : World) → aborts (slice_get names.now class.0) (slice_get names.now class.0) w ≡ Ends e w) }
{
    let name = names[class.0 as usize].as_slice();
    let of = List::from_slice(alloc, name)?;
    let message = List::from_slice(alloc, name)?;
    Ok(Ending::Aborted(of, message))
}

impl Machine {
    // A run whose arguments take too many cells.
    fn without_cells(
        alloc: Global,
        code: Executable,
        limit: u32,
        cells: u32,
    ) -> Result<Machine, AllocError>
        requires { HasNoClauses code }
        ensures { IfOk result (λ m. m ≡ ends_early code limit ending.HeapLimit cells) }
    {
        let tables = Tables::of(alloc, &code)?;
        let state = empty_state(alloc, cells)?;
        Ok(Machine {
            alloc,
            code,
            tables,
            limit,
            state,
            flow: Flow::HeapLimit,
        })
    }

    // A run that has no frame for its entry.
    fn without_frames(
        alloc: Global,
        code: Executable,
        limit: u32,
        cells: u32,
    ) -> Result<Machine, AllocError>
        requires { HasNoClauses code }
        ensures { IfOk result (λ m. m ≡ ends_early code limit ending.DepthLimit cells) }
    {
        let tables = Tables::of(alloc, &code)?;
        let state = empty_state(alloc, cells)?;
        Ok(Machine {
            alloc,
            code,
            tables,
            limit,
            state,
            flow: Flow::DepthLimit,
        })
    }

    // A run whose entry begins.
    fn at_entry(
        alloc: Global,
        code: Executable,
        limit: u32,
        cells: u32,
    ) -> Result<Machine, AllocError>
        requires frames { 0 < limit }
        requires clauses { HasNoClauses code }
        requires fine { IsFineEntry code limit cells }
        ensures { IfOk result (λ m. m ≡ at_entry code limit cells) }
    {
        let tables = Tables::of(alloc, &code)?;
        let state = entry_state(alloc, &code, &tables, limit, cells)?;
        Ok(Machine {
            alloc,
            code,
            tables,
            limit,
            state,
            flow: Flow::Goes,
        })
    }

    /// A machine at the start of a run: the arguments take their cells first, and then the entry takes a frame.
    pub fn new(
        alloc: Global,
        code: Executable,
        arguments: &[Text],
        limits: Limits,
    ) -> Result<Machine, AllocError>
        requires count { length arguments.now < 2 ^ 32 }
        requires texts { All (λ text. length text < 2 ^ 32) arguments.now }
        requires clauses { HasNoClauses code }
        requires fine { IsFineRun code limits arguments.now }
        ensures { IfOk result (λ m. m ≡ begins code limits arguments.now) }
    {
        let limit = limits.frames;
        match cells_left(arguments, limits.cells) {
            None => {
                let machine = Machine::without_cells(alloc, code, limit, limits.cells)?;
                Ok(machine)
            }
            Some(cells) => {
                if limit == 0 {
                    let machine = Machine::without_frames(alloc, code, limit, cells)?;
                    return Ok(machine);
                }
                let machine = Machine::at_entry(alloc, code, limit, cells)?;
                Ok(machine)
            }
        }
    }

    // How the run stands.
    fn stop(&self) -> Stop
        ensures { Answers result self.now.next }
    {
        match self.flow {
            Flow::Goes => Stop::StepLimit,
            Flow::Returned(n) => Stop::Ended(returned(n)),
            Flow::Aborted(class) => match aborted(self.alloc, self.code.names.as_slice(), class) {
                Err(_) => Stop::Memory,
                Ok(ending) => Stop::Ended(ending),
            },
            Flow::HeapLimit => Stop::Ended(Ending::HeapLimit),
            Flow::DepthLimit => Stop::Ended(Ending::DepthLimit),
            Flow::OutOfMemory => Stop::Memory,
        }
    }

    /// Executes at most `steps` further instructions. No operation reads the input yet.
    pub fn run(&mut self, steps: u64) -> Stop
        ensures runs { RunsTo self.old steps self.new }
        ensures answers { Answers result self.new.next }
    {
        match self.flow {
            Flow::Goes => {
                self.flow = self
                    .state
                    .run(self.alloc, &self.code, &self.tables, self.limit, steps);
                self.stop()
            }
            _ => self.stop(),
        }
    }

    /// The bytes that the run has printed.
    pub fn output(&self) -> &[u8]
        ensures { (o : Next) → self.now.next ≡ Some o → result.now ≡ printed_by o }
    {
        self.state.output.as_slice()
    }
}
