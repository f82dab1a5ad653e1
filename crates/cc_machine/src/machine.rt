// The machine: it executes checked code one instruction after another.
ghost use Rattle.std.specs.Prelude.{◌≡◌, ◌≢◌, ◌≤◌, ◌<◌, ◌+◌, ◌^◌, ◌++◌, ◌∷◌, [], ℕ, ℤ, List, reverse, None, length, vec_len, vec_capacity, ◌↔◌, IsTrue, OnOk, OnErr, nat_lt, All, IfOk};
ghost use Rattle.cc_base.specs.Cells.{arguments_cells, any_long, arguments_pass};
ghost use Rattle.cc_cil.specs.Steps.{Does, Step, Checks};
ghost use Rattle.cc_machine.specs.Machine.{IsFetched, Fits, state_in, state_of, stop_of, line_of};

use crate::{Checked, stack};
use cc_base::{Ending, Limits, Text};
use cc_cil::{Action, decode_one};
use std::alloc::{AllocError, Global};
use std::marker::Model;

/// Where a run stands, but for its values.
#[derive(Clone, Copy, Debug, PartialEq, Eq)]
pub enum Phase {
    /// An instruction is next.
    Running,
    /// `main` returned this number, given as its 32 bits.
    Returned(u32),
    /// The arguments passed the limit of cells.
    HeapLimit,
    /// The entry or `main` passed the limit of frames.
    DepthLimit,
    /// Memory did not suffice.
    OutOfMemory,
}

/// A run of checked code.
#[derive(Drop)]
pub struct Execution {
    pub alloc: Global,
    pub code: Checked,
    /// The offset of the next instruction.
    pub at: u32,
    /// The evaluation stack, whose top is the last element.
    pub stack: Vec<u32>,
    /// The bytes printed.
    pub output: Vec<u8>,
    pub phase: Phase,
}

/// Why a call of `run` came back.
#[derive(Debug, Drop)]
pub enum Stop {
    /// The run has ended.
    Ended(Ending),
    /// The steps of this call are used up, and the run has not ended.
    StepLimit,
    /// Memory did not suffice.
    Memory,
}

// Prints a number as a line.
fn write_line(alloc: Global, value: u32, output: &mut Vec<u8>) -> Result<(), AllocError>
    ensures { OnOk result (output.new.items ≡ output.old.items ++ line_of value) }
{
    let value = value.cast_signed();
    let line = format!(in alloc; "{value}\n")?;
    output.extend_from_slice(line.as_bytes())?;
    Ok(())
}

fn fetch(code: &Checked, at: u32, height: u32) -> (Action, u32)
    requires { Checks code.now.code code.now.max_stack at height None }
    ensures { IsFetched code.now at height result.0 result.1 }
{
    let body = code.body();
    match decode_one(body.code.as_slice(), at) {
        Ok((instruction, next)) => match Action::of(&instruction) {
            Some(action) => (action, next),
            None => unreachable!(),
        },
        Err(_) => unreachable!(),
    }
}

// Does what an action does to the stack and the output, and tells where the run stands then.
fn perform(
    alloc: Global,
    action: Action,
    stack: &mut Vec<u32>,
    output: &mut Vec<u8>,
) -> Result<Phase, AllocError>
    requires { Fits action (length stack.old.items) (vec_capacity stack.old) }
    ensures does { IfOk result (λ phase. (next : ℕ) → Does action next (reverse stack.old.items) output.old.items (state_in phase next (reverse stack.new.items) output.new.items)) }
    ensures room { vec_capacity stack.old ≤ vec_capacity stack.new }
    ensures alive { IfOk result (λ phase. phase ≢ Phase.OutOfMemory) }
    ensures prints { OnErr result (action ≡ Action.WriteLine) }
{
    match action {
        Action::Push(value) => {
            stack::push(stack, value);
            Ok(Phase::Running)
        }
        Action::Add => {
            let right = stack::pop(stack);
            let left = stack::pop(stack);
            stack::push(stack, left.wrapping_add(right));
            Ok(Phase::Running)
        }
        Action::Subtract => {
            let right = stack::pop(stack);
            let left = stack::pop(stack);
            stack::push(stack, left.wrapping_sub(right));
            Ok(Phase::Running)
        }
        Action::Multiply => {
            let right = stack::pop(stack);
            let left = stack::pop(stack);
            stack::push(stack, left.wrapping_mul(right));
            Ok(Phase::Running)
        }
        Action::WriteLine => {
            let value = stack::pop(stack);
            write_line(alloc, value, output)?;
            Ok(Phase::Running)
        }
        Action::Return => Ok(Phase::Returned(stack::pop(stack))),
    }
}

fn is_running(phase: Phase) -> bool
    ensures { IsTrue result ↔ (phase ≡ Phase.Running) }
{
    matches!(phase, Phase::Running)
}

fn is_out_of_memory(phase: Phase) -> bool
    ensures { IsTrue result ↔ (phase ≡ Phase.OutOfMemory) }
{
    matches!(phase, Phase::OutOfMemory)
}

fn stop_of(phase: Phase) -> Stop
    ensures { result ≡ stop_of phase }
{
    match phase {
        Phase::Running => Stop::StepLimit,
        Phase::Returned(value) => Stop::Ended(Ending::Returned(value.cast_signed())),
        Phase::HeapLimit => Stop::Ended(Ending::HeapLimit),
        Phase::DepthLimit => Stop::Ended(Ending::DepthLimit),
        Phase::OutOfMemory => Stop::Memory,
    }
}

impl Execution {
    ghost use Rattle.cc_machine.specs.Machine.{IsReady, HasStopped, Prints};

    // Executes one instruction.
    fn step(&mut self) -> Result<(), AllocError>
        requires ready { IsReady self.old }
        requires running { self.old.phase ≡ Phase.Running }
        ensures ready { IsReady self.new }
        ensures code { self.new.code ≡ self.old.code }
        ensures went { OnOk result (Step self.old.code.code (state_of self.old) (state_of self.new)) }
        ensures alive { OnOk result (self.new.phase ≢ Phase.OutOfMemory) }
        ensures lacks { OnErr result (Prints self.old.code.code (state_of self.old) × (self.new.phase ≡ Phase.OutOfMemory)) }
    {
        let (action, next) = fetch(&self.code, self.at, self.stack.len() as u32);
        match perform(self.alloc, action, &mut self.stack, &mut self.output) {
            Ok(phase) => {
                self.phase = phase;
                self.at = next;
                Ok(())
            }
            Err(error) => {
                self.phase = Phase::OutOfMemory;
                Err(error)
            }
        }
    }

    fn run(&mut self, steps: u64) -> Stop
        requires { IsReady self.old }
        ensures ready { IsReady self.new }
        ensures stopped { HasStopped steps self.old self.new result }
    {
        if is_out_of_memory(self.phase) {
            return Stop::Memory;
        }
        for _ in 0..steps {
            if !is_running(self.phase) {
                return stop_of(self.phase);
            }
            match self.step() {
                Ok(()) => {}
                Err(_) => return Stop::Memory,
            }
        }
        stop_of(self.phase)
    }
}

// The arguments take more cells than there are.
fn passes(arguments: &[Text], cells: u32) -> bool
    requires count { length arguments.now < 2 ^ 32 }
    requires texts { All (λ text. length text < 2 ^ 32) arguments.now }
    ensures { result ≡ nat_lt cells (arguments_cells arguments.now) }
{
    let most = u64::from(cells);
    let mut total = 2 + arguments.len() as u64;
    for text in arguments {
        if total > most {
            return true;
        }
        total += 2 + (text.len() as u64 + 3) / 4;
    }
    total > most
}

// An argument is longer than a string can be.
fn any_long(arguments: &[Text]) -> bool
    ensures { result ≡ any_long arguments.now }
{
    for text in arguments {
        if text.len() > 2_147_483_647 {
            return true;
        }
    }
    false
}

// There is no room for the arguments.
fn arguments_pass(arguments: &[Text], cells: u32) -> bool
    requires count { length arguments.now < 2 ^ 32 }
    requires texts { All (λ text. length text < 2 ^ 32) arguments.now }
    ensures { result ≡ arguments_pass cells arguments.now }
{
    any_long(arguments) || passes(arguments, cells)
}

/// A machine: checked code, and where its run stands.
#[derive(Drop)]
pub struct Machine {
    execution: Execution,
}

impl Model for Machine {
    ghost use Rattle.cc_machine.specs.declared.machine.Execution.{Execution};
    ghost use Rattle.cc_machine.specs.contracts.machine.Execution as execution_row;
    ghost use Rattle.cc_machine.specs.Machine.{IsReady};

    ghost Value = { Execution };

    ghost coded = { execution_row.the_row.coded };

    ghost view = { λ machine. machine.execution };

    ghost invariant = { λ machine. IsReady machine.execution };
}

impl Machine {
    ghost use Rattle.cc_machine.specs.Machine.{Begins, HasStopped};

    /// A machine at the start of a run: the arguments take their cells first, then the entry and the method a frame each.
    pub fn new(
        alloc: Global,
        code: Checked,
        arguments: &[Text],
        limits: Limits,
    ) -> Result<Machine, AllocError>
        requires count { length arguments.now < 2 ^ 32 }
        requires texts { All (λ text. length text < 2 ^ 32) arguments.now }
        ensures { IfOk result (λ machine. Begins code arguments.now limits machine) }
    {
        let phase = if arguments_pass(arguments, limits.cells) {
            Phase::HeapLimit
        } else if limits.frames < 2 {
            Phase::DepthLimit
        } else {
            Phase::Running
        };
        let stack = Vec::with_capacity(alloc, code.body().max_stack as usize)?;
        Ok(Machine {
            execution: Execution {
                alloc,
                code,
                at: 0,
                stack,
                output: Vec::new(alloc),
                phase,
            },
        })
    }

    /// Executes at most `steps` further instructions. No instruction of a straight program reads the input.
    /// After `Ended` and after `Memory` the same answer comes again.
    pub fn run(&mut self, _input: &[u8], steps: u64) -> Stop
        ensures { HasStopped steps self.old self.new result }
    {
        self.execution.run(steps)
    }

    /// The bytes that the run has printed.
    pub fn output(&self) -> &[u8]
        ensures { result.now ≡ self.now.output.items }
    {
        self.execution.output.as_slice()
    }
}
