// Executes checked code to its end.
ghost use Rattle.std.specs.Prelude.{◌<◌, ◌^◌, length, IfOk};
ghost use Rattle.std.specs.List.{All};
ghost use Rattle.cc_core.specs.StraightSource.{Source};
ghost use Rattle.cc_straight.specs.Straight.{RunsAs};
ghost use Rattle.cc_straight.specs.Executing.{DoesWithin, IsEnding};

use cc_base::{Ending, Limits, List, Text};
use cc_machine::{Checked, Machine, Stop};
use std::alloc::{AllocError, Global};

/// What an execution printed and how it ended.
#[derive(Debug, Drop)]
pub struct Executed {
    pub output: List<u8>,
    /// `None` where it had not ended after the steps.
    pub ending: Option<Ending>,
}

// The ending that a call of the machine reached, none where its steps were used up.
fn ending_of(stop: Stop) -> Result<Option<Ending>, AllocError>
    ensures { IfOk result (λ ending. IsEnding stop ending) }
{
    match stop {
        Stop::Ended(ending) => Ok(Some(ending)),
        Stop::StepLimit => Ok(None),
        Stop::Memory => Err(AllocError),
    }
}

/// Executes at most `steps` instructions of checked code, with these arguments and without input. For the code of a
/// straight source output and ending are those of its run, where that has no more instructions; else there is no ending,
/// and the output is a front of the run's.
pub fn execute(
    alloc: Global,
    code: Checked,
    arguments: &[Text],
    limits: Limits,
    steps: u64,
) -> Result<Executed, AllocError>
    requires count { length arguments.now < 2 ^ 32 }
    requires texts { All (λ text. length text < 2 ^ 32) arguments.now }
    ensures { IfOk result (λ executed. (source : Source) → RunsAs code source → DoesWithin executed source arguments.now limits steps) }
{
    let mut machine = Machine::new(alloc, code, arguments, limits)?;
    let ending = ending_of(machine.run(&[], steps))?;
    let output = List::from_slice(alloc, machine.output())?;
    Ok(Executed { output, ending })
}
