// Laws of runs of the code of functions.
ghost use Rattle.cc_simulation.specs.Behaves as spec;

/// A module in which the code of a program's functions stands does what the program means: where the program ends, so does
/// the module, with the same output, the same events and the same end, within 64 instructions for each counted step and 64
/// more; where the program goes on after some turns of each loop, the module has done as much after at least as many
/// instructions; where the module ends, so does the program; and no instruction is ever without a meaning.
pub fn code_behaves()
    ensures { spec.ProgramsBehave }
{}
