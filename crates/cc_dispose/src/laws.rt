// Laws of lowering.
ghost use Rattle.cc_dispose.specs.Keeps as spec;

/// The run of the region program of a program is the program's run: for every input, all arguments, all limits and every bound
/// of turns it prints and tells the same, begins the same work, and ends or goes on alike.
pub fn lowering_keeps_the_run()
    ensures { spec.LoweringKeepsTheRun }
{}
