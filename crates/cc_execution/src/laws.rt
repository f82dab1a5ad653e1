// Laws of runs.
ghost use Rattle.cc_execution.specs.Laws as spec;

/// A run of some steps and then of more is the run of all of them.
pub fn runs_in_pieces()
    ensures { spec.RunsInPieces }
{}

/// What was printed and told stands at the front of what is printed and told later in the run.
pub fn output_grows()
    ensures { spec.OutputGrows }
{}

/// A module is loaded in one way: so a state has one next, and a module has one run.
pub fn one_executable()
    ensures { spec.OneExecutable }
{}

/// The numbers of the library's classes that the definitions speak of are those of their names (ECMA-335, IV).
pub fn library_classes()
    ensures { spec.LibraryClasses }
{}
