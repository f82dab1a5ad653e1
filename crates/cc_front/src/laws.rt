// Laws of the typed programs of texts, each proved by the function of its name.
ghost use Rattle.cc_front.specs.Laws as spec;

/// A text has at most one typed program but for where its parts stand in memory, its typed programs all mean the same, and a
/// text that is refused has none.
pub fn one_program()
    ensures one { spec.OneProgram }
    ensures meaning { spec.OneMeaning }
    ensures refused { spec.RefusedHasNone }
{}
