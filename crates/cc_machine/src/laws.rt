// What makes runs and checks definite.
ghost use Rattle.cc_machine.specs.Laws as spec;

/// A state has at most one next state: an instruction does one thing.
pub fn one_step()
    ensures { spec.OneStep }
{}

/// A check has one answer: no offset is wrong, or one is the first.
pub fn one_answer()
    ensures { spec.OneAnswer }
{}
