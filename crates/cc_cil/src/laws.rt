// What holds of the spellings of all instructions.
ghost use Rattle.cc_cil.specs.Instructions.{OneSpelling};

/// No two instructions have one spelling, and no instruction's spelling begins another's.
pub fn one_spelling()
    ensures { OneSpelling }
{}
