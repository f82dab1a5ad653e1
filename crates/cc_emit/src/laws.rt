// Laws of the module of a straight program, each proved by the function of its name.
ghost use Rattle.std.specs.Prelude.{List, ℕ};
ghost use Rattle.cc_emit.specs.Laws as spec;

/// A file can hold the module of each straight program, and has at most 268,435,456 bytes.
pub fn each_fits()
    ensures { spec.EachFits }
{}

/// The entry of the module is `<start>`, and both methods have their bodies.
pub fn begins_at_start()
    ensures { (code : List ℕ) → spec.BeginsAtStart code }
{}
