// Laws of the module of a program of functions, each proved by the function of its name.
ghost use Rattle.std.specs.Prelude.{ℕ, List};
ghost use Rattle.cc_functions.specs.declared.function.Function.{Function};
ghost use Rattle.cc_functions.specs.Laws as spec;

/// A file can hold the module of each program whose functions fit, and has at most 268,435,456 bytes.
pub fn each_fits()
    ensures { spec.EachFits }
{}

/// Each function is the method in its row and has its body, and so is `<start>`, the entry, behind them.
pub fn each_has_methods()
    ensures { spec.EachHasMethods }
{}
