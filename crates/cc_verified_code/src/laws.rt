// The law of functions' code.
ghost use Rattle.cc_verified_code.specs.Laws as spec;

/// The code of each function that is well typed and fit breaks none of the verifier's rules on code (ECMA-335, III.1.7 and
/// III.1.8).
pub fn functions_keep_the_rules()
    ensures { spec.FunctionsKeepTheRules }
{}
