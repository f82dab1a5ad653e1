// Laws of verified modules.
ghost use Rattle.cc_soundness.specs.Laws as spec;

/// Where the methods of an executable keep the verifier's rules, each run begins in a typed state, or ends at once
/// (ECMA-335, II.15.4.1.2).
pub fn start_is_typed()
    ensures { spec.StartIsTyped }
{}

/// A typed state steps to a typed state, or the run ends: it is never stuck (ECMA-335, III.1.8).
pub fn typed_steps()
    ensures { spec.TypedSteps }
{}

/// The evaluation stack of a typed state is no higher than its method says (ECMA-335, III.1.7.4).
pub fn stack_is_small()
    ensures { spec.StackIsSmall }
{}

/// No run of an executable whose methods keep the rules is ever stuck.
pub fn never_stuck()
    ensures { spec.NeverStuck }
{}

/// The methods of a verified module keep the rules, with the tables that the verifier's pass finds.
pub fn verified_keeps_rules()
    ensures { spec.VerifiedKeepsRules }
{
    cc_cil::one_spelling();
    cc_module::one_signature();
}

/// No run of a verified module is ever stuck (ECMA-335, II.3 and III.1.8).
pub fn verified_is_never_stuck()
    ensures { spec.VerifiedIsNeverStuck }
{
    cc_cil::one_spelling();
    cc_module::one_signature();
}

/// A verified module is loaded as an executable: each instruction of its methods has an operation, and each name that
/// it uses stands for what the machine has (ECMA-335, II.22 and II.25.4).
pub fn verified_is_loaded()
    ensures { spec.VerifiedIsLoaded }
{
    cc_module::one_signature();
}
