// What holds of the first fault of each module.
ghost use Rattle.cc_verify.specs.Verified.{OneFault};

/// No module has two first faults: it is verified exactly where `verify` says so, but for want of memory, and else its
/// fault is the one that `verify` names.
pub fn one_fault()
    ensures { OneFault }
{
    cc_cil::one_spelling();
    cc_module::one_signature();
}
