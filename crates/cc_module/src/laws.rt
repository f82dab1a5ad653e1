// What holds of the spellings of all signatures.
ghost use Rattle.cc_module.specs.Signatures.{OneSignature};

/// A signature has one spelling, and a spelling is of one signature.
pub fn one_signature()
    ensures { OneSignature }
{}
