// Verified modules, and the verifier's call.
ghost use Rattle.std.specs.Prelude.{◌≡◌, ◌<◌, ◌^◌, length, slice_get, Some, None, IfOk};
ghost use Rattle.cc_verify.specs.Verified.{IsAnswer, IsVerified};

use crate::codes::first_fault;
use crate::fault::{VerifyFault, VerifyRefusal};
use cc_module::Module;
use std::alloc::Global;
use std::marker::Model;

/// A module that keeps every rule (ECMA-335, II.22, III.1.7 and III.1.8).
#[derive(Debug, Drop)]
pub struct Verified {
    module: Module,
}

impl Model for Verified {
    ghost use Rattle.cc_module.specs.declared.module.Module.{Module};
    ghost use Rattle.cc_module.specs.contracts.module.Module as module_row;
    ghost use Rattle.cc_verify.specs.Verified.{IsVerified};

    ghost Value = { Module };

    ghost coded = { module_row.the_row.coded };

    ghost view = { λ verified. verified.«module» };

    ghost invariant = { λ verified. IsVerified verified.«module» };
}

impl Verified {
    /// The module that was verified.
    pub fn module(&self) -> &Module
        ensures same { result.now ≡ self.now }
        ensures verified { IsVerified result.now }
    {
        &self.module
    }
}

/// Verifies a module: it is the answer exactly where it breaks no rule (ECMA-335, II.22, III.1.7 and III.1.8). Else it
/// comes back with the first rule that it breaks: of the rules on rows the first by number, with the first row that breaks
/// it; then of the rules on code the first by method, by offset and by number.
pub fn verify(alloc: Global, module: Module) -> Result<Verified, VerifyRefusal>
    ensures { IsAnswer «module» result }
{
    match first_fault(alloc, &module) {
        Ok(None) => Ok(Verified { module }),
        Ok(Some(fault)) => Err(VerifyRefusal { module, fault }),
        Err(_) => Err(VerifyRefusal {
            module,
            fault: VerifyFault::Memory,
        }),
    }
}
