// The methods and the members of the library that the operands of instructions name.
ghost use Rattle.std.specs.Prelude.{◌≡◌, option_map};
ghost use Rattle.cc_execution.specs.Operations.{Names, call, call_defined, at_row};
ghost use Rattle.cc_execution.specs.declared.operation.Operation.TheVariants as does;
ghost use Rattle.cc_decode.specs.Scope.{AreMembers};

use cc_base::List;
use cc_core::LibraryCall;
use cc_execution::Operation;

/// What the tokens of a module name.
#[derive(Drop)]
pub struct Members {
    /// For each method, whether its parameters are all of types that operations load.
    pub callable: List<bool>,
    /// The members of the library that the rows of MemberRef name.
    pub references: List<LibraryCall>,
}

impl Members {
    // A call of the method in a row of MethodDef, counted from 1.
    fn call_defined(&self, row: u32) -> Option<Operation>
        ensures { (names : Names) → AreMembers names self.now → result ≡ call_defined names row }
    {
        if row == 0 {
            return None;
        }
        let n = row - 1;
        match self.callable.get(n as usize) {
            None => None,
            Some(callable) => {
                if *callable {
                    Some(Operation::Call(n))
                } else {
                    None
                }
            }
        }
    }

    // A call of the member in a row of MemberRef, counted from 1.
    fn call_reference(&self, row: u32) -> Option<Operation>
        ensures { result ≡ option_map does.CallLibrary (at_row self.now.references row) }
    {
        if row == 0 {
            return None;
        }
        match self.references.get(row as usize - 1) {
            None => None,
            Some(call) => Some(Operation::CallLibrary(*call)),
        }
    }

    /// A call of what a token names (ECMA-335, III.1.9 and III.3.19).
    pub fn call(&self, token: u32) -> Option<Operation>
        ensures { (names : Names) → AreMembers names self.now → result ≡ call names token }
    {
        let table = token / 0x0100_0000;
        let row = token % 0x0100_0000;
        if table == 0x06 {
            self.call_defined(row)
        } else if table == 0x0A {
            self.call_reference(row)
        } else {
            None
        }
    }
}
