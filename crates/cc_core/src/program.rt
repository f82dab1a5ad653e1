// Typed programs.
ghost use Rattle.std.specs.Prelude.{◌≡◌};
ghost use Rattle.cc_core.specs.Typed.{IsProgram, program_parts};

use crate::classes::Classes;
use crate::tree::FunctionBody;
use cc_base::{List, MethodId};
use std::marker::Model;

/// A program each of whose terms is well typed, and that is fit: each function with a body has exactly one, in order of the
/// functions; breaks, continues, returns and labels stand as they must; and it starts at a function `main` outside classes
/// that gives an `int` (ECMA-372, 10, 15 and 16). It holds no form that isn't built.
#[derive(Drop)]
pub struct Program {
    classes: Classes,
    bodies: List<FunctionBody>,
    main: MethodId,
}

impl Model for Program {
    ghost use Rattle.cc_core.specs.declared.tree.ProgramParts.{ProgramParts};
    ghost use Rattle.cc_core.specs.contracts.tree.ProgramParts as its_parts;

    ghost Value = { ProgramParts };

    ghost coded = { its_parts.the_row.coded };

    ghost use Rattle.cc_core.specs.Typed.{IsProgram, program_parts};

    ghost view = { λ inside. program_parts inside.classes inside.bodies inside.main };

    ghost invariant = { λ inside. IsProgram (program_parts inside.classes inside.bodies inside.main) };
}

impl Program {
    /// The program of these parts, which are such as a program's are.
    pub fn new(classes: Classes, bodies: List<FunctionBody>, main: MethodId) -> Program
        requires { IsProgram (program_parts classes bodies main) }
        ensures { result ≡ program_parts classes bodies main }
    {
        Program {
            classes,
            bodies,
            main,
        }
    }

    /// The classes: the library's, and then the one that has the functions outside classes.
    pub fn classes(&self) -> &Classes
        ensures value { result.now ≡ self.now.classes }
        ensures sound { IsProgram self.now }
    {
        &self.classes
    }

    /// The bodies of the functions, in order of their numbers.
    pub fn bodies(&self) -> &[FunctionBody]
        ensures { result.now ≡ self.now.bodies }
    {
        self.bodies.as_slice()
    }

    /// The function at which a run begins.
    pub fn main(&self) -> MethodId
        ensures { result ≡ self.now.main }
    {
        self.main
    }
}
