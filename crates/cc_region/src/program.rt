// Region programs.
ghost use Rattle.std.specs.Prelude.{◌≡◌};
ghost use Rattle.cc_region.specs.Typed.{IsRegionProgram, region_parts};

use crate::tree::RegionFunction;
use cc_base::{List, MethodId};
use cc_core::Classes;
use std::marker::Model;

/// A program of regions each of whose terms is well typed, each of whose exits has its target, and that starts at a function
/// `main` outside classes that gives an `int` (ECMA-372, 10, 15 and 16). It holds no form that isn't built.
#[derive(Drop)]
pub struct RegionProgram<'a> {
    classes: &'a Classes,
    functions: List<RegionFunction>,
    main: MethodId,
}

impl<'a> Model for RegionProgram<'a> {
    ghost use Rattle.cc_region.specs.declared.tree.RegionParts.{RegionParts};
    ghost use Rattle.cc_region.specs.contracts.tree.RegionParts as its_parts;

    ghost Value = { RegionParts };

    ghost coded = { its_parts.the_row.coded };

    ghost use Rattle.cc_region.specs.Typed.{IsRegionProgram, region_parts};

    ghost view = { λ inside. region_parts inside.classes.now inside.functions inside.main };

    ghost invariant = { λ inside. IsRegionProgram (region_parts inside.classes.now inside.functions inside.main) };
}

impl<'a> RegionProgram<'a> {
    /// The program of these parts, which are such as a region program's are.
    pub fn new(
        classes: &'a Classes,
        functions: List<RegionFunction>,
        main: MethodId,
    ) -> RegionProgram<'a>
        requires { IsRegionProgram (region_parts classes.now functions main) }
        ensures { result ≡ region_parts classes.now functions main }
    {
        RegionProgram {
            classes,
            functions,
            main,
        }
    }

    /// The classes: the library's, and then the one that has the functions outside classes.
    pub fn classes(&self) -> &Classes
        ensures value { result.now ≡ self.now.classes }
        ensures sound { IsRegionProgram self.now }
    {
        self.classes
    }

    /// The functions that have a body, in order of their numbers.
    pub fn functions(&self) -> &[RegionFunction]
        ensures { result.now ≡ self.now.functions }
    {
        self.functions.as_slice()
    }

    /// The function at which a run begins.
    pub fn main(&self) -> MethodId
        ensures { result ≡ self.now.main }
    {
        self.main
    }
}
