// Laws of the code of functions.
ghost use Rattle.cc_code.specs.Landing as landing;
ghost use Rattle.cc_code.specs.Laws as spec;

/// The size of a function's code is the number of its bytes.
pub fn sizes_are_sums()
    ensures { spec.SizesAreSums }
{}

/// The code of a function has at most 32 bytes for each expression, region and label of the function, and for itself.
pub fn sizes_are_bounded()
    ensures { spec.SizesAreBounded }
{}

/// Each branch and exit in the code of a function leads to an instruction of the function (ECMA-335, III.1.7.2).
pub fn branches_land()
    ensures { landing.BranchesLand }
{}
