// Laws of the meaning of regions.
ghost use Rattle.cc_region.specs.Laws as spec;

/// A run of a whole region program that may make more turns of each loop is the same run, or it goes on where the other one
/// was going: what that one printed and told stands at its front, and it has begun no less work.
pub fn larger_bound_continues()
    ensures { spec.LargerBoundContinues }
{}
