// Laws of the straight form, each proved by the function of its name.
ghost use Rattle.cc_straight.specs.Laws as spec;

/// A tree is a straight program, or it has a first node that isn't built, and never both.
pub fn straight_or_unbuilt()
    ensures either { spec.StraightOrUnbuilt }
    ensures never_both { spec.NeverBoth }
{}

/// A text spells at most one straight program, and one that is refused, to be executed or to be checked, spells none.
pub fn one_source()
    ensures one { spec.OneSource }
    ensures refused { spec.RefusedReadsNone }
{}
