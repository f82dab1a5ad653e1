// Laws of conversions and of overloads, each proved by the function of its name.
ghost use Rattle.cc_convert.specs.Laws as spec;

/// Between two types there is at most one implicit conversion, and so one rank.
#[tactic(auto, using(crate::proofs::LawProofs::one_conversion))]
pub fn one_conversion()
    ensures { spec.OneConversion }
{}

/// A call takes at most one choice among some candidates.
#[tactic(auto, using(crate::proofs::LawProofs::one_choice))]
pub fn one_choice()
    ensures { spec.OneChoice }
{}

/// Where all candidates, of which there are two or more, are equal in types and viable, the choice is a tie of the first
/// two.
#[tactic(auto, using(crate::proofs::LawProofs::equal_tie))]
pub fn equal_tie()
    ensures { spec.EqualTie }
{}
