// Laws of the parser's machine, each proved by the function of its name.
ghost use Rattle.cc_grammar_laws.specs.Laws as spec;
ghost use Rattle.cc_grammar_laws.specs.Fronts as fronts;

/// A run of the machine ends with at most one list of values.
#[tactic(auto, using(crate::proofs::Uniqueness::one_end))]
pub fn one_end()
    ensures { spec.OneEnd }
{}

/// The tokens of a type are read as that type, and tokens that are read as a type and no more are a spelling of it.
#[tactic(auto, using(crate::proofs::CompleteTypes::types_are_read, crate::proofs::SoundTypes::only_types_are_read))]
pub fn types_are_read()
    ensures read { spec.TypesAreRead }
    ensures only { spec.OnlyTypesAreRead }
{}

/// The tokens of an expression are read as that expression.
#[tactic(auto, using(crate::proofs::Uniqueness::expressions_are_read))]
pub fn expressions_are_read()
    ensures { spec.ExpressionsAreRead }
{}

/// The tokens of a statement are read as that statement.
#[tactic(auto, using(crate::proofs::Uniqueness::statements_are_read))]
pub fn statements_are_read()
    ensures { spec.StatementsAreRead }
{}

/// Tokens spell at most one type, at most one expression and at most one statement.
#[tactic(auto, using(crate::proofs::Uniqueness::one_type, crate::proofs::Uniqueness::one_expression, crate::proofs::Uniqueness::one_statement))]
pub fn one_tree()
    ensures types { spec.OneType }
    ensures expressions { spec.OneExpression }
    ensures statements { spec.OneStatement }
{}

/// A source that spells a unit is read as that unit, and spells no other; a source that is read as a unit spells it. A
/// source that is refused spells none, and tokens that are refused whatever follows them begin none that does.
#[tactic(auto, using(crate::proofs::CompleteUnit::units_are_read, crate::proofs::BackRun::only_units_are_read, crate::proofs::CompleteUnit::one_unit, crate::proofs::CompleteUnit::refuses_no_unit, crate::proofs::CompleteUnit::refuses_no_front))]
pub fn units_are_read()
    ensures read { spec.UnitsAreRead }
    ensures only { spec.OnlyUnitsAreRead }
    ensures one { spec.OneUnit }
    ensures trees { spec.RefusesNoUnit }
    ensures fronts { spec.RefusesNoFront }
{}

/// Tokens after which the machine still expects something, whatever follows them, are completed by some tokens to a source:
/// over all collected names of which the type `String` is one, as it is of those that a source collects.
#[tactic(auto, using(crate::proofs::Able::front_before, crate::proofs::Able::front_of_source, crate::proofs::Able::string_is_collected))]
pub fn fronts_are_completed()
    ensures before { fronts.FrontBefore }
    ensures source { fronts.FrontOfSource }
    ensures string { fronts.StringIsCollected }
{}
