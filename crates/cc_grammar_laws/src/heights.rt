// Laws of the kinds and heights of the parser's values, each proved by the function of its name.
ghost use Rattle.cc_grammar_laws.specs.HeightLaws as spec;

/// Wherever the automaton comes to, its values fit what is expected, and those that the next action uses are there.
#[tactic(auto, using(crate::proofs::HeightLaws::stack_fits, crate::proofs::HeightLaws::action_is_ready))]
pub fn stack_fits()
    ensures fits { spec.StackFits }
    ensures ready { spec.ActionIsReady }
{}

/// Nothing that can still come is less deep than the least depth. Where that is over a limit, so is each unit that begins
/// with the tokens.
#[tactic(auto, using(crate::proofs::HeightLaws::least_is_least, crate::proofs::HeightLaws::deep_are_deep))]
pub fn least_is_least()
    ensures least { spec.LeastIsLeast }
    ensures deep { spec.DeepAreDeep }
{}

/// Heights that are made from heights, action by action, are those of the values, and at the end the depth of the unit.
#[tactic(auto, using(crate::proofs::HeightLaws::heights_are_kept, crate::proofs::HeightLaws::tokens_are_flat, crate::proofs::HeightLaws::depth_is_height))]
pub fn depth_is_height()
    ensures kept { spec.HeightsAreKept }
    ensures tokens { spec.TokensAreFlat }
    ensures depth { spec.DepthIsHeight }
{}
