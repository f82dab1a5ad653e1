// Laws of the definition of spelling, each proved by the function of its name.
ghost use Rattle.cc_lexer.specs.Laws as spec;

/// Each source has tokens or a refusal, at most one list of tokens, and not both tokens and a refusal.
#[tactic(auto, using(crate::proofs::OneReading::spelled_once, crate::proofs::EachReading::each_read))]
pub fn one_reading()
    ensures some { spec.EachRead }
    ensures one { spec.OneReading }
{}

/// No sign that begins some bytes is longer than the one that is taken, and that one is in the table under its number.
#[tactic(auto, using(crate::proofs::LongestSign::longest, crate::proofs::LongestSign::is_taken))]
pub fn longest_sign()
    ensures longest { spec.TakesLongestSign }
    ensures numbered { spec.TakesSign }
{}

/// The closing quote is the first that no backslash escapes: a body without a bare quote and without a line feed stands
/// before it, and each such body is closed by the quote behind it.
#[tactic(auto, using(crate::proofs::ClosedBody::closes, crate::proofs::ClosedBody::closed))]
pub fn closing_quote()
    ensures closes { spec.ClosesBody }
    ensures closed { spec.ClosedBody }
{}

/// A comment ends behind the first `*/`, and has no end exactly where no `*/` follows.
#[tactic(auto, using(crate::proofs::CommentEnd::ends, crate::proofs::CommentEnd::leaves))]
pub fn comment_end()
    ensures ends { spec.EndsComment }
    ensures endless { spec.LeavesComment }
{}
