//! The tokens of a source, exactly as its definition of spelling has them.
#![tactic(auto)]

mod bytes;
mod digits;
mod directives;
mod escapes;
mod fault;
mod gaps;
mod laws;
mod numbers;
mod pieces;
mod quotes;
mod signs;
#[cfg(test)]
mod tests;
mod tokens;

pub use fault::LexFault;
pub use laws::{closing_quote, comment_end, longest_sign, one_reading};
pub use tokens::lex;
