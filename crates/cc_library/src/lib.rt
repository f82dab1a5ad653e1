//! What members of the CLI's library compute on numbers, texts and bytes (ECMA-335, partition IV).
#![tactic(auto)]

mod laws;
mod lines;
mod numbers;
#[cfg(test)]
mod tests;
mod texts;

pub use laws::{decimals_are_read, one_decoding, one_number};
pub use lines::{Line, line_of};
pub use numbers::{Parsed, decimal_of, parse_int};
pub use texts::{boolean_of, character_of, concat, utf8_of};
