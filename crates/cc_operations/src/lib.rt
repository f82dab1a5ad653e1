//! What operators, casts and calls make of typed operands, or why they are refused.
#![tactic(auto)]

mod calls;
mod judged;
mod meanings;
mod numbers;
mod operators;
mod source;

pub use calls::call;
pub use judged::{ConsoleMember, Given, Judged, Meant, Refusal};
pub use meanings::{as_operand, as_value, constant, number, postfixed, prefixed};
pub use numbers::{common, core, is_bool, is_same, is_void, number_type, promoted, written};
pub use operators::{
    assigned, binary, cast_to, conditional, constructed, convert, converted, named_cast,
    no_conversion,
};
pub use source::{Directed, Frame, Known, Source, Variable};
