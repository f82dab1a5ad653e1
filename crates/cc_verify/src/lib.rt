//! The verifier: whether a module keeps the rules under which no run of it gets stuck (ECMA-335, II.22, III.1.7 and III.1.8).
#![tactic(auto)]

mod body;
mod check;
mod class_rules;
mod codes;
mod decode;
mod effects;
mod environment;
mod fault;
mod laws;
mod library;
mod method;
mod naming;
mod pass;
mod places;
mod readings;
mod regions;
mod sizes;
mod stack;
mod stack_type;
mod transition;
mod types;
mod verified;

pub use body::body_verdict;
pub use check::{BODY_RULES, Check, ClassRule, ROW_RULES};
pub use environment::{Environment, Frame, MethodType};
pub use fault::{VerifyFault, VerifyRefusal};
pub use laws::one_fault;
pub use library::LIBRARY_CLASSES;
pub use method::Method;
pub use places::{Broken, Place};
pub use readings::Readings;
pub use stack_type::StackType;
pub use transition::Transition;
pub use verified::{Verified, verify};
