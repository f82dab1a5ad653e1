// Method bodies and the clauses of their exception sections.
use cc_base::List;

/// What the handler of a clause does (ECMA-335, II.25.4.6).
#[derive(Clone, Copy, Debug, PartialEq, Eq)]
pub enum ClauseKind {
    /// Catches exceptions of a class.
    Catch,
    /// Runs however the protected code is left.
    Finally,
    /// Runs where an exception leaves the protected code.
    Fault,
}

/// A clause of an exception section: protected code and its handler (ECMA-335, II.25.4.6). Offsets and lengths count
/// bytes of the code.
#[derive(Clone, Copy, Debug, PartialEq, Eq)]
pub struct Clause {
    pub kind: ClauseKind,
    pub try_first: u32,
    pub try_length: u32,
    pub handler_first: u32,
    pub handler_length: u32,
    /// The token of the class that is caught; 0 where the clause is no catch.
    pub class: u32,
}

/// The body of a method (ECMA-335, II.25.4).
#[derive(Debug, Drop)]
pub struct Body {
    /// The greatest number of entries on the evaluation stack.
    pub max_stack: u16,
    /// The token of the signature of the local variables, or 0.
    pub locals: u32,
    /// The instructions as bytes.
    pub code: List<u8>,
    /// The clauses, an inner one before the one around it.
    pub clauses: List<Clause>,
}
