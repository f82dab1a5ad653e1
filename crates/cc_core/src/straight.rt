// The program of the straight form: lines that are printed, and the result of `main`.
use cc_base::List;

/// A binary operator on two `int` (ECMA-372, 15; C++, 5.6 and 5.7). Results wrap.
#[derive(Clone, Copy, Debug, PartialEq, Eq)]
pub enum StraightOperator {
    Add,
    Subtract,
    Multiply,
}

/// One step of a straight program. Operands come before their operator, as they are evaluated.
#[derive(Clone, Copy, Debug, PartialEq, Eq)]
pub enum StraightOperation {
    /// The value of a literal, as its 32 bits.
    Number(u32),
    /// The operator's result on the two values made last.
    Apply(StraightOperator),
    /// Prints the value made last as a line.
    WriteLine,
    /// Ends `main` with the value made last.
    Return,
}

/// A straight program: its operations in order of evaluation.
#[derive(Debug, Drop)]
pub struct StraightProgram {
    pub operations: List<StraightOperation>,
}
