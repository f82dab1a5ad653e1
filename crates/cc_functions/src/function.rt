// Functions with their code.
use cc_base::{List, Name};
use cc_module::Signature;

/// A function outside classes, with its code.
#[derive(Debug, Drop)]
pub struct Function {
    pub name: Name,
    /// That of a static method (ECMA-335, II.23.2.1).
    pub signature: Signature,
    /// That of its local variables (II.23.2.6), where it has some.
    pub locals: Option<Signature>,
    /// The greatest number of values on its evaluation stack.
    pub max_stack: u16,
    /// Its instructions as bytes (III.1.2).
    pub code: List<u8>,
}
