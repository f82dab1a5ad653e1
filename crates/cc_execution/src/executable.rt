// A module as the machine executes it: signatures read, code decoded, tokens resolved.
use crate::operation::{FundamentalType, Operation};
use cc_base::{ClassId, List, Text};
use cc_cil::Clause;
use cc_core::LibraryCall;

/// An operation, the offset at which its instruction begins and the one behind it, in bytes of the code.
#[derive(Clone, Copy)]
pub struct PlacedOperation {
    pub at: u32,
    pub operation: Operation,
    pub next: u32,
}

/// A method.
#[derive(Drop)]
pub struct Method {
    /// The types of its parameters; none for one of a type that no operation loads.
    pub parameters: List<Option<FundamentalType>>,
    /// The type of its result, where it has one.
    pub result: Option<FundamentalType>,
    /// The types of its local variables.
    pub locals: List<FundamentalType>,
    /// Its operations, in order of their offsets; none where it has no body.
    pub operations: List<PlacedOperation>,
    /// Its clauses, the inner ones first.
    pub clauses: List<Clause>,
    /// The greatest number of values on its evaluation stack.
    pub max_stack: u16,
}

/// A class as handlers tell it: the tokens that name it in the module, and its base class.
#[derive(Drop)]
pub struct ClassRow {
    pub tokens: List<u32>,
    pub base: Option<ClassId>,
}

/// A module as the machine executes it.
#[derive(Drop)]
pub struct Executable {
    /// The methods, in order of MethodDef.
    pub methods: List<Method>,
    /// The members of the library that the rows of MemberRef name.
    pub references: List<LibraryCall>,
    /// The classes, by their numbers: the library's, then those of TypeDef in order.
    pub classes: List<ClassRow>,
    /// The full names of the classes.
    pub names: List<Text>,
    /// The place of the entry among the methods.
    pub entry: u32,
}
