// What the tokens of a module's code stand for, by types (ECMA-335, III.1.9).
use crate::stack_type::StackType;
use cc_base::{ClassId, List};

/// The types of a method's parameters and of its result (ECMA-335, II.23.2.1). A parameter that the machine can neither
/// load nor store has none; a method without a result has none for it.
#[derive(Drop)]
pub struct MethodType {
    pub parameters: List<Option<StackType>>,
    pub result: Option<StackType>,
}

/// What the rows of a module stand for, table by table and row by row.
#[derive(Drop)]
pub struct Environment {
    /// The classes that the rows of TypeRef name.
    pub classes: List<ClassId>,
    /// The methods of MethodDef.
    pub methods: List<MethodType>,
    /// The methods of MemberRef.
    pub references: List<MethodType>,
    /// The local variables of StandAloneSig.
    pub locals: List<List<StackType>>,
}

/// The types of a method's variables and of its result (ECMA-335, I.12.3.2.2).
#[derive(Drop)]
pub struct Frame {
    pub arguments: List<Option<StackType>>,
    pub locals: List<StackType>,
    pub result: Option<StackType>,
}
