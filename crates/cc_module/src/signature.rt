// Signatures (ECMA-335, II.23.2).
use crate::element::Element;
use cc_base::List;

/// A type: its elements, each before those of the types that it is made of (ECMA-335, II.23.2.12).
#[derive(Debug, Drop)]
pub struct TypeSignature {
    pub elements: List<Element>,
}

/// A signature, as a column of a metadata table holds it.
#[derive(Debug, Drop)]
pub enum Signature {
    /// The type of a field (II.23.2.4).
    Field(TypeSignature),
    /// A method (II.23.2.1).
    Method {
        /// Whether it has a `this`.
        has_this: bool,
        /// The number of its type parameters, where it is generic.
        type_parameters: Option<u32>,
        result: TypeSignature,
        parameters: List<TypeSignature>,
    },
    /// The types of local variables (II.23.2.6).
    Locals(List<TypeSignature>),
    /// A property (II.23.2.5).
    Property {
        /// Whether it has a `this`.
        has_this: bool,
        holds: TypeSignature,
        /// The types of its indexes.
        indexes: List<TypeSignature>,
    },
    /// The type arguments of a generic method (II.23.2.15).
    Instantiation(List<TypeSignature>),
    /// A type alone, neither `void` nor a pointer (II.23.2.14).
    Plain(TypeSignature),
}
