// Members of classes (ECMA-372, 18 and 19).
use crate::{Arguments, Block, Identifier, TypeName};
use cc_base::Span;
use sqlite_items::Items;

/// Who may name the members that follow (ECMA-372, 18.3).
#[derive(Clone, Copy, Debug, PartialEq, Eq)]
pub enum AccessWord {
    Public,
    Protected,
    Private,
}

/// What stands before the type of a function or property.
#[derive(Clone, Copy, Debug, PartialEq, Eq)]
pub enum Storage {
    Nothing,
    Static,
    Virtual,
}

/// A member of a class, or the words that say who may name those that follow.
#[derive(Drop)]
pub enum Member {
    Access(AccessWord, Span),
    /// Whether `static` stands before them, their type and their names.
    Fields(bool, TypeName, Items<Identifier>, Span),
    /// The result, the name, the parameters, the modifiers, what it overrides by name, and the body where
    /// it has one.
    Function(
        Storage,
        TypeName,
        Identifier,
        Parameters,
        Items<Modifier>,
        Option<Overridden>,
        Option<Block>,
        Span,
    ),
    Constructor(Identifier, Parameters, Items<MemberInitializer>, Block, Span),
    /// Whether `virtual` stands before it, the class's name and the body.
    Destructor(bool, Identifier, Block, Span),
    Finaliser(Identifier, Block, Span),
    /// Without accessors it is a trivial property.
    Property(Storage, TypeName, PropertyName, Items<Accessor>, Span),
}

/// How a property is named. It is no node of its own.
#[derive(Drop)]
pub enum PropertyName {
    Named(Identifier),
    /// The place of `default`, and the type of the index.
    Indexed(Span, TypeName),
}

/// Whether an accessor reads or writes.
#[derive(Clone, Copy, Debug, PartialEq, Eq)]
pub enum AccessorWord {
    Get,
    Set,
}

/// An accessor of a property (ECMA-372, 18.5.3).
#[derive(Drop)]
pub struct Accessor {
    pub is_virtual: bool,
    pub of: TypeName,
    pub word: AccessorWord,
    /// The place of the word.
    pub word_span: Span,
    pub parameters: Parameters,
    pub modifiers: Items<Modifier>,
    pub overridden: Option<Overridden>,
    pub body: Option<Block>,
    pub span: Span,
}

/// The parameters of a function, without their parentheses. Without any, the span is empty and stands where
/// the `(` ends.
#[derive(Drop)]
pub struct Parameters {
    pub items: Items<Parameter>,
    pub span: Span,
}

/// A parameter. It is no node of its own.
#[derive(Drop)]
pub struct Parameter {
    pub of: TypeName,
    pub name: Option<Identifier>,
}

/// A word after the parameters of a function (ECMA-372, 18.4.1 to 18.4.3).
#[derive(Drop)]
pub enum Modifier {
    Abstract(Span),
    Override(Span),
    Sealed(Span),
    New(Span),
}

/// What follows the `=` after a function's parameters.
#[derive(Drop)]
pub enum Overridden {
    /// `0`
    Pure(Span),
    /// The functions that it overrides by name, at least one.
    Functions(Items<NamedFunction>, Span),
}

/// A function of a class, by its name, or an accessor of a property.
#[derive(Drop)]
pub struct NamedFunction {
    pub class: TypeName,
    pub name: Identifier,
    pub accessor: Option<AccessorWord>,
    pub span: Span,
}

/// An initialiser of a constructor (ECMA-372, 18.6).
#[derive(Drop)]
pub enum MemberInitializer {
    /// A member, and the arguments of its constructor.
    Member(Identifier, Arguments, Span),
    /// A base class, and the arguments of its constructor.
    Base(TypeName, Arguments, Span),
}
