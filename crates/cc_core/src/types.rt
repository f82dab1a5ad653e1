// The types of the core, the classes with their members, and the operators of typed terms.
use cc_base::{ClassId, List, MethodId, Name, Span, Text};

/// A type after its names are resolved (ECMA-372, 12; ECMA-335, I.8.2.2).
#[derive(Debug, Drop)]
pub enum CoreType {
    /// `void`, which only a result has.
    Void,
    /// `bool`.
    Bool,
    /// `wchar_t`.
    Char,
    /// `signed char`.
    I8,
    /// `unsigned char`.
    U8,
    /// `short`.
    I16,
    /// `unsigned short`.
    U16,
    /// `int`.
    I32,
    /// `unsigned int`.
    U32,
    /// `long long`.
    I64,
    /// `unsigned long long`.
    U64,
    /// An enum, which has `int` beneath it.
    Enum(ClassId),
    /// A value class.
    Value(ClassId),
    /// A handle to a ref class or an interface class.
    Handle(ClassId),
    /// A handle to an array with elements of a type.
    Array(Box<CoreType>),
    /// The type of `nullptr`.
    Null,
    /// A tracking reference to a place of a type (ECMA-372, 12.3).
    Track(Box<CoreType>),
}

/// Who may name a member (ECMA-372, 18.3; ECMA-335, I.8.5.3.2).
#[derive(Clone, Copy, Debug, PartialEq, Eq)]
pub enum Access {
    Public,
    /// The class and those derived from it, as `protected`.
    Family,
    Private,
}

/// A word that a function bears (ECMA-372, 18.4).
#[derive(Clone, Copy, Debug, PartialEq, Eq)]
pub enum Mark {
    Virtual,
    Abstract,
    Override,
    Sealed,
    New,
}

/// A function that another one overrides by name: its class and its name (ECMA-372, 18.4.1).
#[derive(Debug, Drop)]
pub struct NamedFunction {
    pub class: ClassId,
    pub name: Name,
}

/// A field of a class.
#[derive(Debug, Drop)]
pub struct FieldInfo {
    pub name: Name,
    pub span: Span,
    /// The type of what it holds.
    pub holds: CoreType,
    pub access: Access,
    pub is_static: bool,
    /// Whether it is a member with stack semantics, which its class constructs and disposes.
    pub on_stack: bool,
}

/// A function of a class. A constructor is named `.ctor`, a destructor `~` and a finaliser `!`.
#[derive(Debug, Drop)]
pub struct MethodInfo {
    pub name: Name,
    pub span: Span,
    pub parameters: List<CoreType>,
    pub result: CoreType,
    pub access: Access,
    pub is_static: bool,
    pub has_body: bool,
    pub marks: List<Mark>,
    /// The functions that it overrides by name.
    pub named: List<NamedFunction>,
}

/// A property with its accessors (ECMA-372, 18.5).
#[derive(Debug, Drop)]
pub struct PropertyInfo {
    /// The type of what it holds.
    pub holds: CoreType,
    /// The type of its index, where it has one.
    pub index: Option<CoreType>,
    pub getter: Option<MethodId>,
    pub setter: Option<MethodId>,
}

/// What a class is (ECMA-372, 21 to 24).
#[derive(Clone, Copy, Debug, PartialEq, Eq)]
pub enum ClassKind {
    Ref,
    Value,
    Interface,
    Enum,
}

/// A class with its members in order of declaration.
#[derive(Debug, Drop)]
pub struct ClassInfo {
    /// The full name, with the names of its namespaces before it, parted by `.`.
    pub name: Text,
    pub span: Span,
    pub kind: ClassKind,
    pub base: Option<ClassId>,
    /// The interfaces that it lists.
    pub interfaces: List<ClassId>,
    pub is_abstract: bool,
    pub is_sealed: bool,
    pub fields: List<FieldInfo>,
    pub methods: List<MethodInfo>,
}

/// An operator between two operands that are both evaluated (ECMA-372, 15.7 to 15.16).
#[derive(Clone, Copy, Debug, PartialEq, Eq)]
pub enum Operator {
    Or,
    ExclusiveOr,
    And,
    Equal,
    NotEqual,
    Less,
    Greater,
    LessOrEqual,
    GreaterOrEqual,
    ShiftLeft,
    ShiftRight,
    Add,
    Subtract,
    Multiply,
    Divide,
    Remainder,
}

/// An operator before its operand that gives a value (ECMA-372, 15.4).
#[derive(Clone, Copy, Debug, PartialEq, Eq)]
pub enum UnaryOperator {
    /// `!`
    Not,
    /// `~`
    Complement,
    /// `-`
    Negate,
}
