// The typed trees: what a function does after its names and types are resolved.
use crate::{ClassInfo, CoreType, LibraryCall, Operator, UnaryOperator};
use cc_base::{ClassId, FieldId, List, LocalId, MethodId, Text};
use sqlite_items::Items;

/// Which value an update gives: that which it stores, as `x += y` and `++x`, or that which stood there before, as `x++`
/// (ECMA-372, 15.3.9, 15.4.5 and 15.20).
#[derive(Clone, Copy, Debug, PartialEq, Eq)]
pub enum UpdateResult {
    New,
    Old,
}

/// Which function a call enters (ECMA-335, I.8.10.4).
#[derive(Clone, Copy, Debug, PartialEq, Eq)]
pub enum Dispatch {
    /// The function that is named.
    Direct,
    /// The final overrider of its slot in the object's class.
    Virtual,
}

/// A cast that looks at the class of an object (ECMA-372, 15.3.10 and 15.3.13).
#[derive(Clone, Copy, Debug, PartialEq, Eq)]
pub enum CastKind {
    /// Throws where the object is of another class.
    Safe,
    /// Gives null where the object is of another class.
    Dynamic,
}

/// A typed expression. Each variant begins with the type of its value; then come the ids, types, operators and numbers
/// that it names, and last its parts in order of evaluation.
#[derive(Drop)]
pub enum Expression {
    /// A number, a character, `true` or `false` as the bits that the evaluation stack holds (ECMA-335, I.12.1.2): 64 bits
    /// for `long long` and `unsigned long long`, else 32, to which a smaller type is widened by its own sign.
    Number(CoreType, u64),
    /// A string literal.
    Literal(CoreType, Text),
    /// `nullptr`.
    Null(CoreType),
    /// `this`.
    This(CoreType),
    /// A parameter or a local variable.
    Local(CoreType, LocalId),
    /// A field of an object or of a value.
    Field(CoreType, FieldId, Box<Expression>),
    /// A static field.
    StaticField(CoreType, FieldId),
    /// An element of an array: the array and the index.
    Element(CoreType, Box<Expression>, Box<Expression>),
    /// A value of another type, converted to this one.
    Convert(CoreType, Box<Expression>),
    /// `-`, `~` or `!` of an operand of promoted type.
    Unary(CoreType, UnaryOperator, Box<Expression>),
    /// An operator on two operands of one type; the count of a shift may be of another one.
    Binary(CoreType, Operator, Box<Expression>, Box<Expression>),
    /// `first && second`.
    And(CoreType, Box<Expression>, Box<Expression>),
    /// `first || second`.
    Or(CoreType, Box<Expression>, Box<Expression>),
    /// `condition ? first : second`.
    Choose(CoreType, Box<Expression>, Box<Expression>, Box<Expression>),
    /// `place = value`.
    Assign(CoreType, Box<Expression>, Box<Expression>),
    /// `place += value` and the like, and `++` and `--`, whose value is 1: what stands at the place is converted to the
    /// second type, in which the operator works, and its result is converted back.
    Update(CoreType, Operator, CoreType, UpdateResult, Box<Expression>, Box<Expression>),
    /// A call of a function of the program, whose object, where it has one, is the first argument.
    Call(CoreType, MethodId, Dispatch, Items<Expression>),
    /// A new object of a class, made by this constructor.
    New(CoreType, ClassId, MethodId, Items<Expression>),
    /// A new array with elements of the second type, and its length.
    NewArray(CoreType, CoreType, Box<Expression>),
    /// A new array of these elements of the second type.
    ArrayOf(CoreType, CoreType, Items<Expression>),
    /// A cast that looks at the class of the object.
    Cast(CoreType, CastKind, Box<Expression>),
    /// A call of a member of the library, whose object, where it has one, is the first argument.
    Library(CoreType, LibraryCall, Items<Expression>),
    /// The place of an expression, to which a tracking reference is bound.
    PlaceOf(CoreType, Box<Expression>),
    /// The handle of an object with stack semantics.
    HandleOf(CoreType, Box<Expression>),
    /// Sets a local variable to the first, and gives the second.
    Let(CoreType, LocalId, Box<Expression>, Box<Expression>),
    /// Drops the value of the first, and gives the second.
    Then(CoreType, Box<Expression>, Box<Expression>),
}

/// Whether a loop tests its condition before or after its body (ECMA-372, 16.3; C++, 6.5).
#[derive(Clone, Copy, Debug, PartialEq, Eq)]
pub enum LoopKind {
    /// `while` and `for`.
    TestFirst,
    /// `do`.
    BodyFirst,
}

/// A label of a section of a `switch`.
#[derive(Clone, Copy, Debug, PartialEq, Eq)]
pub enum SwitchLabel {
    /// The bits of a constant of the operand's type.
    Case(u64),
    Default,
}

/// A typed statement.
#[cycle(statement)]
#[derive(Drop)]
pub enum Statement {
    /// The statements of a scope.
    Block(Items<Statement>),
    /// An expression whose value is dropped.
    Do(Expression),
    /// Sets a local variable of this type to a value, without one to zero or null.
    Declare(LocalId, CoreType, Option<Expression>),
    /// Sets a local variable with stack semantics to a new object, which the scope disposes.
    DeclareStack(LocalId, Expression),
    If(Expression, Box<Statement>, Box<Statement>),
    /// The condition, what is evaluated after each turn, and the body.
    Loop(LoopKind, Expression, Option<Expression>, Box<Statement>),
    /// Sets the variable to each element of an array or of a string in turn.
    ForEach(LocalId, Expression, Box<Statement>),
    /// Sets the local variable to the operand, and goes on at the section with its label.
    Switch(LocalId, Expression, Items<Section>),
    Break,
    Continue,
    Return(Option<Expression>),
    Throw(Expression),
    /// Throws the exception of the innermost handler again.
    Rethrow,
    /// The body, its handlers, and what is done at last.
    Try(Box<Statement>, Items<Handler>, Option<Box<Statement>>),
    /// Disposes what a handle refers to.
    Delete(Expression),
}

/// A section of a `switch`: its labels, and its statements, which are a scope.
#[cycle(statement)]
#[derive(Drop)]
pub struct Section {
    pub labels: Items<SwitchLabel>,
    pub body: Items<Statement>,
}

/// A handler: the class that it catches and the local variable that it sets, where it names them.
#[cycle(statement)]
#[derive(Drop)]
pub struct Handler {
    pub class: Option<ClassId>,
    pub local: Option<LocalId>,
    pub body: Statement,
}

/// The body of a function.
#[derive(Drop)]
pub struct FunctionBody {
    pub method: MethodId,
    /// The type of what it gives.
    pub result: CoreType,
    /// The types of its local variables, its parameters first.
    pub locals: List<CoreType>,
    /// What a constructor does before its body: the call of the base's constructor, and what sets the members.
    pub start: List<Expression>,
    pub body: Statement,
}

/// The parts of a typed program.
#[derive(Drop)]
pub struct ProgramParts {
    pub classes: List<ClassInfo>,
    pub bodies: List<FunctionBody>,
    /// The function that a run begins with.
    pub main: MethodId,
}
