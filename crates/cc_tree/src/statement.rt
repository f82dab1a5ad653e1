// Statements (ECMA-372, 16).
use crate::{Arguments, Expression, Identifier, TypeName};
use cc_base::Span;
use sqlite_items::{Boxed, Items};

/// A statement.
#[cycle(statement)]
#[derive(Drop)]
pub enum Statement {
    /// A block, which is itself the node.
    Block(Block),
    /// `;`
    Empty(Span),
    Local(Local, Span),
    Expression(Expression, Span),
    Delete(Expression, Span),
    /// An `if`, with what follows its `else` where it has one.
    If(Expression, Boxed<Statement>, Option<Boxed<Statement>>, Span),
    While(Expression, Boxed<Statement>, Span),
    /// The body, then the condition.
    Do(Boxed<Statement>, Expression, Span),
    /// The start, the condition, the step and the body.
    For(ForStart, Option<Expression>, Option<Expression>, Boxed<Statement>, Span),
    /// The variable's type and name, what is gone over, and the body.
    ForEach(TypeName, Identifier, Expression, Boxed<Statement>, Span),
    Switch(Expression, Items<Section>, Span),
    Break(Span),
    Continue(Span),
    Return(Option<Expression>, Span),
    Throw(Option<Expression>, Span),
    /// The guarded block, the catches, and the block of a `finally` where there is one.
    Try(Block, Items<Catch>, Option<Block>, Span),
}

/// Statements in braces.
#[cycle(statement)]
#[derive(Drop)]
pub struct Block {
    pub statements: Items<Statement>,
    pub span: Span,
}

/// A section of a switch: the labels, and the statements up to the next label. It is no node of its own.
#[cycle(statement)]
#[derive(Drop)]
pub struct Section {
    pub labels: Items<Label>,
    pub statements: Items<Statement>,
}

/// A catch of a `try`. It is no node of its own.
#[cycle(statement)]
#[derive(Drop)]
pub struct Catch {
    pub caught: Caught,
    pub block: Block,
}

/// What a catch catches. It is no node of its own.
#[derive(Drop)]
pub enum Caught {
    /// `...`
    All,
    /// Exceptions of a type, and the variable that holds them where it has a name.
    Typed(TypeName, Option<Identifier>),
}

/// A label of a switch.
#[derive(Drop)]
pub enum Label {
    Case(Expression, Span),
    Default(Span),
}

/// What stands before the first `;` of a `for`. It is no node of its own.
#[derive(Drop)]
pub enum ForStart {
    Nothing,
    Local(Local),
    Expression(Expression),
}

/// A declaration of local variables, without its `;`.
#[derive(Drop)]
pub struct Local {
    pub of: TypeName,
    pub declarators: Items<Declarator>,
    pub span: Span,
}

/// One variable of a declaration.
#[derive(Drop)]
pub struct Declarator {
    pub name: Identifier,
    pub initializer: Initializer,
    pub span: Span,
}

/// How a local variable is initialised. It is no node of its own.
#[derive(Drop)]
pub enum Initializer {
    Nothing,
    /// `= value`
    Value(Expression),
    /// `= { elements }`
    Elements(Arguments),
    /// `(arguments)`, at least one.
    Arguments(Items<Expression>),
}
