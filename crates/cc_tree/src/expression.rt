// Expressions (ECMA-372, 15).
use crate::{Identifier, Radix, Suffix, TypeArguments, TypeName};
use cc_base::{Span, Text};
use sqlite_items::{Boxed, Items};

/// An operator that assigns (ECMA-372, 15.20).
#[derive(Clone, Copy, Debug, PartialEq, Eq)]
pub enum AssignmentOperator {
    Assign,
    Add,
    Subtract,
    Multiply,
    Divide,
    Remainder,
    ExclusiveOr,
    And,
    Or,
    ShiftLeft,
    ShiftRight,
}

/// An operator between two operands (ECMA-372, 15.7 to 15.18).
#[derive(Clone, Copy, Debug, PartialEq, Eq)]
pub enum BinaryOperator {
    LogicalOr,
    LogicalAnd,
    Or,
    ExclusiveOr,
    And,
    Equal,
    NotEqual,
    Less,
    Greater,
    LessOrEqual,
    GreaterOrEqual,
    ShiftLeft,
    ShiftRight,
    Add,
    Subtract,
    Multiply,
    Divide,
    Remainder,
}

/// An operator before its operand (ECMA-372, 15.4).
#[derive(Clone, Copy, Debug, PartialEq, Eq)]
pub enum PrefixOperator {
    Not,
    Complement,
    Negate,
    Plus,
    Increment,
    Decrement,
    /// The unary `%`, which gives the handle of an object.
    Handle,
}

/// An operator after its operand (ECMA-372, 15.3.9).
#[derive(Clone, Copy, Debug, PartialEq, Eq)]
pub enum PostfixOperator {
    Increment,
    Decrement,
}

/// How a member is selected.
#[derive(Clone, Copy, Debug, PartialEq, Eq)]
pub enum Selector {
    /// `.`
    Dot,
    /// `->`
    Arrow,
}

/// The word of a cast (ECMA-372, 15.3.10 to 15.3.14).
#[derive(Clone, Copy, Debug, PartialEq, Eq)]
pub enum CastWord {
    Safe,
    Static,
    Dynamic,
}

/// An expression.
#[cycle(expression)]
#[derive(Drop)]
pub enum Expression {
    /// `left = right`, and the like.
    Assign(Boxed<Expression>, AssignmentOperator, Boxed<Expression>, Span),
    /// `condition ? first : second`.
    Conditional(Boxed<Expression>, Boxed<Expression>, Boxed<Expression>, Span),
    /// `left + right`, and the like.
    Binary(Boxed<Expression>, BinaryOperator, Boxed<Expression>, Span),
    /// `!operand`, and the like.
    Prefix(PrefixOperator, Boxed<Expression>, Span),
    /// `(type)operand`.
    Cast(TypeName, Boxed<Expression>, Span),
    /// `object[index]`.
    Index(Boxed<Expression>, Boxed<Expression>, Span),
    /// `function(arguments)`.
    Call(Boxed<Expression>, Arguments, Span),
    /// `object.name` or `object->name`, with the arguments of a function template where they stand.
    Member(Boxed<Expression>, Selector, Identifier, Option<TypeArguments>, Span),
    /// `object->!name`, which names a finaliser.
    Finaliser(Boxed<Expression>, Selector, Identifier, Span),
    /// `operand++` or `operand--`.
    Postfix(Boxed<Expression>, PostfixOperator, Span),
    Number(u64, Suffix, Radix, Span),
    Character(u16, Span),
    /// The texts of adjacent string literals.
    Strings(Items<Text>, Span),
    True(Span),
    False(Span),
    Nullptr(Span),
    This(Span),
    /// `(inner)`.
    Group(Boxed<Expression>, Span),
    /// The namespaces before a name, the name, and the arguments of a function template where they stand.
    Name(Items<Identifier>, Identifier, Option<TypeArguments>, Span),
    /// `type::name`.
    StaticMember(TypeName, Identifier, Span),
    /// `type(arguments)`.
    Construct(TypeName, Arguments, Span),
    /// `gcnew type(arguments){elements}`, where either list may be absent.
    New(TypeName, Option<Arguments>, Option<Arguments>, Span),
    /// `safe_cast<type>(operand)`, and the like.
    NamedCast(CastWord, TypeName, Boxed<Expression>, Span),
}

/// The arguments of a call, or the elements of an array, without what encloses them. Without any, the span
/// is empty and stands where the token before them ends.
#[cycle(expression)]
#[derive(Drop)]
pub struct Arguments {
    pub items: Items<Expression>,
    pub span: Span,
}
