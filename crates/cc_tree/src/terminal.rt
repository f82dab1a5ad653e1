// The terminal symbols of the grammar (ECMA-372, 9.4 and annex A).

/// A token as the grammar sees it.
#[derive(Clone, Copy, Debug, PartialEq, Eq)]
pub enum Terminal {
    /// A word that is neither reserved nor left out of the language.
    Name(NameKind, ContextualWord),
    Number,
    /// The number `0` without a suffix, in octal.
    Zero,
    Character,
    Literal,
    Word(ReservedWord),
    Sign(Sign),
    /// A word or sign that stands nowhere in the grammar.
    Other,
}

/// What a name is collected as.
#[derive(Clone, Copy, Debug, PartialEq, Eq)]
pub enum NameKind {
    Plain,
    /// The name of a function template.
    Function,
    /// The name of a type.
    Type,
}

/// A name that is a word of the grammar at some places (ECMA-372, 9.4.1.1).
#[derive(Clone, Copy, Debug, PartialEq, Eq)]
pub enum ContextualWord {
    /// None of them.
    Nothing,
    Abstract,
    Each,
    Get,
    In,
    Interface,
    Override,
    Property,
    Ref,
    Sealed,
    Set,
    Value,
}

/// A reserved word.
#[derive(Clone, Copy, Debug, PartialEq, Eq)]
pub enum ReservedWord {
    Bool,
    Break,
    Case,
    Catch,
    Char,
    Class,
    Continue,
    Default,
    Delete,
    Do,
    DynamicCast,
    Else,
    Enum,
    False,
    Finally,
    For,
    Gcnew,
    If,
    Int,
    Long,
    Namespace,
    New,
    Nullptr,
    Private,
    Protected,
    Public,
    Return,
    SafeCast,
    Short,
    Signed,
    Static,
    StaticCast,
    Struct,
    Switch,
    Template,
    This,
    Throw,
    True,
    Try,
    Typename,
    Unsigned,
    Using,
    Virtual,
    Void,
    WideChar,
    While,
}

/// A sign that stands in the grammar.
#[derive(Clone, Copy, Debug, PartialEq, Eq)]
pub enum Sign {
    OpenBrace,
    CloseBrace,
    OpenParenthesis,
    CloseParenthesis,
    OpenBracket,
    CloseBracket,
    Less,
    Greater,
    Semicolon,
    Colon,
    Scope,
    Comma,
    Dot,
    Ellipsis,
    Arrow,
    Question,
    Assign,
    Equal,
    NotEqual,
    LessOrEqual,
    GreaterOrEqual,
    ShiftLeft,
    Plus,
    Minus,
    Star,
    Slash,
    Percent,
    Caret,
    Ampersand,
    Bar,
    Tilde,
    Exclamation,
    Increment,
    Decrement,
    AssignSum,
    AssignDifference,
    AssignProduct,
    AssignQuotient,
    AssignRemainder,
    AssignExclusiveOr,
    AssignAnd,
    AssignOr,
    AssignShiftLeft,
    AssignShiftRight,
    LogicalAnd,
    LogicalOr,
}
