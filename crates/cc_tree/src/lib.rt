//! The tokens and the trees of a source, with the definitions of how they are spelled.
#![tactic(auto)]

mod class;
mod expression;
mod identifier;
mod member;
mod piece;
mod sign;
mod statement;
mod terminal;
mod token;
mod type_name;
mod unit;
mod word;

pub use class::{
    AggregateWord, Base, Class, ClassKey, ClassModifier, ClassWord, Enumeration, Enumerator,
    EnumeratorValue,
};
pub use expression::{
    Arguments, AssignmentOperator, BinaryOperator, CastWord, Expression, PostfixOperator,
    PrefixOperator, Selector,
};
pub use identifier::Identifier;
pub use member::{
    AccessWord, Accessor, AccessorWord, Member, MemberInitializer, Modifier, NamedFunction,
    Overridden, Parameter, Parameters, PropertyName, Storage,
};
pub use piece::{Element, Numeral, Piece};
pub use sign::SIGNS;
pub use statement::{
    Block, Catch, Caught, Declarator, ForStart, Initializer, Label, Local, Section, Statement,
};
pub use terminal::{ContextualWord, NameKind, ReservedWord, Sign, Terminal};
pub use token::{Radix, Suffix, Token, TokenKind};
pub use type_name::{FundamentalType, TypeArguments, TypeName};
pub use unit::{Function, Outer, ParameterWord, Template, TemplateParameter, Unit, Visibility};
pub use word::{CONTEXTUAL_WORDS, GRAMMAR_SIGNS, LIBRARY_TYPES, OUTSIDE_WORDS, RESERVED_WORDS};
