// Classes and enums (ECMA-372, 20 to 24).
use crate::{Identifier, Member, TypeName};
use cc_base::Span;
use sqlite_items::Items;

/// The first word of a class's key.
#[derive(Clone, Copy, Debug, PartialEq, Eq)]
pub enum ClassWord {
    Ref,
    Value,
    Interface,
}

/// The second word of a class's key or of an enum's, which says who may name the members at first.
#[derive(Clone, Copy, Debug, PartialEq, Eq)]
pub enum AggregateWord {
    Class,
    Struct,
}

/// The key of a class, such as `ref class`.
#[derive(Debug, Drop)]
pub struct ClassKey {
    pub word: ClassWord,
    pub aggregate: AggregateWord,
    pub span: Span,
}

/// A word after the name of a class (ECMA-372, 21.1.1).
#[derive(Clone, Copy, Debug, PartialEq, Eq)]
pub enum ClassModifier {
    Abstract,
    Sealed,
}

/// A class with its members.
#[derive(Drop)]
pub struct Class {
    pub key: ClassKey,
    pub name: Identifier,
    pub modifiers: Items<ClassModifier>,
    pub bases: Items<Base>,
    pub members: Items<Member>,
    pub span: Span,
}

/// A class or interface from which a class derives.
#[derive(Drop)]
pub struct Base {
    pub is_public: bool,
    pub of: TypeName,
    pub span: Span,
}

/// An enum (ECMA-372, 24).
#[derive(Drop)]
pub struct Enumeration {
    pub aggregate: AggregateWord,
    pub name: Identifier,
    pub items: Items<Enumerator>,
    pub span: Span,
}

/// An enumerator.
#[derive(Drop)]
pub struct Enumerator {
    pub name: Identifier,
    pub value: Option<EnumeratorValue>,
    pub span: Span,
}

/// The value of an enumerator. It is no node of its own.
#[derive(Debug, Drop)]
pub struct EnumeratorValue {
    pub is_negative: bool,
    pub number: u64,
}
