// The values that the parser makes of what it has read.
use cc_base::{Span, Text};
use cc_tree::{
    Accessor, Arguments, Base, BinaryOperator, Block, Catch, Caught, Class, ClassKey,
    ClassModifier, ContextualWord, Declarator, Enumeration, Enumerator, Expression, ForStart,
    Function, Identifier, Initializer, Label, Local, Member, MemberInitializer, Modifier, NameKind,
    NamedFunction, Outer, Overridden, Parameter, Parameters, PropertyName, Radix, Section,
    Statement, Suffix, Template, TemplateParameter, Terminal, TypeArguments, TypeName, Unit,
};
use sqlite_items::Items;

/// A tree, or a list of trees, with its span.
#[derive(Drop)]
pub struct Node<T> {
    pub tree: T,
    pub span: Span,
}

/// A word or sign that says no more than where it stands.
#[derive(Clone, Copy)]
pub struct Mark {
    pub terminal: Terminal,
    pub span: Span,
}

/// A name, as one token.
#[derive(Drop)]
pub struct NameToken {
    pub kind: NameKind,
    pub word: ContextualWord,
    pub identifier: Identifier,
}

/// A number, as one token.
#[derive(Clone, Copy)]
pub struct Numeral {
    pub value: u64,
    pub suffix: Suffix,
    pub radix: Radix,
    pub span: Span,
}

/// A name with the namespaces before it.
#[derive(Drop)]
pub struct QualifiedName {
    pub path: Items<Identifier>,
    pub name: Identifier,
}

/// A class up to its members.
#[derive(Drop)]
pub struct ClassHead {
    pub key: ClassKey,
    pub name: Identifier,
    pub modifiers: Items<ClassModifier>,
    pub bases: Items<Base>,
}

/// What the parser has read, and not yet put into a greater tree.
#[derive(Drop)]
pub enum Value {
    Mark(Mark),
    Name(NameToken),
    Number(Numeral),
    Character(Node<u16>),
    Literal(Node<Text>),
    Path(Items<Identifier>),
    Qualified(QualifiedName),
    Type(Node<TypeName>),
    Types(Items<TypeName>),
    TypeArguments(TypeArguments),
    Expression(Node<Expression>),
    Expressions(Node<Items<Expression>>),
    Arguments(Arguments),
    Texts(Node<Items<Text>>),
    Statement(Node<Statement>),
    Statements(Items<Statement>),
    Block(Node<Block>),
    Label(Label),
    Labels(Items<Label>),
    Sections(Items<Section>),
    Local(Local),
    Declarator(Declarator),
    Declarators(Node<Items<Declarator>>),
    ForStart(ForStart),
    Optional(Node<Option<Expression>>),
    Caught(Caught),
    Catches(Node<Items<Catch>>),
    ParameterList(Node<Items<Parameter>>),
    Parameters(Parameters),
    Modifiers(Items<Modifier>),
    Overridden(Option<Overridden>),
    NamedFunction(NamedFunction),
    NamedFunctions(Node<Items<NamedFunction>>),
    Body(Node<Option<Block>>),
    Accessor(Accessor),
    Accessors(Items<Accessor>),
    Initializer(MemberInitializer),
    Initializers(Items<MemberInitializer>),
    Names(Items<Identifier>),
    NoStorage,
    PropertyType(Node<TypeName>),
    PropertyName(PropertyName),
    Member(Member),
    Members(Items<Member>),
    Key(ClassKey),
    ClassModifiers(Items<ClassModifier>),
    Base(Base),
    Bases(Items<Base>),
    Head(ClassHead),
    Class(Class),
    Enumerator(Enumerator),
    Enumerators(Items<Enumerator>),
    Enumeration(Enumeration),
    Function(Function),
    TemplateParameter(TemplateParameter),
    TemplateParameters(Items<TemplateParameter>),
    Template(Node<Template>),
    Outer(Node<Outer>),
    Outers(Node<Items<Outer>>),
    Unit(Unit),
    Operator(BinaryOperator),
}
