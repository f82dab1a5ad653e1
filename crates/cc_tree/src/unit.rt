// A whole source, its namespaces, functions and templates (ECMA-372, 10, 25 and 30).
use crate::{Block, Class, ClassKey, Enumeration, Identifier, Parameters, TypeName};
use cc_base::Span;
use sqlite_items::Items;

/// A whole source. Without a declaration its span is 0 to 0.
#[derive(Drop)]
pub struct Unit {
    pub outers: Items<Outer>,
    pub span: Span,
}

/// The word before a class or enum outside classes.
#[derive(Clone, Copy, Debug, PartialEq, Eq)]
pub enum Visibility {
    Public,
    Private,
}

/// A declaration outside classes.
#[derive(Drop)]
pub enum Outer {
    /// `using namespace`, with the namespaces from the outermost in.
    Using(Items<Identifier>, Span),
    Namespace(Identifier, Items<Outer>, Span),
    /// A class, which is itself the node.
    Class(Class),
    /// An enum, which is itself the node.
    Enumeration(Enumeration),
    /// A class after `public` or `private`.
    VisibleClass(Visibility, Class, Span),
    /// An enum after `public` or `private`.
    VisibleEnumeration(Visibility, Enumeration, Span),
    /// A declaration of a class that is defined elsewhere.
    Forward(ClassKey, Identifier, Span),
    /// A template, which is itself the node.
    Template(Template),
    /// A function, which is itself the node.
    Function(Function),
}

/// A template of a class or of a function (ECMA-372, 30).
#[derive(Drop)]
pub enum Template {
    Class(Items<TemplateParameter>, Class, Span),
    Function(Items<TemplateParameter>, Function, Span),
}

/// The word before the name of a template's parameter; both mean the same.
#[derive(Clone, Copy, Debug, PartialEq, Eq)]
pub enum ParameterWord {
    Typename,
    Class,
}

/// A parameter of a template.
#[derive(Drop)]
pub struct TemplateParameter {
    pub word: ParameterWord,
    pub name: Identifier,
    pub span: Span,
}

/// A function outside classes. Without a body it is a prototype.
#[derive(Drop)]
pub struct Function {
    pub result: TypeName,
    pub name: Identifier,
    pub parameters: Parameters,
    pub body: Option<Block>,
    pub span: Span,
}
