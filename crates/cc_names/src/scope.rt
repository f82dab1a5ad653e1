// Scopes, and the things that are declared in them (ECMA-372, 10.4).
use cc_base::{List, Name, Span};
use cc_tree::ClassWord;

/// What a scope belongs to.
#[derive(Drop)]
pub enum ScopeKind {
    /// The whole source.
    Unit,
    /// A part of a namespace of a name.
    Namespace(Name),
    /// A class of a name, with its members.
    Class(Name),
    /// An enum with its enumerators.
    Enumeration,
    /// The parameters of a template.
    Template,
    /// The parameters of a function, around its body.
    Parameters,
    /// Local variables: those of a block, of another substatement, of a section of a switch, or of a `for` or
    /// `for each` statement.
    Local,
}

/// A part of a source in which names are declared.
#[derive(Drop)]
pub struct Scope {
    pub kind: ScopeKind,
    /// The number of the scope around it, which only the unit lacks.
    pub parent: Option<u32>,
    pub span: Span,
}

/// What is declared. A namespace, a class and an enum have the number of the scope that holds their members.
#[derive(Drop)]
pub enum ItemKind {
    /// A part of a namespace.
    Namespace(u32),
    /// With the spellings of its bases, in order.
    Class(ClassWord, u32, List<Name>),
    Enumeration(u32),
    Enumerator,
    ClassTemplate(ClassWord),
    FunctionTemplate,
    TemplateParameter,
    /// A function, an accessor, a constructor, a destructor or a finaliser, with the spellings of the types of
    /// its parameters, a comma after each.
    Function(Name),
    Property,
    Field,
    Parameter,
    Variable,
}

/// A declaration of a name.
#[derive(Drop)]
pub struct Item {
    pub kind: ItemKind,
    /// An accessor is named `get_` or `set_` and the name of its property, which is `Item` for an indexer; a
    /// constructor is named `.ctor`, a destructor `~` and a finaliser `!`.
    pub name: Name,
    /// The name's token; of an accessor its `get` or `set`, of an indexer its `default`, and the whole member of a
    /// constructor, destructor or finaliser.
    pub span: Span,
    /// The number of the scope in which it is declared.
    pub scope: u32,
}

/// Scopes and declarations.
#[derive(Drop)]
pub struct Declared {
    pub scopes: List<Scope>,
    pub items: List<Item>,
}
