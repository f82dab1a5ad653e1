// Places, and what a name means there (ECMA-372, 10.4).

/// A place in a source: a scope, by its number, and a byte.
#[derive(Clone, Copy, Debug, PartialEq, Eq)]
pub struct Place {
    pub scope: u32,
    pub at: u32,
}

/// What a name means: the number of a declaration.
#[derive(Clone, Copy, Debug, PartialEq, Eq)]
pub enum Found {
    /// A class, an enum, a class template or a template's parameter.
    TypeNamed(u32),
    /// Functions; the number is that of the candidate that stands first among the declarations.
    Functions(u32),
    /// A namespace; the number is that of its first part.
    Namespace(u32),
    /// A variable, parameter, field, property or enumerator.
    Item(u32),
}

/// A using directive: it counts at places from `past` on, and names the namespace of a scope.
#[derive(Clone, Copy, Debug, PartialEq, Eq)]
pub struct Directive {
    pub past: u32,
    pub scope: u32,
}
