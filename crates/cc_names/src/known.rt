// The types that a source may name, with where they are found (ECMA-372, 10.4 and 12).
ghost use Rattle.std.specs.Prelude.{◌≡◌, ℕ, List};
ghost use Rattle.cc_names.specs.Index.{numbers_under};
ghost use Rattle.cc_names.specs.Keys.{places};

use cc_base::{List, Name};
use std::collections::HashMap;

/// What a name of a type stands for.
#[derive(Clone, Copy)]
pub(crate) enum Form {
    /// A value class, an enum or a fundamental type.
    Value,
    /// A class that handles refer to.
    Handle,
    Interface,
    /// A class that is only named.
    NamedOnly,
}

/// A type that a source may name.
#[derive(Drop)]
pub(crate) struct Known {
    /// The namespace in which it stands: the names from the outermost in, each with `::` after it.
    pub(crate) path: Name,
    pub(crate) is_template: bool,
    pub(crate) form: Form,
    /// Whether a class may derive from it.
    pub(crate) is_open: bool,
}

/// A using directive: the namespace that it names, and the place from which on it counts.
#[derive(Drop)]
pub(crate) struct Directed {
    pub(crate) path: Name,
    pub(crate) past: u32,
}

/// Keys in order, and their places by the keys.
#[derive(Drop)]
pub(crate) struct Keys {
    pub(crate) keys: List<Name>,
    pub(crate) numbers: HashMap<Vec<u8>, List<u32>>,
    ghost indexed: { (key : List ℕ) → numbers_under numbers key ≡ places keys key },
}

/// Pairs of names, of which the first leads to the second.
#[derive(Drop)]
pub(crate) struct Ways {
    pub(crate) firsts: Keys,
    pub(crate) seconds: List<Name>,
}

/// What the names in a source may mean.
#[derive(Drop)]
pub(crate) struct Space {
    pub(crate) types: List<Known>,
    /// The names of the types, in the same order.
    pub(crate) names: Keys,
    pub(crate) directives: List<Directed>,
    /// The namespaces that the source has parts of, and the library's.
    pub(crate) paths: List<Name>,
    /// The full names of the source's classes.
    pub(crate) classes: Keys,
    /// The full names of the source's functions with bodies, with their types.
    pub(crate) functions: Keys,
    /// Each class with each of its bases.
    pub(crate) bases: Ways,
    /// Each value class with the type of each thing that it holds.
    pub(crate) held: Ways,
}
