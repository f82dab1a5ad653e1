// What the typing of a function knows of its source and of the function so far.
use cc_base::{List, LocalId, Name};
use cc_core::Classes;
use cc_tree::FundamentalType;

/// A function of a source, with what its calls need.
#[derive(Drop)]
pub struct Known {
    pub name: Name,
    /// The names of the namespaces around it, from the outermost in, each with a `.` behind it.
    pub path: Name,
    pub parameters: List<FundamentalType>,
    pub result: FundamentalType,
    /// The number of its declaration.
    pub number: u32,
}

/// A using directive: it counts at places from `past` on, and names the namespace of a path.
#[derive(Drop)]
pub struct Directed {
    pub path: Name,
    pub past: u32,
}

/// The functions of a source in order of their numbers, and its using directives.
#[derive(Drop)]
pub struct Source {
    pub functions: List<Known>,
    pub directed: List<Directed>,
    /// The library's classes, and the one that has the functions.
    pub classes: Classes,
}

/// A variable that can be named.
#[derive(Drop)]
pub struct Variable {
    pub name: Name,
    pub of: FundamentalType,
    pub local: LocalId,
}

/// The function that is typed: where it stands, and its variables so far.
#[derive(Drop)]
pub struct Frame {
    /// The path of the namespaces around it.
    pub path: Name,
    /// The number of the scope in which it is declared.
    pub scope: u32,
    /// The type of its result.
    pub result: FundamentalType,
    /// The types of all its variables, by their numbers.
    pub locals: List<FundamentalType>,
    /// The variables that are declared around the place, the newest last.
    pub variables: List<Variable>,
}
