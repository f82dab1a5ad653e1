//! The types, the classes and the trees of the typed program, and what a source means.
#![tactic(auto)]

mod classes;
mod count;
mod fault;
mod laws;
mod library;
mod library_call;
mod named;
mod program;
mod same;
mod search;
mod state;
mod straight;
mod tree;
mod types;
mod world;

pub use classes::Classes;
pub use count::Count;
pub use fault::ClassesFault;
pub use laws::larger_bound_continues;
pub use library::OBJECT;
pub use library_call::{LibraryCall, Printed};
pub use program::Program;
pub use state::{Computed, Exit, Held, Root, State, Stop, Target};
pub use straight::{StraightOperation, StraightOperator, StraightProgram};
pub use tree::{
    CastKind, Dispatch, Expression, FunctionBody, Handler, LoopKind, ProgramParts, Section,
    Statement, SwitchLabel, UpdateResult,
};
pub use types::{
    Access, ClassInfo, ClassKind, CoreType, FieldInfo, Mark, MethodInfo, NamedFunction, Operator,
    PropertyInfo, UnaryOperator,
};
pub use world::{Base, Contents, Object, Place, Value, World};
