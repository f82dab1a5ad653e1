// The state of a run of the source meaning, and how its parts end.
use crate::{Count, Value, World};
use cc_base::{ClassId, FieldId, LocalId};
use sqlite_items::Items;

/// Why a part of a run ends before it gives a value.
#[derive(Clone, Copy, Debug, PartialEq, Eq)]
pub enum Stop {
    /// An exception, by the place of its object in the heap.
    Throws(usize),
    /// An allocation would pass the limit of cells.
    HeapLimit,
    /// A call would pass the limit of frames.
    DepthLimit,
    /// A loop would make more turns than it may.
    Going,
    /// A form that has no meaning: it is not built yet, or no typed program has it.
    Wrong,
}

/// How a statement ends that does not stop (ECMA-372, 16; C++, 6.6).
#[derive(Debug, Drop)]
pub enum Exit {
    Normal,
    Break,
    Continue,
    /// With the value that is returned.
    Return(Value),
}

/// What a scope disposes when it is left (ECMA-372, 15.4.6 and 18.11).
#[derive(Clone, Copy, Debug, PartialEq, Eq)]
pub enum Held {
    /// An object, by its place in the heap.
    Object(usize),
    /// The part of an object that this base class made.
    Base(ClassId, usize),
}

/// What an operator makes of two numbers.
#[derive(Debug, Drop)]
pub enum Computed {
    Gives(Value),
    /// An exception of this class.
    Throws(ClassId),
}

/// Where a target begins: what is known of a place before it is tested for null and for its index.
#[derive(Debug, Drop)]
pub enum Root {
    Local(LocalId),
    StaticField(FieldId),
    /// A field of what this handle refers to.
    Field(Value, FieldId),
    /// The element of an array at an index.
    Element(Value, Value),
}

/// A place that an assignment names, before its tests: where it begins, and the fields of value classes that lead on.
#[derive(Debug, Drop)]
pub struct Target {
    pub root: Root,
    pub path: Items<FieldId>,
}

/// The state of a run: the world, and the work that was begun.
#[derive(Debug, Drop)]
pub struct State {
    pub world: World,
    pub work: Count,
}
