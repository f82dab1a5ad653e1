// The world that a run changes.
use cc_base::{ClassId, Event, FieldId, List, Text};
use sqlite_items::Items;

/// Where a place begins.
#[derive(Clone, Copy, Debug, PartialEq, Eq)]
pub enum Base {
    /// A variable, by the number of its frame, counted from the outermost, and its number there.
    Variable(usize, u32),
    StaticField(FieldId),
    /// A field of an object, by the object's place in the heap and the number of the field in the object.
    Field(usize, u32),
    /// An element of an array, by the array's place in the heap and the index.
    Element(usize, u32),
    /// The content of a box, by its place in the heap.
    Content(usize),
}

/// A place that can be read and written, as a managed pointer names it (ECMA-335, I.12.1.1.2): where it begins, and the
/// numbers of the fields that lead from there into values of value classes.
#[derive(Debug, Drop)]
pub struct Place {
    pub base: Base,
    pub path: Items<u32>,
}

/// A value (ECMA-335, I.12.1).
#[cycle(value)]
#[derive(Debug, Drop)]
pub enum Value {
    /// What a function without a result gives.
    Nothing,
    /// The 32 bits of a number, of a character, of a `bool` or of an enum. A type with fewer bits is widened by its own
    /// sign, as on the evaluation stack.
    Int32(u32),
    /// The 64 bits of a `long long` or an `unsigned long long`.
    Int64(u64),
    /// The handle that refers to no object.
    Null,
    /// A handle to an object, by the object's place in the heap.
    Object(usize),
    /// A handle to the string of a literal. Equal literals are one object.
    Literal(Text),
    /// A tracking reference that was not bound yet.
    Unbound,
    /// A tracking reference.
    Pointer(Place),
    /// The fields of a value of a value class, in order.
    Fields(Items<Value>),
}

/// What an object holds.
#[derive(Debug, Drop)]
pub enum Contents {
    /// The fields of a ref class, those of its bases first.
    Fields(Items<Value>),
    /// The units of a string.
    Units(Text),
    /// The elements of an array.
    Elements(Items<Value>),
    /// The value in a box.
    Content(Value),
}

/// An object of the heap.
#[derive(Debug, Drop)]
pub struct Object {
    pub class: ClassId,
    /// Its number, where it has one: boxes, arrays, strings and exceptions that the machine makes have none.
    pub number: Option<u32>,
    pub holds: Contents,
}

/// All that a run changes and that a program can tell.
#[derive(Debug, Drop)]
pub struct World {
    /// The variables of the innermost frame.
    pub variables: Items<Value>,
    /// The variables of the frames around it, the outermost first.
    pub callers: Items<Items<Value>>,
    /// The objects in order of allocation.
    pub heap: Items<Object>,
    /// The static fields of all classes.
    pub statics: Items<Value>,
    /// How many cells of the heap are left.
    pub cells: u32,
    /// The bytes that were printed.
    pub output: Items<u8>,
    /// The bytes of the input that were not read yet.
    pub input: Items<u8>,
    /// What was told of the numbered objects.
    pub events: List<Event>,
    /// The objects that are not to be finalised, by their places in the heap.
    pub suppressed: Items<usize>,
}
