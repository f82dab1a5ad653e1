// Numbers by which classes and their members are named once their names are resolved.

/// A class, by its place in the list of all classes: the library's first.
#[derive(Clone, Copy, Debug, PartialEq, Eq)]
pub struct ClassId(pub u32);

/// A function, by its place among the functions of all classes in order.
#[derive(Clone, Copy, Debug, PartialEq, Eq)]
pub struct MethodId(pub u32);

/// A field, by its place among the fields of all classes in order.
#[derive(Clone, Copy, Debug, PartialEq, Eq)]
pub struct FieldId(pub u32);

/// A slot of virtual functions (ECMA-335, II.10.3).
#[derive(Clone, Copy, Debug, PartialEq, Eq)]
pub struct SlotId(pub u32);

/// A local variable of a function, its parameters first.
#[derive(Clone, Copy, Debug, PartialEq, Eq)]
pub struct LocalId(pub u32);
