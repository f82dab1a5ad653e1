// Types of values on the evaluation stack (ECMA-335, I.12.3.2.1 and III.1.1).
use cc_base::ClassId;

/// The type of a value on the evaluation stack (ECMA-335, III.1.1). An integer of at most 32 bits is an int32 there.
#[derive(Clone, Copy, Debug, PartialEq, Eq)]
pub enum StackType {
    Int32,
    Int64,
    /// The null reference, of which no class is known.
    Null,
    /// A reference to an object of the class, or null.
    Object(ClassId),
}
