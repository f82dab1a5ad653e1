// The library's classes that a module's references name, and the members that the machine has.
ghost use Rattle.std.specs.Prelude.{◌≡◌, map};
ghost use Rattle.cc_verify.specs.Library as spec;

use cc_base::ClassId;
use cc_module::{Element, Signature, TypeSignature};

/// The names of the library's classes, which are in the namespace `System`, and their numbers.
pub const LIBRARY_CLASSES: [(&[u8], ClassId); 28] = [
    (b"Object", ClassId(0)),
    (b"String", ClassId(1)),
    (b"ValueType", ClassId(2)),
    (b"Enum", ClassId(3)),
    (b"Boolean", ClassId(4)),
    (b"Char", ClassId(5)),
    (b"SByte", ClassId(6)),
    (b"Byte", ClassId(7)),
    (b"Int16", ClassId(8)),
    (b"UInt16", ClassId(9)),
    (b"Int32", ClassId(10)),
    (b"UInt32", ClassId(11)),
    (b"Int64", ClassId(12)),
    (b"UInt64", ClassId(13)),
    (b"IDisposable", ClassId(14)),
    (b"Console", ClassId(15)),
    (b"GC", ClassId(16)),
    (b"Exception", ClassId(17)),
    (b"SystemException", ClassId(18)),
    (b"ArithmeticException", ClassId(19)),
    (b"DivideByZeroException", ClassId(20)),
    (b"OverflowException", ClassId(21)),
    (b"NullReferenceException", ClassId(22)),
    (b"IndexOutOfRangeException", ClassId(23)),
    (b"InvalidCastException", ClassId(24)),
    (b"ArgumentException", ClassId(25)),
    (b"InvalidOperationException", ClassId(26)),
    (b"FormatException", ClassId(27)),
];

/// The number of the class `Console`.
const CONSOLE: u32 = 15;

// The class that stands beside a name in a table.
fn class_in(classes: &[(&[u8], ClassId)], name: &[u8]) -> Option<ClassId>
    ensures { result ≡ spec.class_in (map (λ row. (row.0.now, row.1)) classes.now) name.now }
{
    for row in classes {
        if row.0 == name {
            return Some(row.1);
        }
    }
    None
}

/// The library's class with a full name.
pub fn class_named(namespace: &[u8], name: &[u8]) -> Option<ClassId>
    ensures { result ≡ spec.class_named namespace.now name.now }
{
    if namespace == b"System".as_slice() {
        class_in(&LIBRARY_CLASSES, name)
    } else {
        None
    }
}

/// The one element of a type that is made of no other.
pub fn only(elements: &[Element]) -> Option<Element>
    ensures { result ≡ spec.only elements.now }
{
    if elements.len() == 1 {
        Some(elements[0])
    } else {
        None
    }
}

fn is_written_element(element: Element) -> bool
    ensures { result ≡ spec.is_written_element element }
{
    match element {
        Element::Boolean => true,
        Element::Char => true,
        Element::I4 => true,
        Element::U4 => true,
        Element::I8 => true,
        Element::U8 => true,
        _ => false,
    }
}

// Whether Console writes a value of the type.
fn is_written(elements: &[Element]) -> bool
    ensures { result ≡ spec.is_written elements.now }
{
    match only(elements) {
        None => false,
        Some(element) => is_written_element(element),
    }
}

fn is_void_element(element: Element) -> bool
    ensures { result ≡ spec.is_void_element element }
{
    match element {
        Element::Void => true,
        _ => false,
    }
}

/// Whether the type is void.
pub fn is_void(elements: &[Element]) -> bool
    ensures { result ≡ spec.is_void elements.now }
{
    match only(elements) {
        None => false,
        Some(element) => is_void_element(element),
    }
}

// Whether the parameters are those of a Write, or of a WriteLine.
fn are_written(line: bool, types: &[TypeSignature]) -> bool
    ensures { result ≡ spec.are_written line types.now }
{
    if types.is_empty() {
        return line;
    }
    if types.len() == 1 {
        is_written(types[0].elements.as_slice())
    } else {
        false
    }
}

// Whether the signature is that of a Write, or of a WriteLine.
fn writes(line: bool, signature: &Signature) -> bool
    ensures { result ≡ spec.writes line signature.now }
{
    match signature {
        Signature::Method {
            has_this,
            type_parameters,
            result,
            parameters,
        } => {
            if *has_this || type_parameters.is_some() || !is_void(result.elements.as_slice()) {
                return false;
            }
            are_written(line, parameters.as_slice())
        }
        Signature::Field(_) => false,
        Signature::Locals(_) => false,
        Signature::Property { .. } => false,
        Signature::Instantiation(_) => false,
        Signature::Plain(_) => false,
    }
}

/// Whether a class of the library has a member with the name and the signature that the machine has.
pub fn is_library_member(class: ClassId, name: &[u8], signature: &Signature) -> bool
    ensures { result ≡ spec.is_library_member class name.now signature.now }
{
    if class.0 != CONSOLE {
        return false;
    }
    if name == b"Write".as_slice() {
        writes(false, signature)
    } else if name == b"WriteLine".as_slice() {
        writes(true, signature)
    } else {
        false
    }
}
