// The types that signatures give to methods and variables (ECMA-335, II.23.2 and III.1.1).
ghost use Rattle.std.specs.Prelude.{◌≡◌, IfOk, map};
ghost use Rattle.cc_verify.specs.Types as spec;

use crate::library::{is_void, only};
use crate::stack_type::StackType;
use cc_module::{Element, Signature, TypeSignature};

// The type on the stack of a value of a fundamental type.
fn stack_type(element: Element) -> Option<StackType>
    ensures { result ≡ spec.stack_type element }
{
    match element {
        Element::Boolean => Some(StackType::Int32),
        Element::Char => Some(StackType::Int32),
        Element::I1 => Some(StackType::Int32),
        Element::U1 => Some(StackType::Int32),
        Element::I2 => Some(StackType::Int32),
        Element::U2 => Some(StackType::Int32),
        Element::I4 => Some(StackType::Int32),
        Element::U4 => Some(StackType::Int32),
        Element::I8 => Some(StackType::Int64),
        Element::U8 => Some(StackType::Int64),
        _ => None,
    }
}

/// The type on the stack of a value of a type, where the machine has such values.
pub fn value_type(elements: &[Element]) -> Option<StackType>
    ensures { result ≡ spec.value_type elements.now }
{
    match only(elements) {
        None => None,
        Some(element) => stack_type(element),
    }
}

fn is_built_type(elements: &[Element]) -> bool
    ensures { result ≡ spec.is_built_type elements.now }
{
    is_void(elements) || value_type(elements).is_some()
}

fn is_array(element: Element) -> bool
    ensures { result ≡ spec.is_array element }
{
    match element {
        Element::Array => true,
        _ => false,
    }
}

fn is_string(element: Element) -> bool
    ensures { result ≡ spec.is_string element }
{
    match element {
        Element::String => true,
        _ => false,
    }
}

/// Whether the type is an array of strings.
pub fn is_text_array(elements: &[Element]) -> bool
    ensures { result ≡ spec.is_text_array elements.now }
{
    if elements.len() == 2 {
        is_array(elements[0]) && is_string(elements[1])
    } else {
        false
    }
}

fn are_built_parameters(types: &[TypeSignature]) -> bool
    ensures { result ≡ spec.are_built_parameters types.now }
{
    for one in types {
        let elements = one.elements.as_slice();
        if !(is_text_array(elements) || is_built_type(elements)) {
            return false;
        }
    }
    true
}

fn are_built_types(types: &[TypeSignature]) -> bool
    ensures { result ≡ spec.are_built_types types.now }
{
    for one in types {
        if !is_built_type(one.elements.as_slice()) {
            return false;
        }
    }
    true
}

/// Whether the machine has the types of a method, and the method is not generic.
pub fn is_built_method(signature: &Signature) -> bool
    ensures { result ≡ spec.is_built_method signature.now }
{
    match signature {
        Signature::Method {
            type_parameters,
            result,
            parameters,
            ..
        } => {
            type_parameters.is_none()
                && (is_built_type(result.elements.as_slice())
                    && are_built_parameters(parameters.as_slice()))
        }
        Signature::Field(_) => true,
        Signature::Locals(_) => true,
        Signature::Property { .. } => true,
        Signature::Instantiation(_) => true,
        Signature::Plain(_) => true,
    }
}

/// Whether the machine has the member that is referred to, as far as its signature tells.
pub fn is_built_reference(signature: &Signature) -> bool
    ensures { result ≡ spec.is_built_reference signature.now }
{
    match signature {
        Signature::Method {
            has_this,
            type_parameters,
            result,
            parameters,
        } => {
            !*has_this
                && (type_parameters.is_none()
                    && (is_built_type(result.elements.as_slice())
                        && are_built_types(parameters.as_slice())))
        }
        Signature::Field(_) => false,
        Signature::Locals(_) => true,
        Signature::Property { .. } => true,
        Signature::Instantiation(_) => true,
        Signature::Plain(_) => true,
    }
}

/// Whether the machine has the types of local variables.
pub fn are_built_locals(signature: &Signature) -> bool
    ensures { result ≡ spec.are_built_locals signature.now }
{
    match signature {
        Signature::Locals(types) => are_built_types(types.as_slice()),
        Signature::Method { .. } => true,
        Signature::Field(_) => true,
        Signature::Property { .. } => true,
        Signature::Instantiation(_) => true,
        Signature::Plain(_) => true,
    }
}
