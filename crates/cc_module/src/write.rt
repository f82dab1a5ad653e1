// Signatures as blobs.
ghost use Rattle.std.specs.Prelude.{◌≡◌, ◌<◌, ◌^◌, ◌++◌, ◌∷◌, ◌+◌, if◌then◌else◌, length, OnOk, OnErr};
ghost use Rattle.std.specs.List.{flat_map, AllByRecursion};
ghost use Rattle.cc_layout.specs.Numbers.{Extends};
ghost use Rattle.cc_layout.specs.Compressed.{compressed};
ghost use Rattle.cc_module.specs.declared.element.Element.TheVariants as the;
ghost use Rattle.cc_module.specs.Signatures.{coded, operand, element_bytes, FitsElement, IsType, AreTypes, type_bytes, types_bytes, counted_bytes, typed_bytes, FitsGeneric, generic_bytes, generic_mark, this_mark, signature_bytes, HasSpelling};

use crate::element::{Element, TypeDefOrRef};
use crate::signature::{Signature, TypeSignature};
use cc_layout::write_compressed;
use std::alloc::AllocError;

// The mark of the type that an instance is of.
fn kind_mark(is_value_type: bool) -> u8
    ensures { result ≡ (if is_value_type then 0x11 else 0x12) }
{
    if is_value_type { 0x11 } else { 0x12 }
}

fn write_instance(
    is_value_type: bool,
    definition: TypeDefOrRef,
    arguments: u32,
    into: &mut Vec<u8>,
) -> Result<(), AllocError>
    requires definition { coded definition < 2 ^ 29 }
    requires arguments { arguments < 2 ^ 29 }
    ensures ok { OnOk result (into.new.items ≡ into.old.items ++ operand (the.Instance is_value_type definition arguments)) }
    ensures err { OnErr result (Extends into.old.items into.new.items (operand (the.Instance is_value_type definition arguments))) }
{
    into.push(kind_mark(is_value_type))?;
    write_compressed(definition.coded(), into)?;
    write_compressed(arguments, into)?;
    Ok(())
}

fn write_operand(element: &Element, into: &mut Vec<u8>) -> Result<(), AllocError>
    requires { FitsElement element.now }
    ensures ok { OnOk result (into.new.items ≡ into.old.items ++ operand element.now) }
    ensures err { OnErr result (Extends into.old.items into.new.items (operand element.now)) }
{
    match *element {
        Element::ValueType(named) => write_compressed(named.coded(), into),
        Element::Class(named) => write_compressed(named.coded(), into),
        Element::TypeVariable(number) => write_compressed(number, into),
        Element::MethodVariable(number) => write_compressed(number, into),
        Element::Instance {
            is_value_type,
            definition,
            arguments,
        } => write_instance(is_value_type, definition, arguments, into),
        _ => Ok(()),
    }
}

fn write_element(element: &Element, into: &mut Vec<u8>) -> Result<(), AllocError>
    requires { FitsElement element.now }
    ensures ok { OnOk result (into.new.items ≡ into.old.items ++ element_bytes element.now) }
    ensures err { OnErr result (Extends into.old.items into.new.items (element_bytes element.now)) }
{
    into.push(element.mark())?;
    write_operand(element, into)?;
    Ok(())
}

fn write_type(one: &TypeSignature, into: &mut Vec<u8>) -> Result<(), AllocError>
    requires { IsType one.now }
    ensures ok { OnOk result (into.new.items ≡ into.old.items ++ type_bytes one.now) }
    ensures err { OnErr result (Extends into.old.items into.new.items (type_bytes one.now)) }
{
    for element in one.elements.as_slice() {
        write_element(element, into)?;
    }
    Ok(())
}

fn write_types(types: &[TypeSignature], into: &mut Vec<u8>) -> Result<(), AllocError>
    requires { AllByRecursion IsType types.now }
    ensures ok { OnOk result (into.new.items ≡ into.old.items ++ types_bytes types.now) }
    ensures err { OnErr result (Extends into.old.items into.new.items (types_bytes types.now)) }
{
    for one in types {
        write_type(one, into)?;
    }
    Ok(())
}

fn write_counted(types: &[TypeSignature], into: &mut Vec<u8>) -> Result<(), AllocError>
    requires { AreTypes types.now }
    ensures ok { OnOk result (into.new.items ≡ into.old.items ++ counted_bytes types.now) }
    ensures err { OnErr result (Extends into.old.items into.new.items (counted_bytes types.now)) }
{
    write_compressed(types.len() as u32, into)?;
    write_types(types, into)?;
    Ok(())
}

fn write_typed(
    first: &TypeSignature,
    types: &[TypeSignature],
    into: &mut Vec<u8>,
) -> Result<(), AllocError>
    requires first { IsType first.now }
    requires types { AreTypes types.now }
    ensures ok { OnOk result (into.new.items ≡ into.old.items ++ typed_bytes first.now types.now) }
    ensures err { OnErr result (Extends into.old.items into.new.items (typed_bytes first.now types.now)) }
{
    write_compressed(types.len() as u32, into)?;
    write_type(first, into)?;
    write_types(types, into)?;
    Ok(())
}

// The first byte of a method and the number of its type parameters.
fn write_method(
    has_this: bool,
    type_parameters: Option<u32>,
    into: &mut Vec<u8>,
) -> Result<(), AllocError>
    requires { FitsGeneric type_parameters }
    ensures ok { OnOk result (into.new.items ≡ into.old.items ++ (this_mark has_this + generic_mark type_parameters) ∷ generic_bytes type_parameters) }
    ensures err { OnErr result (Extends into.old.items into.new.items ((this_mark has_this + generic_mark type_parameters) ∷ generic_bytes type_parameters)) }
{
    let mark = this_mark(has_this);
    match type_parameters {
        None => into.push(mark)?,
        Some(number) => {
            into.push(mark + 0x10)?;
            write_compressed(number, into)?;
        }
    }
    Ok(())
}

fn this_mark(has_this: bool) -> u8
    ensures { result ≡ this_mark has_this }
{
    if has_this { 0x20 } else { 0x00 }
}

/// Appends the spelling of a signature (ECMA-335, II.23.2). Each type of it is one whole type, and each number and count
/// is below 2 to the power 29. Without memory a prefix of the spelling is appended.
pub fn write_signature(signature: &Signature, into: &mut Vec<u8>) -> Result<(), AllocError>
    requires { HasSpelling signature.now }
    ensures ok { OnOk result (into.new.items ≡ into.old.items ++ signature_bytes signature.now) }
    ensures err { OnErr result (Extends into.old.items into.new.items (signature_bytes signature.now)) }
{
    match signature {
        Signature::Field(holds) => {
            into.push(0x06)?;
            write_type(holds, into)?;
        }
        Signature::Method {
            has_this,
            type_parameters,
            result,
            parameters,
        } => {
            write_method(*has_this, *type_parameters, into)?;
            write_typed(result, parameters.as_slice(), into)?;
        }
        Signature::Locals(types) => {
            into.push(0x07)?;
            write_counted(types.as_slice(), into)?;
        }
        Signature::Property {
            has_this,
            holds,
            indexes,
        } => {
            into.push(this_mark(*has_this) + 0x08)?;
            write_typed(holds, indexes.as_slice(), into)?;
        }
        Signature::Instantiation(types) => {
            into.push(0x0A)?;
            write_counted(types.as_slice(), into)?;
        }
        Signature::Plain(alone) => write_type(alone, into)?,
    }
    Ok(())
}
