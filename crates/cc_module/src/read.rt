// Signatures out of blobs.
ghost use Rattle.std.specs.Prelude.{◌≡◌, ◌≢◌, ◌<◌, ◌≤◌, ◌^◌, ◌+◌, ◌++◌, ◌∷◌, [], ◌-◌, ℕ, length, get_or, drop, false, Some, Ok, Err, IfOk, IfErr, IsOkUnless};
ghost use Rattle.std.specs.List.{flat_map, AllByRecursion};
ghost use Rattle.cc_layout.specs.Codes.{IsBad};
ghost use Rattle.cc_layout.specs.Compressed.{compressed};
ghost use Rattle.cc_module.specs.Signatures.{coded, mark, operand, element_bytes, FitsElement, IsType, wanted, type_bytes, types_bytes, signature_bytes, HasSpelling, IsSignature, IsBadWhole, IsToken, IsElement, IsOperand, IsOneType, IsTypes, IsCounted, IsGeneric, IsPlainLead, arity, BeginsAlone, this_mark};
ghost use Rattle.cc_module.specs.declared.signature.Signature.{Signature};
ghost use Rattle.cc_module.specs.declared.fault.BlobFault.{BlobFault};
ghost use Rattle.cc_module.specs.declared.fault.BlobFault.TheVariants.{Memory};

use crate::element::{Element, TypeDefOrRef};
use crate::fault::BlobFault;
use crate::signature::{Signature, TypeSignature};
use cc_base::List;
use cc_layout::split_compressed;
use std::alloc::Global;

// The named type at the front and the bytes after it.
fn split_token(bytes: &[u8]) -> Result<(TypeDefOrRef, &[u8]), u32>
    requires { length bytes.now < 2 ^ 32 }
    ensures fits { IfOk result (λ r. coded r.0 < 2 ^ 29) }
    ensures ok { IfOk result (λ r. bytes.now ≡ compressed (coded r.0) ++ r.1.now) }
    ensures err { IfErr result (λ n. IsBad IsToken bytes.now n) }
{
    let (code, rest) = match split_compressed(bytes) {
        Ok(split) => split,
        Err(n) => return Err(n),
    };
    match code % 4 {
        0 => Ok((TypeDefOrRef::TypeDef(code / 4), rest)),
        1 => Ok((TypeDefOrRef::TypeRef(code / 4), rest)),
        2 => Ok((TypeDefOrRef::TypeSpec(code / 4), rest)),
        _ => Err((bytes.len() - rest.len()) as u32 - 1),
    }
}

// What follows the mark of an instance, and the bytes after it.
fn split_instance(bytes: &[u8]) -> Result<(Element, &[u8]), u32>
    requires { length bytes.now < 2 ^ 32 }
    ensures fits { IfOk result (λ r. FitsElement r.0) }
    ensures kind { IfOk result (λ r. mark r.0 ≡ 0x15) }
    ensures ok { IfOk result (λ r. bytes.now ≡ operand r.0 ++ r.1.now) }
    ensures err { IfErr result (λ n. IsBad (IsOperand 0x15) bytes.now n) }
{
    let [kind, rest @ ..] = bytes else {
        return Err(0);
    };
    let kind = *kind;
    if kind != 0x11 && kind != 0x12 {
        return Err(0);
    }
    let (definition, after) = match split_token(rest) {
        Ok(split) => split,
        Err(n) => return Err(n + 1),
    };
    let before = (bytes.len() - after.len()) as u32;
    match split_compressed(after) {
        Ok((arguments, last)) => Ok((
            Element::Instance {
                is_value_type: kind == 0x11,
                definition,
                arguments,
            },
            last,
        )),
        Err(n) => Err(before + n),
    }
}

// The element at the front and the bytes after it.
fn split_element(bytes: &[u8]) -> Result<(Element, &[u8]), u32>
    requires { length bytes.now < 2 ^ 32 }
    ensures fits { IfOk result (λ r. FitsElement r.0) }
    ensures ok { IfOk result (λ r. bytes.now ≡ element_bytes r.0 ++ r.1.now) }
    ensures err { IfErr result (λ n. IsBad IsElement bytes.now n) }
{
    let [mark, rest @ ..] = bytes else {
        return Err(0);
    };
    match *mark {
        0x01 => Ok((Element::Void, rest)),
        0x02 => Ok((Element::Boolean, rest)),
        0x03 => Ok((Element::Char, rest)),
        0x04 => Ok((Element::I1, rest)),
        0x05 => Ok((Element::U1, rest)),
        0x06 => Ok((Element::I2, rest)),
        0x07 => Ok((Element::U2, rest)),
        0x08 => Ok((Element::I4, rest)),
        0x09 => Ok((Element::U4, rest)),
        0x0A => Ok((Element::I8, rest)),
        0x0B => Ok((Element::U8, rest)),
        0x0E => Ok((Element::String, rest)),
        0x10 => Ok((Element::Pointer, rest)),
        0x1C => Ok((Element::Object, rest)),
        0x1D => Ok((Element::Array, rest)),
        0x11 => match split_token(rest) {
            Ok((named, after)) => Ok((Element::ValueType(named), after)),
            Err(n) => Err(n + 1),
        },
        0x12 => match split_token(rest) {
            Ok((named, after)) => Ok((Element::Class(named), after)),
            Err(n) => Err(n + 1),
        },
        0x13 => match split_compressed(rest) {
            Ok((number, after)) => Ok((Element::TypeVariable(number), after)),
            Err(n) => Err(n + 1),
        },
        0x15 => match split_instance(rest) {
            Ok((instance, after)) => Ok((instance, after)),
            Err(n) => Err(n + 1),
        },
        0x1E => match split_compressed(rest) {
            Ok((number, after)) => Ok((Element::MethodVariable(number), after)),
            Err(n) => Err(n + 1),
        },
        _ => Err(0),
    }
}

// One type from the front, and how many bytes it has. Nested types are read without recursion.
fn read_type(alloc: Global, bytes: &[u8]) -> Result<(TypeSignature, u32), BlobFault>
    requires { length bytes.now < 2 ^ 32 }
    ensures room { IfOk result (λ r. r.1 ≤ length bytes.now) }
    ensures ok { IfOk result (λ r. IsType r.0 × (bytes.now ≡ type_bytes r.0 ++ drop r.1 bytes.now)) }
    ensures err { (n : ℕ) → result ≡ Err (BlobFault.Bad n) → IsBad IsOneType bytes.now n }
{
    let mut elements = List::new(alloc);
    let mut rest = bytes;
    let mut pending: u64 = 1;
    while pending > 0 {
        match split_element(rest) {
            Ok((element, after)) => {
                pending = pending - 1 + element.arity() as u64;
                elements.push(element)?;
                rest = after;
            }
            Err(n) => {
                let place = bytes.len() - rest.len();
                return Err(BlobFault::Bad(place as u32 + n));
            }
        }
    }
    Ok((
        TypeSignature { elements },
        (bytes.len() - rest.len()) as u32,
    ))
}

// So many types from the front, and how many bytes they have.
fn read_types(
    alloc: Global,
    count: u32,
    bytes: &[u8],
) -> Result<(List<TypeSignature>, u32), BlobFault>
    requires { length bytes.now < 2 ^ 32 }
    ensures room { IfOk result (λ r. r.1 ≤ length bytes.now) }
    ensures types { IfOk result (λ r. (length r.0 ≡ count) × AllByRecursion IsType r.0) }
    ensures ok { IfOk result (λ r. bytes.now ≡ types_bytes r.0 ++ drop r.1 bytes.now) }
    ensures err { (n : ℕ) → result ≡ Err (BlobFault.Bad n) → IsBad (IsTypes count) bytes.now n }
{
    let mut types = List::new(alloc);
    let mut rest = bytes;
    for _ in 0..count {
        let place = (bytes.len() - rest.len()) as u32;
        match read_type(alloc, rest) {
            Ok((one, width)) => {
                types.push(one)?;
                let (_, after) = rest.split_at(width as usize);
                rest = after;
            }
            Err(fault) => return Err(fault.after(place)),
        }
    }
    Ok((types, (bytes.len() - rest.len()) as u32))
}

// A blob that is one type.
fn whole_type(alloc: Global, bytes: &[u8]) -> Result<TypeSignature, BlobFault>
    requires { length bytes.now < 2 ^ 32 }
    ensures ok { IfOk result (λ r. IsType r × (bytes.now ≡ type_bytes r)) }
    ensures err { (n : ℕ) → result ≡ Err (BlobFault.Bad n) → IsBadWhole IsOneType bytes.now n }
{
    let (one, width) = read_type(alloc, bytes)?;
    if (width as usize) < bytes.len() {
        return Err(BlobFault::Bad(width));
    }
    Ok(one)
}

// A blob that is a count, and so many types and `extra` ones more.
fn whole_counted(alloc: Global, extra: u32, bytes: &[u8]) -> Result<List<TypeSignature>, BlobFault>
    requires long { length bytes.now < 2 ^ 32 }
    requires extra { extra ≤ 1 }
    ensures each { IfOk result (λ r. AllByRecursion IsType r) }
    ensures ok { IfOk result (λ r. (count : ℕ) × (count < 2 ^ 29) × (length r ≡ count + extra) × (bytes.now ≡ compressed count ++ types_bytes r)) }
    ensures err { (n : ℕ) → result ≡ Err (BlobFault.Bad n) → IsBadWhole (IsCounted extra) bytes.now n }
{
    let (count, rest) = match split_compressed(bytes) {
        Ok(split) => split,
        Err(n) => return Err(BlobFault::Bad(n)),
    };
    let before = (bytes.len() - rest.len()) as u32;
    match read_types(alloc, count + extra, rest) {
        Ok((types, width)) => {
            if (width as usize) < rest.len() {
                return Err(BlobFault::Bad(before + width));
            }
            Ok(types)
        }
        Err(fault) => Err(fault.after(before)),
    }
}

// A blob that is a number of type parameters, and then a count, so many types and one more.
fn whole_generic(alloc: Global, bytes: &[u8]) -> Result<(u32, List<TypeSignature>), BlobFault>
    requires { length bytes.now < 2 ^ 32 }
    ensures each { IfOk result (λ r. (r.0 < 2 ^ 29) × AllByRecursion IsType r.1) }
    ensures ok { IfOk result (λ r. (count : ℕ) × (count < 2 ^ 29) × (length r.1 ≡ count + 1) × (bytes.now ≡ compressed r.0 ++ (compressed count ++ types_bytes r.1))) }
    ensures err { (n : ℕ) → result ≡ Err (BlobFault.Bad n) → IsBadWhole IsGeneric bytes.now n }
{
    let (number, rest) = match split_compressed(bytes) {
        Ok(split) => split,
        Err(n) => return Err(BlobFault::Bad(n)),
    };
    let before = (bytes.len() - rest.len()) as u32;
    match whole_counted(alloc, 1, rest) {
        Ok(types) => Ok((number, types)),
        Err(fault) => Err(fault.after(before)),
    }
}

// A signature that is one element alone.
fn leaf_of(alloc: Global, element: Element) -> Result<Signature, BlobFault>
    requires fits { FitsElement element }
    requires whole { arity element ≡ 0 }
    requires alone { BeginsAlone (element ∷ []) }
    ensures ok { IfOk result (λ r. HasSpelling r × (element_bytes element ≡ signature_bytes r)) }
    ensures err { (n : ℕ) → result ≡ Err (BlobFault.Bad n) → ⊥ }
{
    let mut elements = List::new(alloc);
    elements.push(element)?;
    Ok(Signature::Plain(TypeSignature { elements }))
}

// The first of some types, and the others.
fn split_types(types: List<TypeSignature>) -> (TypeSignature, List<TypeSignature>)
    requires { 0 < length types }
    ensures { types ≡ result.0 ∷ result.1 }
{
    let mut items = types.into_vec();
    let first = items.remove(0);
    (first, List::from_vec(items))
}

// What follows the mark of a field.
fn field_of(alloc: Global, tail: &[u8]) -> Result<Signature, BlobFault>
    requires long { length tail.now < 2 ^ 32 - 1 }
    requires some { 0 < length tail.now }
    ensures ok { IfOk result (λ r. HasSpelling r × (0x06 ∷ tail.now ≡ signature_bytes r)) }
    ensures err { (n : ℕ) → result ≡ Err (BlobFault.Bad n) → IsBadWhole IsSignature (0x06 ∷ tail.now) n }
{
    match whole_type(alloc, tail) {
        Ok(holds) => Ok(Signature::Field(holds)),
        Err(fault) => Err(fault.after(1)),
    }
}

// What follows the mark of local variables.
fn locals_of(alloc: Global, tail: &[u8]) -> Result<Signature, BlobFault>
    requires long { length tail.now < 2 ^ 32 - 1 }
    requires some { 0 < length tail.now }
    ensures ok { IfOk result (λ r. HasSpelling r × (0x07 ∷ tail.now ≡ signature_bytes r)) }
    ensures err { (n : ℕ) → result ≡ Err (BlobFault.Bad n) → IsBadWhole IsSignature (0x07 ∷ tail.now) n }
{
    match whole_counted(alloc, 0, tail) {
        Ok(types) => Ok(Signature::Locals(types)),
        Err(fault) => Err(fault.after(1)),
    }
}

// What follows the mark of an instantiation.
fn instantiation_of(alloc: Global, tail: &[u8]) -> Result<Signature, BlobFault>
    requires long { length tail.now < 2 ^ 32 - 1 }
    requires some { 0 < length tail.now }
    ensures ok { IfOk result (λ r. HasSpelling r × (0x0A ∷ tail.now ≡ signature_bytes r)) }
    ensures err { (n : ℕ) → result ≡ Err (BlobFault.Bad n) → IsBadWhole IsSignature (0x0A ∷ tail.now) n }
{
    match whole_counted(alloc, 0, tail) {
        Ok(types) => Ok(Signature::Instantiation(types)),
        Err(fault) => Err(fault.after(1)),
    }
}

// What follows the mark of a method that is not generic.
fn method_of(alloc: Global, has_this: bool, tail: &[u8]) -> Result<Signature, BlobFault>
    requires long { length tail.now < 2 ^ 32 - 1 }
    ensures ok { IfOk result (λ r. HasSpelling r × ((this_mark has_this + 0x00) ∷ tail.now ≡ signature_bytes r)) }
    ensures err { (n : ℕ) → result ≡ Err (BlobFault.Bad n) → IsBadWhole IsSignature ((this_mark has_this + 0x00) ∷ tail.now) n }
{
    match whole_counted(alloc, 1, tail) {
        Ok(types) => {
            let (result, parameters) = split_types(types);
            Ok(Signature::Method {
                has_this,
                type_parameters: None,
                result,
                parameters,
            })
        }
        Err(fault) => Err(fault.after(1)),
    }
}

// What follows the mark of a generic method.
fn generic_of(alloc: Global, has_this: bool, tail: &[u8]) -> Result<Signature, BlobFault>
    requires long { length tail.now < 2 ^ 32 - 1 }
    ensures ok { IfOk result (λ r. HasSpelling r × ((this_mark has_this + 0x10) ∷ tail.now ≡ signature_bytes r)) }
    ensures err { (n : ℕ) → result ≡ Err (BlobFault.Bad n) → IsBadWhole IsSignature ((this_mark has_this + 0x10) ∷ tail.now) n }
{
    match whole_generic(alloc, tail) {
        Ok((number, types)) => {
            let (result, parameters) = split_types(types);
            Ok(Signature::Method {
                has_this,
                type_parameters: Some(number),
                result,
                parameters,
            })
        }
        Err(fault) => Err(fault.after(1)),
    }
}

// What follows the mark of a property.
fn property_of(alloc: Global, has_this: bool, tail: &[u8]) -> Result<Signature, BlobFault>
    requires long { length tail.now < 2 ^ 32 - 1 }
    requires some { has_this ≡ false → 0 < length tail.now }
    ensures ok { IfOk result (λ r. HasSpelling r × ((this_mark has_this + 0x08) ∷ tail.now ≡ signature_bytes r)) }
    ensures err { (n : ℕ) → result ≡ Err (BlobFault.Bad n) → IsBadWhole IsSignature ((this_mark has_this + 0x08) ∷ tail.now) n }
{
    match whole_counted(alloc, 1, tail) {
        Ok(types) => {
            let (holds, indexes) = split_types(types);
            Ok(Signature::Property {
                has_this,
                holds,
                indexes,
            })
        }
        Err(fault) => Err(fault.after(1)),
    }
}

// A type alone, whose first byte begins no other signature.
fn plain_of(alloc: Global, blob: &[u8]) -> Result<Signature, BlobFault>
    requires long { length blob.now < 2 ^ 32 }
    requires some { 0 < length blob.now }
    requires plain { IsPlainLead (get_or blob.now 0 0) }
    ensures ok { IfOk result (λ r. HasSpelling r × (blob.now ≡ signature_bytes r)) }
    ensures err { (n : ℕ) → result ≡ Err (BlobFault.Bad n) → IsBadWhole IsSignature blob.now n }
{
    match whole_type(alloc, blob) {
        Ok(alone) => Ok(Signature::Plain(alone)),
        Err(fault) => Err(fault),
    }
}

// The signature by its first byte.
fn signature_of(alloc: Global, blob: &[u8]) -> Result<Signature, BlobFault>
    requires { length blob.now < 2 ^ 32 }
    ensures ok { IfOk result (λ r. HasSpelling r × (blob.now ≡ signature_bytes r)) }
    ensures err { (n : ℕ) → result ≡ Err (BlobFault.Bad n) → IsBadWhole IsSignature blob.now n }
{
    let [mark, tail @ ..] = blob else {
        return Err(BlobFault::Bad(0));
    };
    let alone = tail.is_empty();
    match *mark {
        0x00 => method_of(alloc, false, tail),
        0x01 => Err(BlobFault::Bad(0)),
        0x06 => if alone {
            leaf_of(alloc, Element::I2)
        } else {
            field_of(alloc, tail)
        },
        0x07 => if alone {
            leaf_of(alloc, Element::U2)
        } else {
            locals_of(alloc, tail)
        },
        0x08 => if alone {
            leaf_of(alloc, Element::I4)
        } else {
            property_of(alloc, false, tail)
        },
        0x0A => if alone {
            leaf_of(alloc, Element::I8)
        } else {
            instantiation_of(alloc, tail)
        },
        0x10 => generic_of(alloc, false, tail),
        0x20 => method_of(alloc, true, tail),
        0x28 => property_of(alloc, true, tail),
        0x30 => generic_of(alloc, true, tail),
        _ => plain_of(alloc, blob),
    }
}

/// The signature that a blob is (ECMA-335, II.23.2). `Bad` comes exactly where the blob is no signature, with the first
/// place at which no signature continues the bytes before it, or with the length of a blob that ends too early.
pub fn read_signature(alloc: Global, blob: &[u8]) -> Result<Signature, BlobFault>
    requires { length blob.now < 2 ^ 32 }
    ensures found { IfOk result (λ r. HasSpelling r × (blob.now ≡ signature_bytes r)) }
    ensures spelled { (s : Signature) → HasSpelling s → blob.now ≡ signature_bytes s → IfOk result (λ r. r ≡ s) × IsOkUnless result Memory }
    ensures bad { (n : ℕ) → result ≡ Err (BlobFault.Bad n) → IsBadWhole IsSignature blob.now n }
{
    signature_of(alloc, blob)
}
