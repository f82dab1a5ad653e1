// The signatures of the methods of a straight program as blobs (ECMA-335, II.23.2).
ghost use Rattle.std.specs.Prelude.{◌≡◌, [], ◌∷◌, IfOk};
ghost use Rattle.cc_module.specs.Signatures.{HasSpelling, signature_bytes};
ghost use Rattle.cc_emit.specs.Program as spec;

use cc_base::List;
use cc_module::{Blob, Element, Signature, TypeSignature, write_signature};
use std::alloc::{AllocError, Global};

// The type of these elements.
fn type_of(alloc: Global, elements: &[Element]) -> Result<TypeSignature, AllocError>
    ensures { IfOk result (λ t. t.elements ≡ elements.now) }
{
    let elements = List::from_slice(alloc, elements)?;
    Ok(TypeSignature { elements })
}

// A list of one type.
fn one_type(alloc: Global, elements: &[Element]) -> Result<List<TypeSignature>, AllocError>
    ensures { IfOk result (λ types. types ≡ record { elements = elements.now } ∷ []) }
{
    let mut types = List::new(alloc);
    types.push(type_of(alloc, elements)?)?;
    Ok(types)
}

// The signature of a static method that isn't generic.
fn static_method(returned: TypeSignature, parameters: List<TypeSignature>) -> Signature
    ensures { result ≡ spec.static_method returned parameters }
{
    Signature::Method {
        has_this: false,
        type_parameters: None,
        result: returned,
        parameters,
    }
}

fn blob_of(alloc: Global, signature: &Signature) -> Result<Blob, AllocError>
    requires { HasSpelling signature.now }
    ensures { IfOk result (λ blob. blob ≡ signature_bytes signature.now) }
{
    let mut blob = Vec::new(alloc);
    write_signature(signature, &mut blob)?;
    Ok(List::from_vec(blob))
}

/// That of `Console.WriteLine(int32)`.
pub fn write_line_blob(alloc: Global) -> Result<Blob, AllocError>
    ensures { IfOk result (λ blob. blob ≡ signature_bytes spec.write_line_signature) }
{
    let void = type_of(alloc, &[Element::Void])?;
    let int = one_type(alloc, &[Element::I4])?;
    blob_of(alloc, &static_method(void, int))
}

/// That of `main`.
pub fn main_blob(alloc: Global) -> Result<Blob, AllocError>
    ensures { IfOk result (λ blob. blob ≡ signature_bytes spec.main_signature) }
{
    let int = type_of(alloc, &[Element::I4])?;
    blob_of(alloc, &static_method(int, List::new(alloc)))
}

/// That of `<start>`.
pub fn start_blob(alloc: Global) -> Result<Blob, AllocError>
    ensures { IfOk result (λ blob. blob ≡ signature_bytes spec.start_signature) }
{
    let int = type_of(alloc, &[Element::I4])?;
    let strings = one_type(alloc, &[Element::Array, Element::String])?;
    blob_of(alloc, &static_method(int, strings))
}
