// Signatures of methods as blobs (ECMA-335, II.23.2).
ghost use Rattle.std.specs.Prelude.{◌≡◌, [], ◌∷◌, IfOk};
ghost use Rattle.cc_module.specs.Signatures.{HasSpelling, signature_bytes};
ghost use Rattle.cc_emit.specs.Program as spec;

use cc_base::List;
use cc_module::{Blob, Element, Signature, TypeSignature, write_signature};
use std::alloc::{AllocError, Global};

/// The type of these elements.
pub fn type_of(alloc: Global, elements: &[Element]) -> Result<TypeSignature, AllocError>
    ensures { IfOk result (λ t. t.elements ≡ elements.now) }
{
    let elements = List::from_slice(alloc, elements)?;
    Ok(TypeSignature { elements })
}

/// A list of one type.
pub fn one_type(alloc: Global, elements: &[Element]) -> Result<List<TypeSignature>, AllocError>
    ensures { IfOk result (λ types. types ≡ record { elements = elements.now } ∷ []) }
{
    let mut types = List::new(alloc);
    types.push(type_of(alloc, elements)?)?;
    Ok(types)
}

/// The signature of a static method that isn't generic.
pub fn static_method(returned: TypeSignature, parameters: List<TypeSignature>) -> Signature
    ensures { result ≡ spec.static_method returned parameters }
{
    Signature::Method {
        has_this: false,
        type_parameters: None,
        result: returned,
        parameters,
    }
}

/// The bytes of a signature.
pub fn blob_of(alloc: Global, signature: &Signature) -> Result<Blob, AllocError>
    requires { HasSpelling signature.now }
    ensures { IfOk result (λ blob. blob ≡ signature_bytes signature.now) }
{
    let mut blob = Vec::new(alloc);
    write_signature(signature, &mut blob)?;
    Ok(List::from_vec(blob))
}
