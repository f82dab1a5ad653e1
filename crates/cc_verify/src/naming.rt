// What the rows of a module stand for, by types (ECMA-335, III.1.9).
ghost use Rattle.std.specs.Prelude.{◌≡◌, IfOk, map};
ghost use Rattle.cc_verify.specs.Types as spec;

use crate::environment::{Environment, MethodType};
use crate::library::class_named;
use crate::readings::Readings;
use crate::stack_type::StackType;
use crate::types::value_type;
use cc_base::{ClassId, List};
use cc_module::{Module, Signature, TypeRefRow, TypeSignature};
use std::alloc::{AllocError, Global};

fn value_types(
    alloc: Global,
    types: &[TypeSignature],
) -> Result<List<Option<StackType>>, AllocError>
    ensures { IfOk result (λ values. values ≡ spec.value_types types.now) }
{
    let mut values = List::new(alloc);
    for one in types {
        values.push(value_type(one.elements.as_slice()))?;
    }
    Ok(values)
}

fn no_method(alloc: Global) -> MethodType
    ensures { result ≡ spec.no_method }
{
    MethodType {
        parameters: List::new(alloc),
        result: None,
    }
}

// The types of the method whose signature it is.
fn type_of_signature(alloc: Global, signature: &Signature) -> Result<MethodType, AllocError>
    ensures { IfOk result (λ made. made ≡ spec.type_of_signature signature.now) }
{
    match signature {
        Signature::Method {
            result,
            parameters,
            ..
        } => {
            let parameters = value_types(alloc, parameters.as_slice())?;
            let result = value_type(result.elements.as_slice());
            Ok(MethodType { parameters, result })
        }
        Signature::Field(_) => Ok(no_method(alloc)),
        Signature::Locals(_) => Ok(no_method(alloc)),
        Signature::Property { .. } => Ok(no_method(alloc)),
        Signature::Instantiation(_) => Ok(no_method(alloc)),
        Signature::Plain(_) => Ok(no_method(alloc)),
    }
}

fn method_type(alloc: Global, reading: &Option<Signature>) -> Result<MethodType, AllocError>
    ensures { IfOk result (λ made. made ≡ spec.method_type reading.now) }
{
    match reading {
        None => Ok(no_method(alloc)),
        Some(signature) => type_of_signature(alloc, signature),
    }
}

fn method_types(
    alloc: Global,
    readings: &[Option<Signature>],
) -> Result<List<MethodType>, AllocError>
    ensures { IfOk result (λ types. types ≡ map spec.method_type readings.now) }
{
    let mut types = List::new(alloc);
    for reading in readings {
        types.push(method_type(alloc, reading)?)?;
    }
    Ok(types)
}

// The types of values, without those that have none.
fn some_types(alloc: Global, types: &[TypeSignature]) -> Result<List<StackType>, AllocError>
    ensures { IfOk result (λ some. some ≡ spec.some_types types.now) }
{
    let mut some = List::new(alloc);
    for one in types {
        match value_type(one.elements.as_slice()) {
            None => {}
            Some(value) => some.push(value)?,
        }
    }
    Ok(some)
}

fn locals_of_signature(alloc: Global, signature: &Signature) -> Result<List<StackType>, AllocError>
    ensures { IfOk result (λ types. types ≡ spec.locals_of_signature signature.now) }
{
    match signature {
        Signature::Locals(types) => some_types(alloc, types.as_slice()),
        Signature::Method { .. } => Ok(List::new(alloc)),
        Signature::Field(_) => Ok(List::new(alloc)),
        Signature::Property { .. } => Ok(List::new(alloc)),
        Signature::Instantiation(_) => Ok(List::new(alloc)),
        Signature::Plain(_) => Ok(List::new(alloc)),
    }
}

fn local_types(alloc: Global, reading: &Option<Signature>) -> Result<List<StackType>, AllocError>
    ensures { IfOk result (λ types. types ≡ spec.local_types reading.now) }
{
    match reading {
        None => Ok(List::new(alloc)),
        Some(signature) => locals_of_signature(alloc, signature),
    }
}

fn locals_types(
    alloc: Global,
    readings: &[Option<Signature>],
) -> Result<List<List<StackType>>, AllocError>
    ensures { IfOk result (λ types. types ≡ map spec.local_types readings.now) }
{
    let mut types = List::new(alloc);
    for reading in readings {
        types.push(local_types(alloc, reading)?)?;
    }
    Ok(types)
}

fn class_or_object(row: &TypeRefRow) -> ClassId
    ensures { result ≡ spec.class_or_object row.now }
{
    match class_named(row.namespace.as_slice(), row.name.as_slice()) {
        None => ClassId(0),
        Some(class) => class,
    }
}

fn classes_of(alloc: Global, rows: &[TypeRefRow]) -> Result<List<ClassId>, AllocError>
    ensures { IfOk result (λ classes. classes ≡ map spec.class_or_object rows.now) }
{
    let mut classes = List::new(alloc);
    for row in rows {
        classes.push(class_or_object(row))?;
    }
    Ok(classes)
}

/// What the rows of a module stand for, where its signature columns hold these signatures.
pub fn environment_of(
    alloc: Global,
    module: &Module,
    readings: &Readings,
) -> Result<Environment, AllocError>
    ensures { IfOk result (λ environment. environment ≡ spec.environment_of «module».now readings.now) }
{
    let classes = classes_of(alloc, module.type_refs.as_slice())?;
    let methods = method_types(alloc, readings.methods.as_slice())?;
    let references = method_types(alloc, readings.references.as_slice())?;
    let locals = locals_types(alloc, readings.locals.as_slice())?;
    Ok(Environment {
        classes,
        methods,
        references,
        locals,
    })
}
