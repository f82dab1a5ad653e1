// The classes that the parts of a class name.
ghost use Rattle.std.specs.Prelude.{◌≡◌, ◌<◌, List, IfOk};
ghost use Rattle.std.specs.Option.{option_to_list};
ghost use Rattle.std.specs.List.{list_all, flat_map};
ghost use Rattle.cc_core.specs.Types.{bare};
ghost use Rattle.cc_core.specs.Classes.{id_within, type_within, field_within, method_within, class_within, named_within, parents, parts, field_part};

use crate::types::{ClassInfo, ClassKind, CoreType, FieldInfo, MethodInfo, NamedFunction};
use cc_base::{ClassId, List};
use std::alloc::{AllocError, Global};

/// Whether a class is among so many.
pub(crate) fn is_id_within(class: ClassId, count: usize) -> bool
    ensures { result ≡ id_within count class }
{
    (class.0 as usize) < count
}

/// Whether the class that a type names, if it names one, is among so many.
pub(crate) fn is_type_within(of: &CoreType, count: usize) -> bool
    ensures { result ≡ type_within count (bare of.now) }
{
    match of {
        CoreType::Enum(class) | CoreType::Value(class) | CoreType::Handle(class) => {
            is_id_within(*class, count)
        }
        CoreType::Array(part) | CoreType::Track(part) => is_type_within(part, count),
        CoreType::Void
        | CoreType::Bool
        | CoreType::Char
        | CoreType::I8
        | CoreType::U8
        | CoreType::I16
        | CoreType::U16
        | CoreType::I32
        | CoreType::U32
        | CoreType::I64
        | CoreType::U64
        | CoreType::Null => true,
    }
}

fn is_field_within(field: &FieldInfo, count: usize) -> bool
    ensures { result ≡ field_within count field.now }
{
    is_type_within(&field.holds, count)
}

fn is_named_within(named: &NamedFunction, count: usize) -> bool
    ensures { result ≡ named_within count named.now }
{
    is_id_within(named.class, count)
}

fn are_types_within(types: &[CoreType], count: usize) -> bool
    ensures { result ≡ list_all (λ of. type_within count (bare of)) types.now }
{
    types.iter().all(|of| is_type_within(of, count))
}

fn are_named_within(functions: &[NamedFunction], count: usize) -> bool
    ensures { result ≡ list_all (named_within count) functions.now }
{
    functions.iter().all(|named| is_named_within(named, count))
}

fn is_method_within(method: &MethodInfo, count: usize) -> bool
    ensures { result ≡ method_within count method.now }
{
    are_types_within(method.parameters.as_slice(), count)
        && is_type_within(&method.result, count)
        && are_named_within(method.named.as_slice(), count)
}

fn are_ids_within(classes: &[ClassId], count: usize) -> bool
    ensures { result ≡ list_all (id_within count) classes.now }
{
    classes.iter().all(|class| is_id_within(*class, count))
}

fn are_parents_within(class: &ClassInfo, count: usize) -> bool
    ensures { result ≡ list_all (id_within count) (parents class.now) }
{
    match class.base {
        Some(base) => {
            is_id_within(base, count) && are_ids_within(class.interfaces.as_slice(), count)
        }
        None => are_ids_within(class.interfaces.as_slice(), count),
    }
}

fn are_fields_within(fields: &[FieldInfo], count: usize) -> bool
    ensures { result ≡ list_all (field_within count) fields.now }
{
    fields.iter().all(|field| is_field_within(field, count))
}

fn are_methods_within(methods: &[MethodInfo], count: usize) -> bool
    ensures { result ≡ list_all (method_within count) methods.now }
{
    methods.iter().all(|method| is_method_within(method, count))
}

/// Whether each class that a class names is among so many.
pub(crate) fn is_class_within(class: &ClassInfo, count: usize) -> bool
    ensures { result ≡ class_within count class.now }
{
    are_parents_within(class, count)
        && are_fields_within(class.fields.as_slice(), count)
        && are_methods_within(class.methods.as_slice(), count)
}

/// The classes that a class derives from directly.
pub(crate) fn parents_of(alloc: Global, class: &ClassInfo) -> Result<List<ClassId>, AllocError>
    ensures { IfOk result (λ row. row ≡ parents class.now) }
{
    let mut row = Vec::new(alloc);
    if let Some(base) = class.base {
        row.push(base)?;
    }
    row.extend_from_slice(class.interfaces.as_slice())?;
    Ok(List::from_vec(row))
}

/// The value class that is part of each object with such a field, if there is one.
fn part_in(field: &FieldInfo) -> Option<ClassId>
    ensures { option_to_list result ≡ field_part field.now }
{
    match &field.holds {
        CoreType::Value(class) if !field.is_static => Some(*class),
        _ => None,
    }
}

/// The value classes of which these fields of an object are made.
fn field_parts(alloc: Global, fields: &[FieldInfo]) -> Result<List<ClassId>, AllocError>
    ensures { IfOk result (λ row. row ≡ flat_map field_part fields.now) }
{
    let mut row = Vec::new(alloc);
    for field in fields {
        if let Some(part) = part_in(field) {
            row.push(part)?;
        }
    }
    Ok(List::from_vec(row))
}

/// The value classes of which a value of this class is made, where it is a value class itself.
pub(crate) fn parts_of(alloc: Global, class: &ClassInfo) -> Result<List<ClassId>, AllocError>
    ensures { IfOk result (λ row. row ≡ parts class.now) }
{
    match class.kind {
        ClassKind::Value => field_parts(alloc, class.fields.as_slice()),
        ClassKind::Ref | ClassKind::Interface | ClassKind::Enum => Ok(List::new(alloc)),
    }
}
