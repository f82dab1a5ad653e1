// The rules on the rows of a module (ECMA-335, II.22), as far as they speak of a module whose one type is row 1 of TypeDef.
ghost use Rattle.std.specs.Prelude.{◌≡◌, ◌+◌, ◌-◌, ◌<◌, ◌≤◌, ◌^◌, length, slice_get, take, count_by, Some, IfOk, OnOk};
ghost use Rattle.std.specs.Option.{option_copied};
ghost use Rattle.cc_module.specs.Methods.{has_rva, body_place, body_of};
ghost use Rattle.cc_verify.specs.Transitions.{table_of, row_of, at_row};
ghost use Rattle.cc_verify.specs.Types.{is_built_reference};
ghost use Rattle.cc_verify.specs.ClassRules as spec;

use crate::check::{BODY_RULES, Check, ClassRule, ROW_RULES};
use crate::library::{class_named, is_library_member, is_void, only};
use crate::readings::Readings;
use crate::regions::is_catch;
use crate::sizes::short;
use crate::types::{are_built_locals, is_built_method, is_built_reference, is_text_array};
use cc_base::ClassId;
use cc_cil::{Body, Clause};
use cc_module::{
    AssemblyRefRow, Element, MemberRefParent, MemberRefRow, MethodDefRow, Module, ResolutionScope,
    Signature, TypeDefOrRef, TypeDefRow, TypeRefRow, TypeSignature,
};
use std::alloc::AllocError;

// ---- rows that are named

/// The row with a number that counts from 1.
pub fn at_row<T>(rows: &[T], row: u32) -> Option<&T>
    ensures { option_copied result ≡ at_row rows.now row }
{
    if row == 0 {
        return None;
    }
    rows.get(row as usize - 1)
}

fn type_ref(module: &Module, row: u32) -> Option<&TypeRefRow>
    ensures { option_copied result ≡ at_row «module».now.type_refs row }
{
    at_row(module.type_refs.as_slice(), row)
}

fn type_def(module: &Module, row: u32) -> Option<&TypeDefRow>
    ensures { option_copied result ≡ at_row «module».now.type_defs row }
{
    at_row(module.type_defs.as_slice(), row)
}

fn method(module: &Module, row: u32) -> Option<&MethodDefRow>
    ensures { option_copied result ≡ at_row «module».now.methods row }
{
    at_row(module.methods.as_slice(), row)
}

fn member_ref(module: &Module, row: u32) -> Option<&MemberRefRow>
    ensures { option_copied result ≡ at_row «module».now.member_refs row }
{
    at_row(module.member_refs.as_slice(), row)
}

fn is_local_row(module: &Module, row: u32) -> bool
    ensures { result ≡ spec.is_there (at_row «module».now.stand_alone_sigs row) }
{
    at_row(module.stand_alone_sigs.as_slice(), row).is_some()
}

fn table_of(token: u32) -> u32
    ensures { result ≡ table_of token }
{
    token / 0x0100_0000
}

/// The row that a token names.
pub fn row_of(token: u32) -> u32
    ensures { result ≡ row_of token }
{
    token % 0x0100_0000
}

// ---- what signature columns hold

fn method_reading(readings: &Readings, row: u32) -> Option<&Option<Signature>>
    ensures { option_copied result ≡ at_row readings.now.methods row }
{
    at_row(readings.methods.as_slice(), row)
}

fn reference_reading(readings: &Readings, row: u32) -> Option<&Option<Signature>>
    ensures { option_copied result ≡ at_row readings.now.references row }
{
    at_row(readings.references.as_slice(), row)
}

fn locals_reading(readings: &Readings, row: u32) -> Option<&Option<Signature>>
    ensures { option_copied result ≡ at_row readings.now.locals row }
{
    at_row(readings.locals.as_slice(), row)
}

// ---- rule 0

fn builds_method(readings: &Readings, row: u32) -> bool
    ensures { result ≡ spec.builds_method readings.now row }
{
    match method_reading(readings, row) {
        None => true,
        Some(None) => true,
        Some(Some(signature)) => is_built_method(signature),
    }
}

fn is_type_ref(parent: MemberRefParent) -> bool
    ensures { result ≡ spec.is_type_ref parent }
{
    match parent {
        MemberRefParent::TypeDef(_) => false,
        MemberRefParent::TypeRef(_) => true,
        MemberRefParent::TypeSpec(_) => false,
    }
}

fn has_type_parent(row: Option<&MemberRefRow>) -> bool
    ensures { result ≡ spec.row_has spec.has_type_parent (option_copied row.entry) }
{
    match row {
        None => true,
        Some(row) => is_type_ref(row.class),
    }
}

fn builds_reference_type(reading: Option<&Option<Signature>>) -> bool
    ensures { result ≡ spec.if_read is_built_reference (option_copied reading.entry) }
{
    match reading {
        None => true,
        Some(None) => true,
        Some(Some(signature)) => is_built_reference(signature),
    }
}

fn builds_reference(module: &Module, readings: &Readings, row: u32) -> bool
    ensures { result ≡ spec.builds_reference «module».now readings.now row }
{
    has_type_parent(member_ref(module, row))
        && builds_reference_type(reference_reading(readings, row))
}

fn builds_locals(readings: &Readings, row: u32) -> bool
    ensures { result ≡ spec.builds_locals readings.now row }
{
    match locals_reading(readings, row) {
        None => true,
        Some(None) => true,
        Some(Some(signature)) => are_built_locals(signature),
    }
}

// ---- rule 1

fn names_none(named: TypeDefOrRef) -> bool
    ensures { result ≡ spec.names_none named }
{
    match named {
        TypeDefOrRef::TypeDef(row) => row == 0,
        TypeDefOrRef::TypeRef(row) => row == 0,
        TypeDefOrRef::TypeSpec(row) => row == 0,
    }
}

fn extends_none(module: &Module, row: u32) -> bool
    ensures { result ≡ spec.extends_none «module».now row }
{
    match type_def(module, row) {
        None => true,
        Some(row) => names_none(row.extends),
    }
}

// ---- rule 2

fn differs(row: &MethodDefRow, other: &MethodDefRow) -> bool
    ensures { result ≡ spec.differs row.now other.now }
{
    row.name.as_slice() != other.name.as_slice()
        || row.signature.as_slice() != other.signature.as_slice()
}

fn differs_from_each(row: &MethodDefRow, before: &[MethodDefRow]) -> bool
    ensures { result ≡ spec.differs_from_each row.now before.now }
{
    for other in before {
        if !differs(row, other) {
            return false;
        }
    }
    true
}

// The rows before one that counts from 1.
fn rows_before(methods: &[MethodDefRow], row: u32) -> &[MethodDefRow]
    ensures { result.now ≡ take (row - 1) methods.now }
{
    if row == 0 {
        return &methods[..0];
    }
    let before = row as usize - 1;
    if before < methods.len() {
        &methods[..before]
    } else {
        methods
    }
}

fn is_new(module: &Module, row: u32) -> bool
    ensures { result ≡ spec.is_new «module».now row }
{
    match method(module, row) {
        None => true,
        Some(found) => differs_from_each(found, rows_before(module.methods.as_slice(), row)),
    }
}

// ---- rule 3

fn has_bit(bit: u32, flags: u32) -> bool
    requires { 0 < bit }
    ensures { result ≡ spec.has_bit bit flags }
{
    flags / bit % 2 == 1
}

fn are_type_flags(flags: u32) -> bool
    ensures { result ≡ spec.are_type_flags flags }
{
    flags < 0x200 && (flags / 2 % 4 == 0 && (!has_bit(0x10, flags) && !has_bit(0x40, flags)))
}

fn is_access(access: u32) -> bool
    ensures { result ≡ spec.is_access access }
{
    access == 1 || access == 4 || access == 6
}

fn are_method_flags(flags: u32) -> bool
    ensures { result ≡ spec.are_method_flags flags }
{
    flags < 0x2000 && (is_access(flags % 8) && (!has_bit(8, flags) && !has_bit(0x200, flags)))
}

fn are_static_flags(flags: u32) -> bool
    ensures { result ≡ spec.are_static_flags flags }
{
    has_bit(0x10, flags) && (!has_bit(0x40, flags) && !has_bit(0x400, flags))
}

fn has_type_flags(module: &Module, row: u32) -> bool
    ensures { result ≡ spec.has_type_flags «module».now row }
{
    match type_def(module, row) {
        None => true,
        Some(row) => are_type_flags(row.flags),
    }
}

fn is_static_method(signature: &Signature) -> bool
    ensures { result ≡ spec.is_static_method signature.now }
{
    match signature {
        Signature::Method { has_this, .. } => !*has_this,
        Signature::Field(_) => false,
        Signature::Locals(_) => false,
        Signature::Property { .. } => false,
        Signature::Instantiation(_) => false,
        Signature::Plain(_) => false,
    }
}

fn is_static_reading(reading: Option<&Option<Signature>>) -> bool
    ensures { result ≡ spec.is_read spec.is_static_method (option_copied reading.entry) }
{
    match reading {
        None => false,
        Some(None) => false,
        Some(Some(signature)) => is_static_method(signature),
    }
}

fn has_method_flags(row: Option<&MethodDefRow>) -> bool
    ensures { result ≡ spec.row_has spec.has_method_flags (option_copied row.entry) }
{
    match row {
        None => true,
        Some(row) => {
            let flags = u32::from(row.flags);
            are_method_flags(flags) && are_static_flags(flags)
        }
    }
}

fn is_no_interface(row: Option<&TypeDefRow>) -> bool
    ensures { result ≡ spec.row_has spec.is_no_interface (option_copied row.entry) }
{
    match row {
        None => true,
        Some(row) => !has_bit(0x20, row.flags),
    }
}

fn is_static(module: &Module, readings: &Readings, row: u32) -> bool
    ensures { result ≡ spec.is_static «module».now readings.now row }
{
    is_static_reading(method_reading(readings, row))
        && (has_method_flags(method(module, row)) && is_no_interface(type_def(module, 1)))
}

fn is_reference(signature: &Signature) -> bool
    ensures { result ≡ spec.is_reference signature.now }
{
    match signature {
        Signature::Method { .. } => true,
        Signature::Field(_) => true,
        Signature::Locals(_) => false,
        Signature::Property { .. } => false,
        Signature::Instantiation(_) => false,
        Signature::Plain(_) => false,
    }
}

fn is_locals(signature: &Signature) -> bool
    ensures { result ≡ spec.is_locals signature.now }
{
    match signature {
        Signature::Locals(_) => true,
        Signature::Method { .. } => false,
        Signature::Field(_) => false,
        Signature::Property { .. } => false,
        Signature::Instantiation(_) => false,
        Signature::Plain(_) => false,
    }
}

fn is_reference_row(readings: &Readings, row: u32) -> bool
    ensures { result ≡ spec.is_read spec.is_reference (at_row readings.now.references row) }
{
    match reference_reading(readings, row) {
        None => false,
        Some(None) => false,
        Some(Some(signature)) => is_reference(signature),
    }
}

fn is_locals_row(readings: &Readings, row: u32) -> bool
    ensures { result ≡ spec.is_read spec.is_locals (at_row readings.now.locals row) }
{
    match locals_reading(readings, row) {
        None => false,
        Some(None) => false,
        Some(Some(signature)) => is_locals(signature),
    }
}

// ---- rule 4

fn is_library(row: Option<&AssemblyRefRow>) -> bool
    ensures { result ≡ spec.is_library (option_copied row.entry) }
{
    match row {
        None => false,
        Some(row) => row.name.as_slice() == b"mscorlib".as_slice(),
    }
}

fn scope_row(scope: ResolutionScope) -> u32
    ensures { result ≡ spec.scope_row scope }
{
    match scope {
        ResolutionScope::AssemblyRef(row) => row,
    }
}

fn is_in_library(module: &Module, row: &TypeRefRow) -> bool
    ensures { result ≡ spec.is_in_library «module».now row.now }
{
    let assembly = at_row(module.assembly_refs.as_slice(), scope_row(row.scope));
    is_library(assembly) && class_named(row.namespace.as_slice(), row.name.as_slice()).is_some()
}

fn names_class(module: &Module, row: u32) -> bool
    ensures { result ≡ spec.names_class «module».now row }
{
    match type_ref(module, row) {
        None => true,
        Some(row) => is_in_library(module, row),
    }
}

fn begins_lists(module: &Module, row: u32) -> bool
    ensures { result ≡ spec.begins_lists «module».now row }
{
    match type_def(module, row) {
        None => true,
        Some(row) => row.fields.0 == 1 && row.methods.0 == 1,
    }
}

fn is_list_start(index: u32, count: usize) -> bool
    ensures { result ≡ spec.is_list_start index count }
{
    1 <= index && index as usize - 1 <= count
}

fn no_void(types: &[TypeSignature]) -> bool
    ensures { result ≡ spec.no_void types.now }
{
    for one in types {
        if is_void(one.elements.as_slice()) {
            return false;
        }
    }
    true
}

fn takes_no_void(signature: &Signature) -> bool
    ensures { result ≡ spec.takes_no_void signature.now }
{
    match signature {
        Signature::Method { parameters, .. } => no_void(parameters.as_slice()),
        Signature::Locals(types) => no_void(types.as_slice()),
        Signature::Field(_) => true,
        Signature::Property { .. } => true,
        Signature::Instantiation(_) => true,
        Signature::Plain(_) => true,
    }
}

fn reads_no_void(reading: Option<&Option<Signature>>) -> bool
    ensures { result ≡ spec.if_read spec.takes_no_void (option_copied reading.entry) }
{
    match reading {
        None => true,
        Some(None) => true,
        Some(Some(signature)) => takes_no_void(signature),
    }
}

fn names_locals(module: &Module, token: u32) -> bool
    ensures { result ≡ spec.names_locals «module».now token }
{
    if token == 0 {
        return true;
    }
    if table_of(token) == 0x11 {
        is_local_row(module, row_of(token))
    } else {
        false
    }
}

fn names_type(module: &Module, token: u32) -> bool
    ensures { result ≡ spec.names_type «module».now token }
{
    let table = table_of(token);
    if table == 0x01 {
        type_ref(module, row_of(token)).is_some()
    } else if table == 0x02 {
        type_def(module, row_of(token)).is_some()
    } else {
        false
    }
}

fn names_caught(module: &Module, clause: &Clause) -> bool
    ensures { result ≡ spec.names_caught «module».now clause.now }
{
    if is_catch(clause.kind) {
        names_type(module, clause.class)
    } else {
        true
    }
}

fn name_caught(module: &Module, clauses: &[Clause]) -> bool
    ensures { result ≡ spec.name_caught «module».now clauses.now }
{
    for clause in clauses {
        if !names_caught(module, clause) {
            return false;
        }
    }
    true
}

fn count_bodies(methods: &[MethodDefRow]) -> usize
    ensures count { result ≡ count_by has_rva methods.now }
    ensures within { result ≤ length methods.now }
{
    methods.iter().filter(|method| method.rva != 0).count()
}

// The row before which a row stands, from 0; row 0 counts as row 1.
fn place_of(row: u32) -> usize
    ensures { result ≡ row - 1 }
{
    if row == 0 { 0 } else { row as usize - 1 }
}

// Its body, where it says that it has one, and so many methods before it have one.
fn own_body<'a>(module: &'a Module, method: &MethodDefRow, before: usize) -> Option<&'a Body>
    ensures { option_copied result ≡ spec.body_at «module».now (body_place (Some method.now) before (length «module».now.bodies)) }
{
    if method.rva == 0 {
        return None;
    }
    module.bodies.get(before)
}

/// The body of the method of a row.
pub fn body_at(module: &Module, row: u32) -> Option<&Body>
    ensures { option_copied result ≡ spec.body_at «module».now (body_of «module».now row) }
{
    match module.methods.get(place_of(row)) {
        None => None,
        Some(method) => {
            let before = count_bodies(rows_before(module.methods.as_slice(), row));
            own_body(module, method, before)
        }
    }
}

fn body_names(module: &Module, body: Option<&Body>) -> bool
    ensures { result ≡ spec.body_names «module».now (option_copied body.entry) }
{
    match body {
        None => true,
        Some(body) => {
            names_locals(module, body.locals) && name_caught(module, body.clauses.as_slice())
        }
    }
}

fn has_parameters(module: &Module, row: Option<&MethodDefRow>) -> bool
    ensures { result ≡ spec.row_has (spec.has_parameters «module».now) (option_copied row.entry) }
{
    match row {
        None => true,
        Some(row) => is_list_start(row.parameters.0, module.params.len()),
    }
}

fn names_all(module: &Module, readings: &Readings, row: u32) -> bool
    ensures { result ≡ spec.names_all «module».now readings.now row }
{
    type_def(module, 1).is_some()
        && (has_parameters(module, method(module, row))
            && (reads_no_void(method_reading(readings, row))
                && body_names(module, body_at(module, row))))
}

fn class_at(row: Option<&TypeRefRow>) -> Option<ClassId>
    ensures { result ≡ spec.class_at (option_copied row.entry) }
{
    match row {
        None => None,
        Some(row) => class_named(row.namespace.as_slice(), row.name.as_slice()),
    }
}

fn class_of_parent(module: &Module, parent: MemberRefParent) -> Option<ClassId>
    ensures { result ≡ spec.class_of_parent «module».now parent }
{
    match parent {
        MemberRefParent::TypeRef(row) => class_at(type_ref(module, row)),
        MemberRefParent::TypeDef(_) => None,
        MemberRefParent::TypeSpec(_) => None,
    }
}

fn is_member(class: Option<ClassId>, name: &[u8], signature: &Signature) -> bool
    ensures { result ≡ spec.is_member class name.now signature.now }
{
    match class {
        None => false,
        Some(class) => is_library_member(class, name, signature),
    }
}

fn is_member_row(module: &Module, reading: Option<&Option<Signature>>, row: &MemberRefRow) -> bool
    ensures { result ≡ spec.is_member_row «module».now (option_copied reading.entry) row.now }
{
    match reading {
        None => true,
        Some(None) => true,
        Some(Some(signature)) => {
            let class = class_of_parent(module, row.class);
            is_member(class, row.name.as_slice(), signature)
        }
    }
}

fn names_member(module: &Module, readings: &Readings, row: u32) -> bool
    ensures { result ≡ spec.names_member «module».now readings.now row }
{
    match member_ref(module, row) {
        None => true,
        Some(reference) => is_member_row(module, reference_reading(readings, row), reference),
    }
}

fn holds_no_void(readings: &Readings, row: u32) -> bool
    ensures { result ≡ spec.holds_no_void readings.now row }
{
    reads_no_void(locals_reading(readings, row))
}

// ---- rule 11

fn is_i4(element: Element) -> bool
    ensures { result ≡ spec.is_i4 element }
{
    match element {
        Element::I4 => true,
        _ => false,
    }
}

fn is_int(elements: &[Element]) -> bool
    ensures { result ≡ spec.is_int elements.now }
{
    match only(elements) {
        None => false,
        Some(element) => is_i4(element),
    }
}

fn takes_texts(types: &[TypeSignature]) -> bool
    ensures { result ≡ spec.takes_texts types.now }
{
    if types.len() == 1 {
        is_text_array(types[0].elements.as_slice())
    } else {
        false
    }
}

fn is_entry(signature: &Signature) -> bool
    ensures { result ≡ spec.is_entry signature.now }
{
    match signature {
        Signature::Method {
            result,
            parameters,
            ..
        } => is_int(result.elements.as_slice()) && takes_texts(parameters.as_slice()),
        Signature::Field(_) => false,
        Signature::Locals(_) => false,
        Signature::Property { .. } => false,
        Signature::Instantiation(_) => false,
        Signature::Plain(_) => false,
    }
}

fn is_entry_row(readings: &Readings, row: u32) -> bool
    ensures { result ≡ spec.is_read spec.is_entry (at_row readings.now.methods row) }
{
    match method_reading(readings, row) {
        None => false,
        Some(None) => false,
        Some(Some(signature)) => is_entry(signature),
    }
}

fn names_entry(module: &Module, readings: &Readings) -> bool
    ensures { result ≡ spec.names_entry «module».now readings.now }
{
    table_of(module.entry) == 0x06 && is_entry_row(readings, row_of(module.entry))
}

// ---- rule 12

fn is_no_constructor(row: Option<&MethodDefRow>) -> bool
    ensures { result ≡ spec.row_has spec.is_no_constructor (option_copied row.entry) }
{
    match row {
        None => true,
        Some(row) => {
            let flags = u32::from(row.flags);
            !(has_bit(0x800, flags) && has_bit(0x1000, flags))
        }
    }
}

fn has_body(module: &Module, row: u32) -> bool
    ensures { result ≡ spec.has_body «module».now row }
{
    body_at(module, row).is_some() && is_no_constructor(method(module, row))
}

// ---- the checks, row by row

fn keeps(module: &Module, readings: &Readings, check: Check, row: u32) -> bool
    ensures { result ≡ spec.keeps «module».now readings.now check row }
{
    match check {
        Check::FirstType => row == 1,
        Check::NoRow => false,
        Check::MethodTypes => builds_method(readings, row),
        Check::ReferenceTypes => builds_reference(module, readings, row),
        Check::LocalTypes => builds_locals(readings, row),
        Check::NoBase => extends_none(module, row),
        Check::NewMethod => is_new(module, row),
        Check::TypeFlags => has_type_flags(module, row),
        Check::StaticMethod => is_static(module, readings, row),
        Check::ReferenceKind => is_reference_row(readings, row),
        Check::LocalsKind => is_locals_row(readings, row),
        Check::LibraryClass => names_class(module, row),
        Check::ListStarts => begins_lists(module, row),
        Check::MethodNames => names_all(module, readings, row),
        Check::LibraryMember => names_member(module, readings, row),
        Check::LocalsWithoutVoid => holds_no_void(readings, row),
        Check::MethodBody => has_body(module, row),
    }
}

// The first of so many rows that a check refuses.
fn first_bad(module: &Module, readings: &Readings, check: Check, count: u32) -> Option<u32>
    ensures { result ≡ spec.first_bad (spec.keeps «module».now readings.now check) count }
{
    for before in 0..count {
        if !keeps(module, readings, check, before + 1) {
            return Some(before + 1);
        }
    }
    None
}

// The number of a rule that rows of a table break, and the first that does.
fn broken_rule(
    module: &Module,
    readings: &Readings,
    rule: &ClassRule,
) -> Result<Option<(u8, u32)>, AllocError>
    ensures { IfOk result (λ found. found ≡ spec.broken_rule «module».now readings.now rule.now) }
{
    let count = short(module.row_count(rule.table))?;
    match first_bad(module, readings, rule.check, count) {
        None => Ok(None),
        Some(row) => Ok(Some((rule.rule, row))),
    }
}

// The first of some rules that is broken.
fn first_broken(
    module: &Module,
    readings: &Readings,
    rules: &[ClassRule],
) -> Result<Option<(u8, u32)>, AllocError>
    ensures { IfOk result (λ found. found ≡ spec.first_broken «module».now readings.now rules.now) }
{
    for rule in rules {
        match broken_rule(module, readings, rule)? {
            None => {}
            Some(at) => return Ok(Some(at)),
        }
    }
    Ok(None)
}

/// The first rule on rows that a module breaks: its number, and the row that breaks it.
pub fn first_class_fault(
    module: &Module,
    readings: &Readings,
) -> Result<Option<(u8, u32)>, AllocError>
    ensures { IfOk result (λ found. found ≡ spec.first_class_fault «module».now readings.now) }
{
    let rows = first_broken(module, readings, &ROW_RULES)?;
    match rows {
        None => {}
        Some(at) => return Ok(Some(at)),
    }
    if !names_entry(module, readings) {
        return Ok(Some((11, row_of(module.entry))));
    }
    let found = first_broken(module, readings, &BODY_RULES)?;
    Ok(found)
}
