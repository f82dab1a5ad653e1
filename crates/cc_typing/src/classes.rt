// The classes of a typed program: the library's, and the one that has the functions outside classes (ECMA-372, 12 and 20; ECMA-335, II.10.8).
ghost use Rattle.std.specs.Prelude.{◌≡◌, ◌<◌, ◌^◌, ◌++◌, length, map, option_map, IfOk};
ghost use Rattle.cc_operations.specs.Numbers as numbers;
ghost use Rattle.cc_typing.specs.Library as library;
ghost use Rattle.cc_typing.specs.Told as held;
ghost use Rattle.cc_typing_laws.specs.Functions as functions;
ghost use Rattle.cc_typing_laws.specs.Programs as spec;

use crate::contents::Placed;
use cc_base::{ClassId, List, Name, Span, Text};
use cc_core::{Access, ClassInfo, ClassKind, CoreType, MethodInfo};
use cc_names::{LIBRARY, LibraryForm};
use cc_operations::{core, written};
use cc_tree::{ClassWord, Function};
use std::alloc::{AllocError, Global};

/// A row of the table of the library's types.
type Row = (&'static [u8], LibraryForm, ClassWord, &'static [u8]);

const NOWHERE: Span = Span { first: 0, past: 0 };

/// A text of two pieces of ASCII bytes.
fn text_of(alloc: Global, first: &[u8], second: &[u8]) -> Result<Text, AllocError>
    ensures { IfOk result (λ text. text ≡ first.now ++ second.now) }
{
    let mut text = List::new(alloc);
    for byte in first {
        text.push(u16::from(*byte))?;
    }
    for more in second {
        text.push(u16::from(*more))?;
    }
    Ok(text)
}

/// The number of the first row of a name, if there is one.
fn number_in(rows: &[Row], name: &[u8]) -> Option<ClassId>
    requires { length rows.now < 2 ^ 32 }
    ensures { result ≡ option_map library.class_id (library.number_of 0 name.now (map (λ row. row.0.now) rows.now)) }
{
    for at in 0..rows.len() {
        if rows[at].0 == name {
            return Some(ClassId(at as u32));
        }
    }
    None
}

/// The number of the library's class of a name, if there is one.
fn number_of(name: &[u8]) -> Option<ClassId>
    ensures { result ≡ option_map library.class_id (library.number_of 0 name.now library.names) }
{
    number_in(&LIBRARY, name)
}

fn kind_of(word: ClassWord) -> ClassKind
    ensures { result ≡ library.kind_of word }
{
    match word {
        ClassWord::Ref => ClassKind::Ref,
        ClassWord::Value => ClassKind::Value,
        ClassWord::Interface => ClassKind::Interface,
    }
}

/// A class of the library.
fn library_class(alloc: Global, row: &Row) -> Result<ClassInfo, AllocError>
    ensures { IfOk result (λ made. made ≡ library.class_of row.now.0.now row.now.2 row.now.3.now) }
{
    Ok(ClassInfo {
        name: text_of(alloc, b"System.", row.0)?,
        span: NOWHERE,
        kind: kind_of(row.2),
        base: number_of(row.3),
        interfaces: List::new(alloc),
        is_abstract: false,
        is_sealed: false,
        fields: List::new(alloc),
        methods: List::new(alloc),
    })
}

/// The classes of rows of the library.
fn classes_in(alloc: Global, rows: &[Row]) -> Result<List<ClassInfo>, AllocError>
    ensures { IfOk result (λ classes. classes ≡ map (λ row. library.class_of row.0.now row.2 row.3.now) rows.now) }
{
    let mut classes = List::new(alloc);
    for row in rows {
        classes.push(library_class(alloc, row)?)?;
    }
    Ok(classes)
}

/// The library's classes.
#[tactic(auto, using(crate::proofs::Rows::rows_are_classes))]
fn library_classes(alloc: Global) -> Result<List<ClassInfo>, AllocError>
    ensures { IfOk result (λ classes. classes ≡ spec.library_classes) }
{
    let classes = classes_in(alloc, &LIBRARY)?;
    Ok(classes)
}

/// The types of the parameters of a function, as those of typed terms.
fn parameters_of(alloc: Global, function: &Function) -> Result<List<CoreType>, AllocError>
    ensures { IfOk result (λ types. types ≡ map numbers.core_type (functions.parameter_types function.now)) }
{
    let parameters = function.parameters.items.as_slice();
    let mut types = List::new(alloc);
    for parameter in parameters {
        types.push(core(written(&parameter.of)))?;
    }
    Ok(types)
}

/// The full name of a function: the names of its namespaces, each with a `.` behind it, and its own.
fn full_name(alloc: Global, one: &Placed<'_>) -> Result<Name, AllocError>
    ensures { IfOk result (λ name. name ≡ (held.told one.now).path ++ (held.told one.now).function.name.name) }
{
    let mut name = Vec::from_slice(alloc, one.path.as_slice())?;
    name.extend_from_slice(one.function.name.name.as_slice())?;
    Ok(List::from_vec(name))
}

/// A function outside classes, as a static one of a class.
fn method_of(alloc: Global, one: &Placed<'_>) -> Result<MethodInfo, AllocError>
    ensures { IfOk result (λ made. made ≡ spec.function_info (held.told one.now)) }
{
    Ok(MethodInfo {
        name: full_name(alloc, one)?,
        span: one.function.span,
        parameters: parameters_of(alloc, one.function)?,
        result: core(written(&one.function.result)),
        access: Access::Public,
        is_static: true,
        has_body: true,
        marks: List::new(alloc),
        named: List::new(alloc),
    })
}

/// The functions outside classes.
fn methods_of(alloc: Global, functions: &[Placed<'_>]) -> Result<List<MethodInfo>, AllocError>
    ensures { IfOk result (λ made. made ≡ map spec.function_info (held.told_all functions.now)) }
{
    let mut methods = List::new(alloc);
    for one in functions {
        methods.push(method_of(alloc, one)?)?;
    }
    Ok(methods)
}

/// The class that has the functions outside classes.
fn module_class(alloc: Global, functions: &[Placed<'_>]) -> Result<ClassInfo, AllocError>
    ensures { IfOk result (λ made. made ≡ spec.module_class (held.told_all functions.now)) }
{
    Ok(ClassInfo {
        name: text_of(alloc, b"<Module>", b"")?,
        span: NOWHERE,
        kind: ClassKind::Ref,
        base: None,
        interfaces: List::new(alloc),
        is_abstract: false,
        is_sealed: false,
        fields: List::new(alloc),
        methods: methods_of(alloc, functions)?,
    })
}

/// The classes of a source with these functions.
pub(crate) fn classes_of(
    alloc: Global,
    functions: &[Placed<'_>],
) -> Result<List<ClassInfo>, AllocError>
    ensures { IfOk result (λ classes. classes ≡ spec.classes_with spec.library_classes (held.told_all functions.now)) }
{
    let mut classes = library_classes(alloc)?;
    classes.push(module_class(alloc, functions)?)?;
    Ok(classes)
}
