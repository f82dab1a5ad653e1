// How types are spelled where they are compared (ECMA-372, 12.1 and 12.3).
ghost use Rattle.std.specs.Prelude.{◌≡◌, ℕ, List, [], ◌∷◌, ◌++◌, map, Option, None, Some, OnOk, IfOk, cond};
ghost use Rattle.cc_names.specs.Spelling as spec;

use cc_base::{List, Name};
use cc_tree::{FundamentalType, Parameters, TypeName};
use std::alloc::{AllocError, Global};

/// The first name of a fundamental type.
fn fundamental_spelling(of: FundamentalType) -> &'static [u8]
    ensures { result.now ≡ spec.fundamental_spelling of }
{
    match of {
        FundamentalType::Void => b"void",
        FundamentalType::Bool => b"bool",
        FundamentalType::WideChar => b"wchar_t",
        FundamentalType::SignedChar => b"signed char",
        FundamentalType::UnsignedChar => b"unsigned char",
        FundamentalType::Short => b"short",
        FundamentalType::UnsignedShort => b"unsigned short",
        FundamentalType::Int => b"int",
        FundamentalType::UnsignedInt => b"unsigned int",
        FundamentalType::LongLong => b"long long",
        FundamentalType::UnsignedLongLong => b"unsigned long long",
    }
}

/// The library's names of the fundamental types, each with the type's first name (ECMA-372, 12.1).
pub const LIBRARY_SPELLINGS: [(&[u8], &[u8]); 10] = [
    (b"Boolean", b"bool"),
    (b"Char", b"wchar_t"),
    (b"SByte", b"signed char"),
    (b"Byte", b"unsigned char"),
    (b"Int16", b"short"),
    (b"UInt16", b"unsigned short"),
    (b"Int32", b"int"),
    (b"UInt32", b"unsigned int"),
    (b"Int64", b"long long"),
    (b"UInt64", b"unsigned long long"),
];

/// What stands beside a name in a table, or the name where it is not there.
fn beside<'a>(table: &[(&'a [u8], &'a [u8])], name: &'a [u8]) -> &'a [u8]
    ensures { result.now ≡ spec.first_spelling (map (λ row. (row.0.now, row.1.now)) table.now) name.now }
{
    for row in table {
        if row.0 == name {
            return row.1;
        }
    }
    name
}

/// The first spelling of a type's name: the library's names of the fundamental types mean the same types.
fn first_spelling(name: &[u8]) -> &[u8]
    ensures { result.now ≡ spec.first_spelling spec.library_spellings name.now }
{
    beside(&LIBRARY_SPELLINGS, name)
}

/// Adds the spelling of a type.
#[cycle(spelling)]
#[tactic(auto, using(crate::proofs::Spellings::spellings))]
pub(crate) fn spell(text: &mut Vec<u8>, of: &TypeName) -> Result<(), AllocError>
    ensures { OnOk result (text.new.items ≡ text.old.items ++ spec.spelling of.now) }
{
    match of {
        TypeName::Fundamental(fundamental, _) => {
            text.extend_from_slice(fundamental_spelling(*fundamental))
        }
        TypeName::Named(_, name, arguments, _) => {
            text.extend_from_slice(first_spelling(name.name.as_slice()))?;
            spell_arguments(text, arguments.as_slice())
        }
        TypeName::Marked(core, is_handle, is_tracking, _) => {
            spell(text, core.get())?;
            if *is_handle {
                text.push(b'^')?;
            }
            if *is_tracking {
                text.push(b'%')?;
            }
            Ok(())
        }
    }
}

/// Adds the arguments of a template or of `array`, where there are some.
#[cycle(spelling)]
fn spell_arguments(text: &mut Vec<u8>, arguments: &[TypeName]) -> Result<(), AllocError>
    ensures { OnOk result (text.new.items ≡ text.old.items ++ spec.arguments_spelling (map spec.spelling arguments.now)) }
{
    if arguments.is_empty() {
        return Ok(());
    }
    text.push(b'<')?;
    spell_all(text, arguments)?;
    text.push(b'>')?;
    Ok(())
}

/// Adds the spellings of types, each with a comma after it.
#[cycle(spelling)]
fn spell_all(text: &mut Vec<u8>, types: &[TypeName]) -> Result<(), AllocError>
    ensures { OnOk result (text.new.items ≡ text.old.items ++ spec.with_commas (map spec.spelling types.now)) }
{
    for of in types {
        spell(text, of)?;
        text.push(b',')?;
    }
    Ok(())
}

/// Adds the spelling of a type, and a comma.
pub(crate) fn spell_next(text: &mut Vec<u8>, of: &TypeName) -> Result<(), AllocError>
    ensures { OnOk result (text.new.items ≡ text.old.items ++ spec.with_commas (spec.spelling of.now ∷ [])) }
{
    spell(text, of)?;
    text.push(b',')?;
    Ok(())
}

/// The spelling of a type.
pub(crate) fn spelling(alloc: Global, of: &TypeName) -> Result<Name, AllocError>
    ensures { IfOk result (λ name. name ≡ spec.spelling of.now) }
{
    let mut text = Vec::new(alloc);
    spell(&mut text, of)?;
    Ok(List::from_vec(text))
}

/// Adds the spellings of the types of a function's parameters, each with a comma after it.
pub(crate) fn signature_into(text: &mut Vec<u8>, parameters: &Parameters) -> Result<(), AllocError>
    ensures { OnOk result (text.new.items ≡ text.old.items ++ spec.signature parameters.now) }
{
    for parameter in parameters.items.as_slice() {
        spell(text, &parameter.of)?;
        text.push(b',')?;
    }
    Ok(())
}

/// The spellings of the types of a function's parameters, each with a comma after it.
pub(crate) fn signature(alloc: Global, parameters: &Parameters) -> Result<Name, AllocError>
    ensures { IfOk result (λ name. name ≡ spec.signature parameters.now) }
{
    let mut text = Vec::new(alloc);
    signature_into(&mut text, parameters)?;
    Ok(List::from_vec(text))
}
