// The scopes and the declarations of classes, enums and functions (ECMA-372, 18, 19, 20 to 25).
ghost use Rattle.std.specs.Prelude.{◌≡◌, ℕ, length, List, [], ◌∷◌, ◌++◌, Some, None, map, codes, OnOk, IfOk};
ghost use Rattle.cc_names.specs.Parts.{added, in_order};
ghost use Rattle.cc_names.specs.Members as spec;
ghost use Rattle.cc_names.specs.Spelling as spelled;
ghost use Rattle.cc_names.specs.Statements.{optional, body_declares};

use crate::scope::{Declared, ItemKind, ScopeKind};
use crate::spelling::{signature, spell_next, spelling};
use crate::statements::collect_block;
use cc_base::{List, Name, Span};
use cc_tree::{
    Accessor, AccessorWord, Base, Block, Class, Enumeration, Enumerator, Function, Identifier,
    Member, Parameters, PropertyName, TypeName,
};
use std::alloc::{AllocError, Global};

/// Adds the parameters of a function that have names.
#[tactic(auto, using(crate::proofs::Adding::adding))]
fn collect_parameters(
    declared: &mut Declared,
    alloc: Global,
    parameters: &Parameters,
    around: u32,
) -> Result<(), AllocError>
    ensures { OnOk result (declared.new ≡ added (spec.parameters_declare parameters.now) around declared.old) }
{
    for parameter in parameters.items.as_slice() {
        collect_parameter(declared, alloc, &parameter.name, around)?;
    }
    Ok(())
}

/// Adds a parameter where it has a name.
#[tactic(auto, using(crate::proofs::Adding::adding))]
fn collect_parameter(
    declared: &mut Declared,
    alloc: Global,
    name: &Option<Identifier>,
    around: u32,
) -> Result<(), AllocError>
    ensures { OnOk result (declared.new ≡ added (spec.named_parameter name.now) around declared.old) }
{
    match name {
        None => Ok(()),
        Some(name) => declared.declare(
            alloc,
            ItemKind::Parameter,
            name.name.as_slice(),
            name.span,
            around,
        ),
    }
}

/// Adds the body of a function where it has one.
#[tactic(auto, using(crate::proofs::Adding::adding))]
fn collect_body(
    declared: &mut Declared,
    alloc: Global,
    body: &Option<Block>,
    around: u32,
) -> Result<(), AllocError>
    ensures { OnOk result (declared.new ≡ added (optional body_declares body.now) around declared.old) }
{
    match body {
        None => Ok(()),
        Some(body) => collect_block(declared, alloc, body, around),
    }
}

/// Adds a function, its scope and its parameters; gives the scope's number.
#[tactic(auto, using(crate::proofs::Adding::adding))]
fn open_function(
    declared: &mut Declared,
    alloc: Global,
    name: &[u8],
    place: Span,
    span: Span,
    parameters: &Parameters,
    around: u32,
) -> Result<u32, AllocError>
    ensures number { IfOk result (λ number. number ≡ length declared.old.scopes) }
    ensures added { OnOk result (declared.new ≡ added (spec.parameters_declare parameters.now) (length declared.old.scopes) (spec.with_function name.now place (spelled.signature parameters.now) span around declared.old)) }
{
    let types = signature(alloc, parameters)?;
    let scope = open_part(declared, alloc, name, place, types, span, around)?;
    collect_parameters(declared, alloc, parameters, scope)?;
    Ok(scope)
}

/// Adds a function and its scope; gives the scope's number.
#[tactic(auto, using(crate::proofs::Adding::adding))]
fn open_part(
    declared: &mut Declared,
    alloc: Global,
    name: &[u8],
    place: Span,
    types: Name,
    span: Span,
    around: u32,
) -> Result<u32, AllocError>
    ensures number { IfOk result (λ number. number ≡ length declared.old.scopes) }
    ensures added { OnOk result (declared.new ≡ spec.with_function name.now place types span around declared.old) }
{
    declared.declare(alloc, ItemKind::Function(types), name, place, around)?;
    declared.open(ScopeKind::Parameters, around, span)
}

/// Adds a destructor or a finaliser, with its scope and its body.
#[tactic(auto, using(crate::proofs::Adding::adding))]
fn collect_cleanup(
    declared: &mut Declared,
    alloc: Global,
    name: &[u8],
    span: Span,
    body: &Block,
    around: u32,
) -> Result<(), AllocError>
    ensures { OnOk result (declared.new ≡ added (spec.function_part name.now span [] span (body_declares body.now)) around declared.old) }
{
    let scope = open_part(declared, alloc, name, span, List::new(alloc), span, around)?;
    collect_block(declared, alloc, body, scope)
}

/// The name that a property has in its class.
fn property_word(name: &PropertyName) -> &[u8]
    ensures { result.now ≡ spec.property_word name.now }
{
    match name {
        PropertyName::Named(name) => name.name.as_slice(),
        PropertyName::Indexed(_, _) => b"Item",
    }
}

/// The place of a property's name.
fn property_place(name: &PropertyName) -> Span
    ensures { result ≡ spec.property_place name.now }
{
    match name {
        PropertyName::Named(name) => name.span,
        PropertyName::Indexed(span, _) => *span,
    }
}

/// The spelling of the type of a property's index, with a comma after it, where it has an index.
fn index_signature(alloc: Global, name: &PropertyName) -> Result<Vec<u8>, AllocError>
    ensures { IfOk result (λ text. text.items ≡ spec.index_signature name.now) }
{
    let mut text = Vec::new(alloc);
    match name {
        PropertyName::Named(_) => Ok(text),
        PropertyName::Indexed(_, of) => {
            spell_next(&mut text, of)?;
            Ok(text)
        }
    }
}

/// The spellings of the types of the parameters of a property's setter.
fn setter_signature(alloc: Global, name: &PropertyName, of: &TypeName) -> Result<Name, AllocError>
    ensures { IfOk result (λ text. text ≡ spec.index_signature name.now ++ spelled.with_commas (spelled.spelling of.now ∷ [])) }
{
    let mut text = index_signature(alloc, name)?;
    spell_next(&mut text, of)?;
    Ok(List::from_vec(text))
}

/// The name of an accessor.
fn accessor_name(alloc: Global, word: AccessorWord, property: &[u8]) -> Result<Vec<u8>, AllocError>
    ensures { IfOk result (λ name. name.items ≡ spec.accessor_prefix word ++ property.now) }
{
    let prefix: &[u8] = match word {
        AccessorWord::Get => b"get_",
        AccessorWord::Set => b"set_",
    };
    let mut name = Vec::from_slice(alloc, prefix)?;
    name.extend_from_slice(property)?;
    Ok(name)
}

/// Adds both accessors of a property that writes none.
#[tactic(auto, using(crate::proofs::Adding::adding))]
fn collect_trivial_accessors(
    declared: &mut Declared,
    alloc: Global,
    of: &TypeName,
    name: &PropertyName,
    around: u32,
) -> Result<(), AllocError>
    ensures { OnOk result (declared.new ≡ added (spec.accessors_declare of.now name.now []) around declared.old) }
{
    let place = property_place(name);
    let getter = accessor_name(alloc, AccessorWord::Get, property_word(name))?;
    let types = List::from_vec(index_signature(alloc, name)?);
    declared.declare(alloc, ItemKind::Function(types), &getter, place, around)?;
    let setter = accessor_name(alloc, AccessorWord::Set, property_word(name))?;
    let types = setter_signature(alloc, name, of)?;
    declared.declare(alloc, ItemKind::Function(types), &setter, place, around)
}

/// Adds an accessor of a property.
#[tactic(auto, using(crate::proofs::Adding::adding))]
fn collect_accessor(
    declared: &mut Declared,
    alloc: Global,
    property: &[u8],
    accessor: &Accessor,
    around: u32,
) -> Result<(), AllocError>
    ensures { OnOk result (declared.new ≡ added (spec.accessor_declares property.now accessor.now) around declared.old) }
{
    let name = accessor_name(alloc, accessor.word, property)?;
    let place = accessor.word_span;
    let parameters = &accessor.parameters;
    let scope = open_function(
        declared,
        alloc,
        &name,
        place,
        accessor.span,
        parameters,
        around,
    )?;
    collect_body(declared, alloc, &accessor.body, scope)
}

/// Adds accessors of a property.
#[tactic(auto, using(crate::proofs::Adding::adding))]
fn collect_accessors(
    declared: &mut Declared,
    alloc: Global,
    property: &[u8],
    accessors: &[Accessor],
    around: u32,
) -> Result<(), AllocError>
    ensures { OnOk result (declared.new ≡ added (in_order (map (spec.accessor_declares property.now) accessors.now)) around declared.old) }
{
    for accessor in accessors {
        collect_accessor(declared, alloc, property, accessor, around)?;
    }
    Ok(())
}

/// Adds a property with its accessors.
#[tactic(auto, using(crate::proofs::Adding::adding))]
fn collect_property(
    declared: &mut Declared,
    alloc: Global,
    of: &TypeName,
    name: &PropertyName,
    accessors: &[Accessor],
    around: u32,
) -> Result<(), AllocError>
    ensures { OnOk result (declared.new ≡ added (spec.property_declares of.now name.now accessors.now) around declared.old) }
{
    let word = property_word(name);
    declared.declare(
        alloc,
        ItemKind::Property,
        word,
        property_place(name),
        around,
    )?;
    match accessors {
        [] => collect_trivial_accessors(declared, alloc, of, name, around),
        [_, ..] => collect_accessors(declared, alloc, word, accessors, around),
    }
}

/// Adds fields.
#[tactic(auto, using(crate::proofs::Adding::adding))]
fn collect_fields(
    declared: &mut Declared,
    alloc: Global,
    names: &[Identifier],
    around: u32,
) -> Result<(), AllocError>
    ensures { OnOk result (declared.new ≡ added (in_order (map spec.field_declares names.now)) around declared.old) }
{
    for name in names {
        declared.declare(
            alloc,
            ItemKind::Field,
            name.name.as_slice(),
            name.span,
            around,
        )?;
    }
    Ok(())
}

/// Adds a member of a class.
#[tactic(auto, using(crate::proofs::Adding::adding))]
fn collect_member(
    declared: &mut Declared,
    alloc: Global,
    member: &Member,
    around: u32,
) -> Result<(), AllocError>
    ensures { OnOk result (declared.new ≡ added (spec.member_declares member.now) around declared.old) }
{
    match member {
        Member::Access(_, _) => Ok(()),
        Member::Fields(_, _, names, _) => collect_fields(declared, alloc, names.as_slice(), around),
        Member::Function(_, _, name, parameters, _, _, body, span) => {
            let word = name.name.as_slice();
            let scope = open_function(declared, alloc, word, name.span, *span, parameters, around)?;
            collect_body(declared, alloc, body, scope)
        }
        Member::Constructor(_, parameters, _, body, span) => {
            let scope = open_function(declared, alloc, b".ctor", *span, *span, parameters, around)?;
            collect_block(declared, alloc, body, scope)
        }
        Member::Destructor(_, _, body, span) => {
            collect_cleanup(declared, alloc, b"~", *span, body, around)
        }
        Member::Finaliser(_, body, span) => {
            collect_cleanup(declared, alloc, b"!", *span, body, around)
        }
        Member::Property(_, of, name, accessors, _) => {
            collect_property(declared, alloc, of, name, accessors.as_slice(), around)
        }
    }
}

/// Adds members of a class.
#[tactic(auto, using(crate::proofs::Adding::adding))]
fn collect_members(
    declared: &mut Declared,
    alloc: Global,
    members: &[Member],
    around: u32,
) -> Result<(), AllocError>
    ensures { OnOk result (declared.new ≡ added (in_order (map spec.member_declares members.now)) around declared.old) }
{
    for member in members {
        collect_member(declared, alloc, member, around)?;
    }
    Ok(())
}

/// The spellings of the bases of a class.
fn base_spellings(alloc: Global, bases: &[Base]) -> Result<List<Name>, AllocError>
    ensures { IfOk result (λ names. names ≡ spec.base_spellings bases.now) }
{
    let mut names = List::new(alloc);
    for base in bases {
        names.push(spelling(alloc, &base.of)?)?;
    }
    Ok(names)
}

/// Adds a class with its members.
#[tactic(auto, using(crate::proofs::Adding::adding))]
pub(crate) fn collect_class(
    declared: &mut Declared,
    alloc: Global,
    class: &Class,
    around: u32,
) -> Result<(), AllocError>
    ensures { OnOk result (declared.new ≡ added (spec.class_declares class.now) around declared.old) }
{
    let bases = base_spellings(alloc, class.bases.as_slice())?;
    let kind = ItemKind::Class(class.key.word, declared.next_scope()?, bases);
    declared.declare(
        alloc,
        kind,
        class.name.name.as_slice(),
        class.name.span,
        around,
    )?;
    let kind = ScopeKind::Class(List::from_slice(alloc, class.name.name.as_slice())?);
    let scope = declared.open(kind, around, class.span)?;
    collect_members(declared, alloc, class.members.as_slice(), scope)
}

/// Adds the enumerators of an enum.
#[tactic(auto, using(crate::proofs::Adding::adding))]
fn collect_enumerators(
    declared: &mut Declared,
    alloc: Global,
    items: &[Enumerator],
    around: u32,
) -> Result<(), AllocError>
    ensures { OnOk result (declared.new ≡ added (in_order (map spec.enumerator_declares items.now)) around declared.old) }
{
    for one in items {
        let name = &one.name;
        declared.declare(
            alloc,
            ItemKind::Enumerator,
            name.name.as_slice(),
            name.span,
            around,
        )?;
    }
    Ok(())
}

/// Adds an enum with its enumerators.
#[tactic(auto, using(crate::proofs::Adding::adding))]
pub(crate) fn collect_enumeration(
    declared: &mut Declared,
    alloc: Global,
    enumeration: &Enumeration,
    around: u32,
) -> Result<(), AllocError>
    ensures { OnOk result (declared.new ≡ added (spec.enumeration_declares enumeration.now) around declared.old) }
{
    let kind = ItemKind::Enumeration(declared.next_scope()?);
    let name = &enumeration.name;
    declared.declare(alloc, kind, name.name.as_slice(), name.span, around)?;
    let scope = declared.open(ScopeKind::Enumeration, around, enumeration.span)?;
    collect_enumerators(declared, alloc, enumeration.items.as_slice(), scope)
}

/// Adds a function outside classes, where it has a body: a prototype declares nothing.
#[tactic(auto, using(crate::proofs::Adding::adding))]
pub(crate) fn collect_free_function(
    declared: &mut Declared,
    alloc: Global,
    function: &Function,
    around: u32,
) -> Result<(), AllocError>
    ensures { OnOk result (declared.new ≡ added (spec.free_function_declares function.now) around declared.old) }
{
    match &function.body {
        None => Ok(()),
        Some(body) => {
            let word = function.name.name.as_slice();
            let place = function.name.span;
            let parameters = &function.parameters;
            let scope = open_function(
                declared,
                alloc,
                word,
                place,
                function.span,
                parameters,
                around,
            )?;
            collect_block(declared, alloc, body, scope)
        }
    }
}
