// What members are refused for: names that disposal reserves, members that such a class cannot have, and value classes in
// themselves (ECMA-372, 22.1, 24.1 and 34.7).
ghost use Rattle.std.specs.Prelude.{◌≡◌, map, IfOk};
ghost use Rattle.std.specs.List.{list_any};
ghost use Rattle.std.specs.Option.{option_copied};
ghost use Rattle.cc_names.specs.Checks.{run, joined, refused_if};
ghost use Rattle.cc_names.specs.Classes as spec;
ghost use Rattle.cc_names.specs.Spaces.{space};

use crate::find_type::Here;
use crate::refusal::{NameKind, Refusal, refused_if};
use crate::standing::within;
use cc_base::Span;
use cc_tree::{Class, ClassWord, Identifier, Member, PropertyName, Storage, TypeName};
use std::alloc::{AllocError, Global};

/// Whether a name is of one of disposal's own functions.
fn is_reserved(name: &[u8]) -> bool
    ensures { result ≡ spec.is_reserved name.now }
{
    name == b"Dispose".as_slice() || name == b"Finalize".as_slice()
}

fn is_one_reserved(names: &[Identifier]) -> bool
    ensures { result ≡ list_any (λ name. spec.is_reserved name.name) names.now }
{
    for name in names {
        if is_reserved(name.name.as_slice()) {
            return true;
        }
    }
    false
}

fn is_reserved_property(name: &PropertyName) -> bool
    ensures { result ≡ spec.is_reserved_property name.now }
{
    match name {
        PropertyName::Named(name) => is_reserved(name.name.as_slice()),
        PropertyName::Indexed(_, _) => false,
    }
}

fn has_reserved_name(member: &Member) -> bool
    ensures { result ≡ spec.has_reserved_name member.now }
{
    match member {
        Member::Access(_, _) => false,
        Member::Fields(_, _, names, _) => is_one_reserved(names.as_slice()),
        Member::Function(_, _, name, _, _, _, _, _) => is_reserved(name.name.as_slice()),
        Member::Constructor(_, _, _, _, _) => false,
        Member::Destructor(_, _, _, _) => false,
        Member::Finaliser(_, _, _) => false,
        Member::Property(_, _, name, _, _) => is_reserved_property(name),
    }
}

/// Whether an interface cannot have a member.
fn is_foreign_to_interface(member: &Member) -> bool
    ensures { result ≡ spec.is_foreign_to_interface member.now }
{
    match member {
        Member::Access(_, _) => false,
        Member::Fields(_, _, _, _) => true,
        Member::Function(_, _, _, _, _, _, _, _) => false,
        Member::Constructor(_, _, _, _, _) => true,
        Member::Destructor(_, _, _, _) => true,
        Member::Finaliser(_, _, _) => true,
        Member::Property(_, _, _, accessors, _) => match accessors.as_slice() {
            [] => true,
            [_, ..] => false,
        },
    }
}

/// Whether a value class cannot have a member.
fn is_foreign_to_value_class(member: &Member) -> bool
    ensures { result ≡ spec.is_foreign_to_value_class member.now }
{
    match member {
        Member::Access(_, _) => false,
        Member::Fields(_, _, _, _) => false,
        Member::Function(_, _, _, _, _, _, _, _) => false,
        Member::Constructor(_, parameters, _, _, _) => match parameters.items.as_slice() {
            [] => true,
            [_, ..] => false,
        },
        Member::Destructor(_, _, _, _) => true,
        Member::Finaliser(_, _, _) => true,
        Member::Property(_, _, _, _, _) => false,
    }
}

fn is_foreign(word: ClassWord, member: &Member) -> bool
    ensures { result ≡ spec.is_foreign word member.now }
{
    match word {
        ClassWord::Ref => false,
        ClassWord::Value => is_foreign_to_value_class(member),
        ClassWord::Interface => is_foreign_to_interface(member),
    }
}

fn member_span(member: &Member) -> Span
    ensures { result ≡ spec.member_span member.now }
{
    match member {
        Member::Access(_, span) => *span,
        Member::Fields(_, _, _, span) => *span,
        Member::Function(_, _, _, _, _, _, _, span) => *span,
        Member::Constructor(_, _, _, _, span) => *span,
        Member::Destructor(_, _, _, span) => *span,
        Member::Finaliser(_, _, span) => *span,
        Member::Property(_, _, _, _, span) => *span,
    }
}

/// What a member is refused for as to its name and its class.
fn reserved(so_far: Option<Refusal>, word: ClassWord, member: &Member) -> Option<Refusal>
    ensures { result ≡ run (spec.reserved_checks word member.now) so_far }
{
    refused_if(
        so_far,
        has_reserved_name(member) || is_foreign(word, member),
        NameKind::ReservedMember,
        member_span(member),
    )
}

fn is_static(storage: Storage) -> bool
    ensures { result ≡ spec.is_static storage }
{
    match storage {
        Storage::Nothing => false,
        Storage::Static => true,
        Storage::Virtual => false,
    }
}

/// The type of what an object of a class holds by a member.
pub(crate) fn held_type(member: &Member) -> Option<&TypeName>
    ensures { option_copied result ≡ spec.held_type member.now }
{
    match member {
        Member::Access(_, _) => None,
        Member::Fields(is_static, of, _, _) => { if *is_static { None } else { Some(of) } }
        Member::Function(_, _, _, _, _, _, _, _) => None,
        Member::Constructor(_, _, _, _, _) => None,
        Member::Destructor(_, _, _, _) => None,
        Member::Finaliser(_, _, _) => None,
        Member::Property(storage, of, _, accessors, _) => match accessors.as_slice() {
            [] => { if is_static(*storage) { None } else { Some(of) } }
            [_, ..] => None,
        },
    }
}

pub(crate) fn is_value_class(word: ClassWord) -> bool
    ensures { result ≡ spec.is_value_class word }
{
    match word {
        ClassWord::Ref => false,
        ClassWord::Value => true,
        ClassWord::Interface => false,
    }
}

/// The bytes of a written type.
fn type_span(of: &TypeName) -> Span
    ensures { result ≡ spec.type_span of.now }
{
    match of {
        TypeName::Fundamental(_, span) => *span,
        TypeName::Named(_, _, _, span) => *span,
        TypeName::Marked(_, _, _, span) => *span,
    }
}

impl Here<'_> {
    /// What a member of a value class is refused for where the class contains itself by it.
    fn held(
        &self,
        so_far: Option<Refusal>,
        alloc: Global,
        class: &Class,
        of: Option<&TypeName>,
    ) -> Result<Option<Refusal>, AllocError>
        ensures { IfOk result (λ first. first ≡ run (spec.held_checks (space self.now.space.now) self.now.path.now «class».now (option_copied of.entry)) so_far) }
    {
        let of = match of {
            None => return Ok(so_far),
            Some(of) => of,
        };
        let second = self.full_name(alloc, of)?;
        let name = within(alloc, self.path, class.name.name.as_slice())?;
        let contains = self.space.held.leads_from(alloc, &second, name.as_slice())?;
        Ok(refused_if(so_far, contains, NameKind::NotAType, type_span(of)))
    }

    /// What a member is refused for.
    fn class_member(
        &self,
        so_far: Option<Refusal>,
        alloc: Global,
        class: &Class,
        member: &Member,
    ) -> Result<Option<Refusal>, AllocError>
        ensures { IfOk result (λ first. first ≡ run (spec.member_checks (space self.now.space.now) self.now.path.now «class».now member.now) so_far) }
    {
        let first = reserved(so_far, class.key.word, member);
        if is_value_class(class.key.word) {
            self.held(first, alloc, class, held_type(member))
        } else {
            Ok(first)
        }
    }

    /// What the members of a class are refused for.
    pub(crate) fn class_members(
        &self,
        so_far: Option<Refusal>,
        alloc: Global,
        class: &Class,
    ) -> Result<Option<Refusal>, AllocError>
        ensures { IfOk result (λ first. first ≡ run (joined (map (spec.member_checks (space self.now.space.now) self.now.path.now «class».now) «class».now.members)) so_far) }
    {
        let mut first = so_far;
        'members: for member in class.members.as_slice() {
            first = self.class_member(first, alloc, class, member)?;
        }
        Ok(first)
    }
}
