// Coded indexes out of the numbers of columns (ECMA-335, II.24.2.6). A tag that no table here has gives some row of the
// first table, whose code is another number.
ghost use Rattle.std.specs.Prelude.{◌≡◌, ◌<◌, ◌^◌};
ghost use Rattle.cc_module.specs.declared.element.TypeDefOrRef as type_index;
ghost use Rattle.cc_module.specs.declared.index.MemberRefParent as parent_index;
ghost use Rattle.cc_module.specs.declared.index.MethodDefOrRef as method_index;
ghost use Rattle.cc_module.specs.declared.index.TypeOrMethodDef as owner_index;
ghost use Rattle.cc_module.specs.declared.index.HasConstant as constant_index;
ghost use Rattle.cc_module.specs.declared.index.HasSemantics as semantics_index;
ghost use Rattle.cc_module.specs.declared.index.ResolutionScope as scope_index;
ghost use Rattle.cc_module.specs.Indexes.{type_code, constant_code, member_parent_code, semantics_code, method_code, scope_code, generic_owner_code};

use cc_module::{
    HasConstant, HasSemantics, MemberRefParent, MethodDefOrRef, ResolutionScope, TypeDefOrRef,
    TypeOrMethodDef,
};

/// A type, whose tag has two bits.
pub(crate) fn type_of(code: u32) -> TypeDefOrRef
    ensures { (x : type_index.TypeDefOrRef) → type_code x ≡ code → result ≡ x }
{
    match code % 4 {
        1 => TypeDefOrRef::TypeRef(code / 4),
        2 => TypeDefOrRef::TypeSpec(code / 4),
        _ => TypeDefOrRef::TypeDef(code / 4),
    }
}

/// The owner of a constant, whose tag has two bits.
pub(crate) fn constant_of(code: u32) -> HasConstant
    ensures { (x : constant_index.HasConstant) → constant_code x ≡ code → result ≡ x }
{
    HasConstant::Field(code / 4)
}

/// The type that has a member, whose tag has three bits.
pub(crate) fn member_parent_of(code: u32) -> MemberRefParent
    ensures { (x : parent_index.MemberRefParent) → member_parent_code x ≡ code → result ≡ x }
{
    match code % 8 {
        1 => MemberRefParent::TypeRef(code / 8),
        4 => MemberRefParent::TypeSpec(code / 8),
        _ => MemberRefParent::TypeDef(code / 8),
    }
}

/// The owner of an accessor, whose tag has one bit.
pub(crate) fn semantics_of(code: u32) -> HasSemantics
    ensures { (x : semantics_index.HasSemantics) → semantics_code x ≡ code → result ≡ x }
{
    HasSemantics::Property(code / 2)
}

/// A method, whose tag has one bit.
pub(crate) fn method_of(code: u32) -> MethodDefOrRef
    ensures { (x : method_index.MethodDefOrRef) → method_code x ≡ code → result ≡ x }
{
    if code % 2 == 1 {
        MethodDefOrRef::MemberRef(code / 2)
    } else {
        MethodDefOrRef::MethodDef(code / 2)
    }
}

/// The scope of a referenced type, whose tag has two bits.
pub(crate) fn scope_of(code: u32) -> ResolutionScope
    ensures { (x : scope_index.ResolutionScope) → scope_code x ≡ code → result ≡ x }
{
    ResolutionScope::AssemblyRef(code / 4)
}

/// The owner of a type parameter, whose tag has one bit.
pub(crate) fn owner_of(code: u32) -> TypeOrMethodDef
    ensures { (x : owner_index.TypeOrMethodDef) → generic_owner_code x ≡ code → result ≡ x }
{
    if code % 2 == 1 {
        TypeOrMethodDef::MethodDef(code / 2)
    } else {
        TypeOrMethodDef::TypeDef(code / 2)
    }
}
