// The rows of the metadata tables (ECMA-335, II.22). Columns that hold one value in every row are no fields.
use crate::element::TypeDefOrRef;
use crate::index::{
    FieldIndex, GenericParamIndex, HasConstant, HasSemantics, MemberRefParent, MethodDefIndex,
    MethodDefOrRef, ParamIndex, PropertyIndex, ResolutionScope, TypeDefIndex, TypeOrMethodDef,
};
use cc_base::{List, Name};

/// The bytes of a blob (ECMA-335, II.24.2.4).
pub type Blob = List<u8>;

/// A row of Module (II.22.30). Its generation and the two indexes of edits are 0, and its Mvid is the one GUID.
#[derive(Debug, Drop)]
pub struct ModuleRow {
    pub name: Name,
}

/// A row of TypeRef (II.22.38).
#[derive(Debug, Drop)]
pub struct TypeRefRow {
    pub scope: ResolutionScope,
    pub name: Name,
    pub namespace: Name,
}

/// A row of TypeDef (II.22.37).
#[derive(Debug, Drop)]
pub struct TypeDefRow {
    /// II.23.1.15.
    pub flags: u32,
    pub name: Name,
    pub namespace: Name,
    /// The base class; row 0 of TypeDef where there is none.
    pub extends: TypeDefOrRef,
    /// The first of its fields.
    pub fields: FieldIndex,
    /// The first of its methods.
    pub methods: MethodDefIndex,
}

/// A row of Field (II.22.15).
#[derive(Debug, Drop)]
pub struct FieldRow {
    /// II.23.1.5.
    pub flags: u16,
    pub name: Name,
    pub signature: Blob,
}

/// A row of MethodDef (II.22.26). Its ImplFlags are 0.
#[derive(Debug, Drop)]
pub struct MethodDefRow {
    /// The place of the body in the loaded file, 0 where there is none.
    pub rva: u32,
    /// II.23.1.10.
    pub flags: u16,
    pub name: Name,
    pub signature: Blob,
    /// The first of its parameters.
    pub parameters: ParamIndex,
}

/// A row of Param (II.22.33). Its Flags are 0.
#[derive(Debug, Drop)]
pub struct ParamRow {
    pub sequence: u16,
    pub name: Name,
}

/// A row of InterfaceImpl (II.22.23).
#[derive(Debug, Drop)]
pub struct InterfaceImplRow {
    pub class: TypeDefIndex,
    pub interface: TypeDefOrRef,
}

/// A row of MemberRef (II.22.25).
#[derive(Debug, Drop)]
pub struct MemberRefRow {
    pub class: MemberRefParent,
    pub name: Name,
    pub signature: Blob,
}

/// A row of Constant (II.22.9).
#[derive(Debug, Drop)]
pub struct ConstantRow {
    /// The element type of the value (II.23.1.16).
    pub element_type: u8,
    pub parent: HasConstant,
    pub value: Blob,
}

/// A row of StandAloneSig (II.22.36).
#[derive(Debug, Drop)]
pub struct StandAloneSigRow {
    pub signature: Blob,
}

/// A row of PropertyMap (II.22.35).
#[derive(Debug, Drop)]
pub struct PropertyMapRow {
    pub parent: TypeDefIndex,
    /// The first of its properties.
    pub properties: PropertyIndex,
}

/// A row of Property (II.22.34). Its Flags are 0.
#[derive(Debug, Drop)]
pub struct PropertyRow {
    pub name: Name,
    pub signature: Blob,
}

/// What an accessor does with its property (II.23.1.12).
#[derive(Clone, Copy, Debug, PartialEq, Eq)]
pub enum AccessorKind {
    /// 1.
    Setter,
    /// 2.
    Getter,
}

/// A row of MethodSemantics (II.22.28).
#[derive(Debug, Drop)]
pub struct MethodSemanticsRow {
    pub kind: AccessorKind,
    pub method: MethodDefIndex,
    pub association: HasSemantics,
}

/// A row of MethodImpl (II.22.27).
#[derive(Debug, Drop)]
pub struct MethodImplRow {
    pub class: TypeDefIndex,
    pub body: MethodDefOrRef,
    pub declaration: MethodDefOrRef,
}

/// A row of TypeSpec (II.22.39).
#[derive(Debug, Drop)]
pub struct TypeSpecRow {
    pub signature: Blob,
}

/// The version of an assembly (II.22.2).
#[derive(Clone, Copy, Debug, PartialEq, Eq)]
pub struct Version {
    pub major: u16,
    pub minor: u16,
    pub build: u16,
    pub revision: u16,
}

/// A row of Assembly (II.22.2). Its HashAlgId is SHA1; it has no flags, no public key and no culture.
#[derive(Debug, Drop)]
pub struct AssemblyRow {
    pub version: Version,
    pub name: Name,
}

/// A row of AssemblyRef (II.22.5). It has no flags, no culture and no hash value.
#[derive(Debug, Drop)]
pub struct AssemblyRefRow {
    pub version: Version,
    /// The last eight bytes of the hash of its public key.
    pub token: Blob,
    pub name: Name,
}

/// A row of GenericParam (II.22.20).
#[derive(Debug, Drop)]
pub struct GenericParamRow {
    /// Its place among the owner's type parameters, from 0.
    pub number: u16,
    /// II.23.1.7.
    pub flags: u16,
    pub owner: TypeOrMethodDef,
    pub name: Name,
}

/// A row of MethodSpec (II.22.29).
#[derive(Debug, Drop)]
pub struct MethodSpecRow {
    pub method: MethodDefOrRef,
    pub instantiation: Blob,
}

/// A row of GenericParamConstraint (II.22.21).
#[derive(Debug, Drop)]
pub struct GenericParamConstraintRow {
    pub owner: GenericParamIndex,
    pub constraint: TypeDefOrRef,
}
