// Indexes that columns of the tables hold: rows, counted from 1; 0 names none (ECMA-335, II.22 and II.24.2.6).
ghost use Rattle.std.specs.Prelude.{◌≡◌};
ghost use Rattle.cc_module.specs.Indexes.{type_code, constant_code, member_parent_code, semantics_code, method_code, scope_code, generic_owner_code};

use crate::element::TypeDefOrRef;

/// A row of the table TypeDef.
#[derive(Clone, Copy, Debug, PartialEq, Eq)]
pub struct TypeDefIndex(pub u32);

/// A row of the table Field.
#[derive(Clone, Copy, Debug, PartialEq, Eq)]
pub struct FieldIndex(pub u32);

/// A row of the table MethodDef.
#[derive(Clone, Copy, Debug, PartialEq, Eq)]
pub struct MethodDefIndex(pub u32);

/// A row of the table Param.
#[derive(Clone, Copy, Debug, PartialEq, Eq)]
pub struct ParamIndex(pub u32);

/// A row of the table Property.
#[derive(Clone, Copy, Debug, PartialEq, Eq)]
pub struct PropertyIndex(pub u32);

/// A row of the table GenericParam.
#[derive(Clone, Copy, Debug, PartialEq, Eq)]
pub struct GenericParamIndex(pub u32);

/// What a constant belongs to (II.22.9).
#[derive(Clone, Copy, Debug, PartialEq, Eq)]
pub enum HasConstant {
    Field(u32),
}

/// The type that has a referenced member (II.22.25).
#[derive(Clone, Copy, Debug, PartialEq, Eq)]
pub enum MemberRefParent {
    TypeDef(u32),
    TypeRef(u32),
    TypeSpec(u32),
}

/// What an accessor belongs to (II.22.28).
#[derive(Clone, Copy, Debug, PartialEq, Eq)]
pub enum HasSemantics {
    Property(u32),
}

/// A method, defined here or referenced (II.22.27 and II.22.29).
#[derive(Clone, Copy, Debug, PartialEq, Eq)]
pub enum MethodDefOrRef {
    MethodDef(u32),
    MemberRef(u32),
}

/// Where a referenced type stands (II.22.38).
#[derive(Clone, Copy, Debug, PartialEq, Eq)]
pub enum ResolutionScope {
    AssemblyRef(u32),
}

/// What a type parameter belongs to (II.22.20).
#[derive(Clone, Copy, Debug, PartialEq, Eq)]
pub enum TypeOrMethodDef {
    TypeDef(u32),
    MethodDef(u32),
}

impl TypeDefOrRef {
    /// The row with the tag of its table in the two lowest bits (II.24.2.6), as a column holds it.
    pub fn code(&self) -> u64
        ensures { result ≡ type_code self.now }
    {
        match *self {
            TypeDefOrRef::TypeDef(row) => row as u64 * 4,
            TypeDefOrRef::TypeRef(row) => row as u64 * 4 + 1,
            TypeDefOrRef::TypeSpec(row) => row as u64 * 4 + 2,
        }
    }
}

impl HasConstant {
    /// The row with the tag of its table in the two lowest bits (II.24.2.6).
    pub fn code(&self) -> u64
        ensures { result ≡ constant_code self.now }
    {
        match *self {
            HasConstant::Field(row) => row as u64 * 4,
        }
    }
}

impl MemberRefParent {
    /// The row with the tag of its table in the three lowest bits (II.24.2.6).
    pub fn code(&self) -> u64
        ensures { result ≡ member_parent_code self.now }
    {
        match *self {
            MemberRefParent::TypeDef(row) => row as u64 * 8,
            MemberRefParent::TypeRef(row) => row as u64 * 8 + 1,
            MemberRefParent::TypeSpec(row) => row as u64 * 8 + 4,
        }
    }
}

impl HasSemantics {
    /// The row with the tag of its table in the lowest bit (II.24.2.6).
    pub fn code(&self) -> u64
        ensures { result ≡ semantics_code self.now }
    {
        match *self {
            HasSemantics::Property(row) => row as u64 * 2 + 1,
        }
    }
}

impl MethodDefOrRef {
    /// The row with the tag of its table in the lowest bit (II.24.2.6).
    pub fn code(&self) -> u64
        ensures { result ≡ method_code self.now }
    {
        match *self {
            MethodDefOrRef::MethodDef(row) => row as u64 * 2,
            MethodDefOrRef::MemberRef(row) => row as u64 * 2 + 1,
        }
    }
}

impl ResolutionScope {
    /// The row with the tag of its table in the two lowest bits (II.24.2.6).
    pub fn code(&self) -> u64
        ensures { result ≡ scope_code self.now }
    {
        match *self {
            ResolutionScope::AssemblyRef(row) => row as u64 * 4 + 2,
        }
    }
}

impl TypeOrMethodDef {
    /// The row with the tag of its table in the lowest bit (II.24.2.6).
    pub fn code(&self) -> u64
        ensures { result ≡ generic_owner_code self.now }
    {
        match *self {
            TypeOrMethodDef::TypeDef(row) => row as u64 * 2,
            TypeOrMethodDef::MethodDef(row) => row as u64 * 2 + 1,
        }
    }
}
