// The metadata tables and the indexes into several of them (ECMA-335, II.22 and II.24.2.6).

/// A table of the metadata (ECMA-335, II.22).
#[derive(Clone, Copy, Debug, PartialEq, Eq)]
pub enum Table {
    /// 00 (II.22.30).
    Module,
    /// 01 (II.22.38).
    TypeRef,
    /// 02 (II.22.37).
    TypeDef,
    /// 04 (II.22.15).
    Field,
    /// 06 (II.22.26).
    MethodDef,
    /// 08 (II.22.33).
    Param,
    /// 09 (II.22.23).
    InterfaceImpl,
    /// 0A (II.22.25).
    MemberRef,
    /// 0B (II.22.9).
    Constant,
    /// 11 (II.22.36).
    StandAloneSig,
    /// 15 (II.22.35).
    PropertyMap,
    /// 17 (II.22.34).
    Property,
    /// 18 (II.22.28).
    MethodSemantics,
    /// 19 (II.22.27).
    MethodImpl,
    /// 1B (II.22.39).
    TypeSpec,
    /// 20 (II.22.2).
    Assembly,
    /// 23 (II.22.5).
    AssemblyRef,
    /// 2A (II.22.20).
    GenericParam,
    /// 2B (II.22.29).
    MethodSpec,
    /// 2C (II.22.21).
    GenericParamConstraint,
}

/// A kind of coded index: a row of one of several tables, with a tag of the table in the lowest bits (ECMA-335,
/// II.24.2.6).
#[derive(Clone, Copy, Debug, PartialEq, Eq)]
pub enum CodedIndex {
    TypeDefOrRef,
    HasConstant,
    MemberRefParent,
    HasSemantics,
    MethodDefOrRef,
    ResolutionScope,
    TypeOrMethodDef,
}

/// What stands in a column of a table (ECMA-335, II.22 and II.24.2.6).
#[derive(Clone, Copy, Debug, PartialEq, Eq)]
pub enum Column {
    /// A number of one byte.
    U1,
    /// A number of two bytes.
    U2,
    /// A number of four bytes.
    U4,
    /// An index into `#Strings`.
    Name,
    /// An index into `#GUID`.
    Guid,
    /// An index into `#Blob`.
    Blob,
    /// A row of a table.
    Row(Table),
    /// A row of one of several tables.
    Coded(CodedIndex),
}
