//! Modules of the CLI, row by row, and their signatures, as blobs and out of blobs.
#![tactic(auto)]

mod element;
mod fault;
mod index;
mod laws;
mod module;
mod read;
mod rows;
mod signature;
mod table;
mod write;

pub use element::{Element, TypeDefOrRef};
pub use fault::BlobFault;
pub use index::{
    FieldIndex, GenericParamIndex, HasConstant, HasSemantics, MemberRefParent, MethodDefIndex,
    MethodDefOrRef, ParamIndex, PropertyIndex, ResolutionScope, TypeDefIndex, TypeOrMethodDef,
};
pub use laws::one_signature;
pub use module::{MethodPlace, Module};
pub use read::read_signature;
pub use rows::{
    AccessorKind, AssemblyRefRow, AssemblyRow, Blob, ConstantRow, FieldRow,
    GenericParamConstraintRow, GenericParamRow, InterfaceImplRow, MemberRefRow, MethodDefRow,
    MethodImplRow, MethodSemanticsRow, MethodSpecRow, ModuleRow, ParamRow, PropertyMapRow,
    PropertyRow, StandAloneSigRow, TypeDefRow, TypeRefRow, TypeSpecRow, Version,
};
pub use signature::{Signature, TypeSignature};
pub use table::{CodedIndex, Column, Table};
pub use write::write_signature;
