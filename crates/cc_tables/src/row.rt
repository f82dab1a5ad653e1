// The rows of all tables as numbers, column by column (ECMA-335, II.22).
ghost use Rattle.std.specs.Prelude.{◌≡◌, List, OnOk};
ghost use Rattle.std.specs.List.{AllByRecursion, flat_map};
ghost use Rattle.cc_module.specs.Rows as rows_of;
ghost use Rattle.cc_module.specs.Rows.{Cell, semantics_flags, version_cells, early_cells, late_cells, all_cells};
ghost use Rattle.cc_tables.specs.Numbering.{IsNumbering, IsShort, AreShort, Meets};

use crate::numbering::Numbering;
use cc_base::List;
use cc_module::{
    AccessorKind, AssemblyRefRow, AssemblyRow, CodedIndex, ConstantRow, FieldRow,
    GenericParamConstraintRow, GenericParamRow, InterfaceImplRow, MemberRefRow, MethodDefRow,
    MethodImplRow, MethodSemanticsRow, MethodSpecRow, Module, ModuleRow, ParamRow, PropertyMapRow,
    PropertyRow, StandAloneSigRow, Table, TypeDefRow, TypeRefRow, TypeSpecRow, Version,
};
use std::alloc::{AllocError, Global};

/// A row of a table.
pub(crate) trait Row {
    /// What stands in its columns.
    ghost cells: { Self → List Cell };

    /// Meets its columns.
    fn number(&self, alloc: Global, into: &mut Numbering) -> Result<(), AllocError>
        requires whole { IsNumbering into.old }
        requires short { AllByRecursion IsShort (cells self.now) }
        ensures { OnOk result (Meets into.old into.new (cells self.now)) };
}

/// Meets the columns of rows of one table.
pub(crate) fn number_rows<R: Row>(
    alloc: Global,
    rows: &[R],
    into: &mut Numbering,
) -> Result<(), AllocError>
    requires whole { IsNumbering into.old }
    requires short { AllByRecursion IsShort (flat_map R.cells rows.now) }
    ensures { OnOk result (Meets into.old into.new (flat_map R.cells rows.now)) }
{
    for row in rows {
        row.number(alloc, into)?;
    }
    Ok(())
}

fn number_list<R: Row>(
    alloc: Global,
    rows: &List<R>,
    into: &mut Numbering,
) -> Result<(), AllocError>
    requires whole { IsNumbering into.old }
    requires short { AllByRecursion IsShort (flat_map R.cells rows.now) }
    ensures { OnOk result (Meets into.old into.new (flat_map R.cells rows.now)) }
{
    number_rows(alloc, rows.as_slice(), into)?;
    Ok(())
}

// The flags of an accessor (II.23.1.12).
fn semantics_flags(kind: AccessorKind) -> u16
    ensures { result ≡ semantics_flags kind }
{
    match kind {
        AccessorKind::Setter => 1,
        AccessorKind::Getter => 2,
    }
}

fn number_version(version: Version, into: &mut Numbering) -> Result<(), AllocError>
    requires { IsNumbering into.old }
    ensures { OnOk result (Meets into.old into.new (version_cells version)) }
{
    into.u2(version.major)?;
    into.u2(version.minor)?;
    into.u2(version.build)?;
    into.u2(version.revision)?;
    Ok(())
}

impl Row for ModuleRow {
    ghost cells = { rows_of.module_cells };

    fn number(&self, alloc: Global, into: &mut Numbering) -> Result<(), AllocError> {
        into.u2(0)?;
        into.name(alloc, self.name.as_slice())?;
        into.guid(1)?;
        into.guid(0)?;
        into.guid(0)?;
        Ok(())
    }
}

impl Row for TypeRefRow {
    ghost cells = { rows_of.type_ref_cells };

    fn number(&self, alloc: Global, into: &mut Numbering) -> Result<(), AllocError> {
        into.coded(CodedIndex::ResolutionScope, self.scope.code())?;
        into.name(alloc, self.name.as_slice())?;
        into.name(alloc, self.namespace.as_slice())?;
        Ok(())
    }
}

impl Row for TypeDefRow {
    ghost cells = { rows_of.type_def_cells };

    fn number(&self, alloc: Global, into: &mut Numbering) -> Result<(), AllocError> {
        into.u4(self.flags)?;
        into.name(alloc, self.name.as_slice())?;
        into.name(alloc, self.namespace.as_slice())?;
        into.coded(CodedIndex::TypeDefOrRef, self.extends.code())?;
        into.row(Table::Field, self.fields.0)?;
        into.row(Table::MethodDef, self.methods.0)?;
        Ok(())
    }
}

impl Row for FieldRow {
    ghost cells = { rows_of.field_cells };

    fn number(&self, alloc: Global, into: &mut Numbering) -> Result<(), AllocError> {
        into.u2(self.flags)?;
        into.name(alloc, self.name.as_slice())?;
        into.blob(alloc, self.signature.as_slice())?;
        Ok(())
    }
}

impl Row for MethodDefRow {
    ghost cells = { rows_of.method_def_cells };

    fn number(&self, alloc: Global, into: &mut Numbering) -> Result<(), AllocError> {
        into.u4(self.rva)?;
        into.u2(0)?;
        into.u2(self.flags)?;
        into.name(alloc, self.name.as_slice())?;
        into.blob(alloc, self.signature.as_slice())?;
        into.row(Table::Param, self.parameters.0)?;
        Ok(())
    }
}

impl Row for ParamRow {
    ghost cells = { rows_of.param_cells };

    fn number(&self, alloc: Global, into: &mut Numbering) -> Result<(), AllocError> {
        into.u2(0)?;
        into.u2(self.sequence)?;
        into.name(alloc, self.name.as_slice())?;
        Ok(())
    }
}

impl Row for InterfaceImplRow {
    ghost cells = { rows_of.interface_impl_cells };

    fn number(&self, _alloc: Global, into: &mut Numbering) -> Result<(), AllocError> {
        into.row(Table::TypeDef, self.class.0)?;
        into.coded(CodedIndex::TypeDefOrRef, self.interface.code())?;
        Ok(())
    }
}

impl Row for MemberRefRow {
    ghost cells = { rows_of.member_ref_cells };

    fn number(&self, alloc: Global, into: &mut Numbering) -> Result<(), AllocError> {
        into.coded(CodedIndex::MemberRefParent, self.class.code())?;
        into.name(alloc, self.name.as_slice())?;
        into.blob(alloc, self.signature.as_slice())?;
        Ok(())
    }
}

impl Row for ConstantRow {
    ghost cells = { rows_of.constant_cells };

    fn number(&self, alloc: Global, into: &mut Numbering) -> Result<(), AllocError> {
        into.u1(self.element_type)?;
        into.u1(0)?;
        into.coded(CodedIndex::HasConstant, self.parent.code())?;
        into.blob(alloc, self.value.as_slice())?;
        Ok(())
    }
}

impl Row for StandAloneSigRow {
    ghost cells = { rows_of.stand_alone_sig_cells };

    fn number(&self, alloc: Global, into: &mut Numbering) -> Result<(), AllocError> {
        into.blob(alloc, self.signature.as_slice())?;
        Ok(())
    }
}

impl Row for PropertyMapRow {
    ghost cells = { rows_of.property_map_cells };

    fn number(&self, _alloc: Global, into: &mut Numbering) -> Result<(), AllocError> {
        into.row(Table::TypeDef, self.parent.0)?;
        into.row(Table::Property, self.properties.0)?;
        Ok(())
    }
}

impl Row for PropertyRow {
    ghost cells = { rows_of.property_cells };

    fn number(&self, alloc: Global, into: &mut Numbering) -> Result<(), AllocError> {
        into.u2(0)?;
        into.name(alloc, self.name.as_slice())?;
        into.blob(alloc, self.signature.as_slice())?;
        Ok(())
    }
}

impl Row for MethodSemanticsRow {
    ghost cells = { rows_of.method_semantics_cells };

    fn number(&self, _alloc: Global, into: &mut Numbering) -> Result<(), AllocError> {
        into.u2(semantics_flags(self.kind))?;
        into.row(Table::MethodDef, self.method.0)?;
        into.coded(CodedIndex::HasSemantics, self.association.code())?;
        Ok(())
    }
}

impl Row for MethodImplRow {
    ghost cells = { rows_of.method_impl_cells };

    fn number(&self, _alloc: Global, into: &mut Numbering) -> Result<(), AllocError> {
        into.row(Table::TypeDef, self.class.0)?;
        into.coded(CodedIndex::MethodDefOrRef, self.body.code())?;
        into.coded(CodedIndex::MethodDefOrRef, self.declaration.code())?;
        Ok(())
    }
}

impl Row for TypeSpecRow {
    ghost cells = { rows_of.type_spec_cells };

    fn number(&self, alloc: Global, into: &mut Numbering) -> Result<(), AllocError> {
        into.blob(alloc, self.signature.as_slice())?;
        Ok(())
    }
}

impl Row for AssemblyRow {
    ghost cells = { rows_of.assembly_cells };

    fn number(&self, alloc: Global, into: &mut Numbering) -> Result<(), AllocError> {
        into.u4(0x8004)?;
        number_version(self.version, into)?;
        into.u4(0)?;
        into.blob(alloc, &[])?;
        into.name(alloc, self.name.as_slice())?;
        into.name(alloc, &[])?;
        Ok(())
    }
}

impl Row for AssemblyRefRow {
    ghost cells = { rows_of.assembly_ref_cells };

    fn number(&self, alloc: Global, into: &mut Numbering) -> Result<(), AllocError> {
        number_version(self.version, into)?;
        into.u4(0)?;
        into.blob(alloc, self.token.as_slice())?;
        into.name(alloc, self.name.as_slice())?;
        into.name(alloc, &[])?;
        into.blob(alloc, &[])?;
        Ok(())
    }
}

impl Row for GenericParamRow {
    ghost cells = { rows_of.generic_param_cells };

    fn number(&self, alloc: Global, into: &mut Numbering) -> Result<(), AllocError> {
        into.u2(self.number)?;
        into.u2(self.flags)?;
        into.coded(CodedIndex::TypeOrMethodDef, self.owner.code())?;
        into.name(alloc, self.name.as_slice())?;
        Ok(())
    }
}

impl Row for MethodSpecRow {
    ghost cells = { rows_of.method_spec_cells };

    fn number(&self, alloc: Global, into: &mut Numbering) -> Result<(), AllocError> {
        into.coded(CodedIndex::MethodDefOrRef, self.method.code())?;
        into.blob(alloc, self.instantiation.as_slice())?;
        Ok(())
    }
}

impl Row for GenericParamConstraintRow {
    ghost cells = { rows_of.generic_param_constraint_cells };

    fn number(&self, _alloc: Global, into: &mut Numbering) -> Result<(), AllocError> {
        into.row(Table::GenericParam, self.owner.0)?;
        into.coded(CodedIndex::TypeDefOrRef, self.constraint.code())?;
        Ok(())
    }
}

// Meets the columns of the tables 00 to 0B.
fn number_early(alloc: Global, source: &Module, into: &mut Numbering) -> Result<(), AllocError>
    requires whole { IsNumbering into.old }
    requires short { AreShort source.now }
    ensures { OnOk result (Meets into.old into.new (early_cells source.now)) }
{
    number_list(alloc, &source.modules, into)?;
    number_list(alloc, &source.type_refs, into)?;
    number_list(alloc, &source.type_defs, into)?;
    number_list(alloc, &source.fields, into)?;
    number_list(alloc, &source.methods, into)?;
    number_list(alloc, &source.params, into)?;
    number_list(alloc, &source.interface_impls, into)?;
    number_list(alloc, &source.member_refs, into)?;
    number_list(alloc, &source.constants, into)?;
    Ok(())
}

// Meets the columns of the tables 11 to 2C.
fn number_late(alloc: Global, source: &Module, into: &mut Numbering) -> Result<(), AllocError>
    requires whole { IsNumbering into.old }
    requires short { AreShort source.now }
    ensures { OnOk result (Meets into.old into.new (late_cells source.now)) }
{
    number_list(alloc, &source.stand_alone_sigs, into)?;
    number_list(alloc, &source.property_maps, into)?;
    number_list(alloc, &source.properties, into)?;
    number_list(alloc, &source.method_semantics, into)?;
    number_list(alloc, &source.method_impls, into)?;
    number_list(alloc, &source.type_specs, into)?;
    number_list(alloc, &source.assemblies, into)?;
    number_list(alloc, &source.assembly_refs, into)?;
    number_list(alloc, &source.generic_params, into)?;
    number_list(alloc, &source.method_specs, into)?;
    number_list(alloc, &source.generic_param_constraints, into)?;
    Ok(())
}

/// Meets the columns of all rows of a module, in order of tables, rows and columns.
pub(crate) fn number_module(
    alloc: Global,
    source: &Module,
    into: &mut Numbering,
) -> Result<(), AllocError>
    requires whole { IsNumbering into.old }
    requires short { AreShort source.now }
    ensures { OnOk result (Meets into.old into.new (all_cells source.now)) }
{
    number_early(alloc, source, into)?;
    number_late(alloc, source, into)?;
    Ok(())
}
