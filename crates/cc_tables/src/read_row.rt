// Rows out of the numbers of their columns (ECMA-335, II.22). Numbers that are no row's give some row, whose own numbers are
// others.
ghost use Rattle.std.specs.Prelude.{◌≡◌, ◌<◌, ◌≤◌, ◌^◌, List, length, map, IfOk, refl};
ghost use Rattle.cc_module.specs.declared.table.Table as table_of;
ghost use Rattle.cc_module.specs.declared.table.Table.TheVariants as the;
ghost use Rattle.cc_module.specs.declared.rows.AccessorKind as accessor;
ghost use Rattle.cc_module.specs.Rows.{Cell, semantics_flags};
ghost use Rattle.cc_module.specs.Metadata.{column_of};
ghost use Rattle.cc_tables.specs.Columns.{columns_of};
ghost use Rattle.cc_tables.specs.Reading.{IsRowOf, TellsFrom};
ghost use Rattle.cc_tables.specs.Candidates.{FindsFrom, FitFrom};

use crate::code::{
    constant_of, member_parent_of, method_of, owner_of, scope_of, semantics_of, type_of,
};
use crate::heap::HeapKind;
use crate::heap_text::text_at;
use crate::row::Row;
use cc_module::{
    AccessorKind, AssemblyRefRow, AssemblyRow, ConstantRow, FieldIndex, FieldRow,
    GenericParamConstraintRow, GenericParamIndex, GenericParamRow, InterfaceImplRow, MemberRefRow,
    MethodDefIndex, MethodDefRow, MethodImplRow, MethodSemanticsRow, MethodSpecRow, ModuleRow,
    ParamIndex, ParamRow, PropertyIndex, PropertyMapRow, PropertyRow, StandAloneSigRow, Table,
    TypeDefIndex, TypeDefRow, TypeRefRow, TypeSpecRow, Version,
};
use std::alloc::{AllocError, Global};

/// A row that is read.
pub(crate) trait ReadRow: Row + Sized + Drop {
    /// The table that it is of.
    ghost of_table: { table_of.Table };

    fn table() -> Table
        ensures { result ≡ of_table };

    /// The row that has these numbers in its columns, if there is one.
    fn of_numbers(
        alloc: Global,
        numbers: &[u64],
        strings: &[u8],
        blobs: &[u8],
    ) -> Result<Self, AllocError>
        requires many { length numbers.now ≡ length (columns_of of_table) }
        requires fit { FitFrom numbers.now 0 (columns_of of_table) }
        ensures only { IfOk result (λ r. (s : Self) → TellsFrom strings.now blobs.now numbers.now 0 (Self.cells s) → Self.cells r ≡ Self.cells s) }
        ensures found { IfOk result (λ r. FindsFrom strings.now blobs.now numbers.now 0 (Self.cells r)) };

    /// Its columns are those of a row of the table, and what are those of such a row are some row's.
    ghost is_row: { (r : Self) → IsRowOf of_table (Self.cells r) };

    ghost of_row: { (all : List Cell) → IsRowOf of_table all → (r : Self) × (all ≡ Self.cells r) };

    /// They are of the kinds that the table has.
    ghost columns_stand: { (r : Self) → map column_of (Self.cells r) ≡ columns_of of_table };
}

fn low_u8(number: u64) -> u8
    ensures { number < 2 ^ 8 → result ≡ number }
{
    (number % 0x100) as u8
}

fn low_u16(number: u64) -> u16
    ensures { number < 2 ^ 16 → result ≡ number }
{
    (number % 0x1_0000) as u16
}

fn low_u32(number: u64) -> u32
    ensures { number < 2 ^ 32 → result ≡ number }
{
    (number % 0x1_0000_0000) as u32
}

// An accessor by its flags (II.23.1.12).
fn accessor_of(flags: u32) -> AccessorKind
    ensures { (x : accessor.AccessorKind) → semantics_flags x ≡ flags → result ≡ x }
{
    if flags == 1 {
        AccessorKind::Setter
    } else {
        AccessorKind::Getter
    }
}

impl ReadRow for ModuleRow {
    ghost of_table = { the.Module };

    ghost is_row = { λ r. (r, refl) };

    ghost of_row = { λ all h. h };

    ghost columns_stand = { λ r. refl };

    fn table() -> Table {
        Table::Module
    }

    fn of_numbers(
        alloc: Global,
        numbers: &[u64],
        strings: &[u8],
        _blobs: &[u8],
    ) -> Result<ModuleRow, AllocError> {
        Ok(ModuleRow {
            name: text_at(alloc, HeapKind::Names, strings, numbers[1])?,
        })
    }
}

impl ReadRow for TypeRefRow {
    ghost of_table = { the.TypeRef };

    ghost is_row = { λ r. (r, refl) };

    ghost of_row = { λ all h. h };

    ghost columns_stand = { λ r. refl };

    fn table() -> Table {
        Table::TypeRef
    }

    fn of_numbers(
        alloc: Global,
        numbers: &[u64],
        strings: &[u8],
        _blobs: &[u8],
    ) -> Result<TypeRefRow, AllocError> {
        Ok(TypeRefRow {
            scope: scope_of(low_u32(numbers[0])),
            name: text_at(alloc, HeapKind::Names, strings, numbers[1])?,
            namespace: text_at(alloc, HeapKind::Names, strings, numbers[2])?,
        })
    }
}

impl ReadRow for TypeDefRow {
    ghost of_table = { the.TypeDef };

    ghost is_row = { λ r. (r, refl) };

    ghost of_row = { λ all h. h };

    ghost columns_stand = { λ r. refl };

    fn table() -> Table {
        Table::TypeDef
    }

    fn of_numbers(
        alloc: Global,
        numbers: &[u64],
        strings: &[u8],
        _blobs: &[u8],
    ) -> Result<TypeDefRow, AllocError> {
        Ok(TypeDefRow {
            flags: low_u32(numbers[0]),
            name: text_at(alloc, HeapKind::Names, strings, numbers[1])?,
            namespace: text_at(alloc, HeapKind::Names, strings, numbers[2])?,
            extends: type_of(low_u32(numbers[3])),
            fields: FieldIndex(low_u32(numbers[4])),
            methods: MethodDefIndex(low_u32(numbers[5])),
        })
    }
}

impl ReadRow for FieldRow {
    ghost of_table = { the.Field };

    ghost is_row = { λ r. (r, refl) };

    ghost of_row = { λ all h. h };

    ghost columns_stand = { λ r. refl };

    fn table() -> Table {
        Table::Field
    }

    fn of_numbers(
        alloc: Global,
        numbers: &[u64],
        strings: &[u8],
        blobs: &[u8],
    ) -> Result<FieldRow, AllocError> {
        Ok(FieldRow {
            flags: low_u16(numbers[0]),
            name: text_at(alloc, HeapKind::Names, strings, numbers[1])?,
            signature: text_at(alloc, HeapKind::Blobs, blobs, numbers[2])?,
        })
    }
}

impl ReadRow for MethodDefRow {
    ghost of_table = { the.MethodDef };

    ghost is_row = { λ r. (r, refl) };

    ghost of_row = { λ all h. h };

    ghost columns_stand = { λ r. refl };

    fn table() -> Table {
        Table::MethodDef
    }

    fn of_numbers(
        alloc: Global,
        numbers: &[u64],
        strings: &[u8],
        blobs: &[u8],
    ) -> Result<MethodDefRow, AllocError> {
        Ok(MethodDefRow {
            rva: low_u32(numbers[0]),
            flags: low_u16(numbers[2]),
            name: text_at(alloc, HeapKind::Names, strings, numbers[3])?,
            signature: text_at(alloc, HeapKind::Blobs, blobs, numbers[4])?,
            parameters: ParamIndex(low_u32(numbers[5])),
        })
    }
}

impl ReadRow for ParamRow {
    ghost of_table = { the.Param };

    ghost is_row = { λ r. (r, refl) };

    ghost of_row = { λ all h. h };

    ghost columns_stand = { λ r. refl };

    fn table() -> Table {
        Table::Param
    }

    fn of_numbers(
        alloc: Global,
        numbers: &[u64],
        strings: &[u8],
        _blobs: &[u8],
    ) -> Result<ParamRow, AllocError> {
        Ok(ParamRow {
            sequence: low_u16(numbers[1]),
            name: text_at(alloc, HeapKind::Names, strings, numbers[2])?,
        })
    }
}

impl ReadRow for InterfaceImplRow {
    ghost of_table = { the.InterfaceImpl };

    ghost is_row = { λ r. (r, refl) };

    ghost of_row = { λ all h. h };

    ghost columns_stand = { λ r. refl };

    fn table() -> Table {
        Table::InterfaceImpl
    }

    fn of_numbers(
        _alloc: Global,
        numbers: &[u64],
        _strings: &[u8],
        _blobs: &[u8],
    ) -> Result<InterfaceImplRow, AllocError> {
        Ok(InterfaceImplRow {
            class: TypeDefIndex(low_u32(numbers[0])),
            interface: type_of(low_u32(numbers[1])),
        })
    }
}

impl ReadRow for MemberRefRow {
    ghost of_table = { the.MemberRef };

    ghost is_row = { λ r. (r, refl) };

    ghost of_row = { λ all h. h };

    ghost columns_stand = { λ r. refl };

    fn table() -> Table {
        Table::MemberRef
    }

    fn of_numbers(
        alloc: Global,
        numbers: &[u64],
        strings: &[u8],
        blobs: &[u8],
    ) -> Result<MemberRefRow, AllocError> {
        Ok(MemberRefRow {
            class: member_parent_of(low_u32(numbers[0])),
            name: text_at(alloc, HeapKind::Names, strings, numbers[1])?,
            signature: text_at(alloc, HeapKind::Blobs, blobs, numbers[2])?,
        })
    }
}

impl ReadRow for ConstantRow {
    ghost of_table = { the.Constant };

    ghost is_row = { λ r. (r, refl) };

    ghost of_row = { λ all h. h };

    ghost columns_stand = { λ r. refl };

    fn table() -> Table {
        Table::Constant
    }

    fn of_numbers(
        alloc: Global,
        numbers: &[u64],
        _strings: &[u8],
        blobs: &[u8],
    ) -> Result<ConstantRow, AllocError> {
        Ok(ConstantRow {
            element_type: low_u8(numbers[0]),
            parent: constant_of(low_u32(numbers[2])),
            value: text_at(alloc, HeapKind::Blobs, blobs, numbers[3])?,
        })
    }
}

impl ReadRow for StandAloneSigRow {
    ghost of_table = { the.StandAloneSig };

    ghost is_row = { λ r. (r, refl) };

    ghost of_row = { λ all h. h };

    ghost columns_stand = { λ r. refl };

    fn table() -> Table {
        Table::StandAloneSig
    }

    fn of_numbers(
        alloc: Global,
        numbers: &[u64],
        _strings: &[u8],
        blobs: &[u8],
    ) -> Result<StandAloneSigRow, AllocError> {
        Ok(StandAloneSigRow {
            signature: text_at(alloc, HeapKind::Blobs, blobs, numbers[0])?,
        })
    }
}

impl ReadRow for PropertyMapRow {
    ghost of_table = { the.PropertyMap };

    ghost is_row = { λ r. (r, refl) };

    ghost of_row = { λ all h. h };

    ghost columns_stand = { λ r. refl };

    fn table() -> Table {
        Table::PropertyMap
    }

    fn of_numbers(
        _alloc: Global,
        numbers: &[u64],
        _strings: &[u8],
        _blobs: &[u8],
    ) -> Result<PropertyMapRow, AllocError> {
        Ok(PropertyMapRow {
            parent: TypeDefIndex(low_u32(numbers[0])),
            properties: PropertyIndex(low_u32(numbers[1])),
        })
    }
}

impl ReadRow for PropertyRow {
    ghost of_table = { the.Property };

    ghost is_row = { λ r. (r, refl) };

    ghost of_row = { λ all h. h };

    ghost columns_stand = { λ r. refl };

    fn table() -> Table {
        Table::Property
    }

    fn of_numbers(
        alloc: Global,
        numbers: &[u64],
        strings: &[u8],
        blobs: &[u8],
    ) -> Result<PropertyRow, AllocError> {
        Ok(PropertyRow {
            name: text_at(alloc, HeapKind::Names, strings, numbers[1])?,
            signature: text_at(alloc, HeapKind::Blobs, blobs, numbers[2])?,
        })
    }
}

impl ReadRow for MethodSemanticsRow {
    ghost of_table = { the.MethodSemantics };

    ghost is_row = { λ r. (r, refl) };

    ghost of_row = { λ all h. h };

    ghost columns_stand = { λ r. refl };

    fn table() -> Table {
        Table::MethodSemantics
    }

    fn of_numbers(
        _alloc: Global,
        numbers: &[u64],
        _strings: &[u8],
        _blobs: &[u8],
    ) -> Result<MethodSemanticsRow, AllocError> {
        Ok(MethodSemanticsRow {
            kind: accessor_of(low_u32(numbers[0])),
            method: MethodDefIndex(low_u32(numbers[1])),
            association: semantics_of(low_u32(numbers[2])),
        })
    }
}

impl ReadRow for MethodImplRow {
    ghost of_table = { the.MethodImpl };

    ghost is_row = { λ r. (r, refl) };

    ghost of_row = { λ all h. h };

    ghost columns_stand = { λ r. refl };

    fn table() -> Table {
        Table::MethodImpl
    }

    fn of_numbers(
        _alloc: Global,
        numbers: &[u64],
        _strings: &[u8],
        _blobs: &[u8],
    ) -> Result<MethodImplRow, AllocError> {
        Ok(MethodImplRow {
            class: TypeDefIndex(low_u32(numbers[0])),
            body: method_of(low_u32(numbers[1])),
            declaration: method_of(low_u32(numbers[2])),
        })
    }
}

impl ReadRow for TypeSpecRow {
    ghost of_table = { the.TypeSpec };

    ghost is_row = { λ r. (r, refl) };

    ghost of_row = { λ all h. h };

    ghost columns_stand = { λ r. refl };

    fn table() -> Table {
        Table::TypeSpec
    }

    fn of_numbers(
        alloc: Global,
        numbers: &[u64],
        _strings: &[u8],
        blobs: &[u8],
    ) -> Result<TypeSpecRow, AllocError> {
        Ok(TypeSpecRow {
            signature: text_at(alloc, HeapKind::Blobs, blobs, numbers[0])?,
        })
    }
}

impl ReadRow for AssemblyRow {
    ghost of_table = { the.Assembly };

    ghost is_row = { λ r. (r, refl) };

    ghost of_row = { λ all h. h };

    ghost columns_stand = { λ r. refl };

    fn table() -> Table {
        Table::Assembly
    }

    fn of_numbers(
        alloc: Global,
        numbers: &[u64],
        strings: &[u8],
        _blobs: &[u8],
    ) -> Result<AssemblyRow, AllocError> {
        Ok(AssemblyRow {
            version: Version {
                major: low_u16(numbers[1]),
                minor: low_u16(numbers[2]),
                build: low_u16(numbers[3]),
                revision: low_u16(numbers[4]),
            },
            name: text_at(alloc, HeapKind::Names, strings, numbers[7])?,
        })
    }
}

impl ReadRow for AssemblyRefRow {
    ghost of_table = { the.AssemblyRef };

    ghost is_row = { λ r. (r, refl) };

    ghost of_row = { λ all h. h };

    ghost columns_stand = { λ r. refl };

    fn table() -> Table {
        Table::AssemblyRef
    }

    fn of_numbers(
        alloc: Global,
        numbers: &[u64],
        strings: &[u8],
        blobs: &[u8],
    ) -> Result<AssemblyRefRow, AllocError> {
        Ok(AssemblyRefRow {
            version: Version {
                major: low_u16(numbers[0]),
                minor: low_u16(numbers[1]),
                build: low_u16(numbers[2]),
                revision: low_u16(numbers[3]),
            },
            token: text_at(alloc, HeapKind::Blobs, blobs, numbers[5])?,
            name: text_at(alloc, HeapKind::Names, strings, numbers[6])?,
        })
    }
}

impl ReadRow for GenericParamRow {
    ghost of_table = { the.GenericParam };

    ghost is_row = { λ r. (r, refl) };

    ghost of_row = { λ all h. h };

    ghost columns_stand = { λ r. refl };

    fn table() -> Table {
        Table::GenericParam
    }

    fn of_numbers(
        alloc: Global,
        numbers: &[u64],
        strings: &[u8],
        _blobs: &[u8],
    ) -> Result<GenericParamRow, AllocError> {
        Ok(GenericParamRow {
            number: low_u16(numbers[0]),
            flags: low_u16(numbers[1]),
            owner: owner_of(low_u32(numbers[2])),
            name: text_at(alloc, HeapKind::Names, strings, numbers[3])?,
        })
    }
}

impl ReadRow for MethodSpecRow {
    ghost of_table = { the.MethodSpec };

    ghost is_row = { λ r. (r, refl) };

    ghost of_row = { λ all h. h };

    ghost columns_stand = { λ r. refl };

    fn table() -> Table {
        Table::MethodSpec
    }

    fn of_numbers(
        alloc: Global,
        numbers: &[u64],
        _strings: &[u8],
        blobs: &[u8],
    ) -> Result<MethodSpecRow, AllocError> {
        Ok(MethodSpecRow {
            method: method_of(low_u32(numbers[0])),
            instantiation: text_at(alloc, HeapKind::Blobs, blobs, numbers[1])?,
        })
    }
}

impl ReadRow for GenericParamConstraintRow {
    ghost of_table = { the.GenericParamConstraint };

    ghost is_row = { λ r. (r, refl) };

    ghost of_row = { λ all h. h };

    ghost columns_stand = { λ r. refl };

    fn table() -> Table {
        Table::GenericParamConstraint
    }

    fn of_numbers(
        _alloc: Global,
        numbers: &[u64],
        _strings: &[u8],
        _blobs: &[u8],
    ) -> Result<GenericParamConstraintRow, AllocError> {
        Ok(GenericParamConstraintRow {
            owner: GenericParamIndex(low_u32(numbers[0])),
            constraint: type_of(low_u32(numbers[1])),
        })
    }
}
