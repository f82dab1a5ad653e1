// The stream `#~`: a header, the numbers of rows and the rows (ECMA-335, II.24.2.6).
ghost use Rattle.std.specs.Prelude.{◌≡◌, ◌<◌, ◌≤◌, ◌^◌, ◌++◌, length, map, sum, IfOk, OnOk};
ghost use Rattle.std.specs.List.{flat_map};
ghost use Rattle.cc_layout.specs.Layout.{bytes_of};
ghost use Rattle.cc_module.specs.Metadata.{table_number, valid_bit, heap_sizes, wide_bit, count_field};
ghost use Rattle.cc_tables.specs.Numbering.{sizes_by, header_of, slot_bytes, slots_stream};

use crate::numbering::Slot;
use crate::pad::pad;
use crate::width::{RowCounts, StreamSizes, column_width};
use cc_layout::{Field, write_fields, write_number};
use cc_module::Table;
use std::alloc::{AllocError, Global};

/// All tables, in the order of their numbers.
pub(crate) static TABLES: [Table; 20] = [
    Table::Module,
    Table::TypeRef,
    Table::TypeDef,
    Table::Field,
    Table::MethodDef,
    Table::Param,
    Table::InterfaceImpl,
    Table::MemberRef,
    Table::Constant,
    Table::StandAloneSig,
    Table::PropertyMap,
    Table::Property,
    Table::MethodSemantics,
    Table::MethodImpl,
    Table::TypeSpec,
    Table::Assembly,
    Table::AssemblyRef,
    Table::GenericParam,
    Table::MethodSpec,
    Table::GenericParamConstraint,
];

/// The tables whose rows are sorted, and those of the standard that have no rows here.
const SORTED: u64 = 0x0000_1400_0300_0A00;

/// The bit of a table in the list of those that are there.
pub(crate) fn table_bit(table: Table) -> u64
    ensures bit { result ≡ 2 ^ table_number table }
    ensures fits { result < 2 ^ 45 }
{
    match table {
        Table::Module => 1 << 0x00,
        Table::TypeRef => 1 << 0x01,
        Table::TypeDef => 1 << 0x02,
        Table::Field => 1 << 0x04,
        Table::MethodDef => 1 << 0x06,
        Table::Param => 1 << 0x08,
        Table::InterfaceImpl => 1 << 0x09,
        Table::MemberRef => 1 << 0x0A,
        Table::Constant => 1 << 0x0B,
        Table::StandAloneSig => 1 << 0x11,
        Table::PropertyMap => 1 << 0x15,
        Table::Property => 1 << 0x17,
        Table::MethodSemantics => 1 << 0x18,
        Table::MethodImpl => 1 << 0x19,
        Table::TypeSpec => 1 << 0x1B,
        Table::Assembly => 1 << 0x20,
        Table::AssemblyRef => 1 << 0x23,
        Table::GenericParam => 1 << 0x2A,
        Table::MethodSpec => 1 << 0x2B,
        Table::GenericParamConstraint => 1 << 0x2C,
    }
}

fn valid_bit<C: RowCounts>(source: &C, table: Table) -> u64
    ensures bit { result ≡ valid_bit (C.rows source.now) table }
    ensures fits { result < 2 ^ 45 }
{
    if source.count(table) == 0 {
        0
    } else {
        table_bit(table)
    }
}

// The bits of those of some tables that have rows.
fn valid_bits<C: RowCounts>(source: &C, tables: &[Table]) -> u64
    requires { length tables.now ≤ 20 }
    ensures { result ≡ sum (map (valid_bit (C.rows source.now)) tables.now) }
{
    let mut bits = 0;
    for table in tables {
        bits += valid_bit(source, *table);
    }
    bits
}

fn wide_bit(bit: u8, size: usize) -> u8
    ensures { result ≡ wide_bit bit size }
{
    if size < 0x1_0000 { 0 } else { bit }
}

fn heap_sizes<C: RowCounts>(source: &C, sizes: StreamSizes) -> u64
    ensures { result ≡ heap_sizes (sizes_by (C.rows source.now) sizes) }
{
    wide_bit(1, sizes.strings) as u64 + wide_bit(2, 16) as u64 + wide_bit(4, sizes.blobs) as u64
}

// The number of a table's rows, where it has some.
fn push_count<C: RowCounts>(
    source: &C,
    table: Table,
    into: &mut Vec<Field>,
) -> Result<(), AllocError>
    ensures { OnOk result (into.new.items ≡ into.old.items ++ count_field (C.rows source.now) table) }
{
    let count = source.count(table);
    if count != 0 {
        into.push(Field::number(4, count as u64))?;
    }
    Ok(())
}

fn push_counts<C: RowCounts>(
    source: &C,
    tables: &[Table],
    into: &mut Vec<Field>,
) -> Result<(), AllocError>
    ensures { OnOk result (into.new.items ≡ into.old.items ++ flat_map (count_field (C.rows source.now)) tables.now) }
{
    for table in tables {
        push_count(source, *table, into)?;
    }
    Ok(())
}

/// The fields before the rows.
pub(crate) fn table_header<C: RowCounts>(
    alloc: Global,
    source: &C,
    sizes: StreamSizes,
) -> Result<Vec<Field>, AllocError>
    ensures { IfOk result (λ fields. fields.items ≡ header_of (sizes_by (C.rows source.now) sizes)) }
{
    let mut fields = Vec::new(alloc);
    fields.extend_from_slice(&[
        Field::number(4, 0),
        Field::number(1, 2),
        Field::number(1, 0),
        Field::number(1, heap_sizes(source, sizes)),
        Field::number(1, 1),
        Field::number(8, valid_bits(source, &TABLES)),
        Field::number(8, SORTED),
    ])?;
    push_counts(source, &TABLES, &mut fields)?;
    Ok(fields)
}

fn write_header<C: RowCounts>(
    alloc: Global,
    source: &C,
    sizes: StreamSizes,
    into: &mut Vec<u8>,
) -> Result<(), AllocError>
    ensures { OnOk result (into.new.items ≡ into.old.items ++ bytes_of (header_of (sizes_by (C.rows source.now) sizes))) }
{
    let fields = table_header(alloc, source, sizes)?;
    write_fields(&fields, into)?;
    Ok(())
}

fn write_slots<C: RowCounts>(
    source: &C,
    sizes: StreamSizes,
    slots: &[Slot],
    into: &mut Vec<u8>,
) -> Result<(), AllocError>
    ensures { OnOk result (into.new.items ≡ into.old.items ++ flat_map (slot_bytes (sizes_by (C.rows source.now) sizes)) slots.now) }
{
    for slot in slots {
        write_number(column_width(source, sizes, slot.column), slot.value, into)?;
    }
    Ok(())
}

/// The stream with these columns.
pub(crate) fn table_stream<C: RowCounts>(
    alloc: Global,
    source: &C,
    sizes: StreamSizes,
    slots: &[Slot],
) -> Result<Vec<u8>, AllocError>
    ensures { IfOk result (λ bytes. bytes.items ≡ slots_stream (sizes_by (C.rows source.now) sizes) slots.now) }
{
    let mut bytes = Vec::new(alloc);
    write_header(alloc, source, sizes, &mut bytes)?;
    write_slots(source, sizes, slots, &mut bytes)?;
    pad(&mut bytes)?;
    Ok(bytes)
}
