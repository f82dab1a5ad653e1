// How many bytes a column has (ECMA-335, II.24.2.6).
ghost use Rattle.std.specs.Prelude.{◌≡◌, ◌≤◌, ◌-◌, ◌^◌, ℕ, nat_lt};
ghost use Rattle.std.specs.List.{list_all};
ghost use Rattle.cc_module.specs.declared.table.Table as table;
ghost use Rattle.cc_module.specs.Rows.{row_count};
ghost use Rattle.cc_module.specs.Metadata.{heap_width, row_width, coded_width, column_width, tag_bits, tables_of};
ghost use Rattle.cc_tables.specs.Numbering.{sizes_by};

use cc_module::{CodedIndex, Column, Module, Table};

/// The sizes of the streams `#Strings` and `#Blob`.
#[derive(Clone, Copy, Debug, PartialEq, Eq)]
pub struct StreamSizes {
    pub strings: usize,
    pub blobs: usize,
}

/// The numbers of rows of tables.
pub(crate) trait RowCounts {
    ghost rows: { Self → table.Table → ℕ };

    /// The number of rows of a table.
    fn count(&self, table: Table) -> usize
        ensures { result ≡ rows self.now table };
}

impl RowCounts for Module {
    ghost rows = { row_count };

    fn count(&self, table: Table) -> usize {
        self.row_count(table)
    }
}

/// The width of an index into a heap of this size.
fn heap_width(size: usize) -> u8
    ensures width { result ≡ heap_width size }
    ensures fits { result ≤ 4 }
{
    if size < 0x1_0000 { 2 } else { 4 }
}

// The width of an index into a table with so many rows.
fn row_width(count: usize) -> u8
    ensures width { result ≡ row_width count }
    ensures fits { result ≤ 4 }
{
    if count < 0x1_0000 { 2 } else { 4 }
}

fn each_below<C: RowCounts>(source: &C, limit: usize, tables: &[Table]) -> bool
    ensures { result ≡ list_all (λ table. nat_lt (C.rows source.now table) limit) tables.now }
{
    tables.iter().all(|table| source.count(*table) < limit)
}

// Whether an index of this kind has two bytes: the rows and the tag fit in them.
fn is_narrow<C: RowCounts>(source: &C, kind: CodedIndex) -> bool
    ensures { result ≡ list_all (λ table. nat_lt (C.rows source.now table) (2 ^ (16 - tag_bits kind))) (tables_of kind) }
{
    match kind {
        CodedIndex::TypeDefOrRef => {
            each_below(
                source,
                0x4000,
                &[Table::TypeDef, Table::TypeRef, Table::TypeSpec],
            )
        }
        CodedIndex::HasConstant => {
            each_below(
                source,
                0x4000,
                &[Table::Field, Table::Param, Table::Property],
            )
        }
        CodedIndex::MemberRefParent => each_below(
            source,
            0x2000,
            &[
                Table::TypeDef,
                Table::TypeRef,
                Table::MethodDef,
                Table::TypeSpec,
            ],
        ),
        CodedIndex::HasSemantics => each_below(source, 0x8000, &[Table::Property]),
        CodedIndex::MethodDefOrRef => {
            each_below(source, 0x8000, &[Table::MethodDef, Table::MemberRef])
        }
        CodedIndex::ResolutionScope => {
            each_below(
                source,
                0x4000,
                &[Table::Module, Table::AssemblyRef, Table::TypeRef],
            )
        }
        CodedIndex::TypeOrMethodDef => {
            each_below(source, 0x8000, &[Table::TypeDef, Table::MethodDef])
        }
    }
}

fn coded_width<C: RowCounts>(source: &C, kind: CodedIndex) -> u8
    ensures width { result ≡ coded_width (C.rows source.now) kind }
    ensures fits { result ≤ 4 }
{
    if is_narrow(source, kind) { 2 } else { 4 }
}

/// The width of a column.
pub(crate) fn column_width<C: RowCounts>(source: &C, sizes: StreamSizes, column: Column) -> u8
    ensures width { result ≡ column_width (sizes_by (C.rows source.now) sizes) column }
    ensures fits { result ≤ 8 }
{
    match column {
        Column::U1 => 1,
        Column::U2 => 2,
        Column::U4 => 4,
        Column::Name => heap_width(sizes.strings),
        Column::Guid => heap_width(16),
        Column::Blob => heap_width(sizes.blobs),
        Column::Row(table) => row_width(source.count(table)),
        Column::Coded(kind) => coded_width(source, kind),
    }
}
