// The columns of each table (ECMA-335, II.22), and how many bytes its rows have.
ghost use Rattle.std.specs.Prelude.{◌≡◌, ◌≤◌, ◌*◌, ◌^◌, length, map, sum};
ghost use Rattle.cc_module.specs.Metadata.{column_width};
ghost use Rattle.cc_tables.specs.Columns.{columns_of, table_size, rows_size};
ghost use Rattle.cc_tables.specs.Counts.{table_rows};
ghost use Rattle.cc_tables.specs.Numbering.{sizes_by};

use crate::counts::TableCounts;
use crate::table_stream::TABLES;
use crate::width::{StreamSizes, column_width};
use cc_module::{CodedIndex, Column, Table};

static MODULE: [Column; 5] = [
    Column::U2,
    Column::Name,
    Column::Guid,
    Column::Guid,
    Column::Guid,
];

static TYPE_REF: [Column; 3] = [
    Column::Coded(CodedIndex::ResolutionScope),
    Column::Name,
    Column::Name,
];

static TYPE_DEF: [Column; 6] = [
    Column::U4,
    Column::Name,
    Column::Name,
    Column::Coded(CodedIndex::TypeDefOrRef),
    Column::Row(Table::Field),
    Column::Row(Table::MethodDef),
];

static FIELD: [Column; 3] = [Column::U2, Column::Name, Column::Blob];

static METHOD_DEF: [Column; 6] = [
    Column::U4,
    Column::U2,
    Column::U2,
    Column::Name,
    Column::Blob,
    Column::Row(Table::Param),
];

static PARAM: [Column; 3] = [Column::U2, Column::U2, Column::Name];

static INTERFACE_IMPL: [Column; 2] = [
    Column::Row(Table::TypeDef),
    Column::Coded(CodedIndex::TypeDefOrRef),
];

static MEMBER_REF: [Column; 3] = [
    Column::Coded(CodedIndex::MemberRefParent),
    Column::Name,
    Column::Blob,
];

static CONSTANT: [Column; 4] = [
    Column::U1,
    Column::U1,
    Column::Coded(CodedIndex::HasConstant),
    Column::Blob,
];

static STAND_ALONE_SIG: [Column; 1] = [Column::Blob];

static PROPERTY_MAP: [Column; 2] = [Column::Row(Table::TypeDef), Column::Row(Table::Property)];

static PROPERTY: [Column; 3] = [Column::U2, Column::Name, Column::Blob];

static METHOD_SEMANTICS: [Column; 3] = [
    Column::U2,
    Column::Row(Table::MethodDef),
    Column::Coded(CodedIndex::HasSemantics),
];

static METHOD_IMPL: [Column; 3] = [
    Column::Row(Table::TypeDef),
    Column::Coded(CodedIndex::MethodDefOrRef),
    Column::Coded(CodedIndex::MethodDefOrRef),
];

static TYPE_SPEC: [Column; 1] = [Column::Blob];

static ASSEMBLY: [Column; 9] = [
    Column::U4,
    Column::U2,
    Column::U2,
    Column::U2,
    Column::U2,
    Column::U4,
    Column::Blob,
    Column::Name,
    Column::Name,
];

static ASSEMBLY_REF: [Column; 9] = [
    Column::U2,
    Column::U2,
    Column::U2,
    Column::U2,
    Column::U4,
    Column::Blob,
    Column::Name,
    Column::Name,
    Column::Blob,
];

static GENERIC_PARAM: [Column; 4] = [
    Column::U2,
    Column::U2,
    Column::Coded(CodedIndex::TypeOrMethodDef),
    Column::Name,
];

static METHOD_SPEC: [Column; 2] = [Column::Coded(CodedIndex::MethodDefOrRef), Column::Blob];

static GENERIC_PARAM_CONSTRAINT: [Column; 2] = [
    Column::Row(Table::GenericParam),
    Column::Coded(CodedIndex::TypeDefOrRef),
];

/// The columns of a table.
pub(crate) fn columns_of(table: Table) -> &'static [Column]
    ensures columns { result.now ≡ columns_of table }
    ensures few { length result.now ≤ 9 }
{
    match table {
        Table::Module => &MODULE,
        Table::TypeRef => &TYPE_REF,
        Table::TypeDef => &TYPE_DEF,
        Table::Field => &FIELD,
        Table::MethodDef => &METHOD_DEF,
        Table::Param => &PARAM,
        Table::InterfaceImpl => &INTERFACE_IMPL,
        Table::MemberRef => &MEMBER_REF,
        Table::Constant => &CONSTANT,
        Table::StandAloneSig => &STAND_ALONE_SIG,
        Table::PropertyMap => &PROPERTY_MAP,
        Table::Property => &PROPERTY,
        Table::MethodSemantics => &METHOD_SEMANTICS,
        Table::MethodImpl => &METHOD_IMPL,
        Table::TypeSpec => &TYPE_SPEC,
        Table::Assembly => &ASSEMBLY,
        Table::AssemblyRef => &ASSEMBLY_REF,
        Table::GenericParam => &GENERIC_PARAM,
        Table::MethodSpec => &METHOD_SPEC,
        Table::GenericParamConstraint => &GENERIC_PARAM_CONSTRAINT,
    }
}

/// How many bytes columns have together.
pub(crate) fn widths_of(counts: &TableCounts, sizes: StreamSizes, columns: &[Column]) -> u64
    requires { length columns.now ≤ 9 }
    ensures widths { result ≡ sum (map (column_width (sizes_by (table_rows counts.now.counts.items) sizes)) columns.now) }
    ensures fits { result ≤ 72 }
{
    let mut total = 0;
    for column in columns {
        total += column_width(counts, sizes, *column) as u64;
    }
    total
}

/// How many bytes the rows of a table have together.
pub(crate) fn table_size(counts: &TableCounts, sizes: StreamSizes, table: Table) -> u64
    ensures size { result ≡ table_size (sizes_by (table_rows counts.now.counts.items) sizes) table }
    ensures fits { result ≤ 72 * 2 ^ 32 }
{
    counts.rows(table) as u64 * widths_of(counts, sizes, columns_of(table))
}

// How many bytes the rows of some tables have together.
fn tables_size(counts: &TableCounts, sizes: StreamSizes, tables: &[Table]) -> u64
    requires { length tables.now ≤ 20 }
    ensures size { result ≡ sum (map (table_size (sizes_by (table_rows counts.now.counts.items) sizes)) tables.now) }
    ensures fits { result ≤ 20 * (72 * 2 ^ 32) }
{
    let mut total = 0;
    for table in tables {
        total += table_size(counts, sizes, *table);
    }
    total
}

/// How many bytes the rows of all tables have together, where the heaps have these sizes.
#[tactic(auto, unfolding(crate::specs::Columns::rows_size))]
pub fn rows_size(counts: &TableCounts, sizes: StreamSizes) -> u64
    ensures size { result ≡ rows_size (sizes_by (table_rows counts.now.counts.items) sizes) }
    ensures fits { result ≤ 20 * (72 * 2 ^ 32) }
{
    tables_size(counts, sizes, &TABLES)
}
