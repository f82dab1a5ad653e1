// The stream `#~` but for what its rows are (ECMA-335, II.24.2.6).
ghost use Rattle.std.specs.Prelude.{◌≡◌, ◌≢◌, ◌≤◌, ◌<◌, ◌+◌, ◌*◌, ◌^◌, length, map, sum, Some, None, Err, IfOk, OnOk};
ghost use Rattle.cc_layout.specs.Layout.{peeked, width_of};
ghost use Rattle.cc_module.specs.Metadata.{tables, count_field};
ghost use Rattle.cc_tables.specs.Counts.{counts_in, table_rows};
ghost use Rattle.cc_tables.specs.Numbering.{sizes_by, header_of};
ghost use Rattle.cc_tables.specs.Faults.{table_header_fault, end_fault};
ghost use Rattle.cc_tables.specs.Reading.{sizes_in, tables_fault, rows_place};
ghost use Rattle.cc_tables.specs.declared.width.StreamSizes as told;
ghost use Rattle.cc_tables.specs.declared.fault.TableFault.{TableFault};
ghost use Rattle.cc_tables.specs.declared.fault.TableFault.TheVariants.{Memory};

use crate::columns::rows_size;
use crate::counts::{TableCounts, read_table_header};
use crate::ends::end_fault;
use crate::fault::TableFault;
use crate::table_stream::TABLES;
use crate::width::StreamSizes;
use cc_module::Table;
use std::alloc::Global;

// How many bytes the number of a table's rows has.
fn count_size(counts: &TableCounts, table: Table) -> u64
    ensures size { result ≡ width_of (count_field (table_rows counts.now.counts.items) table) }
    ensures few { result ≤ 4 }
{
    if counts.rows(table) == 0 { 0 } else { 4 }
}

// How many bytes the numbers of rows of some tables have.
fn counts_size(counts: &TableCounts, tables: &[Table]) -> u64
    requires { length tables.now ≤ 20 }
    ensures size { result ≡ sum (map (λ table. width_of (count_field (table_rows counts.now.counts.items) table)) tables.now) }
    ensures few { result ≤ 80 }
{
    let mut total = 0;
    for table in tables {
        total += count_size(counts, *table);
    }
    total
}

/// Where the rows begin in the stream.
pub(crate) fn rows_place(counts: &TableCounts) -> u64
    ensures place { (sizes : told.StreamSizes) → result ≡ rows_place (sizes_by (table_rows counts.now.counts.items) sizes) }
    ensures few { result ≤ 104 }
{
    24 + counts_size(counts, &TABLES)
}

/// The numbers of rows that the stream `#~` tells, where it stands from 108 on and the heaps have these sizes. It errs at
/// the first byte that keeps the stream from having these fields, rows of these sizes, and zeros to a multiple of four.
pub fn read_tables_form(
    alloc: Global,
    stream: &[u8],
    sizes: StreamSizes,
) -> Result<TableCounts, TableFault>
    requires { 108 + length stream.now < 2 ^ 32 }
    ensures counts { IfOk result (λ c. c.counts.items ≡ counts_in (peeked 8 8 stream.now) 24 tables stream.now) }
    ensures found { OnOk result (tables_fault sizes stream.now ≡ None) }
    ensures fault { (fault : TableFault) → result ≡ Err fault → fault ≢ Memory → tables_fault sizes stream.now ≡ Some fault }
{
    let counts = read_table_header(alloc, stream, 108, sizes)?;
    let used = rows_place(&counts) + rows_size(&counts, sizes);
    match end_fault(108, used, stream) {
        None => Ok(counts),
        Some(fault) => Err(fault),
    }
}
