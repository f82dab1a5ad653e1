// The numbers of rows that the stream `#~` tells (ECMA-335, II.24.2.6).
ghost use Rattle.std.specs.Prelude.{◌≡◌, ◌≢◌, ◌<◌, ◌≤◌, ◌+◌, ◌^◌, ◌++◌, length, Some, None, Err, IfOk, OnOk};
ghost use Rattle.cc_module.specs.Metadata.{tables, table_number};
ghost use Rattle.cc_tables.specs.Counts.{has_table, count_at, place_after, counts_in, position, table_rows};
ghost use Rattle.cc_layout.specs.Layout.{peeked};
ghost use Rattle.cc_tables.specs.Faults.{table_header_fault};
ghost use Rattle.cc_tables.specs.declared.fault.TableFault.{TableFault};
ghost use Rattle.cc_tables.specs.declared.fault.TableFault.TheVariants.{Memory};

use crate::ends::in_stream;
use crate::fault::TableFault;
use crate::table_stream::{TABLES, table_bit, table_header};
use crate::width::{RowCounts, StreamSizes};
use cc_layout::{first_fault, peek_number};
use cc_module::Table;
use std::alloc::{AllocError, Global};

/// The number of rows of each table, in the order of the tables.
#[derive(Debug, Drop)]
pub struct TableCounts {
    counts: Vec<u32>,
    ghost all: { length counts.items ≡ 20 },
}

// The place of a table among all.
fn position(table: Table) -> usize
    ensures place { result ≡ position table }
    ensures within { result < 20 }
{
    match table {
        Table::Module => 0,
        Table::TypeRef => 1,
        Table::TypeDef => 2,
        Table::Field => 3,
        Table::MethodDef => 4,
        Table::Param => 5,
        Table::InterfaceImpl => 6,
        Table::MemberRef => 7,
        Table::Constant => 8,
        Table::StandAloneSig => 9,
        Table::PropertyMap => 10,
        Table::Property => 11,
        Table::MethodSemantics => 12,
        Table::MethodImpl => 13,
        Table::TypeSpec => 14,
        Table::Assembly => 15,
        Table::AssemblyRef => 16,
        Table::GenericParam => 17,
        Table::MethodSpec => 18,
        Table::GenericParamConstraint => 19,
    }
}

impl RowCounts for TableCounts {
    ghost rows = { λ c. table_rows c.counts.items };

    fn count(&self, table: Table) -> usize {
        self.rows(table) as usize
    }
}

fn has_table(valid: u64, table: Table) -> bool
    ensures { result ≡ has_table valid table }
{
    valid / table_bit(table) % 2 == 1
}

// The number of rows of a table whose number would stand at this place; a table that is there has at least one.
fn count_at(valid: u64, table: Table, bytes: &[u8], place: u32) -> u32
    ensures count { result ≡ count_at valid place table bytes.now }
{
    if has_table(valid, table) {
        peek_number(bytes, place, 4).max(1) as u32
    } else {
        0
    }
}

// The place after the number of rows of a table.
fn place_after(valid: u64, table: Table, place: u32) -> u32
    requires { place < 2 ^ 31 }
    ensures place { result ≡ place_after valid place table }
    ensures within { result ≤ place + 4 }
{
    if has_table(valid, table) {
        place + 4
    } else {
        place
    }
}

fn counts_in(
    alloc: Global,
    valid: u64,
    tables: &[Table],
    bytes: &[u8],
) -> Result<Vec<u32>, AllocError>
    requires { length tables.now ≤ 20 }
    ensures { IfOk result (λ counts. counts.items ≡ counts_in valid 24 tables.now bytes.now) }
{
    let mut counts = Vec::new(alloc);
    let mut place = 24;
    for table in tables {
        counts.push(count_at(valid, *table, bytes, place))?;
        place = place_after(valid, *table, place);
    }
    Ok(counts)
}

impl TableCounts {
    /// The number of rows of a table.
    pub fn rows(&self, table: Table) -> u32
        ensures { result ≡ table_rows self.now.counts.items table }
    {
        self.counts[position(table)]
    }

    /// The numbers that stand in the stream, 0 for a table that isn't there, and 1 where the bytes end before.
    pub(crate) fn of_stream(alloc: Global, bytes: &[u8]) -> Result<TableCounts, AllocError>
        ensures { IfOk result (λ c. c.counts.items ≡ counts_in (peeked 8 8 bytes.now) 24 tables bytes.now) }
    {
        let valid = peek_number(bytes, 8, 8);
        let counts = counts_in(alloc, valid, &TABLES, bytes)?;
        Ok(TableCounts { counts })
    }
}

/// The numbers of rows that the stream `#~` tells, where it stands from `at` on and the heaps have these sizes. It errs at the
/// first field before the rows that is missing or differs.
pub fn read_table_header(
    alloc: Global,
    stream: &[u8],
    at: u32,
    sizes: StreamSizes,
) -> Result<TableCounts, TableFault>
    requires { at + length stream.now < 2 ^ 32 }
    ensures counts { IfOk result (λ c. c.counts.items ≡ counts_in (peeked 8 8 stream.now) 24 tables stream.now) }
    ensures found { OnOk result (table_header_fault at sizes stream.now ≡ None) }
    ensures fault { (fault : TableFault) → result ≡ Err fault → fault ≢ Memory → table_header_fault at sizes stream.now ≡ Some fault }
{
    let counts = TableCounts::of_stream(alloc, stream)?;
    let fields = table_header(alloc, &counts, sizes)?;
    match first_fault(&fields, stream, at) {
        None => Ok(counts),
        Some(fault) => Err(in_stream(fault)),
    }
}
