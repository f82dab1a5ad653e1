// The rows of `#~`, table by table (ECMA-335, II.22 and II.24.2.6).
ghost use Rattle.std.specs.Prelude.{◌≡◌, ◌≢◌, ◌≤◌, ◌<◌, ◌+◌, ◌^◌, ◌++◌, [], ℕ, List, length, map, sum, true, false, drop, Err, Some, None, IfOk, IfSome, IfNone};
ghost use Rattle.std.specs.List.{flat_map};
ghost use Rattle.cc_module.specs.declared.table.Table as of;
ghost use Rattle.cc_module.specs.Rows.{Cell, all_cells, row_count};
ghost use Rattle.cc_module.specs.Metadata.{tables, names_of, blobs_of, table_number};
ghost use Rattle.cc_tables.specs.declared.fault.TableFault.{TableFault};
ghost use Rattle.cc_tables.specs.declared.fault.TableFault.TheVariants.{Memory};
ghost use Rattle.cc_tables.specs.declared.heap.HeapKind.TheVariants.{Names, Blobs};
ghost use Rattle.cc_tables.specs.Columns.{row_size, table_size, rows_size};
ghost use Rattle.cc_tables.specs.Counts.{table_rows};
ghost use Rattle.cc_tables.specs.Numbering.{sizes_by, heap_texts, IsHeap, IsNumbering};
ghost use Rattle.cc_tables.specs.Reading.{RowNumbers, table_numbers, tables_numbers, IsRow, AreRows, RowFault};
ghost use Rattle.cc_tables.specs.Progress.{HasMet, row_at, tables_from, IsReady, HasRead};

use crate::columns::{columns_of, table_size, widths_of};
use crate::counts::TableCounts;
use crate::fault::TableFault;
use crate::heap::Heap;
use crate::numbering::{Numbering, Slot};
use crate::numbers::read_numbers;
use crate::read_row::ReadRow;
use crate::row::Row;
use crate::width::StreamSizes;
use cc_base::{List, Text};
use cc_module::{Module, Table};
use std::alloc::{AllocError, Global};

/// What decides how rows are read: the numbers of rows, the sizes of the heaps, and the heaps.
#[derive(Clone, Copy)]
pub(crate) struct RowSource<'a> {
    pub(crate) counts: &'a TableCounts,
    pub(crate) sizes: StreamSizes,
    pub(crate) strings: &'a [u8],
    pub(crate) blobs: &'a [u8],
}

/// The rows read so far.
#[derive(Drop)]
pub(crate) struct RowReader {
    /// Where the next table begins, counted from the first row.
    place: usize,
    numbering: Numbering,
    /// Why the first row that is none was refused; behind it nothing is read.
    fault: Option<TableFault>,
}

/// Rows as a module without bodies, and the heaps that they use.
#[derive(Drop)]
pub(crate) struct RowsRead {
    pub(crate) content: Module,
    pub(crate) names: Heap,
    pub(crate) blobs: Heap,
}

// The number of a table (II.22).
fn table_number(table: Table) -> u8
    ensures { result ≡ table_number table }
{
    match table {
        Table::Module => 0x00,
        Table::TypeRef => 0x01,
        Table::TypeDef => 0x02,
        Table::Field => 0x04,
        Table::MethodDef => 0x06,
        Table::Param => 0x08,
        Table::InterfaceImpl => 0x09,
        Table::MemberRef => 0x0A,
        Table::Constant => 0x0B,
        Table::StandAloneSig => 0x11,
        Table::PropertyMap => 0x15,
        Table::Property => 0x17,
        Table::MethodSemantics => 0x18,
        Table::MethodImpl => 0x19,
        Table::TypeSpec => 0x1B,
        Table::Assembly => 0x20,
        Table::AssemblyRef => 0x23,
        Table::GenericParam => 0x2A,
        Table::MethodSpec => 0x2B,
        Table::GenericParamConstraint => 0x2C,
    }
}

// Whether columns hold these numbers.
fn hold(slots: &[Slot], numbers: &[u64]) -> bool
    ensures yes { result ≡ true → map (λ slot. slot.value) slots.now ≡ numbers.now }
    ensures no { result ≡ false → map (λ slot. slot.value) slots.now ≡ numbers.now → ⊥ }
{
    if slots.len() != numbers.len() {
        return false;
    }
    for i in 0..slots.len() {
        if slots[i].value != numbers[i] {
            return false;
        }
    }
    true
}

// The row that bytes begin with, `None` where they begin with none. Its columns are met.
fn read_row<R: ReadRow>(
    alloc: Global,
    source: &RowSource,
    bytes: &[u8],
    numbering: &mut Numbering,
) -> Result<Option<R>, AllocError>
    requires whole { IsNumbering numbering.old }
    requires room { row_size (sizes_by (table_rows source.now.counts.now.counts.items) source.now.sizes) R.of_table ≤ length bytes.now }
    ensures some { IfOk result (λ found. IfSome found (λ r. (before : List Cell) → HasMet numbering.old before → HasMet numbering.new (before ++ R.cells r) × ((place : ℕ) → IsRow source.now.strings.now source.now.blobs.now before (row_at (sizes_by (table_rows source.now.counts.now.counts.items) source.now.sizes) R.of_table place bytes.now) (R.cells r)))) }
    ensures none { IfOk result (λ found. IfNone found ((before : List Cell) → HasMet numbering.old before → (place : ℕ) (cells : List Cell) → IsRow source.now.strings.now source.now.blobs.now before (row_at (sizes_by (table_rows source.now.counts.now.counts.items) source.now.sizes) R.of_table place bytes.now) cells → ⊥)) }
    ensures whole { IfOk result (λ found. IfSome found (λ r. IsNumbering numbering.new)) }
{
    let mut numbers = Vec::new(alloc);
    let columns = columns_of(R::table());
    read_numbers(source.counts, source.sizes, columns, bytes, &mut numbers)?;
    let row = R::of_numbers(alloc, &numbers, source.strings, source.blobs)?;
    let met = numbering.slots.len();
    row.number(alloc, numbering)?;
    let (_, slots) = numbering.slots.split_at(met);
    if hold(slots, &numbers) {
        Ok(Some(row))
    } else {
        Ok(None)
    }
}

// The rows of a table, with which the bytes begin. Their columns are met.
fn read_table<R: ReadRow>(
    alloc: Global,
    source: &RowSource,
    bytes: &[u8],
    numbering: &mut Numbering,
) -> Result<List<R>, TableFault>
    requires whole { IsNumbering numbering.old }
    requires room { table_size (sizes_by (table_rows source.now.counts.now.counts.items) source.now.sizes) R.of_table ≤ length bytes.now }
    ensures whole { IfOk result (λ rows. IsNumbering numbering.new) }
    ensures count { IfOk result (λ rows. length rows ≡ table_rows source.now.counts.now.counts.items R.of_table) }
    ensures met { IfOk result (λ rows. (before : List Cell) → HasMet numbering.old before → HasMet numbering.new (before ++ flat_map R.cells rows)) }
    ensures rows { IfOk result (λ rows. (before : List Cell) → HasMet numbering.old before → AreRows source.now.strings.now source.now.blobs.now before (table_numbers (sizes_by (table_rows source.now.counts.now.counts.items) source.now.sizes) R.of_table 1 (table_rows source.now.counts.now.counts.items R.of_table) bytes.now) (flat_map R.cells rows)) }
    ensures fault { (fault : TableFault) → result ≡ Err fault → fault ≢ Memory → (before : List Cell) → HasMet numbering.old before → RowFault source.now.strings.now source.now.blobs.now before (table_numbers (sizes_by (table_rows source.now.counts.now.counts.items) source.now.sizes) R.of_table 1 (table_rows source.now.counts.now.counts.items R.of_table) bytes.now) fault }
{
    let table = R::table();
    let size = widths_of(source.counts, source.sizes, columns_of(table)) as usize;
    let mut rows = List::new(alloc);
    let mut rest = bytes;
    for place in 0..source.counts.rows(table) {
        match read_row(alloc, source, rest, numbering)? {
            Some(row) => rows.push(row)?,
            None => return Err(TableFault::BadTable(table_number(table), place + 1)),
        }
        let (_, after) = rest.split_at(size);
        rest = after;
    }
    Ok(rows)
}

impl RowReader {
    fn new(alloc: Global) -> Result<RowReader, AllocError>
        ensures met { IfOk result (λ reader. HasMet reader.numbering []) }
        ensures place { IfOk result (λ reader. reader.place ≡ 0) }
        ensures fault { IfOk result (λ reader. reader.fault ≡ None) }
    {
        Ok(RowReader {
            place: 0,
            numbering: Numbering::new(alloc)?,
            fault: None,
        })
    }

    // The rows of the next table; none behind a row that was refused.
    fn read<R: ReadRow>(&mut self, alloc: Global, source: &RowSource, bytes: &[u8]) -> List<R>
        requires { self.old.fault ≡ None → IsReady (sizes_by (table_rows source.now.counts.now.counts.items) source.now.sizes) bytes.now (tables_from R.of_table) self.old }
        ensures ready { self.new.fault ≡ None → IsReady (sizes_by (table_rows source.now.counts.now.counts.items) source.now.sizes) bytes.now (drop 1 (tables_from R.of_table)) self.new }
        ensures kept { self.new.fault ≡ None → self.old.fault ≡ None }
        ensures count { self.new.fault ≡ None → length result ≡ table_rows source.now.counts.now.counts.items R.of_table }
        ensures read { (all : List RowNumbers) (cells : List Cell) → HasRead source.now.strings.now source.now.blobs.now (sizes_by (table_rows source.now.counts.now.counts.items) source.now.sizes) bytes.now all (tables_from R.of_table) self.old cells → HasRead source.now.strings.now source.now.blobs.now (sizes_by (table_rows source.now.counts.now.counts.items) source.now.sizes) bytes.now all (drop 1 (tables_from R.of_table)) self.new (cells ++ flat_map R.cells result) }
    {
        if self.fault.is_some() {
            return List::new(alloc);
        }
        let (_, rest) = bytes.split_at(self.place);
        match read_table(alloc, source, rest, &mut self.numbering) {
            Ok(rows) => {
                self.place += table_size(source.counts, source.sizes, R::table()) as usize;
                rows
            }
            Err(fault) => {
                self.fault = Some(fault);
                List::new(alloc)
            }
        }
    }

    // The rows of all tables as a module without bodies; only some behind a row that was refused.
    fn read_all(
        &mut self,
        alloc: Global,
        source: &RowSource,
        bytes: &[u8],
        texts: List<Text>,
    ) -> Module
        requires { self.old.fault ≡ None → IsReady (sizes_by (table_rows source.now.counts.now.counts.items) source.now.sizes) bytes.now tables self.old }
        ensures read { (all : List RowNumbers) → HasRead source.now.strings.now source.now.blobs.now (sizes_by (table_rows source.now.counts.now.counts.items) source.now.sizes) bytes.now all tables self.old [] → HasRead source.now.strings.now source.now.blobs.now (sizes_by (table_rows source.now.counts.now.counts.items) source.now.sizes) bytes.now all [] self.new (all_cells result) }
        ensures counts { self.new.fault ≡ None → (table : of.Table) → row_count result table ≡ table_rows source.now.counts.now.counts.items table }
        ensures texts { result.texts ≡ texts }
        ensures bodies { result.bodies ≡ [] }
        ensures entry { result.entry ≡ 0 }
    {
        Module {
            modules: self.read(alloc, source, bytes),
            type_refs: self.read(alloc, source, bytes),
            type_defs: self.read(alloc, source, bytes),
            fields: self.read(alloc, source, bytes),
            methods: self.read(alloc, source, bytes),
            params: self.read(alloc, source, bytes),
            interface_impls: self.read(alloc, source, bytes),
            member_refs: self.read(alloc, source, bytes),
            constants: self.read(alloc, source, bytes),
            stand_alone_sigs: self.read(alloc, source, bytes),
            property_maps: self.read(alloc, source, bytes),
            properties: self.read(alloc, source, bytes),
            method_semantics: self.read(alloc, source, bytes),
            method_impls: self.read(alloc, source, bytes),
            type_specs: self.read(alloc, source, bytes),
            assemblies: self.read(alloc, source, bytes),
            assembly_refs: self.read(alloc, source, bytes),
            generic_params: self.read(alloc, source, bytes),
            method_specs: self.read(alloc, source, bytes),
            generic_param_constraints: self.read(alloc, source, bytes),
            bodies: List::new(alloc),
            texts,
            entry: 0,
        }
    }
}

/// The rows of all tables, which stand one table behind the other, as a module with these user strings and without bodies,
/// and the heaps that they use. It errs at the first row that is none (II.22).
pub(crate) fn read_rows(
    alloc: Global,
    source: &RowSource,
    bytes: &[u8],
    texts: List<Text>,
) -> Result<RowsRead, TableFault>
    requires { rows_size (sizes_by (table_rows source.now.counts.now.counts.items) source.now.sizes) ≤ length bytes.now }
    ensures rows { IfOk result (λ r. AreRows source.now.strings.now source.now.blobs.now [] (tables_numbers (sizes_by (table_rows source.now.counts.now.counts.items) source.now.sizes) tables bytes.now) (all_cells r.content)) }
    ensures counts { IfOk result (λ r. (table : of.Table) → row_count r.content table ≡ table_rows source.now.counts.now.counts.items table) }
    ensures names { IfOk result (λ r. IsHeap Names r.names × (heap_texts r.names ≡ names_of (all_cells r.content))) }
    ensures blobs { IfOk result (λ r. IsHeap Blobs r.blobs × (heap_texts r.blobs ≡ blobs_of (all_cells r.content))) }
    ensures texts { IfOk result (λ r. r.content.texts ≡ texts) }
    ensures bodies { IfOk result (λ r. r.content.bodies ≡ []) }
    ensures entry { IfOk result (λ r. r.content.entry ≡ 0) }
    ensures fault { (fault : TableFault) → result ≡ Err fault → fault ≢ Memory → RowFault source.now.strings.now source.now.blobs.now [] (tables_numbers (sizes_by (table_rows source.now.counts.now.counts.items) source.now.sizes) tables bytes.now) fault }
{
    let mut reader = RowReader::new(alloc)?;
    let content = reader.read_all(alloc, source, bytes, texts);
    let RowReader {
        numbering,
        fault,
        ..
    } = reader;
    if let Some(fault) = fault {
        return Err(fault);
    }
    let Numbering { names, blobs, .. } = numbering;
    Ok(RowsRead {
        content,
        names,
        blobs,
    })
}
