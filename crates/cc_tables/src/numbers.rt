// The numbers of a row's columns (ECMA-335, II.24.2.6).
ghost use Rattle.std.specs.Prelude.{◌≡◌, ◌≤◌, length, map, sum, OnOk};
ghost use Rattle.cc_module.specs.Metadata.{column_width};
ghost use Rattle.cc_tables.specs.Counts.{table_rows};
ghost use Rattle.cc_tables.specs.Numbering.{sizes_by};
ghost use Rattle.cc_tables.specs.Reading.{numbers_in};

use crate::counts::TableCounts;
use crate::width::{StreamSizes, column_width};
use cc_layout::number_at;
use cc_module::Column;
use std::alloc::AllocError;

/// Puts the numbers of columns that stand one after the other in place of those in `into`.
pub(crate) fn read_numbers(
    counts: &TableCounts,
    sizes: StreamSizes,
    columns: &[Column],
    bytes: &[u8],
    into: &mut Vec<u64>,
) -> Result<(), AllocError>
    requires { sum (map (column_width (sizes_by (table_rows counts.now.counts.items) sizes)) columns.now) ≤ length bytes.now }
    ensures { OnOk result (into.new.items ≡ numbers_in (sizes_by (table_rows counts.now.counts.items) sizes) columns.now bytes.now) }
{
    into.clear();
    let mut rest = bytes;
    for column in columns {
        let width = column_width(counts, sizes, *column);
        into.push(number_at(rest, width))?;
        let (_, after) = rest.split_at(width as usize);
        rest = after;
    }
    Ok(())
}
