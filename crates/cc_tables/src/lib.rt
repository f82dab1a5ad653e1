//! The metadata of modules as bytes (ECMA-335, II.24).
#![tactic(auto)]

mod code;
mod columns;
mod counts;
mod ends;
mod entry;
mod fault;
mod forms;
mod headers;
mod heap;
mod heap_text;
mod laws;
mod numbering;
mod numbers;
mod order;
mod pad;
mod read;
mod read_row;
mod read_rows;
mod row;
mod signatures;
mod start;
mod table_stream;
mod tables_form;
mod user_strings;
mod user_strings_form;
mod width;
mod write;

pub use columns::rows_size;
pub use counts::{TableCounts, read_table_header};
pub use ends::end_fault;
pub use fault::TableFault;
pub use forms::form_fault;
pub use headers::{StreamLengths, read_headers};
pub use heap::HeapKind;
pub use laws::{columns_stand, headers_stand, written_tables};
pub use order::order_fault;
pub use read::read_metadata;
pub use start::read_start;
pub use tables_form::read_tables_form;
pub use user_strings_form::read_user_strings;
pub use width::StreamSizes;
pub use write::write_metadata;
