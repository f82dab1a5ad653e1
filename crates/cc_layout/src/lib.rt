//! Numbers and field layouts of binary formats: read from bytes, compared with them and written.
#![tactic(auto)]

mod compare;
mod compressed;
mod field;
mod number;
mod write;

pub use compare::{first_fault, number_at, peek_number};
pub use compressed::{split_compressed, write_compressed};
pub use field::{Field, FieldFault};
pub use number::{split_u8, split_u16, split_u32, split_u64};
pub use write::{write_fields, write_number};
