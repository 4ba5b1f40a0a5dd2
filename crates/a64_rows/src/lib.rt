//! The words of AArch64 instructions: a table of rows, the word of a row with values for its fields, and the row and the
//! values of a word.
#![tactic(auto)]

mod candidate_rows;
mod decoder;
mod entries;
mod field;
mod limits;
mod row_entry;
mod row_limits;
mod row_table;
mod slots;
mod words;

pub use decoder::decode_word;
pub use row_limits::meets;
pub use row_table::Row;
pub use slots::{FieldAt, Slot};
pub use words::{Form, pack, word_of};
