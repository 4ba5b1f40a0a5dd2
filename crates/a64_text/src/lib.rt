//! Reads the lines of a file of items.
#![tactic(auto)]

mod constant;
mod entry;
mod entry_name;
mod file;
mod float_imm;
mod logic;
mod make;
mod mov_imm;
mod name;
mod name_table;
mod read;
mod settings;
mod state;

pub use file::{File, FileError};
pub use read::read_file;
