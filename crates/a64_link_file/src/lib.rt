//! Reads the units that are linked: the words, symbols and relocations of each, from lines of text.
#![tactic(auto)]

mod entry;
mod entry_line;
mod file;
mod reading;

pub use file::{LinkFile, LinkFileError};
pub use reading::read_link;
