//! A disassembler by rows, and its reader: words as the texts of their forms, and back.
#![tactic(auto)]

mod file;
mod form;
mod reading;
mod shown;

pub use file::{ShownFile, ShownFileError};
pub use form::{print_form, read_form};
pub use reading::{read_shown, read_shown_word};
pub use shown::{show_word, shown_listing};
