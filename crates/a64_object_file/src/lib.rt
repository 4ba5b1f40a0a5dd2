//! From code to the parts of a relocatable object: its relocations, by the symbols of the object.
#![tactic(auto)]

mod error;
mod relocations;

pub use error::ObjectFileError;
pub use relocations::elf_relocations;
