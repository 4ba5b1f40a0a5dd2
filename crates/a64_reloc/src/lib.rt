//! The lines of relocations: the names of their kinds, and a reader of a line.
#![tactic(auto)]

pub mod halves;
mod kind;
mod line;

pub use kind::{read_kind, reloc_name};
pub use line::read_reloc;
