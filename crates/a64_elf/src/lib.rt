//! ELF64 relocatable objects for AArch64, from sections, symbols and relocations to the bytes of the
//! file.
#![tactic(auto)]

mod error;
mod fields;
mod layout;
mod object;
mod section;
mod tables;
mod writing;

pub use error::ElfError;
pub use layout::write_sections;
pub use object::{Global, Mark, MarkKind, Object, Relocation, RelocationKind};
pub use section::{Alignment, Section, SectionKind};
pub use writing::write_object;
