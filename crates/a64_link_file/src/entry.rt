//! Lines that say something of units.

use a64_base::{ExternalName, Reloc};

/// What a line says.
#[derive(Clone, Copy)]
pub(crate) enum Entry {
    /// The base.
    Base(u64),
    /// A unit begins.
    Unit,
    /// Something inside a unit.
    Inside(Part),
}

/// What a line says inside a unit.
#[derive(Clone, Copy)]
pub(crate) enum Part {
    /// A symbol that it defines, and its place, in bytes.
    Define((ExternalName, u32)),
    /// A place, in bytes, and the word there.
    Word((u32, u32)),
    /// So many words that are zero.
    Space(u32),
    /// A relocation: its place, in bytes, its kind, its symbol, and what is added to that symbol's
    /// place.
    Reloc((u32, Reloc, ExternalName, i64)),
}
