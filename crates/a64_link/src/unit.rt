//! What is linked, and what comes of it.

use a64_base::{ExternalName, Reloc};

/// One unit, with what it defines and what it asks for.
#[derive(Drop)]
pub struct Unit {
    /// Its words; the first is at place 0.
    pub words: Vec<u32>,
    /// The symbols that it defines, each at a place, in bytes.
    pub defines: Vec<(ExternalName, u32)>,
    /// Its relocations, each at a place, in bytes, of a kind, to a symbol and a number more.
    pub relocs: Vec<(u32, Reloc, ExternalName, i64)>,
}

/// Units that are linked.
#[derive(Drop)]
pub struct Linked {
    /// The words of all; the first is at place 0.
    pub words: Vec<u32>,
    /// The place, in bytes, of each unit.
    pub starts: Vec<u32>,
    /// The symbols with their places, in bytes, by number.
    pub symbols: Vec<(ExternalName, u32)>,
    /// The places, in bytes, of the thunks, in order.
    pub thunks: Vec<u32>,
}

/// What a unit asks for: at a place, of a kind, to a symbol and a number more.
pub(crate) type Relocation = (u32, Reloc, ExternalName, i64);

/// Where a symbol is defined.
#[derive(Clone, Copy)]
pub(crate) struct Symbol {
    /// The number of the unit that defines it.
    pub unit: usize,
    /// Its place there, in bytes.
    pub place: u32,
}
