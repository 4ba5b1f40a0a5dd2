//! Uses of labels, constants and traps, and what they lead to.

use a64_base::{MachLabel, TrapCode, VCodeConstant};

/// What a use leads to.
#[derive(Clone, Copy, Debug)]
pub enum Target {
    /// A label.
    Label(MachLabel),
    /// A copy of a constant.
    Constant(VCodeConstant),
    /// A word that traps, of its own, which is recorded with the code.
    Trap(TrapCode),
    /// The end of the island that begins with the use.
    IslandEnd,
}

/// A use in a word of code.
#[derive(Clone, Copy, Debug)]
pub struct Use<K> {
    /// The place of the word, in bytes from the start of the code.
    pub offset: u32,
    /// What the use leads to.
    pub target: Target,
    /// The kind of use.
    pub kind: K,
    /// The place where the use stops, in bytes from the start of the code, once that is known.
    pub stop: Option<u32>,
}
