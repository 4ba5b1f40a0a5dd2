//! The groups of instructions.

ghost use Rattle.std.specs.Prelude.{◌≡◌};
ghost use Rattle.a64_inst.specs.Groups.{group_of};

use crate::group_arms;
use crate::inst::Inst;

/// A group of instructions, by the classes of the Arm Architecture Reference Manual, C4.1.
///
/// A function over all instructions looks at the group first, and then goes on in a function over
/// the instructions of that group.
#[derive(Clone, Copy, Debug)]
pub enum Group {
    /// Instructions that are one word each, which is no use.
    Plain(PlainGroup),
    /// Branches, `nop`, `brk`, accesses to the flags, data, places for islands, and addresses of labels.
    Control,
    /// Sequences around tables, symbols and the stack, loops of atomic accesses, selects of vectors, and what has no
    /// word.
    Sequence,
    /// Calls, and returns that call another function.
    Call,
    /// Loads and stores, and addresses of their modes.
    Memory,
}

/// A group of instructions that are one word each, which is no use, and at which nothing is recorded.
#[derive(Clone, Copy, Debug)]
pub enum PlainGroup {
    /// Integer operations with immediates, moves of bitfields, and addresses near the code.
    Immediate,
    /// Integer operations on registers, and moves of them.
    Register,
    /// Operations on scalar floats, and moves of them.
    Float,
    /// Operations on vectors.
    Vector,
    /// Moves to, from and between lanes of vectors, extracts, and tables of bytes.
    VectorMove,
    /// Hints and barriers.
    System,
}

impl Inst {
    /// The group of the instruction.
    #[inline(always)]
    pub fn group(&self) -> Group
        ensures { result ≡ group_of self.now }
    {
        group_arms!(self)
    }
}
