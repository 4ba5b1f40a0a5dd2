//! What is wrong with instructions by themselves.

pub mod call;
pub mod control;
pub mod lone;
pub mod memory;
pub mod plain;
pub mod sequence;

/// What is wrong with an instruction by itself: the first of these that applies.
#[derive(Clone, Copy, Debug, PartialEq, Eq)]
pub enum OwnFault {
    /// An operand is outside of its set.
    BadOperand,
    /// The addressing mode does not exist.
    BadMode,
    /// A scratch register that the expansion needs is in use.
    ScratchConflict,
    /// A constant is not there.
    UnknownConstant,
}
