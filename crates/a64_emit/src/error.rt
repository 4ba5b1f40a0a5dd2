//! Why items are refused.

ghost use Rattle.std.specs.Prelude.{◌≡◌, Some};
ghost use Rattle.a64_emit.specs.declared.error.EmitError.TheVariants.{OutOfMemory};
ghost use Rattle.a64_emit.specs.ErrorTexts.{error_text};

use a64_base::MachLabel;
use std::alloc::{AllocError, AllocFailed};
use std::error::Error;
use std::fmt;

/// Why items are refused: the first of these that applies.
#[derive(Clone, Copy, Debug, PartialEq, Eq)]
pub enum EmitError {
    /// An operand of the item with this index is outside of its set.
    BadOperand(usize),
    /// The addressing mode of the item with this index does not exist.
    BadMode(usize),
    /// The item with this index uses a scratch register that its expansion needs.
    ScratchConflict(usize),
    /// The item with this index loads a constant that is not there.
    UnknownConstant(usize),
    /// The label is bound twice.
    LabelBoundTwice(MachLabel),
    /// The label is used and not bound.
    UnboundLabel(MachLabel),
    /// The code is too large: it could reach 2^31 bytes.
    TooLarge,
    /// A use that can have no veneer may be too far from the label.
    OutOfReach(MachLabel),
    /// Want of memory.
    OutOfMemory,
}

impl fmt::Display for EmitError {
    ghost output = { λ error. Some (error_text error) };

    fn fmt<W: fmt::Write>(&self, f: &mut fmt::Formatter<W>) -> fmt::Result {
        match *self {
            EmitError::BadOperand(item) => write!(f, "item {item}: bad operand"),
            EmitError::BadMode(item) => write!(f, "item {item}: bad addressing mode"),
            EmitError::ScratchConflict(item) => write!(f, "item {item}: scratch register in use"),
            EmitError::UnknownConstant(item) => write!(f, "item {item}: unknown constant"),
            EmitError::LabelBoundTwice(label) => write!(f, "label L{}: bound twice", label.0),
            EmitError::UnboundLabel(label) => write!(f, "label L{}: not bound", label.0),
            EmitError::TooLarge => f.write_str("code too large"),
            EmitError::OutOfReach(label) => write!(f, "label L{}: out of reach", label.0),
            EmitError::OutOfMemory => f.write_str("out of memory"),
        }
    }
}

impl Error for EmitError {}

impl From<AllocError> for EmitError {
    ghost from_gives = { λ _ error. error ≡ OutOfMemory };

    fn from(_error: AllocError) -> EmitError {
        EmitError::OutOfMemory
    }
}

impl<T: Drop> From<AllocFailed<T>> for EmitError {
    ghost from_gives = { λ _ error. error ≡ OutOfMemory };

    fn from(_error: AllocFailed<T>) -> EmitError {
        EmitError::OutOfMemory
    }
}
