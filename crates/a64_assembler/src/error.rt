//! Why nothing was added to an assembler, and why an emitter refuses.

ghost use Rattle.std.specs.Prelude.{◌≡◌};
ghost use Rattle.a64_assembler.specs.declared.error.AddError.TheVariants.{OutOfMemory};
ghost use Rattle.a64_assembler.specs.declared.error.EmitterError.TheVariants as emitter;

use a64_base::MachLabel;
use a64_inst::OwnFault;
use std::alloc::{AllocError, AllocFailed};
use std::fmt;
use thiserror::Error;

/// Why nothing was added.
#[derive(Clone, Copy, Debug, PartialEq, Eq, Error)]
pub enum AddError {
    /// Of its kind, which is items, labels or constants, there would be 2^32.
    #[error("too many items, labels or constants")]
    TooMany,
    /// A constant has another length than 4, 8 or 16 bytes.
    #[error("a constant has another length than 4, 8 or 16 bytes")]
    BadLength,
    /// Want of memory.
    #[error("out of memory")]
    OutOfMemory,
}

impl From<AllocError> for AddError {
    ghost from_gives = { λ _ error. error ≡ OutOfMemory };

    fn from(_error: AllocError) -> AddError {
        AddError::OutOfMemory
    }
}

impl<T: Drop> From<AllocFailed<T>> for AddError {
    ghost from_gives = { λ _ error. error ≡ OutOfMemory };

    fn from(_error: AllocFailed<T>) -> AddError {
        AddError::OutOfMemory
    }
}

/// Why an emitter refuses.
#[derive(Clone, Copy, Debug, PartialEq, Eq)]
pub enum EmitterError {
    /// The instruction is wrong by itself.
    BadInstruction(OwnFault),
    /// The label is bound already.
    LabelBoundTwice(MachLabel),
    /// The emitter has not given the label out.
    UnknownLabel(MachLabel),
    /// The label is used and not bound.
    UnboundLabel(MachLabel),
    /// A use that can have no veneer is too far from the label.
    OutOfReach(MachLabel),
    /// The code is too large: it could reach 2^31 bytes.
    TooLarge,
    /// There would be 2^32 labels.
    TooMany,
    /// Want of memory.
    OutOfMemory,
}

/// What is wrong with an instruction by itself, in words.
fn fault_words(fault: OwnFault) -> &'static str {
    match fault {
        OwnFault::BadOperand => "bad operand",
        OwnFault::BadMode => "bad addressing mode",
        OwnFault::ScratchConflict => "scratch register in use",
        OwnFault::UnknownConstant => "unknown constant",
    }
}

impl fmt::Display for EmitterError {
    fn fmt<W: fmt::Write>(&self, f: &mut fmt::Formatter<W>) -> fmt::Result {
        match *self {
            EmitterError::BadInstruction(fault) => f.write_str(fault_words(fault)),
            EmitterError::LabelBoundTwice(label) => write!(f, "label L{}: bound twice", label.0),
            EmitterError::UnknownLabel(label) => write!(f, "label L{}: not given out", label.0),
            EmitterError::UnboundLabel(label) => write!(f, "label L{}: not bound", label.0),
            EmitterError::OutOfReach(label) => write!(f, "label L{}: out of reach", label.0),
            EmitterError::TooLarge => f.write_str("code too large"),
            EmitterError::TooMany => f.write_str("too many labels"),
            EmitterError::OutOfMemory => f.write_str("out of memory"),
        }
    }
}

impl std::error::Error for EmitterError {}

impl From<OwnFault> for EmitterError {
    ghost from_gives = { λ fault error. error ≡ emitter.BadInstruction fault };

    fn from(fault: OwnFault) -> EmitterError {
        EmitterError::BadInstruction(fault)
    }
}

impl From<AllocError> for EmitterError {
    ghost from_gives = { λ _ error. error ≡ emitter.OutOfMemory };

    fn from(_error: AllocError) -> EmitterError {
        EmitterError::OutOfMemory
    }
}

impl<T: Drop> From<AllocFailed<T>> for EmitterError {
    ghost from_gives = { λ _ error. error ≡ emitter.OutOfMemory };

    fn from(_error: AllocFailed<T>) -> EmitterError {
        EmitterError::OutOfMemory
    }
}
