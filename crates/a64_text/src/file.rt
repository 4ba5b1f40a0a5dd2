//! Files of items.

ghost use Rattle.std.specs.Prelude.{◌≡◌};
ghost use Rattle.a64_text.specs.declared.file.FileError.TheVariants.{OutOfMemory};

use a64_buffer::Constants;
use a64_inst::{EmitInfo, FrameLayout, Item};
use std::alloc::{AllocError, AllocFailed};
use thiserror::Error;

/// What a file says.
#[derive(Drop)]
pub struct File {
    /// The items, in order.
    pub items: Vec<Item>,
    /// The constants.
    pub constants: Constants,
    /// The frame.
    pub frame: FrameLayout,
    /// The settings.
    pub info: EmitInfo,
}

/// Why bytes are not read as a file.
#[derive(Debug, PartialEq, Eq, Drop, Error)]
pub enum FileError {
    /// The line of this number, counted from 1, is the first that is no entry.
    #[error("line {0}: not an entry")]
    BadLine(u64),
    /// Want of memory.
    #[error("out of memory")]
    OutOfMemory,
}

impl From<AllocError> for FileError {
    ghost from_gives = { λ _ error. error ≡ OutOfMemory };

    fn from(_error: AllocError) -> FileError {
        FileError::OutOfMemory
    }
}

impl<T: Drop> From<AllocFailed<T>> for FileError {
    ghost from_gives = { λ _ error. error ≡ OutOfMemory };

    fn from(_error: AllocFailed<T>) -> FileError {
        FileError::OutOfMemory
    }
}
