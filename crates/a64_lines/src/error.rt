//! Why bytes are no file.

ghost use Rattle.std.specs.Prelude.{◌≡◌};
ghost use Rattle.a64_lines.specs.declared.error.LinesError.TheVariants.{OutOfMemory};

use std::alloc::{AllocError, AllocFailed};
use thiserror::Error;

/// Why bytes are not read as a file of lines.
#[derive(Debug, PartialEq, Eq, Drop, Error)]
pub enum LinesError {
    /// The line of this number, counted from 1, is the first that is no entry.
    #[error("line {0}: not an entry")]
    BadLine(u64),
    /// Want of memory.
    #[error("out of memory")]
    OutOfMemory,
}

impl From<AllocError> for LinesError {
    ghost from_gives = { λ _ error. error ≡ OutOfMemory };

    fn from(_error: AllocError) -> LinesError {
        LinesError::OutOfMemory
    }
}

impl<T: Drop> From<AllocFailed<T>> for LinesError {
    ghost from_gives = { λ _ error. error ≡ OutOfMemory };

    fn from(_error: AllocFailed<T>) -> LinesError {
        LinesError::OutOfMemory
    }
}
