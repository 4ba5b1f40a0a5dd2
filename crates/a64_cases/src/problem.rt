//! Why a case does not pass.

use std::alloc::{AllocError, AllocFailed, Global};
use std::io;
use thiserror::Error;

/// Why a case does not pass.
#[derive(Debug, Drop, Error)]
pub enum Problem {
    /// Something came that is not wanted.
    #[error("{what}\n  wanted: {wanted}\n  came:   {came}")]
    Differs {
        /// What it is.
        what: &'static str,
        /// What was wanted of it.
        wanted: String,
        /// What came.
        came: String,
    },
    /// The case is not written as it should be.
    #[error("cannot be read: {0}")]
    Unreadable(&'static str),
    /// Want of memory.
    #[error("out of memory")]
    Memory,
    /// A read or a write of this program failed.
    #[error("the streams failed")]
    Streams,
}

impl From<AllocError> for Problem {
    fn from(_error: AllocError) -> Problem {
        Problem::Memory
    }
}

impl<T: Drop> From<AllocFailed<T>> for Problem {
    fn from(_error: AllocFailed<T>) -> Problem {
        Problem::Memory
    }
}

impl From<io::Error> for Problem {
    fn from(_error: io::Error) -> Problem {
        Problem::Streams
    }
}

/// The most bytes of a text that are shown.
const SHOWN: usize = 2000;

/// A text of bytes that need be none, and may be long.
fn shown(alloc: Global, bytes: &[u8]) -> Result<String, AllocError> {
    let front = &bytes[..bytes.len().min(SHOWN)];
    String::from_utf8_lossy(alloc, front)
}

/// Nothing where the bytes are those that are wanted, and else the problem.
pub fn same_bytes(
    alloc: Global,
    what: &'static str,
    wanted: &[u8],
    came: &[u8],
) -> Result<(), Problem> {
    if wanted == came {
        return Ok(());
    }
    Err(Problem::Differs {
        what,
        wanted: shown(alloc, wanted)?,
        came: shown(alloc, came)?,
    })
}

/// Nothing where the numbers are the same, and else the problem.
pub fn same_number(
    alloc: Global,
    what: &'static str,
    wanted: u64,
    came: u64,
) -> Result<(), Problem> {
    if wanted == came {
        return Ok(());
    }
    Err(Problem::Differs {
        what,
        wanted: format!(in alloc; "{wanted}")?,
        came: format!(in alloc; "{came}")?,
    })
}
