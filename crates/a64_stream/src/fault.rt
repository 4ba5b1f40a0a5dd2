//! Why the program ends without its lines.

use a64_emit::EmitError;
use std::alloc::{AllocError, AllocFailed};
use std::{fmt, io};

/// Why the program ends without its lines.
#[derive(Debug, Drop)]
pub enum Fault {
    /// The words are no command.
    Usage,
    /// The items are refused.
    Refused(EmitError),
    /// Want of memory.
    Memory,
    /// A line could not be written.
    Write,
}

impl Fault {
    /// The status with which the program ends.
    pub fn status(&self) -> u8 {
        match self {
            Fault::Refused(_) => 1,
            Fault::Usage => 2,
            Fault::Write => 4,
            Fault::Memory => 5,
        }
    }
}

impl fmt::Display for Fault {
    fn fmt<W: fmt::Write>(&self, f: &mut fmt::Formatter<W>) -> fmt::Result {
        match self {
            Fault::Usage => write!(f, "usage: stream [[make] mixed|branches N | uses N]"),
            Fault::Refused(error) => write!(f, "the items are refused: {error:?}"),
            Fault::Memory => write!(f, "out of memory"),
            Fault::Write => write!(f, "write fault"),
        }
    }
}

impl From<AllocError> for Fault {
    fn from(_error: AllocError) -> Fault {
        Fault::Memory
    }
}

impl<T: Drop> From<AllocFailed<T>> for Fault {
    fn from(_error: AllocFailed<T>) -> Fault {
        Fault::Memory
    }
}

impl From<EmitError> for Fault {
    fn from(error: EmitError) -> Fault {
        match error {
            EmitError::OutOfMemory => Fault::Memory,
            _ => Fault::Refused(error),
        }
    }
}

impl From<io::Error> for Fault {
    fn from(_error: io::Error) -> Fault {
        Fault::Write
    }
}
