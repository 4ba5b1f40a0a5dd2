//! Why the program ends without its lines.

use a64_assembler::{AddError, EmitterError};
use std::{fmt, io};

/// Why the program ends without its lines.
#[derive(Debug, Drop)]
pub enum Fault {
    /// No constant was added.
    Add(AddError),
    /// The code is refused.
    Refused(EmitterError),
    /// A line could not be written.
    Write,
}

impl Fault {
    /// The status with which the program ends.
    pub fn status(&self) -> u8 {
        match self {
            Fault::Add(AddError::OutOfMemory) | Fault::Refused(EmitterError::OutOfMemory) => 5,
            Fault::Add(_) | Fault::Refused(_) => 1,
            Fault::Write => 4,
        }
    }
}

impl fmt::Display for Fault {
    fn fmt<W: fmt::Write>(&self, f: &mut fmt::Formatter<W>) -> fmt::Result {
        match self {
            Fault::Add(error) => write!(f, "no constant was added: {error}"),
            Fault::Refused(error) => write!(f, "the code is refused: {error}"),
            Fault::Write => write!(f, "write fault"),
        }
    }
}

impl From<AddError> for Fault {
    fn from(error: AddError) -> Fault {
        Fault::Add(error)
    }
}

impl From<EmitterError> for Fault {
    fn from(error: EmitterError) -> Fault {
        Fault::Refused(error)
    }
}

impl From<io::Error> for Fault {
    fn from(_error: io::Error) -> Fault {
        Fault::Write
    }
}
