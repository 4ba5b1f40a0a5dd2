//! Why code has no object.

ghost use Rattle.std.specs.Prelude.{◌≡◌};
ghost use Rattle.a64_object_file.specs.declared.error.ObjectFileError.TheVariants.{OutOfMemory};

use a64_base::ExternalName;
use std::alloc::{AllocError, AllocFailed};
use std::error::Error;
use std::fmt;

/// Why code has no object.
#[derive(Clone, Copy, Debug, PartialEq, Eq)]
pub enum ObjectFileError {
    /// The code has a relocation to this name, for which the object has no symbol.
    Unnamed(ExternalName),
    /// Want of memory.
    OutOfMemory,
}

impl fmt::Display for ObjectFileError {
    fn fmt<W: fmt::Write>(&self, f: &mut fmt::Formatter<W>) -> fmt::Result {
        match *self {
            ObjectFileError::Unnamed(name) => write!(f, "symbol {}: no name", name.0),
            ObjectFileError::OutOfMemory => f.write_str("out of memory"),
        }
    }
}

impl Error for ObjectFileError {}

impl From<AllocError> for ObjectFileError {
    ghost from_gives = { λ _ error. error ≡ OutOfMemory };

    fn from(_error: AllocError) -> ObjectFileError {
        ObjectFileError::OutOfMemory
    }
}

impl<T: Drop> From<AllocFailed<T>> for ObjectFileError {
    ghost from_gives = { λ _ error. error ≡ OutOfMemory };

    fn from(_error: AllocFailed<T>) -> ObjectFileError {
        ObjectFileError::OutOfMemory
    }
}
