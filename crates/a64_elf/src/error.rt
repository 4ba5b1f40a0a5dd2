//! Why no object is written.

ghost use Rattle.std.specs.Prelude.{◌≡◌};
ghost use Rattle.a64_elf.specs.declared.error.ElfError.TheVariants.{OutOfMemory};

use std::alloc::{AllocError, AllocFailed};
use std::error::Error;
use std::fmt;

/// Why no object is written.
#[derive(Clone, Copy, Debug, PartialEq, Eq)]
pub enum ElfError {
    /// The name of the section with this index has a NUL, which ends a name in the file.
    SectionName(usize),
    /// The name of the symbol with this index has a NUL, which ends a name in the file.
    SymbolName(usize),
    /// The relocation with this index is to a symbol that is none of the object.
    RelocationSymbol(usize),
    /// There are 2^32 symbols or more, marks and the one that is none with them.
    TooManySymbols,
    /// There are 65,278 sections or more, so that the header cannot count them.
    TooManySections,
    /// The header and the contents of sections have 2^32 bytes or more.
    TooLarge,
    /// Want of memory.
    OutOfMemory,
}

impl fmt::Display for ElfError {
    fn fmt<W: fmt::Write>(&self, f: &mut fmt::Formatter<W>) -> fmt::Result {
        match *self {
            ElfError::SectionName(index) => write!(f, "section {index}: NUL in its name"),
            ElfError::SymbolName(index) => write!(f, "symbol {index}: NUL in its name"),
            ElfError::RelocationSymbol(index) => write!(f, "relocation {index}: no symbol"),
            ElfError::TooManySymbols => f.write_str("too many symbols"),
            ElfError::TooManySections => f.write_str("too many sections"),
            ElfError::TooLarge => f.write_str("object too large"),
            ElfError::OutOfMemory => f.write_str("out of memory"),
        }
    }
}

impl Error for ElfError {}

impl From<AllocError> for ElfError {
    ghost from_gives = { λ _ error. error ≡ OutOfMemory };

    fn from(_error: AllocError) -> ElfError {
        ElfError::OutOfMemory
    }
}

impl<T: Drop> From<AllocFailed<T>> for ElfError {
    ghost from_gives = { λ _ error. error ≡ OutOfMemory };

    fn from(_error: AllocFailed<T>) -> ElfError {
        ElfError::OutOfMemory
    }
}
