//! Why units are not linked.

ghost use Rattle.std.specs.Prelude.{◌≡◌, Some};
ghost use Rattle.a64_link.specs.declared.error.LinkError.TheVariants.{OutOfMemory};
ghost use Rattle.a64_link.specs.ErrorTexts.{error_text};

use a64_base::ExternalName;
use std::alloc::{AllocError, AllocFailed};
use std::error::Error;
use std::fmt;

/// Why units are not linked: the first of these that applies.
#[derive(Clone, Copy, Debug, PartialEq, Eq)]
pub enum LinkError {
    /// The unit with this index defines this symbol at a place that is not a multiple of 4 below
    /// its size in bytes.
    BadDefine(usize, ExternalName),
    /// The unit with this index has a relocation at this place, in bytes, of a kind that is not
    /// linked.
    UnsupportedReloc(usize, u32),
    /// The unit with this index has a relocation at this place, in bytes, that cannot stand there:
    /// the place is not a multiple of 4, its 4 or 8 bytes pass the end of the unit or overlap those
    /// of one before it, or it is a call with an addend or at a word that is no branch.
    BadSite(usize, u32),
    /// The symbol is defined twice.
    DefinedTwice(ExternalName),
    /// The symbol is used and not defined.
    Undefined(ExternalName),
    /// The unit with this index has a call, and could take 2^27 bytes or more with a thunk for each
    /// of its calls, so that one might not reach all of it.
    UnitTooLarge(usize),
    /// All units together could take 2^31 bytes or more.
    TooLarge,
    /// Want of memory.
    OutOfMemory,
}

impl fmt::Display for LinkError {
    ghost output = { λ error. Some (error_text error) };

    fn fmt<W: fmt::Write>(&self, f: &mut fmt::Formatter<W>) -> fmt::Result {
        match *self {
            LinkError::BadDefine(unit, name) => write!(f, "unit {unit}: bad symbol {}", name.0),
            LinkError::UnsupportedReloc(unit, place) => {
                write!(f, "unit {unit}: unsupported relocation {place}")
            }
            LinkError::BadSite(unit, place) => write!(f, "unit {unit}: bad site {place}"),
            LinkError::DefinedTwice(name) => write!(f, "symbol {}: defined twice", name.0),
            LinkError::Undefined(name) => write!(f, "symbol {}: not defined", name.0),
            LinkError::UnitTooLarge(unit) => write!(f, "unit {unit}: too large"),
            LinkError::TooLarge => f.write_str("code too large"),
            LinkError::OutOfMemory => f.write_str("out of memory"),
        }
    }
}

impl Error for LinkError {}

impl From<AllocError> for LinkError {
    ghost from_gives = { λ _ error. error ≡ OutOfMemory };

    fn from(_error: AllocError) -> LinkError {
        LinkError::OutOfMemory
    }
}

impl<T: Drop> From<AllocFailed<T>> for LinkError {
    ghost from_gives = { λ _ error. error ≡ OutOfMemory };

    fn from(_error: AllocFailed<T>) -> LinkError {
        LinkError::OutOfMemory
    }
}
