//! Why the program ends without its report.

use a64_text::FileError;
use std::alloc::AllocError;
use thiserror::Error;

/// Why the program ends without its report.
#[derive(Debug, Drop, Error)]
pub enum Fault {
    /// The input is no file of items, or there is no memory for what it says.
    #[error(transparent)]
    File(#[from] FileError),
    /// Two items bind the label of this number.
    #[error("label L{0}: bound twice")]
    BoundTwice(u32),
    /// A branch names the label of this number, and no item binds it.
    #[error("label L{0}: not bound")]
    NotBound(u32),
    /// The item of this number goes by a distance in bytes, and so to no item.
    #[error("item {0}: a branch by a distance in bytes")]
    ByBytes(usize),
    /// A read failed.
    #[error("read fault")]
    Read,
    /// A write failed.
    #[error("write fault")]
    Write,
    /// Want of memory.
    #[error("out of memory")]
    Memory(#[from(alloc)] AllocError),
}

impl Fault {
    /// The status with which the program ends.
    pub fn status(&self) -> u8 {
        match self {
            Fault::Read => 3,
            Fault::Write => 4,
            Fault::Memory(_) | Fault::File(FileError::OutOfMemory) => 5,
            _ => 1,
        }
    }
}
