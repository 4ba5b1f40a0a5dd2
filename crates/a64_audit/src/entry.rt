//! Lines that say something of code.

/// What a line says.
#[derive(Clone, Copy)]
pub(crate) enum Entry {
    /// The word at a place, in bytes.
    Word {
        /// The place.
        place: u32,
        /// The word.
        word: u32,
    },
    /// A trap at a place, in bytes, with its code.
    Trap {
        /// The place.
        place: u32,
        /// The code.
        code: u8,
    },
    /// Data from one place to another, in bytes.
    Data {
        /// Where it begins.
        begin: u32,
        /// The first place behind it.
        end: u32,
    },
}
