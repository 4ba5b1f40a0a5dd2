//! What an audit finds.

/// What an audit of code finds first.
#[derive(Clone, Copy, Debug, PartialEq, Eq)]
pub enum Verdict {
    /// Nothing: each word outside the data is an instruction, or the trap word at a named place, and each
    /// direct branch stays inside the code and outside the data.
    Clean,
    /// The range of this index, from 0, is empty, not of whole words, past the end of the code, or not
    /// behind the one before it.
    BadRange(usize),
    /// The word at this place, in bytes, is no instruction, and no named trap.
    UnknownWord(u32),
    /// The direct branch at this place, in bytes, leads out of the code.
    OutOfCode(u32),
    /// The direct branch at this place, in bytes, leads into data.
    IntoData(u32),
}
