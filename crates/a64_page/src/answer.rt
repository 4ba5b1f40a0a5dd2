//! What a call answers.

/// What a call answers, of what stands in the page's buffer.
#[repr(C)]
#[derive(Clone, Copy, Debug)]
pub struct Answer {
    /// The status with which the program ends, as docs/FORMAT.md has it: 0 where all is well.
    pub status: i32,
    /// How many bytes there are to be put, which may be more than the buffer has room for.
    pub length: usize,
}
