//! Where the fields of rows stand.

/// Where a field stands in a word.
#[derive(Clone, Copy, Debug)]
pub enum Slot {
    /// The number of its lowest bit, and how many bits it has.
    Bits(u8, u8),
    /// One bit that stands twice: the size flag `sf` at bit 31 and the bit `N`, equal to it, at bit 22.
    Doubled,
}

/// Where a field stands in the words of a row.
#[derive(Clone, Copy, Debug)]
pub struct FieldAt {
    /// Its lowest bit.
    pub at: u8,
    /// How many bits it has.
    pub width: u8,
    /// Whether it is one bit that stands a second time, at 22.
    pub doubled: bool,
}
