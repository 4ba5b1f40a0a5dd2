//! What is read for linking.

use a64_lines::LinesError;
use a64_link::Unit;

/// Units, and where they are linked for.
#[derive(Drop)]
pub struct LinkFile {
    /// The address at which the first byte of the linked code will stand. It is 0 where no line tells
    /// it.
    pub base: u64,
    /// The units, in order.
    pub units: Vec<Unit>,
}

/// Why bytes are not read as a file of units.
pub type LinkFileError = LinesError;
