//! What is kept of what a command makes.

use a64_emit::Code;
use a64_link::Linked;
use a64_stubs::Stubs;

/// What a command makes that is kept.
#[derive(Drop)]
pub enum Product {
    /// Assembled code.
    Code(Code),
    /// Linked code.
    Linked(Linked),
    /// Stubs.
    Stubs(Stubs),
}
