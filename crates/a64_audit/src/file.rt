//! What is audited.

use a64_lines::LinesError;

/// The words of code, and what is known of them.
#[derive(Drop)]
pub struct AuditFile {
    /// The words, in order; the first is at place 0.
    pub words: Vec<u32>,
    /// The places, in bytes, at which the trap word may stand.
    pub traps: Vec<u32>,
    /// Where data begins and ends, in bytes: the end is the first place behind it.
    pub ranges: Vec<(u32, u32)>,
}

/// Why bytes are not read as a file to audit.
pub type AuditFileError = LinesError;
