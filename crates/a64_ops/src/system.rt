//! The operators of system instructions.

/// The indirect branches that may go to a place in guarded memory (Cranelift's `BranchTargetType`; Arm Architecture
/// Reference Manual, C6.2, BTI).
#[derive(Clone, Copy, Debug, PartialEq, Eq)]
pub enum BranchTargetType {
    /// None.
    None,
    /// Calls (`blr`), and jumps by x16 or x17.
    C,
    /// Jumps (`br`).
    J,
    /// Calls and jumps.
    JC,
}
