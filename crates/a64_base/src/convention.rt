//! Calling conventions.

/// A calling convention (Cranelift's `CallConv`, three of its conventions).
#[derive(Clone, Copy, Debug, PartialEq, Eq)]
pub enum CallConv {
    /// That of the Arm procedure call standard.
    SystemV,
    /// The one with tail calls.
    Tail,
    /// Apple's, for AArch64.
    AppleAarch64,
}
