//! Registers in which values enter and leave functions.

use a64_base::{Reg, Writable};

/// An argument with which a function is entered (Cranelift's `ArgPair`).
#[derive(Clone, Copy, Debug)]
pub struct ArgPair {
    /// The register that the function knows it by.
    pub vreg: Writable<Reg>,
    /// The register in which it comes.
    pub preg: Reg,
}

/// A result with which a function is left (Cranelift's `RetPair`).
#[derive(Clone, Copy, Debug)]
pub struct RetPair {
    /// The register that the function knows it by.
    pub vreg: Reg,
    /// The register in which it goes.
    pub preg: Reg,
}
