//! The registers of an atomic operation on a pair.

use a64_base::{MemFlagsData, Reg, Writable};

/// The registers of a compare and swap of 128 bits (Cranelift's `AtomicCAS128Args`). Of each pair the register
/// with the low half has an even number, from x0 to x28, and that with the high half is the next.
#[derive(Clone, Copy, Debug)]
pub struct AtomicCAS128Args {
    /// The low half of what was there: the register of `rs_lo`.
    pub rd_lo: Writable<Reg>,
    /// The high half of what was there: the register of `rs_hi`.
    pub rd_hi: Writable<Reg>,
    /// The low half of the value that is awaited.
    pub rs_lo: Reg,
    /// The high half of the value that is awaited.
    pub rs_hi: Reg,
    /// The low half of the new value.
    pub rt_lo: Reg,
    /// The high half of the new value.
    pub rt_hi: Reg,
    /// The address: x0 to x30, or the stack pointer.
    pub rn: Reg,
    /// What is known of the access.
    pub flags: MemFlagsData,
}
