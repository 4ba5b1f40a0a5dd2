//! The operators of shifts in floating-point registers, with their amounts.

use a64_imms::{FPULeftShiftImm, FPURightShiftImm};

/// A shift to the right (Cranelift's `FPUOpRI`).
#[derive(Clone, Copy, Debug)]
pub enum FPUOpRI {
    /// `ushr` of 32 bits: zeros come in, by a shift of each of two lanes of 32 bits.
    UShr32(FPURightShiftImm),
    /// `ushr` of 64 bits: zeros come in, by a shift of a lane of 64 bits.
    UShr64(FPURightShiftImm),
}

/// A shift to the left that keeps the bits below (Cranelift's `FPUOpRIMod`).
#[derive(Clone, Copy, Debug)]
pub enum FPUOpRIMod {
    /// `sli` of 32 bits: the bits below stay, by a shift of each of two lanes of 32 bits.
    Sli32(FPULeftShiftImm),
    /// `sli` of 64 bits: the bits below stay, by a shift of a lane of 64 bits.
    Sli64(FPULeftShiftImm),
}
