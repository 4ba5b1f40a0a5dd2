//! Immediates: the constants that AArch64 instructions can hold.
//!
//! Each type is one class of immediates. Its constructor answers `None` exactly outside of the
//! class's set, and its calls give the bits of the instruction's field and the value.
#![tactic(auto)]

mod asimd_fp;
mod asimd_mov;
mod class;
mod flags;
mod fpu_shift;
mod imm12;
mod imm_logic;
mod move_wide;
mod offset;
mod run;
mod text;
mod unsigned;

pub use asimd_fp::ASIMDFPModImm;
pub use asimd_mov::ASIMDMovModImm;
pub use class::ImmClass;
pub use flags::NZCV;
pub use fpu_shift::{FPULeftShiftImm, FPURightShiftImm};
pub use imm_logic::ImmLogic;
pub use imm12::Imm12;
pub use move_wide::MoveWideConst;
pub use offset::{SImm7Scaled, SImm9, UImm12Scaled};
pub use unsigned::{ImmShift, UImm5, UImm6};
