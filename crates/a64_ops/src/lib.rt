//! The operators of AArch64 instructions, which instructions and encoders name.
#![tactic(auto)]

mod access;
mod arms;
mod float;
mod operator;
mod system;
mod vector;

pub use access::AccessOp;
pub use float::{FPUOp1, FPUOp2, FPUOp3, FpuRoundMode, FpuToIntOp, IntToFpuOp};
pub use operator::{ALUOp, ALUOp3, AtomicRMWLoopOp, AtomicRMWOp, BfmOp, BitOp, MoveWideOp};
pub use system::BranchTargetType;
pub use vector::{
    VecALUModOp, VecALUOp, VecExtendOp, VecLanesOp, VecMisc2, VecPairOp, VecRRLongOp,
    VecRRNarrowOp, VecRRPairLongOp, VecRRRLongModOp, VecRRRLongOp, VecShiftImmModOp, VecShiftImmOp,
};
