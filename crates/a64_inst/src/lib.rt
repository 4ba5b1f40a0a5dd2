//! AArch64 instructions, and what emission is told beside them.
#![tactic(auto)]

mod access;
mod arms;
mod call;
mod constant;
mod copied;
mod emission;
mod fault;
mod frame;
mod group;
mod inst;
mod item;
mod lists;
mod made_with;
mod makers;
mod mode;
mod mode_text;
mod own_fault;
mod pair;
mod place;

pub use crate::item::Item;
pub use a64_operand::{AtomicCAS128Args, Class, FPUOpRI, FPUOpRIMod, Lanes, VirtualRegisters};
pub use a64_ops::{
    ALUOp, ALUOp3, AccessOp, AtomicRMWLoopOp, AtomicRMWOp, BfmOp, BitOp, BranchTargetType, FPUOp1,
    FPUOp2, FPUOp3, FpuRoundMode, FpuToIntOp, IntToFpuOp, MoveWideOp, VecALUModOp, VecALUOp,
    VecExtendOp, VecLanesOp, VecMisc2, VecPairOp, VecRRLongOp, VecRRNarrowOp, VecRRPairLongOp,
    VecRRRLongModOp, VecRRRLongOp, VecShiftImmModOp, VecShiftImmOp,
};
pub use a64_plan::{ConstStep, const_plan};
pub use access::{Access, AccessRef};
pub use call::{CallArgPair, CallInfo, CallRetPair, RetLocation, ReturnCallInfo};
pub use emission::{EmitFlags, EmitInfo, EmitState};
pub use fault::OwnFault;
pub use frame::FrameLayout;
pub use group::{Group, PlainGroup};
pub use inst::Inst;
pub use mode::{AMode, MemLabel, PairAMode};
pub use pair::{ArgPair, RetPair};
pub use place::{Place, is_far, place_of};
