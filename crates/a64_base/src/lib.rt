//! The small types that the layers of the AArch64 instruction layer share.
#![tactic(auto)]

mod cond;
mod convention;
mod entity;
mod ir_type;
mod key;
mod mem_flags;
mod reg;
mod reg_text;
mod registers;
mod set;
mod shift;
mod size;
mod target;
mod text;

pub use cond::{Cond, CondBrKind, TestBitAndBranchKind};
pub use convention::CallConv;
pub use entity::{ExternalName, MachLabel, Reloc, TrapCode, UserStackMap, VCodeConstant};
pub use ir_type::IrType;
pub use key::APIKey;
pub use mem_flags::MemFlagsData;
pub use reg::{PReg, RealReg, Reg, RegClass, RegKind, Writable};
pub use reg_text::{
    pretty_print_ireg, pretty_print_reg, pretty_print_reg_sized, pretty_print_vreg_element,
    pretty_print_vreg_scalar, pretty_print_vreg_vector, push_element, push_register, push_scalar,
    push_vector, show_ireg_sized, show_vreg_element, show_vreg_scalar, show_vreg_vector,
};
pub use registers::{
    PINNED_REG, fp_reg, link_reg, pinned_reg, spilltmp_reg, stack_reg, tmp2_reg, vreg,
    writable_fp_reg, writable_link_reg, writable_spilltmp_reg, writable_stack_reg,
    writable_tmp2_reg, writable_vreg, writable_xreg, writable_zero_reg, xreg, zero_reg,
};
pub use set::PRegSet;
pub use shift::{ExtendOp, ShiftOp, ShiftOpAndAmt, ShiftOpShiftImm};
pub use size::{OperandSize, ScalarSize, VectorSize};
pub use target::BranchTarget;
pub use text::{PrettyPrint, Text, push_numbered};
