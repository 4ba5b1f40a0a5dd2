//! Of the operands of loads and stores.

ghost use Rattle.std.specs.Prelude.{◌≡◌};
ghost use Rattle.a64_inst.specs.MemoryOperands as sets;
ghost use Rattle.a64_operand.specs.VectorOperands as vectors;

use crate::access::AccessRef;
use crate::fault::memory::mode::{are_operands, are_pair_parts, has_units};
use crate::fault::memory::scratch::needs_x17_beside;
use crate::frame::FrameLayout;
use crate::mode::{AMode, PairAMode};
use a64_base::{IrType, Reg};
use a64_operand::{
    VirtualRegisters, is_register, is_register_or_stack, is_register_or_zero, is_vector_register,
};
use a64_ops::AccessOp;

/// Whether a load or a store of this kind has such a register.
#[inline(always)]
pub fn is_data_register(virtuals: VirtualRegisters, op: AccessOp, reg: Reg) -> bool
    ensures { result ≡ sets.is_data_register virtuals op reg }
{
    if op.is_vector() {
        is_vector_register(virtuals, reg)
    } else {
        is_register_or_zero(virtuals, reg)
    }
}

/// Of a load or a store of one register.
#[tactic(auto, unfolding(crate::specs::MemoryOperands::are_access_operands))]
#[inline(always)]
pub fn are_access_operands(
    frame: &FrameLayout,
    virtuals: VirtualRegisters,
    access: &AccessRef<'_>,
) -> bool
    ensures { result ≡ sets.are_access_operands frame.now virtuals access.now }
{
    is_data_register(virtuals, access.op, access.reg)
        && are_operands(frame, virtuals, access.mem)
        && has_units(access.ty().bytes(), access.mem)
}

/// Of a pair of 64-bit registers.
#[tactic(auto, unfolding(crate::specs::MemoryOperands::are_pair_operands))]
pub fn are_pair_operands(virtuals: VirtualRegisters, rt: Reg, rt2: Reg, mem: &PairAMode) -> bool
    ensures { result ≡ sets.are_pair_operands virtuals rt rt2 mem.now }
{
    is_register_or_zero(virtuals, rt)
        && is_register_or_zero(virtuals, rt2)
        && are_pair_parts(virtuals, IrType::I64, mem)
}

/// Of a `VecLoadReplicate`.
#[tactic(auto, unfolding(a64_operand::specs::VectorOperands::are_replicate_operands))]
pub fn are_replicate_operands(virtuals: VirtualRegisters, rd: Reg, rn: Reg) -> bool
    ensures { result ≡ vectors.are_replicate_operands virtuals rd rn }
{
    is_vector_register(virtuals, rd) && is_register_or_stack(virtuals, rn)
}

/// Of a pair of vector registers, which moves a value of this type of each.
#[tactic(auto, unfolding(crate::specs::MemoryOperands::are_float_pair_operands))]
pub fn are_float_pair_operands(
    virtuals: VirtualRegisters,
    scale: IrType,
    rt: Reg,
    rt2: Reg,
    mem: &PairAMode,
) -> bool
    ensures { result ≡ sets.are_float_pair_operands virtuals scale rt rt2 mem.now }
{
    is_vector_register(virtuals, rt)
        && is_vector_register(virtuals, rt2)
        && are_pair_parts(virtuals, scale, mem)
}

/// Of a `LoadAddr`.
#[tactic(auto, unfolding(crate::specs::MemoryOperands::are_address_operands))]
pub fn are_address_operands(
    frame: &FrameLayout,
    virtuals: VirtualRegisters,
    rd: Reg,
    mem: &AMode,
) -> bool
    ensures { result ≡ sets.are_address_operands frame.now virtuals rd mem.now }
{
    is_register(virtuals, &rd)
        && are_operands(frame, virtuals, mem)
        && !needs_x17_beside(63, frame, mem)
}
