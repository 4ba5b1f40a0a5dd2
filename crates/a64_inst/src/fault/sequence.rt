//! Whether the operands of sequences around tables, symbols and the stack, of loops of atomic accesses, of selects of
//! vectors, and of what has no word, are in their sets.

ghost use Rattle.std.specs.Prelude.{◌≡◌};
ghost use Rattle.a64_inst.specs.declared.group.Group.TheVariants.{Sequence};
ghost use Rattle.a64_inst.specs.Groups.{group_of};
ghost use Rattle.a64_inst.specs.Faults.{has_operands};
ghost use Rattle.a64_inst.specs.SequenceOperands as sets;
ghost use Rattle.a64_operand.specs.AtomicOperands as atomic;
ghost use Rattle.a64_operand.specs.VectorOperands as vectors;

use crate::emission::EmitInfo;
use crate::frame::FrameLayout;
use crate::inst::Inst;
use crate::pair::{ArgPair, RetPair};
use crate::sequence_operands;
use a64_base::{IrType, Reg};
use a64_imms::Imm12;
use a64_operand::{
    VirtualRegisters, are_loop_operands, is_any_register, is_fixed_register, is_imm12,
    is_loop_result, is_other_register, is_register, is_register_or_zero, is_vector_register,
};
use a64_ops::AtomicRMWLoopOp;

/// Of an `Args`.
fn are_args(virtuals: VirtualRegisters, pairs: &[ArgPair]) -> bool
    ensures { result ≡ sets.are_args virtuals pairs.now }
{
    pairs.iter().all(|pair| {
        is_any_register(virtuals, pair.vreg.to_reg()) && is_any_register(virtuals, pair.preg)
    })
}

/// Of a `Rets`.
fn are_rets(virtuals: VirtualRegisters, pairs: &[RetPair]) -> bool
    ensures { result ≡ sets.are_rets virtuals pairs.now }
{
    pairs.iter().all(|pair| {
        is_any_register(virtuals, pair.vreg) && is_any_register(virtuals, pair.preg)
    })
}

/// Of a `JTSequence`.
#[tactic(auto, unfolding(crate::specs::SequenceOperands::are_table_operands))]
fn are_table_operands(virtuals: VirtualRegisters, ridx: Reg, rtmp1: &Reg, rtmp2: &Reg) -> bool
    ensures { result ≡ sets.are_table_operands virtuals ridx rtmp1.now rtmp2.now }
{
    is_register_or_zero(virtuals, ridx)
        && is_register(virtuals, rtmp1)
        && is_register(virtuals, rtmp2)
        && is_other_register(rtmp2, &ridx)
        && is_other_register(rtmp2, rtmp1)
}

/// Of a `StackProbeLoop`.
#[tactic(auto, unfolding(crate::specs::SequenceOperands::are_probe_operands))]
fn are_probe_operands(
    info: &EmitInfo,
    virtuals: VirtualRegisters,
    start: &Reg,
    end: Reg,
    step: Imm12,
) -> bool
    ensures { result ≡ sets.are_probe_operands info.now virtuals start.now end step }
{
    info.flags().enable_probestack
        && is_register(virtuals, start)
        && is_register_or_zero(virtuals, end)
        && is_imm12(step)
}

/// Of a `VecCSel`.
#[tactic(auto, unfolding(a64_operand::specs::VectorOperands::are_select_operands))]
fn are_select_operands(virtuals: VirtualRegisters, rd: Reg, rn: Reg, rm: Reg) -> bool
    ensures { result ≡ vectors.are_select_operands virtuals rd rn rm }
{
    is_vector_register(virtuals, rd)
        && (is_vector_register(virtuals, rn) && is_vector_register(virtuals, rm))
}

/// Of an `AtomicRMWLoop`.
fn are_rmw_loop_operands(
    virtuals: VirtualRegisters,
    ty: IrType,
    op: AtomicRMWLoopOp,
    addr: &Reg,
    operand: &Reg,
    oldval: &Reg,
    scratch1: &Reg,
    scratch2: &Reg,
) -> bool
    ensures { result
        ≡ atomic.are_rmw_loop_operands virtuals ty op addr.now operand.now oldval.now
        scratch1.now scratch2.now }
{
    are_loop_operands(virtuals, ty, addr, operand, oldval, scratch1)
        && is_loop_result(virtuals, op, scratch2)
}

/// Of an `AtomicCASLoop`.
fn are_cas_loop_operands(
    virtuals: VirtualRegisters,
    ty: IrType,
    addr: &Reg,
    expected: &Reg,
    replacement: &Reg,
    oldval: &Reg,
    scratch: &Reg,
) -> bool
    ensures { result
        ≡ atomic.are_cas_loop_operands virtuals ty addr.now expected.now replacement.now
        oldval.now scratch.now }
{
    are_loop_operands(virtuals, ty, addr, expected, oldval, scratch)
        && is_fixed_register(virtuals, 28, replacement)
}

/// Whether the operands of a sequence around a table, a symbol or the stack, of a loop of atomic accesses, of a select
/// of vectors, or of what has no word, are in their sets.
pub fn has_sequence_operands(
    inst: &Inst,
    frame: &FrameLayout,
    info: &EmitInfo,
    virtuals: VirtualRegisters,
) -> bool
    requires { group_of inst.now ≡ Sequence }
    ensures { result ≡ has_operands frame.now info.now virtuals inst.now }
{
    sequence_operands!(inst, info, virtuals)
}
