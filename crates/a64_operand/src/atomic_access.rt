//! Of the operands of atomic accesses.

ghost use Rattle.std.specs.Prelude.{◌≡◌};
ghost use Rattle.a64_operand.specs.AtomicOperands as sets;

use crate::atomic::AtomicCAS128Args;
use crate::operand::{
    is_fixed_register, is_register, is_register_or_stack, is_register_or_zero, is_same_register,
};
use crate::virtuals::VirtualRegisters;
use a64_base::{IrType, Reg, RegClass, RegKind};
use a64_ops::AtomicRMWLoopOp;

/// Whether an atomic access has values of a type.
fn is_atomic_type(ty: IrType) -> bool
    ensures { result ≡ sets.is_atomic_type ty }
{
    matches!(ty, IrType::I8 | IrType::I16 | IrType::I32 | IrType::I64)
}

/// Of an `AtomicRMW`.
#[tactic(auto, unfolding(crate::specs::AtomicOperands::are_rmw_operands))]
pub fn are_rmw_operands(virtuals: VirtualRegisters, ty: IrType, rs: Reg, rt: Reg, rn: Reg) -> bool
    ensures { result ≡ sets.are_rmw_operands virtuals ty rs rt rn }
{
    is_atomic_type(ty)
        && is_register_or_zero(virtuals, rs)
        && is_register(virtuals, &rt)
        && is_register_or_stack(virtuals, rn)
}

/// Of an `AtomicCAS`.
#[tactic(auto, unfolding(crate::specs::AtomicOperands::are_cas_operands))]
pub fn are_cas_operands(
    virtuals: VirtualRegisters,
    rd: Reg,
    rs: Reg,
    rt: Reg,
    rn: Reg,
    ty: IrType,
) -> bool
    ensures { result ≡ sets.are_cas_operands virtuals rd rs rt rn ty }
{
    is_atomic_type(ty)
        && (is_register_or_zero(virtuals, rd)
            && is_register_or_zero(virtuals, rs)
            && is_same_register(&rd, &rs))
        && (is_register_or_zero(virtuals, rt) && is_register_or_stack(virtuals, rn))
}

/// Whether a register can hold the low half of a pair.
fn is_pair_first(virtuals: VirtualRegisters, reg: Reg) -> bool
    ensures { result ≡ sets.is_pair_first virtuals reg }
{
    match reg.kind() {
        RegKind::Real(p) => match p.class() {
            RegClass::Int => p.hw_enc() <= 28 && p.hw_enc() % 2 == 0,
            RegClass::Float => false,
        },
        RegKind::Virtual { class, .. } => virtuals.are_allowed() && matches!(class, RegClass::Int),
    }
}

/// Whether a register may be the next behind another; a virtual one may be any.
fn is_next_register(a: &Reg, b: &Reg) -> bool
    ensures { result ≡ sets.is_next_register a.now b.now }
{
    match a.kind() {
        RegKind::Real(p) => match b.kind() {
            RegKind::Real(q) => p.class() == q.class() && q.hw_enc() == p.hw_enc() + 1,
            RegKind::Virtual { .. } => true,
        },
        RegKind::Virtual { .. } => true,
    }
}

/// Whether two registers can hold a pair.
fn is_register_pair(virtuals: VirtualRegisters, lo: Reg, hi: Reg) -> bool
    ensures { result ≡ sets.is_register_pair virtuals lo hi }
{
    is_pair_first(virtuals, lo) && is_register_or_zero(virtuals, hi) && is_next_register(&lo, &hi)
}

/// Of an `AtomicCAS128`.
#[tactic(auto, unfolding(crate::specs::AtomicOperands::are_cas128_operands))]
pub fn are_cas128_operands(virtuals: VirtualRegisters, args: &AtomicCAS128Args) -> bool
    ensures { result ≡ sets.are_cas128_operands virtuals args.now }
{
    let (rd_lo, rd_hi) = (args.rd_lo.to_reg(), args.rd_hi.to_reg());
    is_register_pair(virtuals, args.rs_lo, args.rs_hi)
        && is_register_pair(virtuals, args.rt_lo, args.rt_hi)
        && (is_register_or_zero(virtuals, rd_lo) && is_register_or_zero(virtuals, rd_hi))
        && (is_same_register(&rd_lo, &args.rs_lo) && is_same_register(&rd_hi, &args.rs_hi))
        && is_register_or_stack(virtuals, args.rn)
}

/// Whether a loop has values of a type, and the registers of its address, its operand, what was there, and whether
/// the store failed.
#[tactic(auto, unfolding(crate::specs::AtomicOperands::are_loop_operands))]
pub fn are_loop_operands(
    virtuals: VirtualRegisters,
    ty: IrType,
    addr: &Reg,
    operand: &Reg,
    oldval: &Reg,
    failed: &Reg,
) -> bool
    ensures { result
        ≡ sets.are_loop_operands virtuals ty addr.now operand.now oldval.now failed.now }
{
    is_atomic_type(ty)
        && (is_fixed_register(virtuals, 25, addr) && is_fixed_register(virtuals, 26, operand))
        && (is_fixed_register(virtuals, 27, oldval) && is_fixed_register(virtuals, 24, failed))
}

/// Whether the register of what a loop stores is the one for that; an exchange stores its operand, and has x0 to x30
/// or the zero register here.
pub fn is_loop_result(virtuals: VirtualRegisters, op: AtomicRMWLoopOp, reg: &Reg) -> bool
    ensures { result ≡ sets.is_loop_result virtuals op reg.now }
{
    match op {
        AtomicRMWLoopOp::Xchg => is_register_or_zero(virtuals, *reg),
        _ => is_fixed_register(virtuals, 28, reg),
    }
}

/// Of a `LoadAcquire` or a `StoreRelease`.
#[tactic(auto, unfolding(crate::specs::AtomicOperands::are_ordered_operands))]
pub fn are_ordered_operands(virtuals: VirtualRegisters, ty: IrType, rt: Reg, rn: Reg) -> bool
    ensures { result ≡ sets.are_ordered_operands virtuals ty rt rn }
{
    is_atomic_type(ty) && is_register_or_zero(virtuals, rt) && is_register_or_stack(virtuals, rn)
}
