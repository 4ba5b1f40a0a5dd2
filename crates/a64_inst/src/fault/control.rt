//! Whether the operands of branches, `nop`, accesses to the flags, data and addresses of
//! labels are in their sets.

ghost use Rattle.std.specs.Prelude.{◌≡◌};
ghost use Rattle.a64_inst.specs.declared.group.Group.TheVariants.{Control};
ghost use Rattle.a64_inst.specs.Groups.{group_of};
ghost use Rattle.a64_inst.specs.Faults.{has_operands};
ghost use Rattle.a64_inst.specs.ControlOperands as sets;

use crate::control_operands;
use crate::emission::EmitInfo;
use crate::frame::FrameLayout;
use crate::inst::Inst;
use a64_base::{BranchTarget, CondBrKind, Reg};
use a64_operand::{VirtualRegisters, is_offset, is_register_or_zero};

/// Whether a branch that reaches so many bytes can go to a target.
fn is_target(reach: u32, dest: BranchTarget) -> bool
    ensures { result ≡ sets.is_target reach dest }
{
    match dest {
        BranchTarget::Label(_) => true,
        BranchTarget::ResolvedOffset(offset) => is_offset(reach, offset),
    }
}

/// Of a `Jump`.
#[tactic(auto, unfolding(crate::specs::ControlOperands::are_jump_operands))]
fn are_jump_operands(dest: BranchTarget) -> bool
    ensures { result ≡ sets.are_jump_operands dest }
{
    is_target(1 << 27, dest)
}

/// Whether a conditional branch has such a test.
fn is_test(virtuals: VirtualRegisters, kind: CondBrKind) -> bool
    ensures { result ≡ sets.is_test virtuals kind }
{
    match kind {
        CondBrKind::Zero(reg, _) | CondBrKind::NotZero(reg, _) => {
            is_register_or_zero(virtuals, reg)
        }
        CondBrKind::Cond(_) => true,
    }
}

/// Of a `CondBr`.
#[tactic(auto, unfolding(crate::specs::ControlOperands::are_cond_br_operands))]
fn are_cond_br_operands(
    virtuals: VirtualRegisters,
    taken: BranchTarget,
    not_taken: BranchTarget,
    kind: CondBrKind,
) -> bool
    ensures { result ≡ sets.are_cond_br_operands virtuals taken not_taken kind }
{
    is_target(1 << 20, taken) && are_jump_operands(not_taken) && is_test(virtuals, kind)
}

/// Of a `TestBitAndBranch`.
#[tactic(auto, unfolding(crate::specs::ControlOperands::are_test_bit_operands))]
fn are_test_bit_operands(
    virtuals: VirtualRegisters,
    taken: BranchTarget,
    not_taken: BranchTarget,
    rn: Reg,
    bit: u8,
) -> bool
    ensures { result ≡ sets.are_test_bit_operands virtuals taken not_taken rn bit }
{
    is_target(1 << 15, taken)
        && are_jump_operands(not_taken)
        && is_register_or_zero(virtuals, rn)
        && bit < 64
}

/// Whether the operands of a branch, a `nop`, an access to the flags, a word of data or an
/// address of a label are in their sets.
#[inline(always)]
pub fn has_control_operands(
    inst: &Inst,
    frame: &FrameLayout,
    info: &EmitInfo,
    virtuals: VirtualRegisters,
) -> bool
    requires { group_of inst.now ≡ Control }
    ensures { result ≡ has_operands frame.now info.now virtuals inst.now }
{
    control_operands!(inst, virtuals)
}
