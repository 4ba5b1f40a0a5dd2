//! What is wrong with loads and stores by themselves.

mod constant;
mod mode;
pub mod operand;
pub mod scratch;

ghost use Rattle.std.specs.Prelude.{◌≡◌, ◌&&◌, ◌||◌, None, is_none, is_some, [], ◌∷◌};
ghost use Rattle.a64_ops.specs.Accesses.{literal_of};
ghost use Rattle.a64_inst.specs.declared.fault.OwnFault.TheVariants as own;
ghost use Rattle.a64_inst.specs.declared.group.Group.TheVariants.{Memory};
ghost use Rattle.a64_inst.specs.Accesses.{access_of};
ghost use Rattle.a64_inst.specs.Groups.{group_of};
ghost use Rattle.a64_inst.specs.Faults.{first_of, fault_with, has_operands, has_mode, has_scratch};
ghost use Rattle.a64_inst.specs.Modes.{constant_in};
ghost use Rattle.a64_inst.specs.MemoryOperands as sets;

use crate::access::AccessRef;
use crate::emission::EmitInfo;
use crate::fault::OwnFault;
use crate::fault::memory::operand::{
    are_access_operands, are_address_operands, are_float_pair_operands, are_pair_operands,
    are_replicate_operands, is_data_register,
};
use crate::frame::FrameLayout;
use crate::inst::Inst;
use crate::memory_operands;
use crate::mode::AMode;
use a64_base::IrType;
use a64_operand::{
    VirtualRegisters, are_cas_operands, are_cas128_operands, are_ordered_operands, are_rmw_operands,
};

/// What is wrong by itself with a load in the mode of a constant of such a size.
#[inline(always)]
fn pool_fault(
    access: &AccessRef<'_>,
    constant: Option<u32>,
    virtuals: VirtualRegisters,
) -> Option<OwnFault>
    ensures { result ≡ first_of ((
      sets.is_data_register virtuals access.now.op access.now.reg
          && (is_none (literal_of access.now.op)
          || sets.is_within_size constant access.now),
      own.BadOperand,
    )
        ∷ (is_some (literal_of access.now.op), own.BadMode)
        ∷ (is_some constant, own.UnknownConstant) ∷ []) }
{
    if !is_data_register(virtuals, access.op, access.reg) {
        return Some(OwnFault::BadOperand);
    }
    let Some(least) = constant::literal_bytes(access.op) else {
        return Some(OwnFault::BadMode);
    };
    match constant {
        Some(bytes) if bytes < least => Some(OwnFault::BadOperand),
        Some(_) => None,
        None => Some(OwnFault::UnknownConstant),
    }
}

/// What is wrong with a load or a store of one register by itself.
fn access_fault(
    access: &AccessRef<'_>,
    frame: &FrameLayout,
    constant: Option<u32>,
    virtuals: VirtualRegisters,
) -> Option<OwnFault>
    ensures { result ≡ first_of ((
      sets.are_access_operands frame.now virtuals access.now
          && sets.is_within constant access.now,
      own.BadOperand,
    )
        ∷ (sets.has_access_mode access.now.op access.now.mem, own.BadMode)
        ∷ (sets.has_access_scratch frame.now access.now, own.ScratchConflict)
        ∷ (is_none (constant_in access.now.mem) || is_some constant, own.UnknownConstant)
        ∷ []) }
{
    if !are_access_operands(frame, virtuals, access) || !constant::is_within(constant, access) {
        return Some(OwnFault::BadOperand);
    }
    if !mode::has_access_mode(access.op, access.mem) {
        return Some(OwnFault::BadMode);
    }
    if !scratch::access(frame, access) {
        return Some(OwnFault::ScratchConflict);
    }
    if !constant::is_known(constant, access.mem) {
        return Some(OwnFault::UnknownConstant);
    }
    None
}

/// Whether the operands of a pair, of the address of a mode, of an atomic access or of a load to all lanes are in their
/// sets.
fn has_operands(
    inst: &Inst,
    frame: &FrameLayout,
    info: &EmitInfo,
    virtuals: VirtualRegisters,
) -> bool
    requires group { group_of inst.now ≡ Memory }
    requires other { access_of inst.now ≡ None }
    ensures { result ≡ has_operands frame.now info.now virtuals inst.now }
{
    memory_operands!(inst, frame, virtuals)
}

/// Whether the mode exists of which an instruction gives the address, where it gives one.
fn has_mode(inst: &Inst) -> bool
    requires { access_of inst.now ≡ None }
    ensures { result ≡ has_mode inst.now }
{
    match inst {
        Inst::LoadAddr { rd: _, mem } => mode::has_address_mode(mem),
        _ => true,
    }
}

/// Whether the scratch registers that such an address needs are none of its own.
fn has_scratch(inst: &Inst, frame: &FrameLayout) -> bool
    requires group { group_of inst.now ≡ Memory }
    requires other { access_of inst.now ≡ None }
    ensures { result ≡ has_scratch frame.now inst.now }
{
    match inst {
        Inst::LoadAddr { rd, mem } => scratch::address(frame, &rd.to_reg(), mem),
        _ => true,
    }
}

/// What is wrong with a pair, with the address of a mode or with an atomic access by itself.
fn other_fault(
    inst: &Inst,
    frame: &FrameLayout,
    info: &EmitInfo,
    virtuals: VirtualRegisters,
) -> Option<OwnFault>
    requires group { group_of inst.now ≡ Memory }
    requires other { access_of inst.now ≡ None }
    ensures { result ≡ first_of (
        (has_operands frame.now info.now virtuals inst.now, own.BadOperand)
        ∷ (has_mode inst.now, own.BadMode)
        ∷ (has_scratch frame.now inst.now, own.ScratchConflict) ∷ []) }
{
    if !has_operands(inst, frame, info, virtuals) {
        Some(OwnFault::BadOperand)
    } else if !has_mode(inst) {
        Some(OwnFault::BadMode)
    } else if !has_scratch(inst, frame) {
        Some(OwnFault::ScratchConflict)
    } else {
        None
    }
}

/// What is wrong with a load or a store by itself, whatever its mode.
#[tactic(auto, using(crate::proofs::Groups::three_tests))]
#[inline(never)]
fn any_fault(
    inst: &Inst,
    frame: &FrameLayout,
    info: &EmitInfo,
    constant: Option<u32>,
    virtuals: VirtualRegisters,
) -> Option<OwnFault>
    requires { group_of inst.now ≡ Memory }
    ensures { result ≡ fault_with frame.now info.now constant virtuals inst.now }
{
    match inst.access_ref() {
        Some(access) => access_fault(&access, frame, constant, virtuals),
        None => other_fault(inst, frame, info, virtuals),
    }
}

/// What is wrong with a load or a store by itself, where the constant that it loads has such a size.
#[inline(always)]
pub fn memory_fault(
    inst: &Inst,
    frame: &FrameLayout,
    info: &EmitInfo,
    constant: Option<u32>,
    virtuals: VirtualRegisters,
) -> Option<OwnFault>
    requires { group_of inst.now ≡ Memory }
    ensures { result ≡ fault_with frame.now info.now constant virtuals inst.now }
{
    let Some(access) = inst.access_ref() else {
        return any_fault(inst, frame, info, constant, virtuals);
    };
    match access.mem {
        AMode::Const { addr: _ } => pool_fault(&access, constant, virtuals),
        _ => any_fault(inst, frame, info, constant, virtuals),
    }
}
