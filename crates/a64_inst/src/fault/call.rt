//! What is wrong with calls by themselves, and with returns that call.

ghost use Rattle.std.specs.Prelude.{◌≡◌, None};
ghost use Rattle.a64_inst.specs.declared.group.Group.TheVariants.{Call};
ghost use Rattle.a64_inst.specs.Groups.{group_of};
ghost use Rattle.a64_inst.specs.Faults.{fault_with, has_operands, has_scratch, is_restorable};
ghost use Rattle.a64_inst.specs.CallOperands as sets;

use crate::access::load_of;
use crate::call::{CallArgPair, CallRetPair, RetLocation};
use crate::call_operands;
use crate::emission::EmitInfo;
use crate::fault::OwnFault;
use crate::fault::memory::operand::is_data_register;
use crate::fault::memory::scratch::is_addend;
use crate::frame::FrameLayout;
use crate::inst::Inst;
use crate::place::is_numbered;
use a64_base::Reg;
use a64_operand::{VirtualRegisters, is_any_register, is_register_or_zero};

/// Of what a call passes.
fn uses(virtuals: VirtualRegisters, pairs: &[CallArgPair]) -> bool
    ensures { result ≡ sets.are_call_uses virtuals pairs.now }
{
    pairs.iter().all(|pair| {
        is_any_register(virtuals, pair.vreg) && is_any_register(virtuals, pair.preg)
    })
}

/// Of a result, which goes into a register from where the function leaves it.
fn result_at(virtuals: VirtualRegisters, vreg: Reg, location: RetLocation) -> bool
    ensures { result ≡ sets.is_result_at virtuals vreg location }
{
    match location {
        RetLocation::Reg(preg, _) => {
            is_any_register(virtuals, vreg) && is_any_register(virtuals, preg)
        }
        RetLocation::Stack(_, ty) => {
            Inst::has_load_form(ty)
                && is_data_register(virtuals, load_of(ty), vreg)
                && !is_numbered(16, &vreg)
        }
    }
}

/// Of what a call gives back.
fn defs(virtuals: VirtualRegisters, pairs: &[CallRetPair]) -> bool
    ensures { result ≡ sets.are_call_defs virtuals pairs.now }
{
    pairs.iter().all(|pair| result_at(virtuals, pair.vreg.to_reg(), pair.location))
}

/// Of a call, beside its address.
#[tactic(auto, unfolding(crate::specs::CallOperands::are_call_operands))]
fn are_call_operands(
    virtuals: VirtualRegisters,
    passed: &[CallArgPair],
    results: &[CallRetPair],
    callee_pop_size: u32,
) -> bool
    ensures { result
        ≡ sets.are_call_operands virtuals passed.now results.now callee_pop_size }
{
    uses(virtuals, passed) && defs(virtuals, results) && callee_pop_size < 1 << 31
}

/// Whether a frame can be left for a call with so many bytes of arguments on the stack.
fn has_return_frame(frame: &FrameLayout, size: u32) -> bool
    ensures { result ≡ sets.has_return_frame frame.now size }
{
    frame.setup_area_size % 8 == 0
        && frame.setup_area_size <= 504
        && size <= frame.tail_args_size
        && frame.tail_args_size - size < 1 << 31
}

/// Of a return that calls, beside its address.
#[tactic(auto, unfolding(crate::specs::CallOperands::are_return_operands))]
fn are_return_operands(
    frame: &FrameLayout,
    virtuals: VirtualRegisters,
    restorable: bool,
    passed: &[CallArgPair],
    new_stack_arg_size: u32,
) -> bool
    ensures { result
        ≡ sets.are_return_operands frame.now virtuals restorable passed.now new_stack_arg_size }
{
    uses(virtuals, passed) && has_return_frame(frame, new_stack_arg_size) && restorable
}

/// Whether the operands of a call, or of a return that calls, are in their sets.
fn has_call_operands(
    inst: &Inst,
    frame: &FrameLayout,
    _info: &EmitInfo,
    virtuals: VirtualRegisters,
    restorable: bool,
) -> bool
    requires group { group_of inst.now ≡ Call }
    requires restorable { restorable ≡ is_restorable frame.now _info.now virtuals }
    ensures { result ≡ has_operands frame.now _info.now virtuals inst.now }
{
    call_operands!(inst, frame, virtuals, restorable)
}

/// Whether x16 is not where a return that calls goes, where it is needed to move the stack pointer.
#[tactic(auto, unfolding(crate::specs::CallOperands::has_return_scratch))]
fn has_return_scratch(frame: &FrameLayout, dest: &Reg, size: u32) -> bool
    ensures { result ≡ sets.has_return_scratch frame.now dest.now size }
{
    is_addend(frame.tail_args_size.saturating_sub(size)) || !is_numbered(16, dest)
}

/// Whether the scratch register that a call needs, or a return that calls, is none of its own.
fn has_call_scratch(inst: &Inst, frame: &FrameLayout, _info: &EmitInfo) -> bool
    requires group { group_of inst.now ≡ Call }
    ensures { result ≡ has_scratch frame.now inst.now }
{
    match inst {
        Inst::ReturnCallInd { info } => {
            has_return_scratch(frame, &info.dest, info.new_stack_arg_size)
        }
        _ => true,
    }
}

/// What is wrong with a call by itself, or with a return that calls.
pub fn call_fault(
    inst: &Inst,
    frame: &FrameLayout,
    info: &EmitInfo,
    virtuals: VirtualRegisters,
    restorable: bool,
) -> Option<OwnFault>
    requires group { group_of inst.now ≡ Call }
    requires restorable { restorable ≡ is_restorable frame.now info.now virtuals }
    ensures { result ≡ fault_with frame.now info.now None virtuals inst.now }
{
    if !has_call_operands(inst, frame, info, virtuals, restorable) {
        Some(OwnFault::BadOperand)
    } else if !has_call_scratch(inst, frame, info) {
        Some(OwnFault::ScratchConflict)
    } else {
        None
    }
}
