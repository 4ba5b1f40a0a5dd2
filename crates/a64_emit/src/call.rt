//! Emission of calls, and of returns that call another function.

ghost use Rattle.std.specs.Prelude.{ℤ, ◌≡◌, ◌^◌, ◌<◌, [], ◌∷◌, ◌++◌, OnOk, OnErr, map, true};
ghost use Rattle.std.specs.List.{flat_map, list_all};
ghost use Rattle.a64_base.specs.declared.ir_type.IrType.{IrType};
ghost use Rattle.a64_inst.specs.declared.call.RetLocation.TheVariants.{Stack};
ghost use Rattle.a64_inst.specs.declared.group.Group.TheVariants as groups;
ghost use Rattle.a64_operand.specs.declared.virtuals.VirtualRegisters.TheVariants.{Refused};
ghost use Rattle.a64_inst.specs.CallOperands.{are_call_defs, has_return_frame};
ghost use Rattle.a64_inst.specs.Faults.{has_operands, is_restorable, can_restore};
ghost use Rattle.a64_inst.specs.Groups.{group_of};
ghost use Rattle.a64_inst.specs.MemoryOperands.{is_signed_64};
ghost use Rattle.a64_cells.specs.Shapes.{plain};
ghost use Rattle.a64_cells.specs.Cells.{keep, kept_cells, result_cells, pop_forms, call_cells, patchable_cells, restored_cell, result_load, leave_forms, return_cell, return_cells};
ghost use Rattle.a64_cells.specs.Words.{IsCalled, as_put, put_kept};
ghost use Rattle.a64_emit.specs.Emission.{linked, mapped, CanPut, PutsCells};

use crate::emit::{emit_plain_inst, put_words};
use crate::one_word::is_one_word;
use a64_base::{MemFlagsData, Reloc, UserStackMap};
use a64_buffer::MachBuffer;
use a64_cells::Callee;
use a64_cells::word::call::{call_word, leave_words, pop_words, return_word};
use a64_inst::{
    AMode, CallInfo, CallRetPair, EmitInfo, FrameLayout, Inst, RetLocation, ReturnCallInfo,
};
use a64_label_use::LabelUse;
use std::alloc::AllocError;

/// Records the symbol to which a call goes, where it goes to one.
fn record_callee(sink: &mut MachBuffer<'_, LabelUse>, callee: &Callee) -> Result<(), AllocError>
    ensures ok { OnOk result (sink.new ≡ linked callee.now sink.old) }
    ensures err { OnErr result (sink.new ≡ sink.old) }
{
    match callee {
        Callee::Symbol(name) => sink.add_reloc(Reloc::Arm64Call, *name, 0),
        Callee::Address(_) => Ok(()),
    }
}

/// Records a map of the stack, where there is one.
fn record_map(
    sink: &mut MachBuffer<'_, LabelUse>,
    kept: Option<UserStackMap>,
) -> Result<(), AllocError>
    ensures ok { OnOk result (sink.new ≡ mapped kept sink.old) }
    ensures err { OnErr result (sink.new ≡ sink.old) }
{
    match kept {
        Some(kept) => sink.push_user_stack_map(kept),
        None => Ok(()),
    }
}

/// The word of a call, at which the symbol is recorded; and behind it a map of the stack, where there is
/// one, and the call.
fn put_call(
    sink: &mut MachBuffer<'_, LabelUse>,
    word: u32,
    callee: &Callee,
    kept: Option<UserStackMap>,
) -> Result<(), AllocError>
    requires { CanPut sink.old (put_kept word callee.now kept ∷ []) }
    ensures { PutsCells result sink.old sink.new (put_kept word callee.now kept ∷ []) }
{
    record_callee(sink, callee)?;
    sink.put4(word)?;
    record_map(sink, kept)?;
    sink.add_call_site()
}

/// The load of a result that a function left on the stack, where one load loads it.
pub fn load_of_result(pair: &CallRetPair) -> Option<Inst>
    ensures { result ≡ result_load pair.now }
{
    match pair.location {
        RetLocation::Stack(off, ty) if Inst::has_load_form(ty) => {
            let mem = AMode::SPOffset { off };
            Some(Inst::gen_load(pair.vreg, mem, ty, MemFlagsData::trusted()))
        }
        _ => None,
    }
}

/// That an offset has 64 bits. The call does nothing else.
#[inline(always)]
fn is_offset(_off: i64)
    ensures { is_signed_64 _off ≡ true }
{}

/// That the offset of a result on the stack has 64 bits. The call does nothing else.
#[inline(always)]
fn has_offset(pair: &CallRetPair)
    ensures { (off : ℤ) (ty : IrType) → pair.now.location ≡ Stack off ty
        → is_signed_64 off ≡ true }
{
    match pair.location {
        RetLocation::Stack(off, _) => is_offset(off),
        RetLocation::Reg(..) => {}
    }
}

/// The load of a result that a function left on the stack; nothing of one in a register.
fn emit_result(
    sink: &mut MachBuffer<'_, LabelUse>,
    info: &EmitInfo,
    frame: &FrameLayout,
    pair: &CallRetPair,
) -> Result<(), AllocError>
    requires good { are_call_defs Refused (pair.now ∷ []) ≡ true }
    requires can { CanPut sink.old (map as_put (result_cells frame.now pair.now)) }
    ensures { PutsCells result sink.old sink.new (map as_put (result_cells frame.now pair.now)) }
{
    has_offset(pair);
    match load_of_result(pair) {
        Some(load) => emit_plain_inst(&load, sink, info, frame),
        None => Ok(()),
    }
}

/// The loads of the results that a function left on the stack.
fn emit_results(
    sink: &mut MachBuffer<'_, LabelUse>,
    info: &EmitInfo,
    frame: &FrameLayout,
    defs: &[CallRetPair],
) -> Result<(), AllocError>
    requires good { are_call_defs Refused defs.now ≡ true }
    requires can { CanPut sink.old (map as_put (flat_map (result_cells frame.now) defs.now)) }
    ensures { PutsCells result sink.old sink.new
        (map as_put (flat_map (result_cells frame.now) defs.now)) }
{
    for pair in defs {
        emit_result(sink, info, frame, pair)?;
    }
    Ok(())
}

/// The words that bring the stack pointer back behind a call, and the loads of its results.
fn emit_popped(
    sink: &mut MachBuffer<'_, LabelUse>,
    info: &EmitInfo,
    frame: &FrameLayout,
    pop: u32,
    defs: &[CallRetPair],
) -> Result<(), AllocError>
    requires good { are_call_defs Refused defs.now ≡ true }
    requires pop { pop < 2 ^ 31 }
    requires can { CanPut sink.old
        (map as_put (map plain (pop_forms pop) ++ flat_map (result_cells frame.now) defs.now)) }
    ensures { PutsCells result sink.old sink.new
        (map as_put (map plain (pop_forms pop) ++ flat_map (result_cells frame.now) defs.now)) }
{
    put_words(sink, pop_words(pop).as_slice())?;
    emit_results(sink, info, frame, defs)
}

/// A call, and behind it the loads of its results.
fn emit_call<T>(
    sink: &mut MachBuffer<'_, LabelUse>,
    info: &EmitInfo,
    frame: &FrameLayout,
    callee: &Callee,
    call: &CallInfo<T>,
    kept: Option<UserStackMap>,
) -> Result<(), AllocError>
    requires callee { IsCalled callee.now }
    requires good { are_call_defs Refused call.now.defs ≡ true }
    requires pop { call.now.callee_pop_size < 2 ^ 31 }
    requires can { CanPut sink.old (map as_put (keep kept
        (call_cells frame.now callee.now call.now.defs call.now.callee_pop_size))) }
    ensures { PutsCells result sink.old sink.new (map as_put (keep kept
        (call_cells frame.now callee.now call.now.defs call.now.callee_pop_size))) }
{
    let word = call_word(*callee);
    let defs = call.defs.as_slice();
    put_call(sink, word, callee, kept)?;
    emit_popped(sink, info, frame, call.callee_pop_size, defs)
}

/// A call that may be changed later, with all of its words.
fn emit_patchable(
    sink: &mut MachBuffer<'_, LabelUse>,
    callee: &Callee,
    pop: u32,
    kept: Option<UserStackMap>,
) -> Result<(), AllocError>
    requires callee { IsCalled callee.now }
    requires pop { pop < 2 ^ 31 }
    requires can { CanPut sink.old (map as_put (keep kept (patchable_cells callee.now pop))) }
    ensures { PutsCells result sink.old sink.new
        (map as_put (keep kept (patchable_cells callee.now pop))) }
{
    let word = call_word(*callee);
    let words = pop_words(pop);
    put_call(sink, word, callee, kept)?;
    put_words(sink, words.as_slice())?;
    sink.add_patchable_call_site(4 * (words.len() as u32 + 1))
}

/// The instructions that a frame restores.
fn emit_restored(
    sink: &mut MachBuffer<'_, LabelUse>,
    info: &EmitInfo,
    frame: &FrameLayout,
    restore: &[Inst],
) -> Result<(), AllocError>
    requires good { list_all (can_restore frame.now info.now Refused) restore.now ≡ true }
    requires can { CanPut sink.old
        (map as_put (map (restored_cell frame.now info.now) restore.now)) }
    ensures { PutsCells result sink.old sink.new
        (map as_put (map (restored_cell frame.now info.now) restore.now)) }
{
    for inst in restore {
        is_one_word(inst, frame, info);
        emit_plain_inst(inst, sink, info, frame)?;
    }
    Ok(())
}

/// The words of a return that calls, behind the restored instructions.
fn emit_leave<T>(
    sink: &mut MachBuffer<'_, LabelUse>,
    frame: &FrameLayout,
    callee: &Callee,
    call: &ReturnCallInfo<T>,
) -> Result<(), AllocError>
    requires callee { IsCalled callee.now }
    requires good { has_return_frame frame.now call.now.new_stack_arg_size ≡ true }
    requires can { CanPut sink.old (map as_put (map plain (leave_forms frame.now
        call.now.new_stack_arg_size call.now.key call.now.sign_return_address_all)
        ++ return_cell callee.now ∷ [])) }
    ensures { PutsCells result sink.old sink.new (map as_put (map plain (leave_forms frame.now
        call.now.new_stack_arg_size call.now.key call.now.sign_return_address_all)
        ++ return_cell callee.now ∷ [])) }
{
    let (size, key) = (call.new_stack_arg_size, call.key);
    let word = return_word(*callee);
    let words = leave_words(frame, size, key, call.sign_return_address_all);
    put_words(sink, words.as_slice())?;
    put_call(sink, word, callee, None)
}

/// A return that calls another function.
fn emit_return<T>(
    sink: &mut MachBuffer<'_, LabelUse>,
    info: &EmitInfo,
    frame: &FrameLayout,
    callee: &Callee,
    call: &ReturnCallInfo<T>,
) -> Result<(), AllocError>
    requires callee { IsCalled callee.now }
    requires restorable { is_restorable frame.now info.now Refused ≡ true }
    requires good { has_return_frame frame.now call.now.new_stack_arg_size ≡ true }
    requires can { CanPut sink.old (map as_put (return_cells frame.now info.now callee.now
        call.now.new_stack_arg_size call.now.key call.now.sign_return_address_all)) }
    ensures { PutsCells result sink.old sink.new (map as_put
        (return_cells frame.now info.now callee.now
        call.now.new_stack_arg_size call.now.key call.now.sign_return_address_all)) }
{
    emit_restored(sink, info, frame, frame.restore.as_slice())?;
    emit_leave(sink, frame, callee, call)
}

/// A call, or a return that calls another function.
#[inline(never)]
pub fn emit_calling(
    inst: &Inst,
    sink: &mut MachBuffer<'_, LabelUse>,
    settings: &EmitInfo,
    frame: &FrameLayout,
    kept: Option<UserStackMap>,
) -> Result<(), AllocError>
    requires group { group_of inst.now ≡ groups.Call }
    requires good { has_operands frame.now settings.now Refused inst.now ≡ true }
    requires can { CanPut sink.old (map as_put (kept_cells frame.now settings.now inst.now kept)) }
    ensures { PutsCells result sink.old sink.new
        (map as_put (kept_cells frame.now settings.now inst.now kept)) }
{
    match inst {
        Inst::Call { info } => {
            let callee = Callee::Symbol(info.dest);
            if info.patchable {
                emit_patchable(sink, &callee, info.callee_pop_size, kept)
            } else {
                emit_call(sink, settings, frame, &callee, info, kept)
            }
        }
        Inst::CallInd { info } => {
            emit_call(
                sink,
                settings,
                frame,
                &Callee::Address(info.dest),
                info,
                kept,
            )
        }
        Inst::ReturnCall { info } => {
            emit_return(sink, settings, frame, &Callee::Symbol(info.dest), info)
        }
        Inst::ReturnCallInd { info } => {
            emit_return(sink, settings, frame, &Callee::Address(info.dest), info)
        }
        _ => unreachable!(),
    }
}
