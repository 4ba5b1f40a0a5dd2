//! How many words calls have, and returns that call another function.

ghost use Rattle.std.specs.Prelude.{ℤ, ◌≡◌, ◌≤◌, ◌*◌, length};
ghost use Rattle.std.specs.Int.RustNames.{unsigned_abs};
ghost use Rattle.std.specs.List.{flat_map};
ghost use Rattle.a64_inst.specs.declared.group.Group.TheVariants as groups;
ghost use Rattle.a64_inst.specs.Groups.{group_of};
ghost use Rattle.a64_cells.specs.declared.callee.Callee.{Callee};
ghost use Rattle.a64_cells.specs.Cells.{adjust_forms, call_cells, frame_forms, inst_cells, key_forms, leave_forms, result_cells, return_cells};

use crate::call::load_of_result;
use a64_base::APIKey;
use a64_cells::word::memory::address::addend;
use a64_cells::word::memory::memory_count;
use a64_inst::{CallInfo, CallRetPair, EmitInfo, FrameLayout, Inst, ReturnCallInfo, const_plan};

/// How many words move the stack pointer by an amount.
#[tactic(auto, using(a64_cells::proofs::Adjustments::none_count, a64_cells::proofs::Adjustments::near_count, a64_cells::proofs::Adjustments::far_count))]
fn adjust_count(amount: u32) -> u64
    ensures count { (by : ℤ) → unsigned_abs by ≡ amount
        → result ≡ length (adjust_forms by) }
    ensures few { result ≤ 5 }
{
    if amount == 0 {
        return 0;
    }
    match addend(amount) {
        Some(_) => 1,
        None => const_plan(u64::from(amount)).len() as u64 + 1,
    }
}

/// How many words load a result.
fn result_count(frame: &FrameLayout, info: &EmitInfo, pair: &CallRetPair) -> u64
    ensures count { result ≡ length (result_cells frame.now pair.now) }
    ensures few { result ≤ 5 }
{
    match load_of_result(pair) {
        Some(load) => memory_count(&load, frame, info),
        None => 0,
    }
}

/// How many words load results.
fn result_counts(frame: &FrameLayout, info: &EmitInfo, defs: &[CallRetPair]) -> u64
    ensures count { result ≡ length (flat_map (result_cells frame.now) defs.now) }
    ensures few { result ≤ 5 * length defs.now }
{
    let mut count = 0;
    for pair in defs {
        count += result_count(frame, info, pair);
    }
    count
}

/// How many words a call has.
fn calling_count<T>(frame: &FrameLayout, info: &EmitInfo, call: &CallInfo<T>) -> u64
    ensures { (callee : Callee) → result ≡ length
        (call_cells frame.now callee call.now.defs call.now.callee_pop_size) }
{
    1 + adjust_count(call.callee_pop_size) + result_counts(frame, info, call.defs.as_slice())
}

/// How many words restore the saved frame pointer and return address.
fn frame_count(setup: u32) -> u64
    ensures count { result ≡ length (frame_forms setup) }
    ensures few { result ≤ 1 }
{
    if setup == 0 { 0 } else { 1 }
}

/// How many words authenticate the return address.
fn key_count(setup: u32, key: Option<APIKey>, all: bool) -> u64
    ensures count { result ≡ length (key_forms setup all key) }
    ensures few { result ≤ 1 }
{
    match key {
        Some(_) if setup > 0 || all => 1,
        _ => 0,
    }
}

/// How many words stand before the branch of a return that calls, behind the restored instructions.
fn leave_count(frame: &FrameLayout, size: u32, key: Option<APIKey>, all: bool) -> u64
    ensures count { result ≡ length (leave_forms frame.now size key all) }
    ensures few { result ≤ 7 }
{
    let setup = frame.setup_area_size;
    frame_count(setup)
        + adjust_count(frame.tail_args_size.abs_diff(size))
        + key_count(setup, key, all)
}

/// How many words a return that calls has.
fn return_count<T>(frame: &FrameLayout, _info: &EmitInfo, call: &ReturnCallInfo<T>) -> u64
    ensures { (callee : Callee) → result ≡ length
        (return_cells frame.now _info.now callee call.now.new_stack_arg_size call.now.key
        call.now.sign_return_address_all) }
{
    let size = call.new_stack_arg_size;
    let leave = leave_count(frame, size, call.key, call.sign_return_address_all);
    frame.restore.as_slice().len() as u64 + leave + 1
}

/// How many words a call has, or a return that calls.
pub fn call_count(inst: &Inst, frame: &FrameLayout, info: &EmitInfo) -> u64
    requires { group_of inst.now ≡ groups.Call }
    ensures { result ≡ length (inst_cells frame.now info.now inst.now) }
{
    match inst {
        Inst::Call { info: call } => {
            if call.patchable {
                1 + adjust_count(call.callee_pop_size)
            } else {
                calling_count(frame, info, call)
            }
        }
        Inst::CallInd { info: call } => calling_count(frame, info, call),
        Inst::ReturnCall { info: call } => return_count(frame, info, call),
        Inst::ReturnCallInd { info: call } => return_count(frame, info, call),
        _ => unreachable!(),
    }
}
