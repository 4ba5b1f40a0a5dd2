//! Makes calls, and returns that call, of their fields.

ghost use Rattle.std.specs.Prelude.{◌≡◌, ◌<◌, option_map, Option, IfOk};
ghost use Rattle.std.specs.Vec.{vec_len, vec_capacity};
ghost use Rattle.a64_inst.specs.declared.inst.Inst.{Inst};
ghost use Rattle.a64_text.specs.declared.name.CallName.TheVariants as call;
ghost use Rattle.a64_text.specs.declared.name.Name.TheVariants as names;
ghost use Rattle.a64_read.specs.At.{map_at};
ghost use Rattle.a64_read.specs.Calls.{call_lists_text, AreCallLists};
ghost use Rattle.a64_text.specs.Makes.{call_of, call_texts_at, called, emitted, return_call_of, Makes};
ghost use Rattle.a64_text.specs.Puts.{Puts};
ghost use Rattle.a64_tokens.specs.Reads.{Reads};

use crate::make::{emit_called, emit_some};
use crate::name::CallName;
use a64_base::{ExternalName, PRegSet, Reg};
use a64_inst::{CallArgPair, CallInfo, CallRetPair, Inst, Item, ReturnCallInfo};
use a64_list::ListVec;
use a64_read::at;
use a64_read::clobbers::read_clobbers;
use a64_read::list::read_list;
use a64_tokens::value::Value;
use std::alloc::{AllocError, Global};

/// What is passed to a function, what comes back, and the registers that it changes beside.
type CallLists = (ListVec<CallArgPair>, ListVec<CallRetPair>, PRegSet);

/// The lists of a call.
fn call_lists(alloc: Global, values: &[Value]) -> Result<Option<CallLists>, AllocError>
    ensures { IfOk result (Reads AreCallLists call_lists_text (call_texts_at values.now)) }
{
    let Some(uses) = read_list::<CallArgPair>(alloc, at::list(values, 1))? else {
        return Ok(None);
    };
    let Some(defs) = read_list::<CallRetPair>(alloc, at::list(values, 2))? else {
        return Ok(None);
    };
    let Some(clobbers) = read_clobbers(alloc, at::list(values, 3))? else {
        return Ok(None);
    };
    Ok(Some((uses, defs, clobbers)))
}

/// What is known of a call of this destination, with these lists.
fn call_info<T: Drop>(dest: T, values: &[Value], lists: CallLists) -> CallInfo<T>
    ensures { result ≡ call_of dest values.now lists }
{
    let (uses, defs, clobbers) = lists;
    CallInfo {
        dest,
        uses,
        defs,
        clobbers,
        caller_conv: at::get(values, 4),
        callee_conv: at::get(values, 5),
        callee_pop_size: at::get(values, 6),
        patchable: at::get(values, 7),
    }
}

/// The call of a symbol.
#[tactic(auto, unfolding(crate::specs::Makes::Makes))]
fn call(alloc: Global, values: &[Value]) -> Result<Option<Inst>, AllocError>
    ensures { IfOk result (λ (inst : Option Inst). Makes (names.Call call.Call) values.now
        (option_map (λ i. called i (map_at values.now 8)) inst)) }
{
    let Some(lists) = call_lists(alloc, values)? else {
        return Ok(None);
    };
    let dest = ExternalName(at::get(values, 0));
    Ok(Some(Inst::Call {
        info: call_info(dest, values, lists),
    }))
}

/// The call of the address in a register.
#[tactic(auto, unfolding(crate::specs::Makes::Makes))]
fn call_ind(alloc: Global, values: &[Value]) -> Result<Option<Inst>, AllocError>
    ensures { IfOk result (λ (inst : Option Inst). Makes (names.Call call.CallInd) values.now
        (option_map (λ i. called i (map_at values.now 8)) inst)) }
{
    let Some(lists) = call_lists(alloc, values)? else {
        return Ok(None);
    };
    let dest = at::get::<Reg>(values, 0);
    Ok(Some(Inst::CallInd {
        info: call_info(dest, values, lists),
    }))
}

/// What is known of a return that calls this destination, with what it passes.
fn return_call_info<T: Drop>(
    dest: T,
    values: &[Value],
    uses: ListVec<CallArgPair>,
) -> ReturnCallInfo<T>
    ensures { result ≡ return_call_of dest values.now uses }
{
    ReturnCallInfo {
        dest,
        uses,
        new_stack_arg_size: at::get(values, 2),
        key: at::get(values, 3),
        sign_return_address_all: at::get(values, 4),
    }
}

/// The return that calls a symbol.
#[tactic(auto, unfolding(crate::specs::Makes::Makes))]
fn return_call(alloc: Global, values: &[Value]) -> Result<Option<Inst>, AllocError>
    ensures { IfOk result (λ inst. Makes (names.Call call.ReturnCall) values.now
        (option_map emitted inst)) }
{
    let Some(uses) = read_list::<CallArgPair>(alloc, at::list(values, 1))? else {
        return Ok(None);
    };
    let dest = ExternalName(at::get(values, 0));
    Ok(Some(Inst::ReturnCall {
        info: return_call_info(dest, values, uses),
    }))
}

/// The return that calls the address in a register.
#[tactic(auto, unfolding(crate::specs::Makes::Makes))]
fn return_call_ind(alloc: Global, values: &[Value]) -> Result<Option<Inst>, AllocError>
    ensures { IfOk result (λ inst. Makes (names.Call call.ReturnCallInd) values.now
        (option_map emitted inst)) }
{
    let Some(uses) = read_list::<CallArgPair>(alloc, at::list(values, 1))? else {
        return Ok(None);
    };
    let dest = at::get::<Reg>(values, 0);
    Ok(Some(Inst::ReturnCallInd {
        info: return_call_info(dest, values, uses),
    }))
}

/// Puts the instruction of this name with these fields behind the items.
///
/// # Errors
///
/// Want of memory, for what is known of the call.
#[inline(never)]
pub fn put_call(
    alloc: Global,
    items: &mut Vec<Item>,
    name: CallName,
    values: &[Value],
) -> Result<bool, AllocError>
    requires { vec_len items.old < vec_capacity items.old }
    ensures { IfOk result (Puts (names.Call name) values.now items.old.items items.new.items) }
{
    match name {
        CallName::Call => {
            let inst = call(alloc, values)?;
            Ok(emit_called(items, inst, at::get(values, 8)))
        }
        CallName::CallInd => {
            let inst = call_ind(alloc, values)?;
            Ok(emit_called(items, inst, at::get(values, 8)))
        }
        CallName::ReturnCall => Ok(emit_some(items, return_call(alloc, values)?)),
        CallName::ReturnCallInd => Ok(emit_some(items, return_call_ind(alloc, values)?)),
    }
}
