//! Makes entries of their names and fields. An instruction is made by one match, and moved once, into the items.

pub mod call;
pub mod control;
mod insts;
pub mod memory;
pub mod pair;
pub mod plain;
pub mod sequence;

ghost use Rattle.std.specs.Prelude.{◌≡◌, ◌<◌, true, Some, option_map, IfOk, IfSome};
ghost use Rattle.std.specs.Vec.{vec_len, vec_capacity};
ghost use Rattle.a64_text.specs.declared.name.Name.TheVariants as names;
ghost use Rattle.a64_text.specs.Makes.{called, emitted, Makes};
ghost use Rattle.a64_text.specs.Puts.{PutsEntry, Puts};
ghost use Rattle.a64_text.specs.States.{IsSized};

use crate::constant::read_constant;
use crate::entry::Entry;
use a64_base::{UserStackMap, VCodeConstant};
use a64_inst::{Inst, Item};
use a64_read::at;
use a64_tokens::value::Value;
use std::alloc::{AllocError, Global};

/// Puts the instruction, without a map of the stack, behind the items. Always true.
#[inline(always)]
fn emit(items: &mut Vec<Item>, inst: Inst) -> bool
    requires { vec_len items.old < vec_capacity items.old }
    ensures { PutsEntry (Some (emitted inst)) items.old.items items.new.items result }
{
    items.push_reserved(Item::Emit { inst, map: None });
    true
}

/// Puts the instruction behind the items, where there is one.
#[inline(always)]
fn emit_some(items: &mut Vec<Item>, inst: Option<Inst>) -> bool
    requires { vec_len items.old < vec_capacity items.old }
    ensures { PutsEntry (option_map emitted inst) items.old.items items.new.items result }
{
    match inst {
        Some(inst) => emit(items, inst),
        None => false,
    }
}

/// Puts the call with its map of the stack behind the items, where there is one.
#[inline(always)]
fn emit_called(items: &mut Vec<Item>, inst: Option<Inst>, map: Option<UserStackMap>) -> bool
    requires { vec_len items.old < vec_capacity items.old }
    ensures { PutsEntry
        (option_map (λ i. called i map) inst) items.old.items items.new.items result }
{
    match inst {
        Some(inst) => {
            items.push_reserved(Item::Emit { inst, map });
            true
        }
        None => false,
    }
}

/// Puts the binding of the label behind the items. Always true.
#[tactic(auto, unfolding(crate::specs::Makes::Makes))]
#[inline(always)]
pub fn put_bind(items: &mut Vec<Item>, values: &[Value]) -> bool
    requires { vec_len items.old < vec_capacity items.old }
    ensures { Puts names.Bind values.now items.old.items items.new.items result }
{
    items.push_reserved(Item::Bind(at::get(values, 0)));
    true
}

/// The constant of these fields, where there is one.
///
/// # Errors
///
/// Want of memory, for its bytes.
#[tactic(auto, unfolding(crate::specs::Makes::Makes))]
pub fn make_constant(alloc: Global, values: &[Value]) -> Result<Option<Entry>, AllocError>
    ensures made { IfOk result (Makes names.Const values.now) }
    ensures sized { IfOk result (λ entry. IfSome entry IsSized) }
{
    let Some(bytes) = read_constant(alloc, at::list(values, 1))? else {
        return Ok(None);
    };
    Ok(Some(Entry::Constant(VCodeConstant(at::get(values, 0)), bytes)))
}

/// The size of an area of the frame.
#[tactic(auto, unfolding(crate::specs::Makes::Makes))]
pub fn make_frame(values: &[Value]) -> Entry
    ensures made { Makes names.Frame values.now (Some result) }
    ensures sized { IsSized result }
{
    Entry::Frame(at::get(values, 0), at::get(values, 1))
}

/// The setting, which is true.
#[tactic(auto, unfolding(crate::specs::Makes::Makes))]
pub fn make_flag(values: &[Value]) -> Entry
    ensures made { Makes names.Flag values.now (Some result) }
    ensures sized { IsSized result }
{
    Entry::Flag(at::get(values, 0))
}
