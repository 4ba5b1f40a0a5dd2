//! Makes sequences around tables, symbols and the stack, and what has no word, of their fields.

ghost use Rattle.std.specs.Prelude.{◌<◌, ◌≢◌, option_map, Some, IfOk};
ghost use Rattle.std.specs.Vec.{vec_len, vec_capacity};
ghost use Rattle.a64_text.specs.declared.name.Name.TheVariants as names;
ghost use Rattle.a64_text.specs.declared.name.SequenceName.TheVariants as sequence;
ghost use Rattle.a64_text.specs.Makes.{emitted, Makes};
ghost use Rattle.a64_text.specs.Puts.{Puts};

use crate::make::{emit, emit_some};
use crate::name::SequenceName;
use crate::sequence_insts;
use a64_base::{ExternalName, MachLabel, Writable};
use a64_inst::{ArgPair, Inst, Item, RetPair};
use a64_read::at;
use a64_read::list::read_list;
use a64_tokens::value::Value;
use std::alloc::{AllocError, Global};

/// The arguments with which a function is entered.
#[tactic(auto, unfolding(crate::specs::Makes::Makes))]
fn args(alloc: Global, values: &[Value]) -> Result<Option<Inst>, AllocError>
    ensures { IfOk result (λ inst. Makes (names.Sequence sequence.Args) values.now
        (option_map emitted inst)) }
{
    let Some(args) = read_list::<ArgPair>(alloc, at::list(values, 0))? else {
        return Ok(None);
    };
    Ok(Some(Inst::Args { args }))
}

/// The results with which a function is left.
#[tactic(auto, unfolding(crate::specs::Makes::Makes))]
fn rets(alloc: Global, values: &[Value]) -> Result<Option<Inst>, AllocError>
    ensures { IfOk result (λ inst. Makes (names.Sequence sequence.Rets) values.now
        (option_map emitted inst)) }
{
    let Some(rets) = read_list::<RetPair>(alloc, at::list(values, 0))? else {
        return Ok(None);
    };
    Ok(Some(Inst::Rets { rets }))
}

/// The jump through a table, with its targets.
#[tactic(auto, unfolding(crate::specs::Makes::Makes))]
fn jt_sequence(alloc: Global, values: &[Value]) -> Result<Option<Inst>, AllocError>
    ensures { IfOk result (λ inst. Makes (names.Sequence sequence.JTSequence) values.now
        (option_map emitted inst)) }
{
    let Some(targets) = read_list::<MachLabel>(alloc, at::list(values, 1))? else {
        return Ok(None);
    };
    Ok(Some(Inst::JTSequence {
        default: at::get(values, 0),
        targets,
        ridx: at::get(values, 2),
        rtmp1: Writable::from_reg(at::get(values, 3)),
        rtmp2: Writable::from_reg(at::get(values, 4)),
    }))
}

/// The instruction of this name, of which the fields are all.
#[tactic(auto, unfolding(crate::specs::Makes::Makes))]
#[inline(always)]
fn sequence_inst(name: SequenceName, values: &[Value]) -> Inst
    requires no_args { name ≢ sequence.Args }
    requires no_rets { name ≢ sequence.Rets }
    requires no_table { name ≢ sequence.JTSequence }
    ensures { Makes (names.Sequence name) values.now (Some (emitted result)) }
{
    sequence_insts!(name, values)
}

/// Puts the instruction of this name with these fields behind the items.
///
/// # Errors
///
/// Want of memory, for a list of registers or of labels.
#[inline(never)]
pub fn put_sequence(
    alloc: Global,
    items: &mut Vec<Item>,
    name: SequenceName,
    values: &[Value],
) -> Result<bool, AllocError>
    requires { vec_len items.old < vec_capacity items.old }
    ensures { IfOk result (Puts (names.Sequence name) values.now items.old.items items.new.items) }
{
    match name {
        SequenceName::Args => Ok(emit_some(items, args(alloc, values)?)),
        SequenceName::Rets => Ok(emit_some(items, rets(alloc, values)?)),
        SequenceName::JTSequence => Ok(emit_some(items, jt_sequence(alloc, values)?)),
        _ => Ok(emit(items, sequence_inst(name, values))),
    }
}
