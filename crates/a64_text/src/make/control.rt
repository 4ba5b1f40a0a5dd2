//! Makes branches and other instructions of control of their fields.

ghost use Rattle.std.specs.Prelude.{◌<◌, ◌≢◌, option_map, Some, IfOk};
ghost use Rattle.std.specs.Vec.{vec_len, vec_capacity};
ghost use Rattle.a64_text.specs.declared.name.ControlName.TheVariants as control;
ghost use Rattle.a64_text.specs.declared.name.Name.TheVariants as names;
ghost use Rattle.a64_text.specs.Makes.{emitted, Makes};
ghost use Rattle.a64_text.specs.Puts.{Puts};

use crate::control_insts;
use crate::make::{emit, emit_some};
use crate::name::ControlName;
use a64_base::{MachLabel, TrapCode, Writable};
use a64_inst::{Inst, Item};
use a64_read::at;
use a64_read::list::read_list;
use a64_tokens::value::Value;
use std::alloc::{AllocError, Global};

/// The branch to what a register holds, with its targets.
#[tactic(auto, unfolding(crate::specs::Makes::Makes))]
fn indirect_br(alloc: Global, values: &[Value]) -> Result<Option<Inst>, AllocError>
    ensures { IfOk result (λ inst. Makes (names.Control control.IndirectBr) values.now
        (option_map emitted inst)) }
{
    let Some(targets) = read_list::<MachLabel>(alloc, at::list(values, 1))? else {
        return Ok(None);
    };
    Ok(Some(Inst::IndirectBr {
        rn: at::get(values, 0),
        targets,
    }))
}

/// The instruction of this name, of which the fields are all.
#[tactic(auto, unfolding(crate::specs::Makes::Makes))]
#[inline(always)]
fn control_inst(name: ControlName, values: &[Value]) -> Inst
    requires other { name ≢ control.IndirectBr }
    ensures { Makes (names.Control name) values.now (Some (emitted result)) }
{
    control_insts!(name, values)
}

/// Puts the instruction of this name with these fields behind the items.
///
/// # Errors
///
/// Want of memory, for the targets of an indirect branch.
#[inline(never)]
pub fn put_control(
    alloc: Global,
    items: &mut Vec<Item>,
    name: ControlName,
    values: &[Value],
) -> Result<bool, AllocError>
    requires { vec_len items.old < vec_capacity items.old }
    ensures { IfOk result (Puts (names.Control name) values.now items.old.items items.new.items) }
{
    match name {
        ControlName::IndirectBr => Ok(emit_some(items, indirect_br(alloc, values)?)),
        _ => Ok(emit(items, control_inst(name, values))),
    }
}
