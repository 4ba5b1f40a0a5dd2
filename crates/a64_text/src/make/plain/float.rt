//! Makes operations on scalar floats of their fields.

ghost use Rattle.std.specs.Prelude.{◌<◌, ◌≢◌, option_map, Some};
ghost use Rattle.std.specs.Vec.{vec_len, vec_capacity};
ghost use Rattle.a64_text.specs.declared.name.FloatName.TheVariants as float;
ghost use Rattle.a64_text.specs.declared.name.Name.TheVariants as names;
ghost use Rattle.a64_text.specs.Makes.{emitted, Makes};
ghost use Rattle.a64_text.specs.Names.{float_imm_name};
ghost use Rattle.a64_text.specs.Puts.{Puts};

use crate::float_imm::float_imm_of;
use crate::make::{emit, emit_some};
use crate::name::FloatName;
use a64_base::{ScalarSize, Writable};
use a64_inst::{Inst, Item, float_list};
use a64_read::at;
use a64_tokens::value::Value;

/// The move of the float that the eight bits are at the size.
#[tactic(auto, unfolding(crate::specs::Makes::Makes))]
fn fpu_move_fp_imm(values: &[Value]) -> Option<Inst>
    ensures { Makes float_imm_name values.now (option_map emitted result) }
{
    let size = at::get::<ScalarSize>(values, 2);
    Some(Inst::FpuMoveFPImm {
        rd: Writable::from_reg(at::get(values, 0)),
        imm: float_imm_of(size, at::get(values, 1))?,
        size,
    })
}

/// The operation on scalar floats of this name, of which the fields are all.
#[tactic(auto, unfolding(crate::specs::Makes::Makes))]
#[inline(always)]
fn float_inst(name: FloatName, values: &[Value]) -> Inst
    requires other { name ≢ float.FpuMoveFPImm }
    ensures { Makes (names.Float name) values.now (Some (emitted result)) }
{
    float_list!(inst_arms, virtuals, name, FloatName, values)
}

/// Puts the operation on scalar floats of this name with these fields behind the items, where there
/// is one.
#[inline(never)]
pub fn put_float(items: &mut Vec<Item>, name: FloatName, values: &[Value]) -> bool
    requires { vec_len items.old < vec_capacity items.old }
    ensures { Puts (names.Float name) values.now items.old.items items.new.items result }
{
    match name {
        FloatName::FpuMoveFPImm => emit_some(items, fpu_move_fp_imm(values)),
        _ => emit(items, float_inst(name, values)),
    }
}
