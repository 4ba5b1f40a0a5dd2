//! Makes operations on vectors, moves of lanes and tables of bytes of their fields.

ghost use Rattle.std.specs.Prelude.{◌≡◌, ◌<◌, ◌≢◌, option_map, Some};
ghost use Rattle.std.specs.Vec.{vec_len, vec_capacity};
ghost use Rattle.a64_text.specs.declared.name.VectorMoveName.TheVariants as vector_move;
ghost use Rattle.a64_text.specs.declared.name.Name.TheVariants as names;
ghost use Rattle.a64_text.specs.Makes.{emitted, Makes};
ghost use Rattle.a64_text.specs.Names.{dup_float_name, dup_name};
ghost use Rattle.a64_text.specs.NameInsts.{vector_of};
ghost use Rattle.a64_text.specs.Puts.{Puts};

use crate::float_imm::float_imm_of;
use crate::make::{emit, emit_some};
use crate::mov_imm::mov_imm_of;
use crate::name::{VectorMoveName, VectorName};
use a64_base::{VectorSize, Writable};
use a64_inst::{Inst, Item, vector_list, vector_move_list};
use a64_read::at;
use a64_tokens::value::Value;

/// The operation on vectors of this name.
#[inline(always)]
fn vector_inst(name: VectorName, values: &[Value]) -> Inst
    ensures { result ≡ vector_of name values.now }
{
    vector_list!(inst_arms, virtuals, name, VectorName, values)
}

/// Puts the operation on vectors of this name with these fields behind the items.
#[tactic(auto, unfolding(crate::specs::Makes::Makes))]
#[inline(never)]
pub fn put_vector(items: &mut Vec<Item>, name: VectorName, values: &[Value]) -> bool
    requires { vec_len items.old < vec_capacity items.old }
    ensures { Puts (names.Vector name) values.now items.old.items items.new.items result }
{
    emit(items, vector_inst(name, values))
}

/// The move to all lanes of the float that the eight bits are at their size.
#[tactic(auto, unfolding(crate::specs::Makes::Makes))]
fn vec_dup_fp_imm(values: &[Value]) -> Option<Inst>
    ensures { Makes dup_float_name values.now (option_map emitted result) }
{
    let size = at::get::<VectorSize>(values, 2);
    Some(Inst::VecDupFPImm {
        rd: Writable::from_reg(at::get(values, 0)),
        imm: float_imm_of(size.lane_size(), at::get(values, 1))?,
        size,
    })
}

/// The move to all lanes of the immediate that its fields are at their size.
#[tactic(auto, unfolding(crate::specs::Makes::Makes))]
fn vec_dup_imm(values: &[Value]) -> Option<Inst>
    ensures { Makes dup_name values.now (option_map emitted result) }
{
    let size = at::get::<VectorSize>(values, 3);
    Some(Inst::VecDupImm {
        rd: Writable::from_reg(at::get(values, 0)),
        imm: mov_imm_of(size.lane_size(), at::get(values, 1))?,
        invert: at::get(values, 2),
        size,
    })
}

/// The move or the table of this name, of which the fields are all.
#[tactic(auto, unfolding(crate::specs::Makes::Makes))]
#[inline(always)]
fn vector_move_inst(name: VectorMoveName, values: &[Value]) -> Inst
    requires no_float { name ≢ vector_move.VecDupFPImm }
    requires no_imm { name ≢ vector_move.VecDupImm }
    ensures { Makes (names.VectorMove name) values.now (Some (emitted result)) }
{
    vector_move_list!(inst_arms, virtuals, name, VectorMoveName, values)
}

/// Puts the move or the table of this name with these fields behind the items, where there is one.
#[inline(never)]
pub fn put_vector_move(items: &mut Vec<Item>, name: VectorMoveName, values: &[Value]) -> bool
    requires { vec_len items.old < vec_capacity items.old }
    ensures { Puts (names.VectorMove name) values.now items.old.items items.new.items result }
{
    match name {
        VectorMoveName::VecDupFPImm => emit_some(items, vec_dup_fp_imm(values)),
        VectorMoveName::VecDupImm => emit_some(items, vec_dup_imm(values)),
        _ => emit(items, vector_move_inst(name, values)),
    }
}
