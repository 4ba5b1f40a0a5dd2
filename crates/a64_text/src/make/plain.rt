//! Makes instructions that are one plain word of their fields.

ghost use Rattle.std.specs.Prelude.{◌≡◌, ◌<◌, ◌≢◌, option_map, Some};
ghost use Rattle.std.specs.Vec.{vec_len, vec_capacity};
ghost use Rattle.a64_text.specs.declared.name.Name.TheVariants as names;
ghost use Rattle.a64_text.specs.declared.name.ImmediateName.TheVariants as immediate;
ghost use Rattle.a64_text.specs.Makes.{emitted, Makes};
ghost use Rattle.a64_text.specs.Names.{logic_name};
ghost use Rattle.a64_text.specs.NameInsts.{register_of, system_of};
ghost use Rattle.a64_text.specs.Puts.{Puts};

use crate::logic::logic_of;
use crate::make::{emit, emit_some};
use crate::name::{ImmediateName, RegisterName, SystemName};
use crate::system_insts;
use a64_base::{OperandSize, Writable};
use a64_inst::{Inst, Item, immediate_list, register_list};
use a64_read::at;
use a64_tokens::value::Value;

/// The field at a place, by what a list says of it.
macro_rules! field_at {
    ($values:expr, $i:tt; Def $class:tt) => { Writable::from_reg(at::get($values, $i)) };
    ($values:expr, $i:tt; Use $class:tt) => { at::get($values, $i) };
    ($values:expr, $i:tt; Is Logic) => { unreachable!() };
    ($values:expr, $i:tt; Is FloatImm) => { unreachable!() };
    ($values:expr, $i:tt; Is MovImm) => { unreachable!() };
    ($values:expr, $i:tt; Is $kind:tt) => { at::get($values, $i) };
}

/// An instruction of the fields at their places.
macro_rules! made_of {
    ($name:ident, $values:expr; [$($places:tt)*]; { $($done:tt)* };) => { Inst::$name { $($done)* } };
    ($name:ident, $values:expr; [$i:tt $($places:tt)*]; { $($done:tt)* }; $field:ident $way:ident $what:tt, $($more:tt)*) => {
        made_of!($name, $values; [$($places)*]; { $($done)* $field: field_at!($values, $i; $way $what), }; $($more)*)
    };
}

/// The instruction of a name of a list, with these fields.
macro_rules! inst_arms {
    ($virtuals:ident, $name:expr, $names:ident, $values:expr; $($inst:ident { $($field:ident: $way:ident $what:tt),* } if $rest:expr;)+) => {
        match $name {
            $($names::$inst => made_of!($inst, $values; [0 1 2 3 4 5 6 7 8]; {}; $($field $way $what,)*),)+
        }
    };
}

pub mod float;
pub mod vector;

/// The operation with the immediate that the constructor gives for the number at the size.
#[tactic(auto, unfolding(crate::specs::Makes::Makes))]
fn alu_rr_imm_logic(values: &[Value]) -> Option<Inst>
    ensures { Makes logic_name values.now (option_map emitted result) }
{
    let size = at::get::<OperandSize>(values, 1);
    Some(Inst::AluRRImmLogic {
        alu_op: at::get(values, 0),
        size,
        rd: Writable::from_reg(at::get(values, 2)),
        rn: at::get(values, 3),
        imml: logic_of(size, at::get(values, 4))?,
    })
}

/// Puts the operation with the immediate that the constructor gives behind the items, where there is
/// one. Not inlined, so that other instructions have no room for it to clear.
#[inline(never)]
fn put_alu_rr_imm_logic(items: &mut Vec<Item>, values: &[Value]) -> bool
    requires { vec_len items.old < vec_capacity items.old }
    ensures { Puts logic_name values.now items.old.items items.new.items result }
{
    emit_some(items, alu_rr_imm_logic(values))
}

/// The operation with an immediate of this name, of which the fields are all.
#[tactic(auto, unfolding(crate::specs::Makes::Makes))]
#[inline(always)]
fn immediate_inst(name: ImmediateName, values: &[Value]) -> Inst
    requires other { name ≢ immediate.AluRRImmLogic }
    ensures { Makes (names.Immediate name) values.now (Some (emitted result)) }
{
    immediate_list!(inst_arms, virtuals, name, ImmediateName, values)
}

/// Puts the operation with an immediate of this name with these fields behind the items.
#[inline(always)]
pub fn put_immediate(items: &mut Vec<Item>, name: ImmediateName, values: &[Value]) -> bool
    requires { vec_len items.old < vec_capacity items.old }
    ensures { Puts (names.Immediate name) values.now items.old.items items.new.items result }
{
    match name {
        ImmediateName::AluRRImmLogic => put_alu_rr_imm_logic(items, values),
        _ => emit(items, immediate_inst(name, values)),
    }
}

/// The operation on registers of this name, made by one match, behind which one call puts it. A whole entry,
/// given by value by some sixty arms, would be taken apart and put together again, which takes some 190 machine
/// instructions a line.
#[inline(always)]
fn register_inst(name: RegisterName, values: &[Value]) -> Inst
    ensures { result ≡ register_of name values.now }
{
    register_list!(inst_arms, virtuals, name, RegisterName, values)
}

/// Puts the operation on registers of this name with these fields behind the items.
#[tactic(auto, unfolding(crate::specs::Makes::Makes))]
#[inline(always)]
pub fn put_register(items: &mut Vec<Item>, name: RegisterName, values: &[Value]) -> bool
    requires { vec_len items.old < vec_capacity items.old }
    ensures { Puts (names.Register name) values.now items.old.items items.new.items result }
{
    emit(items, register_inst(name, values))
}

/// The hint, the barrier, or the access to the flags, of this name.
#[inline(always)]
fn system_inst(name: SystemName, values: &[Value]) -> Inst
    ensures { result ≡ system_of name values.now }
{
    system_insts!(name, values)
}

/// Puts the hint, the barrier, or the access to the flags, of this name with these fields behind the items. A `Nop4`,
/// which padding has in numbers, has an arm of its own, where it is put as it is made.
#[tactic(auto, unfolding(crate::specs::Makes::Makes))]
#[inline(always)]
pub fn put_system(items: &mut Vec<Item>, name: SystemName, values: &[Value]) -> bool
    requires { vec_len items.old < vec_capacity items.old }
    ensures { Puts (names.System name) values.now items.old.items items.new.items result }
{
    match name {
        SystemName::Nop4 => emit(items, Inst::Nop4),
        _ => emit(items, system_inst(name, values)),
    }
}
