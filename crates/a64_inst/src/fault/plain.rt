//! Whether the operands of instructions that are one plain word are in their sets.

ghost use Rattle.std.specs.Prelude.{◌≡◌};
ghost use Rattle.a64_inst.specs.declared.group.Group.TheVariants.{Plain};
ghost use Rattle.a64_inst.specs.declared.group.PlainGroup.TheVariants.{Float, Immediate, Register, System, Vector, VectorMove};
ghost use Rattle.a64_inst.specs.Groups.{group_of};
ghost use Rattle.a64_inst.specs.Faults.{has_operands};

use crate::emission::EmitInfo;
use crate::frame::FrameLayout;
use crate::group::PlainGroup;
use crate::inst::Inst;
use crate::{
    float_list, immediate_list, register_list, system_list, vector_list, vector_move_list,
};
use a64_operand::{
    Class, VirtualRegisters, add_sub_class, are_kept_lanes, is_across, is_add_sub,
    is_add_sub_imm12, is_alu_at, is_amount, is_bit_op_at, is_bitfield, is_elem_at, is_extended,
    is_float_imm_in, is_float_imm_of, is_float_lane, is_float_size, is_fpu_op1_at, is_kept,
    is_kept_amount, is_kept_bitfield, is_kept_lane, is_kept_narrow, is_kept_shift, is_kept_table,
    is_lane, is_logic_imm, is_long_product_at, is_misc_at, is_mod_at, is_mov_imm_in, is_move,
    is_move_from, is_move_to, is_narrow_at, is_near, is_next_vector, is_of, is_product_at,
    is_right_shift, is_same_register, is_scalar_lane, is_shift_by, is_shifted, is_signed_lane,
    is_wide_in, logic_class,
};

/// Whether the registers among the fields are of their classes, and the rest holds.
macro_rules! fields_fit {
    ($virtuals:expr, $rest:expr;) => { $rest };
    ($virtuals:expr, $rest:expr; $field:ident Def $class:ident, $($more:tt)*) => {
        is_of($virtuals, Class::$class, $field.to_reg()) && fields_fit!($virtuals, $rest; $($more)*)
    };
    ($virtuals:expr, $rest:expr; $field:ident Def ($class:expr), $($more:tt)*) => {
        is_of($virtuals, $class, $field.to_reg()) && fields_fit!($virtuals, $rest; $($more)*)
    };
    ($virtuals:expr, $rest:expr; $field:ident Use $class:ident, $($more:tt)*) => {
        is_of($virtuals, Class::$class, *$field) && fields_fit!($virtuals, $rest; $($more)*)
    };
    ($virtuals:expr, $rest:expr; $field:ident Is $kind:ident, $($more:tt)*) => {
        fields_fit!($virtuals, $rest; $($more)*)
    };
}

/// Whether the operands of an instruction of a list are in their sets.
macro_rules! operand_arms {
    ($virtuals:ident, $inst:expr; $($name:ident { $($field:ident: $way:ident $what:tt),* } if $rest:expr;)+) => {
        match $inst {
            $(Inst::$name { $($field),* } => fields_fit!($virtuals, $rest; $($field $way $what,)*),)+
            _ => unreachable!(),
        }
    };
}

/// Whether the operands of an integer operation with an immediate are in their sets.
fn has_immediate_operands(
    inst: &Inst,
    frame: &FrameLayout,
    info: &EmitInfo,
    virtuals: VirtualRegisters,
) -> bool
    requires { group_of inst.now ≡ Plain Immediate }
    ensures { result ≡ has_operands frame.now info.now virtuals inst.now }
{
    immediate_list!(operand_arms, virtuals, inst)
}

/// Whether the operands of an integer operation on registers are in their sets.
fn has_register_operands(
    inst: &Inst,
    frame: &FrameLayout,
    info: &EmitInfo,
    virtuals: VirtualRegisters,
) -> bool
    requires { group_of inst.now ≡ Plain Register }
    ensures { result ≡ has_operands frame.now info.now virtuals inst.now }
{
    register_list!(operand_arms, virtuals, inst)
}

/// Whether the operands of an operation on scalar floats are in their sets.
fn has_float_operands(
    inst: &Inst,
    frame: &FrameLayout,
    info: &EmitInfo,
    virtuals: VirtualRegisters,
) -> bool
    requires { group_of inst.now ≡ Plain Float }
    ensures { result ≡ has_operands frame.now info.now virtuals inst.now }
{
    float_list!(operand_arms, virtuals, inst)
}

/// Whether the operands of an operation on vectors are in their sets.
fn has_vector_operands(
    inst: &Inst,
    frame: &FrameLayout,
    info: &EmitInfo,
    virtuals: VirtualRegisters,
) -> bool
    requires { group_of inst.now ≡ Plain Vector }
    ensures { result ≡ has_operands frame.now info.now virtuals inst.now }
{
    vector_list!(operand_arms, virtuals, inst)
}

/// Whether the operands of a move of lanes or a table of bytes are in their sets.
fn has_vector_move_operands(
    inst: &Inst,
    frame: &FrameLayout,
    info: &EmitInfo,
    virtuals: VirtualRegisters,
) -> bool
    requires { group_of inst.now ≡ Plain VectorMove }
    ensures { result ≡ has_operands frame.now info.now virtuals inst.now }
{
    vector_move_list!(operand_arms, virtuals, inst)
}

/// Whether the operands of a hint or a barrier are in their sets.
fn has_system_operands(
    inst: &Inst,
    frame: &FrameLayout,
    info: &EmitInfo,
    virtuals: VirtualRegisters,
) -> bool
    requires { group_of inst.now ≡ Plain System }
    ensures { result ≡ has_operands frame.now info.now virtuals inst.now }
{
    system_list!(operand_arms, virtuals, inst)
}

/// Whether the operands of an instruction that is one plain word are in their sets.
#[inline(always)]
pub fn has_plain_operands(
    inst: &Inst,
    frame: &FrameLayout,
    info: &EmitInfo,
    virtuals: VirtualRegisters,
    group: PlainGroup,
) -> bool
    requires { group_of inst.now ≡ Plain group }
    ensures { result ≡ has_operands frame.now info.now virtuals inst.now }
{
    match group {
        PlainGroup::Immediate => has_immediate_operands(inst, frame, info, virtuals),
        PlainGroup::Register => has_register_operands(inst, frame, info, virtuals),
        PlainGroup::Float => has_float_operands(inst, frame, info, virtuals),
        PlainGroup::Vector => has_vector_operands(inst, frame, info, virtuals),
        PlainGroup::VectorMove => has_vector_move_operands(inst, frame, info, virtuals),
        PlainGroup::System => has_system_operands(inst, frame, info, virtuals),
    }
}
