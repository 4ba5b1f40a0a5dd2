//! The words of instructions that are one plain word.

pub mod float;
pub mod immediate;
pub mod lane;
mod operator;
pub mod register;
pub mod vector;

ghost use Rattle.std.specs.Prelude.{◌≡◌, Some, true};
ghost use Rattle.a64_inst.specs.declared.group.Group.TheVariants.{Plain};
ghost use Rattle.a64_inst.specs.declared.group.PlainGroup.TheVariants.{Float, Immediate, Register, System, Vector, VectorMove};
ghost use Rattle.a64_operand.specs.declared.virtuals.VirtualRegisters.TheVariants.{Refused};
ghost use Rattle.a64_inst.specs.Groups.{group_of};
ghost use Rattle.a64_inst.specs.Faults.{has_operands};
ghost use Rattle.a64_cells.specs.Cells.{shape_of, only_word};

use crate::word::plain::float::{
    bits_to_float, conversion_word, float_immediate_word, from_int, kept_shift_word,
    move_lane_word, move_vector_word, move_word, one_float_word, right_shift_word, round_word,
    three_floats_word, to_int, two_floats_word,
};
use crate::word::plain::immediate::{
    adr_word, adrp_word, alu_rr_imm_logic_word, alu_rr_imm_shift_word, alu_rr_imm12_word,
    extend_word, mov_k_word, mov_wide_word,
};
use crate::word::plain::lane::{
    dup_float_word, dup_immediate_word, dup_lane_word, dup_word, extract_word, insert_word,
    move_element_word, signed_move_word, table_word, unsigned_move_word,
};
use crate::word::plain::operator::{bfm_opc_bits, bit_opcode_bits, product_word, shifted_word};
use crate::word::plain::register::{
    alu_rrr_extend_word, alu_rrr_word, csel_word, mov_word, two_registers,
};
use crate::word::plain::vector::{
    across_word, element_word, extend_lanes_word, kept_lane_shift_word, lane_shift_word,
    long_product_word, misc_word, pair_word, three_word, two_word,
};
use crate::word::system::{bti_word, csdb_word, paci_word, xpaclri_word};
use crate::{
    float_words, immediate_words, register_words, system_words, vector_move_words, vector_words,
};
use a64_base::{OperandSize, Reg, ScalarSize, Writable, zero_reg};
use a64_enc_int::{
    enc_bfm, enc_bit_rr, enc_ccmp, enc_ccmp_imm, enc_csel, enc_dmb_ish, register_field,
};
use a64_enc_vec::{
    across_fields, added_product_fields, enc_fcmp, enc_fcsel, kept_three_op, long_fields,
    narrow_fields, pair_long_fields, product_fields, three_op, two_op,
};
use a64_inst::{EmitInfo, FrameLayout, Inst, PlainGroup};

/// The word of an integer operation with an immediate.
#[tactic(auto, using(crate::proofs::Operands::general, crate::proofs::Operands::real, crate::proofs::Operands::stack_real, crate::proofs::Operands::add_sub_real, crate::proofs::Operands::logic_real))]
pub fn immediate_word(inst: &Inst, frame: &FrameLayout, info: &EmitInfo) -> u32
    requires group { group_of inst.now ≡ Plain Immediate }
    requires good { has_operands frame.now info.now Refused inst.now ≡ true }
    ensures { Some result ≡ only_word (shape_of frame.now info.now inst.now) }
{
    immediate_words!(inst)
}

/// The word of an integer operation on registers.
#[tactic(auto, using(crate::proofs::Operands::general, crate::proofs::Operands::real, crate::proofs::Operands::stack_real, crate::proofs::Operands::add_sub_real, crate::proofs::Operands::moved_result, crate::proofs::Operands::moved_operand, crate::proofs::Operands::moved_from, crate::proofs::Operands::moved_to))]
pub fn register_word(inst: &Inst, frame: &FrameLayout, info: &EmitInfo) -> u32
    requires group { group_of inst.now ≡ Plain Register }
    requires good { has_operands frame.now info.now Refused inst.now ≡ true }
    ensures { Some result ≡ only_word (shape_of frame.now info.now inst.now) }
{
    register_words!(inst)
}

/// The word of an operation on scalar floats.
#[tactic(auto, using(crate::proofs::Operands::real, crate::proofs::Operands::vector, crate::proofs::Operands::vector_real, crate::proofs::FloatForms::to_int_is_form, crate::proofs::FloatForms::from_int_is_form, crate::proofs::FloatForms::bits_are_form, crate::proofs::FloatForms::kept_op))]
pub fn float_word(inst: &Inst, frame: &FrameLayout, info: &EmitInfo) -> u32
    requires group { group_of inst.now ≡ Plain Float }
    requires good { has_operands frame.now info.now Refused inst.now ≡ true }
    ensures { Some result ≡ only_word (shape_of frame.now info.now inst.now) }
{
    float_words!(inst)
}

/// The word of an operation on vectors.
#[tactic(auto, using(crate::proofs::Operands::vector_real, crate::proofs::VectorForms::three_is_form, crate::proofs::VectorForms::kept_three_is_form, crate::proofs::VectorForms::product_is_form, crate::proofs::VectorForms::added_product_is_form, crate::proofs::VectorForms::long_is_form, crate::proofs::VectorForms::pair_long_is_form, crate::proofs::VectorForms::narrow_low_is_form, crate::proofs::VectorForms::narrow_high_is_form, crate::proofs::VectorForms::two_is_form, crate::proofs::VectorForms::across_is_form, crate::proofs::VectorForms::kept_amount))]
pub fn vector_word(inst: &Inst, frame: &FrameLayout, info: &EmitInfo) -> u32
    requires group { group_of inst.now ≡ Plain Vector }
    requires good { has_operands frame.now info.now Refused inst.now ≡ true }
    ensures { Some result ≡ only_word (shape_of frame.now info.now inst.now) }
{
    vector_words!(inst)
}

/// The word of a move of lanes, or of a lookup in a table of bytes.
#[tactic(auto, using(crate::proofs::Operands::real, crate::proofs::Operands::vector_real, crate::proofs::VectorForms::kept_lane, crate::proofs::VectorForms::kept_dest, crate::proofs::VectorForms::kept_src))]
pub fn vector_move_word(inst: &Inst, frame: &FrameLayout, info: &EmitInfo) -> u32
    requires group { group_of inst.now ≡ Plain VectorMove }
    requires good { has_operands frame.now info.now Refused inst.now ≡ true }
    ensures { Some result ≡ only_word (shape_of frame.now info.now inst.now) }
{
    vector_move_words!(inst)
}

/// The word of a hint or a barrier.
pub fn system_word(inst: &Inst, frame: &FrameLayout, info: &EmitInfo) -> u32
    requires group { group_of inst.now ≡ Plain System }
    requires good { has_operands frame.now info.now Refused inst.now ≡ true }
    ensures { Some result ≡ only_word (shape_of frame.now info.now inst.now) }
{
    system_words!(inst)
}

/// The word of an instruction of a group of plain words.
#[inline(always)]
pub fn plain_word(inst: &Inst, group: PlainGroup, frame: &FrameLayout, info: &EmitInfo) -> u32
    requires group { group_of inst.now ≡ Plain group }
    requires good { has_operands frame.now info.now Refused inst.now ≡ true }
    ensures { Some result ≡ only_word (shape_of frame.now info.now inst.now) }
{
    match group {
        PlainGroup::Immediate => immediate_word(inst, frame, info),
        PlainGroup::Register => register_word(inst, frame, info),
        PlainGroup::Float => float_word(inst, frame, info),
        PlainGroup::Vector => vector_word(inst, frame, info),
        PlainGroup::VectorMove => vector_move_word(inst, frame, info),
        PlainGroup::System => system_word(inst, frame, info),
    }
}
