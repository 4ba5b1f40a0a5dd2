//! The texts of operations on vectors.

ghost use Rattle.std.specs.Prelude.{◌≡◌, ◌++◌, OnOk};
ghost use Rattle.std.specs.String.{string_bytes};
ghost use Rattle.a64_inst.specs.Groups.{group_of};
ghost use Rattle.a64_inst.specs.declared.group.Group.TheVariants as groups;
ghost use Rattle.a64_inst.specs.declared.group.PlainGroup.TheVariants as plain;
ghost use Rattle.a64_operand_text.specs.VectorTexts as texts;
ghost use Rattle.a64_operand_text.specs.Texts.{own_text};

use crate::vector_texts;
use a64_base::{Reg, ScalarSize, VectorSize};
use a64_inst::Inst;
use a64_operand_text::Operand::{Element, FloatZero, Number, Scalar, Vector};
use a64_operand_text::{
    Operand, added_product_lane, alu_lanes, alu_mod_lanes, line2, line3, line4, long_lane,
    misc_lanes, narrower, pair_long_lane, product_lane, push_line, vector_of, wider,
};
use a64_ops::{VecMisc2, VecRRLongOp};
use std::alloc::AllocError;

/// What stands behind the name of an operator on the upper half of the lanes.
fn half_suffix(high_half: bool) -> &'static str
    ensures { result.now ≡ texts.half_suffix high_half }
{
    if high_half { "2" } else { "" }
}

/// Appends a line of an operator on a half of the lanes.
#[tactic(auto, unfolding(a64_operand_text::specs::VectorTexts::half_text))]
fn push_half(
    out: &mut String,
    name: &str,
    high_half: bool,
    operands: &[Operand],
) -> Result<(), AllocError>
    ensures { OnOk result (string_bytes out.new
        ≡ string_bytes out.old ++ texts.half_text name.now high_half operands.now) }
{
    out.push_str(name)?;
    push_line(out, half_suffix(high_half), operands)
}

/// Appends the text of an operator that makes lanes wider.
#[tactic(auto, unfolding(a64_operand_text::specs::VectorTexts::vec_rr_long_text))]
fn push_vec_rr_long(
    out: &mut String,
    op: VecRRLongOp,
    high_half: bool,
    rd: Reg,
    rn: Reg,
) -> Result<(), AllocError>
    ensures { OnOk result (string_bytes out.new
        ≡ string_bytes out.old ++ texts.vec_rr_long_text op high_half rd rn) }
{
    let lane = long_lane(op);
    let wide = Vector(vector_of(wider(lane), true), rd);
    let narrow = Vector(vector_of(lane, high_half), rn);
    match op {
        VecRRLongOp::Fcvtl16 | VecRRLongOp::Fcvtl32 => {
            push_half(out, op.op_str(), high_half, &[wide, narrow])
        }
        VecRRLongOp::Shll8 => push_half(out, op.op_str(), high_half, &[wide, narrow, Number(8)]),
        VecRRLongOp::Shll16 => push_half(out, op.op_str(), high_half, &[wide, narrow, Number(16)]),
        VecRRLongOp::Shll32 => push_half(out, op.op_str(), high_half, &[wide, narrow, Number(32)]),
    }
}

/// Appends the text of an operator on one vector.
#[tactic(auto, unfolding(a64_operand_text::specs::VectorTexts::vec_misc_text))]
fn push_vec_misc(
    out: &mut String,
    op: VecMisc2,
    size: VectorSize,
    rd: Reg,
    rn: Reg,
) -> Result<(), AllocError>
    ensures { OnOk result (string_bytes out.new
        ≡ string_bytes out.old ++ texts.vec_misc_text op size rd rn) }
{
    let lanes = misc_lanes(op, size);
    match op {
        VecMisc2::Cmeq0 | VecMisc2::Cmge0 | VecMisc2::Cmgt0 | VecMisc2::Cmle0 | VecMisc2::Cmlt0 => {
            line3(
                out,
                op.op_str(),
                Vector(lanes, rd),
                Vector(lanes, rn),
                Number(0),
            )
        }
        VecMisc2::Fcmeq0
        | VecMisc2::Fcmge0
        | VecMisc2::Fcmgt0
        | VecMisc2::Fcmle0
        | VecMisc2::Fcmlt0 => {
            line3(
                out,
                op.op_str(),
                Vector(lanes, rd),
                Vector(lanes, rn),
                FloatZero,
            )
        }
        _ => line2(out, op.op_str(), Vector(lanes, rd), Vector(lanes, rn)),
    }
}

/// Appends the text of an operation on vectors.
///
/// # Errors
///
/// Want of memory.
pub fn push_vector(out: &mut String, inst: &Inst) -> Result<(), AllocError>
    requires { group_of inst.now ≡ groups.Plain plain.Vector }
    ensures { OnOk result (string_bytes out.new ≡ string_bytes out.old ++ own_text inst.now) }
{
    vector_texts!(out, inst)
}
