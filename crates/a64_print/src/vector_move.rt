//! The texts of moves to, from and between lanes of vectors, of extracts, and of tables of bytes.

ghost use Rattle.std.specs.Prelude.{◌≡◌, ◌++◌, OnOk};
ghost use Rattle.std.specs.String.{string_bytes};
ghost use Rattle.a64_inst.specs.Groups.{group_of};
ghost use Rattle.a64_inst.specs.declared.group.Group.TheVariants as groups;
ghost use Rattle.a64_inst.specs.declared.group.PlainGroup.TheVariants as plain;
ghost use Rattle.a64_operand_text.specs.VectorTexts as texts;
ghost use Rattle.a64_operand_text.specs.Texts.{own_text};

use crate::vector_move_texts;
use a64_base::{ScalarSize, VectorSize};
use a64_inst::Inst;
use a64_operand_text::Operand::{
    Bytes, Element, FloatImm, Number, Sized, Table, TablePair, Vector, VectorImm,
};
use a64_operand_text::{line2, line3, line4, scalar_operand};
use std::alloc::AllocError;

/// The name of a move of a lane to an integer register, which fills it with zeros.
fn lane_move_name(size: ScalarSize) -> &'static str
    ensures { result.now ≡ texts.lane_move_name size }
{
    match size {
        ScalarSize::Size8 | ScalarSize::Size16 => "umov",
        _ => "mov",
    }
}

/// The name of a move of an immediate to all lanes.
fn vector_imm_name(invert: bool) -> &'static str
    ensures { result.now ≡ texts.vector_imm_name invert }
{
    if invert { "mvni" } else { "movi" }
}

/// Appends the text of a move to, from or between lanes, of an extract, or of a table of bytes.
///
/// # Errors
///
/// Want of memory.
pub fn push_vector_move(out: &mut String, inst: &Inst) -> Result<(), AllocError>
    requires { group_of inst.now ≡ groups.Plain plain.VectorMove }
    ensures { OnOk result (string_bytes out.new ≡ string_bytes out.old ++ own_text inst.now) }
{
    vector_move_texts!(out, inst)
}
