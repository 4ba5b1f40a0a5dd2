//! The texts of integer operations on registers, and of moves of them.

ghost use Rattle.std.specs.Prelude.{◌≡◌, ◌++◌, OnOk};
ghost use Rattle.std.specs.String.{string_bytes};
ghost use Rattle.a64_inst.specs.Groups.{group_of};
ghost use Rattle.a64_inst.specs.declared.group.Group.TheVariants as groups;
ghost use Rattle.a64_inst.specs.declared.group.PlainGroup.TheVariants as plain;
ghost use Rattle.a64_operand_text.specs.IntegerTexts as texts;
ghost use Rattle.a64_operand_text.specs.Texts.{own_text};

use crate::register_texts;
use a64_base::{OperandSize, Reg};
use a64_inst::Inst;
use a64_operand_text::Operand::{Condition, Extend, Flags, Number, Shift, Sized, X};
use a64_operand_text::{line2, line3, line4};
use a64_ops::ALUOp3;
use std::alloc::AllocError;

/// The size of the sum of a product: of a long one 64 bits.
fn sum_size(op: ALUOp3, size: OperandSize) -> OperandSize
    ensures { result ≡ texts.sum_size op size }
{
    match op {
        ALUOp3::MAdd | ALUOp3::MSub => size,
        ALUOp3::UMAddL | ALUOp3::SMAddL => OperandSize::Size64,
    }
}

/// Appends the text of an instruction of the group.
///
/// # Errors
///
/// Want of memory.
pub fn push_register(out: &mut String, inst: &Inst) -> Result<(), AllocError>
    requires { group_of inst.now ≡ groups.Plain plain.Register }
    ensures { OnOk result (string_bytes out.new ≡ string_bytes out.old ++ own_text inst.now) }
{
    register_texts!(out, inst)
}
