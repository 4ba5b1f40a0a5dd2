//! The texts of integer operations with immediates, of moves of bitfields, and of addresses near
//! the code.

ghost use Rattle.std.specs.Prelude.{◌≡◌, ◌++◌, OnOk};
ghost use Rattle.std.specs.String.{string_bytes};
ghost use Rattle.a64_inst.specs.Groups.{group_of};
ghost use Rattle.a64_inst.specs.declared.group.Group.TheVariants as groups;
ghost use Rattle.a64_inst.specs.declared.group.PlainGroup.TheVariants as plain;
ghost use Rattle.a64_operand_text.specs.IntegerTexts as texts;
ghost use Rattle.a64_operand_text.specs.Texts.{own_text};

use crate::immediate_texts;
use a64_base::{OperandSize, Reg};
use a64_imms::Imm12;
use a64_inst::Inst;
use a64_operand_text::Operand::{Near, Number, Sized, Wide, X};
use a64_operand_text::{imm12_value, line2, line3, line4, line5, operand_of_bits};
use a64_ops::ALUOp;
use std::alloc::AllocError;

/// Whether it is an addition of 0 at 64 bits, which moves to or from the stack pointer.
fn is_move(op: ALUOp, size: OperandSize, imm12: Imm12) -> bool
    ensures { result ≡ texts.is_move op size imm12 }
{
    match op {
        ALUOp::Add => size.is64() && imm12.bits == 0,
        _ => false,
    }
}

/// Appends the text of an operation on an immediate of 12 bits.
#[tactic(auto, unfolding(a64_operand_text::specs::IntegerTexts::alu_rr_imm12_text))]
fn push_alu_rr_imm12(
    out: &mut String,
    op: ALUOp,
    size: OperandSize,
    rd: Reg,
    rn: Reg,
    imm12: Imm12,
) -> Result<(), AllocError>
    ensures { OnOk result (string_bytes out.new
        ≡ string_bytes out.old ++ texts.alu_rr_imm12_text op size rd rn imm12) }
{
    if is_move(op, size, imm12) {
        line2(out, "mov", Sized(size, rd), Sized(size, rn))
    } else {
        let value = imm12_value(imm12);
        line3(
            out,
            op.op_str(),
            Sized(size, rd),
            Sized(size, rn),
            Number(value),
        )
    }
}

/// Whether an extension from so many bits has a name of its own.
fn has_extension_name(signed: bool, from_bits: u8) -> bool
    ensures { result ≡ texts.has_extension_name signed from_bits }
{
    from_bits == 8 || from_bits == 16 || (signed && from_bits == 32)
}

/// The name of an extension from so many bits, where it has one of its own.
fn extension_name(signed: bool, from_bits: u8) -> &'static str
    ensures { result.now ≡ texts.extension_name signed from_bits }
{
    match (from_bits, signed) {
        (8, true) => "sxtb",
        (8, false) => "uxtb",
        (16, true) => "sxth",
        (16, false) => "uxth",
        _ => "sxtw",
    }
}

/// The name of a copy of the lowest bits.
fn lowest_bits_name(signed: bool) -> &'static str
    ensures { result.now ≡ texts.lowest_bits_name signed }
{
    if signed { "sbfx" } else { "ubfx" }
}

/// The size of an extended register.
fn extended_size(signed: bool, to_bits: u8) -> OperandSize
    ensures { result ≡ texts.extended_size signed to_bits }
{
    if signed {
        operand_of_bits(to_bits)
    } else {
        OperandSize::Size32
    }
}

/// Appends the text of an extension by a bitfield move.
#[tactic(auto, unfolding(a64_operand_text::specs::IntegerTexts::field_extend_text))]
fn push_field_extend(
    out: &mut String,
    rd: Reg,
    rn: Reg,
    signed: bool,
    from_bits: u8,
    to_bits: u8,
) -> Result<(), AllocError>
    ensures { OnOk result (string_bytes out.new
        ≡ string_bytes out.old ++ texts.field_extend_text rd rn signed from_bits to_bits) }
{
    if has_extension_name(signed, from_bits) {
        line2(
            out,
            extension_name(signed, from_bits),
            Sized(extended_size(signed, to_bits), rd),
            Sized(OperandSize::Size32, rn),
        )
    } else {
        line4(
            out,
            lowest_bits_name(signed),
            Sized(operand_of_bits(to_bits), rd),
            Sized(operand_of_bits(to_bits), rn),
            Number(0),
            Number(u64::from(from_bits)),
        )
    }
}

/// Appends the text of an extension.
#[tactic(auto, unfolding(a64_operand_text::specs::IntegerTexts::extend_text))]
fn push_extend(
    out: &mut String,
    rd: Reg,
    rn: Reg,
    signed: bool,
    from_bits: u8,
    to_bits: u8,
) -> Result<(), AllocError>
    ensures { OnOk result (string_bytes out.new
        ≡ string_bytes out.old ++ texts.extend_text rd rn signed from_bits to_bits) }
{
    if !signed && from_bits == 1 {
        line3(
            out,
            "and",
            Sized(OperandSize::Size32, rd),
            Sized(OperandSize::Size32, rn),
            Number(1),
        )
    } else if !signed && from_bits == 32 && to_bits == 64 {
        line2(
            out,
            "mov",
            Sized(OperandSize::Size32, rd),
            Sized(OperandSize::Size32, rn),
        )
    } else {
        push_field_extend(out, rd, rn, signed, from_bits, to_bits)
    }
}

/// Appends the text of an instruction of the group.
///
/// # Errors
///
/// Want of memory.
pub fn push_immediate(out: &mut String, inst: &Inst) -> Result<(), AllocError>
    requires { group_of inst.now ≡ groups.Plain plain.Immediate }
    ensures { OnOk result (string_bytes out.new ≡ string_bytes out.old ++ own_text inst.now) }
{
    immediate_texts!(out, inst)
}
