//! What must hold of operations with immediates and of bitfields, beside the classes of their registers.

ghost use Rattle.std.specs.Prelude.{◌≡◌};
ghost use Rattle.a64_operand.specs.IntegerOperands as sets;

use crate::class::Class;
use crate::operand::{
    is_bit_of, is_imm12, is_logic_of, is_register, is_register_or_stack, is_register_or_zero,
    is_same_register, is_wide_in,
};
use crate::register::is_add_sub;
use crate::virtuals::VirtualRegisters;
use a64_base::{OperandSize, Reg};
use a64_imms::{Imm12, ImmLogic, ImmShift, MoveWideConst, UImm6};
use a64_ops::ALUOp;

/// Whether an operator adds or subtracts an immediate.
pub fn is_add_sub_imm12(op: ALUOp, imm12: Imm12) -> bool
    ensures { result ≡ sets.is_add_sub_imm12 op imm12 }
{
    is_add_sub(op) && is_imm12(imm12)
}

/// Whether an operator is a logical one.
fn is_logic(op: ALUOp) -> bool
    ensures { result ≡ sets.is_logic op }
{
    matches!(
        op,
        ALUOp::And
            | ALUOp::Orr
            | ALUOp::Eor
            | ALUOp::AndNot
            | ALUOp::OrrNot
            | ALUOp::EorNot
            | ALUOp::AndS
    )
}

/// Which registers the result of a logical operator may go to, where the second operand is an immediate.
pub fn logic_class(op: ALUOp) -> Class
    ensures { result ≡ sets.logic_class op }
{
    match op {
        ALUOp::AndS => Class::Zero,
        _ => Class::Stack,
    }
}

/// Whether a logical operator takes an immediate at a size.
pub fn is_logic_imm(op: ALUOp, size: OperandSize, imml: ImmLogic) -> bool
    ensures { result ≡ sets.is_logic_imm op size imml }
{
    is_logic(op) && is_logic_of(size, imml)
}

/// Whether an operator shifts or rotates by an amount below the size.
pub fn is_shift_by(op: ALUOp, size: OperandSize, immshift: ImmShift) -> bool
    ensures { result ≡ sets.is_shift_by op size immshift }
{
    matches!(op, ALUOp::Lsl | ALUOp::Lsr | ALUOp::Asr | ALUOp::Extr)
        && is_bit_of(size, immshift.imm)
}

/// Whether the register whose other halfwords stay is the result, and the halfword stands inside it.
pub fn is_kept(rd: &Reg, rn: &Reg, imm: MoveWideConst, size: OperandSize) -> bool
    ensures { result ≡ sets.is_kept rd.now rn.now imm size }
{
    is_same_register(rd, rn) && is_wide_in(size, imm)
}

/// Whether so many bits are extended to so many.
fn is_extension(signed: bool, from_bits: u8, to_bits: u8) -> bool
    ensures { result ≡ sets.is_extension signed from_bits to_bits }
{
    from_bits >= 1 && from_bits <= to_bits && to_bits <= 64 && (signed || from_bits <= 32)
}

/// Whether the register may be the result of an extension.
fn is_extend_result(
    virtuals: VirtualRegisters,
    signed: bool,
    from_bits: u8,
    to_bits: u8,
    rd: Reg,
) -> bool
    ensures { result ≡ sets.is_extend_result virtuals signed from_bits to_bits rd }
{
    if !signed && from_bits == 1 {
        is_register_or_stack(virtuals, rd)
    } else if !signed && from_bits == 32 && to_bits == 64 {
        is_register(virtuals, &rd)
    } else {
        is_register_or_zero(virtuals, rd)
    }
}

/// Of an `Extend`.
#[tactic(auto, unfolding(crate::specs::IntegerOperands::is_extended))]
pub fn is_extended(
    virtuals: VirtualRegisters,
    rd: Reg,
    signed: bool,
    from_bits: u8,
    to_bits: u8,
) -> bool
    ensures { result ≡ sets.is_extended virtuals rd signed from_bits to_bits }
{
    is_extension(signed, from_bits, to_bits)
        && is_extend_result(virtuals, signed, from_bits, to_bits, rd)
}

/// Whether a bitfield lies inside a register of the size.
pub fn is_bitfield(size: OperandSize, immr: UImm6, imms: UImm6) -> bool
    ensures { result ≡ sets.is_bitfield size immr imms }
{
    is_bit_of(size, immr.imm) && is_bit_of(size, imms.imm)
}

/// Whether it does, and the register whose other bits stay is the result.
pub fn is_kept_bitfield(rd: &Reg, ri: &Reg, size: OperandSize, immr: UImm6, imms: UImm6) -> bool
    ensures { result ≡ sets.is_kept_bitfield rd.now ri.now size immr imms }
{
    is_same_register(rd, ri) && is_bitfield(size, immr, imms)
}
