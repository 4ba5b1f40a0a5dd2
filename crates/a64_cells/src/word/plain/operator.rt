//! The fields of words that operators give, and the words of operators on two registers or more.

ghost use Rattle.std.specs.Prelude.{◌≡◌, ◌^◌, ◌<◌};
ghost use Rattle.a64_rows.specs.Forms.{form_word, IsFormOf};
ghost use Rattle.a64_cells.specs.IntegerForms.{op_of, s_of, opc_of, n_of, opcode_of, bit_opcode, bfm_opc, alu_form, shifted_form, extended_form, product_form};

use a64_base::{ExtendOp, ShiftOp, ShiftOpAndAmt};
use a64_enc_int::{
    TwoRegisters, add_sub_carry_word, add_sub_ext_word, add_sub_reg_word, data_proc2_word,
    extract_word, logic_reg_word, mul_add_long_word, mul_add_word, mul_high_word,
};
use a64_ops::{ALUOp, ALUOp3, BfmOp, BitOp};

/// The field op: 1 for the operators that subtract.
pub fn op_bit(op: ALUOp) -> u32
    ensures value { result ≡ op_of op }
    ensures below { result < 2 }
{
    match op {
        ALUOp::Sub | ALUOp::SubS | ALUOp::Sbc | ALUOp::SbcS => 1,
        _ => 0,
    }
}

/// The field S: 1 for the operators that add or subtract and set the flags.
pub fn s_bit(op: ALUOp) -> u32
    ensures value { result ≡ s_of op }
    ensures below { result < 2 }
{
    match op {
        ALUOp::AddS | ALUOp::SubS | ALUOp::AdcS | ALUOp::SbcS => 1,
        _ => 0,
    }
}

/// The field opc of the logical operators.
pub fn opc_bits(op: ALUOp) -> u32
    ensures value { result ≡ opc_of op }
    ensures below { result < 4 }
{
    match op {
        ALUOp::Orr | ALUOp::OrrNot => 1,
        ALUOp::Eor | ALUOp::EorNot => 2,
        ALUOp::AndS => 3,
        _ => 0,
    }
}

/// The field N of logical operations on registers: 1 for the operators that invert the second
/// operand.
fn n_bit(op: ALUOp) -> u32
    ensures value { result ≡ n_of op }
    ensures below { result < 2 }
{
    match op {
        ALUOp::AndNot | ALUOp::OrrNot | ALUOp::EorNot => 1,
        _ => 0,
    }
}

/// The field opcode of operations on two sources.
fn opcode_bits(op: ALUOp) -> u32
    ensures value { result ≡ opcode_of op }
    ensures below { result < 2 ^ 6 }
{
    match op {
        ALUOp::UDiv => 2,
        ALUOp::SDiv => 3,
        ALUOp::Lsl => 8,
        ALUOp::Lsr => 9,
        ALUOp::Asr => 10,
        ALUOp::Extr => 11,
        _ => 0,
    }
}

/// The field opcode of operations on one source.
pub fn bit_opcode_bits(op: BitOp) -> u32
    ensures value { result ≡ bit_opcode op }
    ensures below { result < 6 }
{
    match op {
        BitOp::RBit => 0,
        BitOp::Rev16 => 1,
        BitOp::Rev32 => 2,
        BitOp::Rev64 => 3,
        BitOp::Clz => 4,
        BitOp::Cls => 5,
    }
}

/// The field opc of bitfield moves that set all bits.
pub fn bfm_opc_bits(op: BfmOp) -> u8
    ensures value { result ≡ bfm_opc op }
    ensures below { result < 3 }
{
    match op {
        BfmOp::SBfm => 0,
        BfmOp::UBfm => 2,
    }
}

/// The word of an operation on two registers, whose row goes by the operator. The operators that add or subtract and
/// the logical ones shift the second register.
#[inline(always)]
pub fn alu_word(op: ALUOp, shift: ShiftOp, amount: u8, registers: TwoRegisters) -> u32
    requires { IsFormOf (alu_form op (record { op = shift; amount = amount }) registers) }
    ensures { result ≡ form_word (alu_form op (record {
      op = shift;
      amount = amount;
    }) registers) }
{
    let TwoRegisters { rm, rn, rd, .. } = registers;
    let sh = u32::from(shift.bits());
    let imm6 = u32::from(amount);
    match op {
        ALUOp::Add | ALUOp::Sub | ALUOp::AddS | ALUOp::SubS => {
            add_sub_reg_word(op_bit(op), s_bit(op), sh, imm6, registers)
        }
        ALUOp::And
        | ALUOp::Orr
        | ALUOp::Eor
        | ALUOp::AndS
        | ALUOp::AndNot
        | ALUOp::OrrNot
        | ALUOp::EorNot => logic_reg_word(opc_bits(op), sh, n_bit(op), imm6, registers),
        ALUOp::Adc | ALUOp::Sbc | ALUOp::AdcS | ALUOp::SbcS => {
            add_sub_carry_word(op_bit(op), s_bit(op), registers)
        }
        ALUOp::UDiv | ALUOp::SDiv | ALUOp::Lsl | ALUOp::Lsr | ALUOp::Asr | ALUOp::Extr => {
            data_proc2_word(opcode_bits(op), registers)
        }
        ALUOp::SMulH => mul_high_word(0, rm, rn, rd),
        ALUOp::UMulH => mul_high_word(1, rm, rn, rd),
    }
}

/// The word of an operation on two registers of which the second is shifted, or of an extraction.
#[inline(always)]
pub fn shifted_word(op: ALUOp, shiftop: ShiftOpAndAmt, registers: TwoRegisters) -> u32
    requires { IsFormOf (shifted_form op shiftop registers) }
    ensures { result ≡ form_word (shifted_form op shiftop registers) }
{
    let amount = shiftop.amt().value();
    match op {
        ALUOp::Extr => extract_word(u32::from(amount), registers),
        _ => alu_word(op, shiftop.op(), amount, registers),
    }
}

/// The word of an addition or subtraction of a register that is extended.
#[inline(always)]
pub fn extended_word(op: ALUOp, extendop: ExtendOp, registers: TwoRegisters) -> u32
    requires { IsFormOf (extended_form op extendop registers) }
    ensures { result ≡ form_word (extended_form op extendop registers) }
{
    let ext = u32::from(extendop.bits());
    add_sub_ext_word(op_bit(op), s_bit(op), ext, registers)
}

/// The word of a product that is added or subtracted.
#[inline(always)]
pub fn product_word(op: ALUOp3, ra: u32, registers: TwoRegisters) -> u32
    requires { IsFormOf (product_form op ra registers) }
    ensures { result ≡ form_word (product_form op ra registers) }
{
    let TwoRegisters { rm, rn, rd, .. } = registers;
    match op {
        ALUOp3::MAdd => mul_add_word(0, ra, registers),
        ALUOp3::MSub => mul_add_word(1, ra, registers),
        ALUOp3::SMAddL => mul_add_long_word(0, rm, ra, rn, rd),
        ALUOp3::UMAddL => mul_add_long_word(1, rm, ra, rn, rd),
    }
}
