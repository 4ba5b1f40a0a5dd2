//! The words of "Data Processing -- Immediate": operations with immediates, bitfields and
//! addresses.

ghost use Rattle.std.specs.Prelude.{◌≡◌, ◌<◌, ◌&&◌, nat_lt, if◌then◌else◌, true};
ghost use Rattle.a64_base.specs.OperandSizes.{operand_bits, sf_of};
ghost use Rattle.a64_operand.specs.declared.virtuals.VirtualRegisters.TheVariants.{Refused};
ghost use Rattle.a64_operand.specs.Operands.{is_imm12, is_logic_of, is_near, is_register_or_zero, is_wide_in};
ghost use Rattle.a64_operand.specs.IntegerOperands.{is_extended, is_shift_by};
ghost use Rattle.a64_imms.specs.Logic.{IsImmLogic};
ghost use Rattle.a64_rows.specs.Forms.{form_word};
ghost use Rattle.a64_enc_int.specs.Registers.{IsReal};
ghost use Rattle.a64_cells.specs.IntegerForms as forms;

use crate::word::plain::operator::{op_bit, opc_bits, s_bit};
use crate::word::plain::register::{mov_word, two_registers};
use a64_base::{OperandSize, Reg, Writable};
use a64_enc_int::{
    add_sub_imm_word, enc_adr, enc_adrp, enc_arith_rr_imml, enc_bfm, enc_move_wide, enc_movk,
    extract_word, logic_imm_word, register_field,
};
use a64_imms::{Imm12, ImmLogic, ImmShift, MoveWideConst};
use a64_ops::{ALUOp, MoveWideOp};

/// The word of an `AluRRImm12`.
#[tactic(auto, unfolding(crate::specs::IntegerForms::alu_rr_imm12_form))]
pub fn alu_rr_imm12_word(
    op: ALUOp,
    size: OperandSize,
    rd: Writable<Reg>,
    rn: Reg,
    imm12: Imm12,
) -> u32
    requires rd { IsReal rd }
    requires rn { IsReal rn }
    requires imm12 { is_imm12 imm12 ≡ true }
    ensures { result ≡ form_word (forms.alu_rr_imm12_form op size rd rn imm12) }
{
    let (op, s) = (op_bit(op), s_bit(op));
    let (sh, imm12) = (imm12.shift_bits(), imm12.imm_bits());
    let (rn, rd) = (register_field(rn), register_field(rd.to_reg()));
    add_sub_imm_word(size.sf_bit(), op, s, sh, imm12, rn, rd)
}

/// The immediate that the word of a logical operation has: of operators that invert the second
/// operand, that of the complement.
fn logic_imm(op: ALUOp, imml: ImmLogic) -> ImmLogic
    requires { IsImmLogic imml }
    ensures value { result ≡ forms.taken op imml }
    ensures lawful { IsImmLogic result }
{
    match op {
        ALUOp::AndNot | ALUOp::OrrNot | ALUOp::EorNot => imml.invert(),
        _ => imml,
    }
}

/// The word of an `AluRRImmLogic`.
#[tactic(auto, using(crate::proofs::Operands::logic_lawful), unfolding(crate::specs::IntegerForms::alu_rr_imm_logic_form))]
pub fn alu_rr_imm_logic_word(
    op: ALUOp,
    size: OperandSize,
    rd: Writable<Reg>,
    rn: Reg,
    imml: ImmLogic,
) -> u32
    requires rd { IsReal rd }
    requires rn { IsReal rn }
    requires imml { is_logic_of size imml ≡ true }
    ensures { result ≡ form_word (forms.alu_rr_imm_logic_form op size rd rn imml) }
{
    let imml = logic_imm(op, imml);
    let (n, immr, imms) = (u32::from(imml.n), u32::from(imml.r), u32::from(imml.s));
    let (rn, rd) = (register_field(rn), register_field(rd.to_reg()));
    logic_imm_word(size.sf_bit(), opc_bits(op), n, immr, imms, rn, rd)
}

/// The word of a `MovWide`.
#[tactic(auto, using(crate::proofs::Operands::general, a64_inst::proofs::Good::shift_in), unfolding(crate::specs::IntegerForms::mov_wide_form))]
pub fn mov_wide_word(
    op: MoveWideOp,
    rd: Writable<Reg>,
    imm: MoveWideConst,
    size: OperandSize,
) -> u32
    requires rd { is_register_or_zero Refused rd ≡ true }
    requires imm { is_wide_in size imm ≡ true }
    ensures { result ≡ form_word (forms.mov_wide_form op rd imm size) }
{
    enc_move_wide(op, rd, imm, size)
}

/// The word of a `MovK`.
#[tactic(auto, using(crate::proofs::Operands::general, a64_inst::proofs::Good::shift_in), unfolding(crate::specs::IntegerForms::mov_k_form))]
pub fn mov_k_word(rd: Writable<Reg>, imm: MoveWideConst, size: OperandSize) -> u32
    requires rd { is_register_or_zero Refused rd ≡ true }
    requires imm { is_wide_in size imm ≡ true }
    ensures { result ≡ form_word (forms.mov_k_form rd imm size) }
{
    enc_movk(rd, imm, size)
}

/// The word of a rotation by an amount.
#[tactic(auto, using(crate::proofs::Operands::general))]
fn rotate_word(size: OperandSize, rd: Writable<Reg>, rn: Reg, amount: u8) -> u32
    requires amount { amount < operand_bits size }
    requires rd { is_register_or_zero Refused rd ≡ true }
    requires rn { is_register_or_zero Refused rn ≡ true }
    ensures { result ≡ form_word (forms.extraction amount (forms.two_registers size rd rn rn)) }
{
    let rm = rn;
    extract_word(u32::from(amount), two_registers(size, rd, rn, rm))
}

/// The word of an `AluRRImmShift`.
#[tactic(auto, using(crate::proofs::Operands::general), unfolding(crate::specs::IntegerForms::alu_rr_imm_shift_form))]
pub fn alu_rr_imm_shift_word(
    op: ALUOp,
    size: OperandSize,
    rd: Writable<Reg>,
    rn: Reg,
    immshift: ImmShift,
) -> u32
    requires rd { is_register_or_zero Refused rd ≡ true }
    requires rn { is_register_or_zero Refused rn ≡ true }
    requires immshift { is_shift_by op size immshift ≡ true }
    ensures { result ≡ form_word (forms.alu_rr_imm_shift_form op size rd rn immshift) }
{
    let amount = immshift.imm;
    let bits = size.bits();
    match op {
        ALUOp::Extr => rotate_word(size, rd, rn, amount),
        ALUOp::Lsr => enc_bfm(2, size, rd, rn, amount, bits - 1),
        ALUOp::Asr => enc_bfm(0, size, rd, rn, amount, bits - 1),
        ALUOp::Lsl => enc_bfm(2, size, rd, rn, (bits - amount) % bits, bits - 1 - amount),
        _ => unreachable!(),
    }
}

/// The size of the bitfield move that an extension is.
fn extend_size(signed: bool, to_bits: u8) -> OperandSize
    ensures { sf_of result ≡ (if signed && nat_lt 32 to_bits then 1 else 0) }
{
    if signed && to_bits > 32 {
        OperandSize::Size64
    } else {
        OperandSize::Size32
    }
}

/// The field opc of the bitfield move that an extension is.
fn extend_opc(signed: bool) -> u8
    ensures { result ≡ (if signed then 0 else 2) }
{
    if signed { 0 } else { 2 }
}

/// The word of an `Extend`.
#[tactic(auto, using(crate::proofs::Operands::general, crate::proofs::Operands::extended_general), unfolding(crate::specs::IntegerForms::extend_form, a64_operand::specs::IntegerOperands::is_extended))]
pub fn extend_word(rd: Writable<Reg>, rn: Reg, signed: bool, from_bits: u8, to_bits: u8) -> u32
    requires rd { is_extended Refused rd signed from_bits to_bits ≡ true }
    requires rn { is_register_or_zero Refused rn ≡ true }
    ensures { result ≡ form_word (forms.extend_form rd rn signed from_bits to_bits) }
{
    if !signed && from_bits == 1 {
        return enc_arith_rr_imml(0b000_100100, 0, rn, rd);
    }
    if !signed && from_bits == 32 && to_bits == 64 {
        return mov_word(OperandSize::Size32, rd, rn);
    }
    let size = extend_size(signed, to_bits);
    enc_bfm(extend_opc(signed), size, rd, rn, 0, from_bits - 1)
}

/// The word of an `Adr`.
#[tactic(auto, using(crate::proofs::Operands::general, crate::proofs::Operands::near_fits), unfolding(crate::specs::IntegerForms::adr_form))]
pub fn adr_word(rd: Writable<Reg>, off: i32) -> u32
    requires rd { is_register_or_zero Refused rd ≡ true }
    requires off { is_near off ≡ true }
    ensures { result ≡ form_word (forms.adr_form rd off) }
{
    enc_adr(off, rd)
}

/// The word of an `Adrp`.
#[tactic(auto, using(crate::proofs::Operands::general, crate::proofs::Operands::near_fits), unfolding(crate::specs::IntegerForms::adrp_form))]
pub fn adrp_word(rd: Writable<Reg>, off: i32) -> u32
    requires rd { is_register_or_zero Refused rd ≡ true }
    requires off { is_near off ≡ true }
    ensures { result ≡ form_word (forms.adrp_form rd off) }
{
    enc_adrp(off, rd)
}
