//! The words of moves of lanes, of immediates to lanes, and of tables of bytes, of "Data Processing -- Scalar
//! Floating-Point and Advanced SIMD".

ghost use Rattle.std.specs.Prelude.{◌≡◌, ◌<◌, true};
ghost use Rattle.a64_operand.specs.Operands as operands;
ghost use Rattle.a64_operand.specs.VectorOperands as sets;
ghost use Rattle.a64_enc_int.specs.Registers.{IsReal};
ghost use Rattle.a64_rows.specs.Forms.{form_word};
ghost use Rattle.a64_cells.specs.VectorForms as forms;

use crate::word::plain::float::lane_number;
use crate::word::plain::vector::float_bit;
use a64_base::{OperandSize, Reg, ScalarSize, VectorSize, Writable};
use a64_enc_int::register_field;
use a64_enc_vec::{
    lane_bits, vec_copy_word, vec_ext_word, vec_imm_word, vec_ins_elem_word, vec_table_word,
};
use a64_imms::{ASIMDFPModImm, ASIMDMovModImm};

/// The word of a move of a general register to a lane.
#[tactic(auto, using(crate::proofs::FloatForms::lane_below))]
pub fn insert_word(size: VectorSize, idx: u8, rd: Writable<Reg>, rn: Reg) -> u32
    requires lane { operands.is_lane size idx ≡ true }
    requires rd { IsReal rd }
    requires rn { IsReal rn }
    ensures { result ≡ form_word (forms.insert_form size idx rd rn) }
{
    let imm5 = lane_number(size.lane_size(), idx);
    let (rn, rd) = (register_field(rn), register_field(rd.to_reg()));
    vec_copy_word(1, imm5, 3, rn, rd)
}

/// The word of a move of a lane to a general register, with zeros above it.
#[tactic(auto, using(crate::proofs::VectorForms::scalar_lane_below))]
pub fn unsigned_move_word(size: ScalarSize, idx: u8, rd: Writable<Reg>, rn: Reg) -> u32
    requires lane { sets.is_scalar_lane size idx ≡ true }
    requires rd { IsReal rd }
    requires rn { IsReal rn }
    ensures { result ≡ form_word (forms.unsigned_move_form size idx rd rn) }
{
    let q = size.operand_size().sf_bit();
    let imm5 = lane_number(size, idx);
    let (rn, rd) = (register_field(rn), register_field(rd.to_reg()));
    vec_copy_word(q, imm5, 7, rn, rd)
}

/// The word of a move of a lane to a general register of a size, with its sign.
#[tactic(auto, using(crate::proofs::VectorForms::signed_lane_below))]
pub fn signed_move_word(
    size: VectorSize,
    idx: u8,
    to: OperandSize,
    rd: Writable<Reg>,
    rn: Reg,
) -> u32
    requires lane { sets.is_signed_lane size idx to ≡ true }
    requires rd { IsReal rd }
    requires rn { IsReal rn }
    ensures { result ≡ form_word (forms.signed_move_form size idx to rd rn) }
{
    let imm5 = lane_number(size.lane_size(), idx);
    let (rn, rd) = (register_field(rn), register_field(rd.to_reg()));
    vec_copy_word(to.sf_bit(), imm5, 5, rn, rd)
}

/// The word of a copy of a general register to all lanes.
#[tactic(auto, using(crate::proofs::VectorForms::first_lane_below))]
pub fn dup_word(size: VectorSize, rd: Writable<Reg>, rn: Reg) -> u32
    requires rd { IsReal rd }
    requires rn { IsReal rn }
    ensures { result ≡ form_word (forms.dup_form size rd rn) }
{
    let imm5 = lane_number(size.lane_size(), 0);
    let (rn, rd) = (register_field(rn), register_field(rd.to_reg()));
    vec_copy_word(size.enc_size().0, imm5, 1, rn, rd)
}

/// The word of a copy of one lane to all lanes.
#[tactic(auto, using(crate::proofs::FloatForms::lane_below))]
pub fn dup_lane_word(size: VectorSize, idx: u8, rd: Writable<Reg>, rn: Reg) -> u32
    requires lane { operands.is_lane size idx ≡ true }
    requires rd { IsReal rd }
    requires rn { IsReal rn }
    ensures { result ≡ form_word (forms.dup_lane_form size idx rd rn) }
{
    let imm5 = lane_number(size.lane_size(), idx);
    let (rn, rd) = (register_field(rn), register_field(rd.to_reg()));
    vec_copy_word(size.enc_size().0, imm5, 0, rn, rd)
}

/// The word of a move of one lane to another.
#[tactic(auto, using(crate::proofs::FloatForms::lane_below, crate::proofs::VectorForms::byte_below))]
pub fn move_element_word(
    size: VectorSize,
    dest_idx: u8,
    src_idx: u8,
    rd: Writable<Reg>,
    rn: Reg,
) -> u32
    requires dest { operands.is_lane size dest_idx ≡ true }
    requires src { operands.is_lane size src_idx ≡ true }
    requires rd { IsReal rd }
    requires rn { IsReal rn }
    ensures { result ≡ form_word (forms.move_element_form size dest_idx src_idx rd rn) }
{
    let imm5 = lane_number(size.lane_size(), dest_idx);
    let imm4 = u32::from(src_idx) * lane_bits(size) / 8;
    let (rn, rd) = (register_field(rn), register_field(rd.to_reg()));
    vec_ins_elem_word(imm5, imm4, rn, rd)
}

/// The word of a copy of an immediate float to all lanes.
#[tactic(auto, using(crate::proofs::VectorForms::float_imm_below))]
pub fn dup_float_word(size: VectorSize, imm: ASIMDFPModImm, rd: Writable<Reg>) -> u32
    requires imm { sets.is_float_imm_in size imm ≡ true }
    requires rd { IsReal rd }
    ensures { result ≡ form_word (forms.dup_float_form size imm rd) }
{
    let (abc, defgh) = (u32::from(imm.imm / 32), u32::from(imm.imm % 32));
    let (q, op) = (size.enc_size().0, float_bit(size));
    vec_imm_word(q, op, abc, 15, defgh, register_field(rd.to_reg()))
}

/// The field op of a copy of an immediate to lanes of this size, or of its complement.
fn mov_op(lane: ScalarSize, invert: bool) -> u32
    ensures value { result ≡ forms.mov_op lane invert }
    ensures below { result < 2 }
{
    match lane {
        ScalarSize::Size16 | ScalarSize::Size32 => u32::from(invert),
        ScalarSize::Size64 => 1,
        ScalarSize::Size8 | ScalarSize::Size128 => 0,
    }
}

/// The field cmode of a copy of an immediate to lanes of this size.
fn mov_cmode(lane: ScalarSize, imm: ASIMDMovModImm) -> u32
    ensures { result ≡ forms.mov_cmode lane imm }
{
    let shift = u32::from(imm.shift);
    match lane {
        ScalarSize::Size8 | ScalarSize::Size64 => 14,
        ScalarSize::Size16 => 8 + shift / 4,
        ScalarSize::Size32 if imm.shift_ones => 12 + shift / 16,
        ScalarSize::Size32 => shift / 4,
        ScalarSize::Size128 => 0,
    }
}

/// The word of a copy of an immediate, or of its complement, to all lanes.
#[tactic(auto, using(crate::proofs::VectorForms::cmode_below))]
pub fn dup_immediate_word(
    size: VectorSize,
    imm: ASIMDMovModImm,
    invert: bool,
    rd: Writable<Reg>,
) -> u32
    requires imm { sets.is_mov_imm_in size imm invert ≡ true }
    requires rd { IsReal rd }
    ensures { result ≡ form_word (forms.dup_immediate_form size imm invert rd) }
{
    let (abc, defgh) = (u32::from(imm.imm / 32), u32::from(imm.imm % 32));
    let lane = size.lane_size();
    let (op, cmode) = (mov_op(lane, invert), mov_cmode(lane, imm));
    let (q, rd) = (size.enc_size().0, register_field(rd.to_reg()));
    vec_imm_word(q, op, abc, cmode, defgh, rd)
}

/// The word of an extract from two vectors.
pub fn extract_word(imm4: u8, rd: Writable<Reg>, rn: Reg, rm: Reg) -> u32
    requires imm4 { imm4 < 16 }
    requires rd { IsReal rd }
    requires rn { IsReal rn }
    requires rm { IsReal rm }
    ensures { result ≡ form_word (forms.extract_form imm4 rd rn rm) }
{
    let (rm, rn) = (register_field(rm), register_field(rn));
    let rd = register_field(rd.to_reg());
    vec_ext_word(rm, u32::from(imm4), rn, rd)
}

/// The word of a lookup in a table of one vector or two, which may keep the bytes that it does not find.
pub fn table_word(two_registers: bool, kept: bool, rd: Writable<Reg>, rn: Reg, rm: Reg) -> u32
    requires rd { IsReal rd }
    requires rn { IsReal rn }
    requires rm { IsReal rm }
    ensures { result ≡ form_word (forms.table_form two_registers kept rd rn rm) }
{
    let (len, ext) = (u32::from(two_registers), u32::from(kept));
    let (rm, rn) = (register_field(rm), register_field(rn));
    let rd = register_field(rd.to_reg());
    vec_table_word(rm, len, ext, rn, rd)
}
