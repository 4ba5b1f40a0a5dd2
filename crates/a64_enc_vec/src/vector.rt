//! Vectors.

ghost use Rattle.std.specs.Prelude.{◌≡◌, ◌<◌, ◌^◌};
ghost use Rattle.a64_rows.specs.Forms.{form_word, IsFormOf};
ghost use Rattle.a64_enc_int.specs.Named.{NamedForm};
ghost use Rattle.a64_enc_vec.specs.Named.{rows_of_vec_rrr};
ghost use Rattle.a64_enc_vec.specs.Operands.{
  long_form,
  mod_imm_form,
  table_form,
  vector_lanes_form,
  vector_misc_form,
  vector_mov_form,
  vector_number,
  vector_pair_long_form,
  vector_pair_sum_form,
};
ghost use Rattle.a64_enc_vec.specs.Registers.{IsVector};

use crate::fields::{
    vec_across_word, vec_imm_word, vec_long3_word, vec_scalar_pair_word, vec_table_word,
    vec_three_word, vec_two_word,
};
use crate::raw_bits::pack_vec_rrr;
use crate::register::vector_field;
use a64_base::{Reg, Writable};

/// Encodes an operation on two vector registers: `top11` and `bit15_10` are the word's bits 31 to 21 and 15 to 10
/// (rows `VecThree`, `VecPermute`, `VecDot`, `VecElem`, `VecLong3`, `VecExt`, `VecTable`, `FpTwo`, `FpSelect`, and
/// `FpThree`, whose third operand is then raw bits).
pub fn enc_vec_rrr(top11: u32, rm: Reg, bit15_10: u32, rn: Reg, rd: Writable<Reg>) -> u32
    requires top11 { top11 < 2 ^ 11 }
    requires rm { IsVector rm }
    requires bit15_10 { bit15_10 < 2 ^ 6 }
    requires rn { IsVector rn }
    requires rd { IsVector rd }
    requires form { NamedForm rows_of_vec_rrr (vector_number top11 rm bit15_10 rn rd) }
    ensures { (named : NamedForm rows_of_vec_rrr (vector_number top11 rm bit15_10 rn rd))
        → result ≡ form_word named.form }
{
    let (rm, rn, rd) = (
        vector_field(rm),
        vector_field(rn),
        vector_field(rd.to_reg()),
    );
    pack_vec_rrr(top11, bit15_10, rm, rn, rd)
}

/// Encodes an operation on two vectors whose result has lanes twice as long: `q` is 1 for the upper halves, and `bit14`
/// is 1 for a product that is not added (row `VecLong3`).
pub fn enc_vec_rrr_long(
    q: u32,
    u: u32,
    size: u32,
    bit14: u32,
    rm: Reg,
    rn: Reg,
    rd: Writable<Reg>,
) -> u32
    requires q { q < 2 }
    requires u { u < 2 }
    requires size { size < 4 }
    requires bit14 { bit14 < 2 }
    requires rm { IsVector rm }
    requires rn { IsVector rn }
    requires rd { IsVector rd }
    ensures form { IsFormOf (long_form q u size bit14 rm rn rd) }
    ensures word { result ≡ form_word (long_form q u size bit14 rm rn rd) }
{
    let (rm, rn) = (vector_field(rm), vector_field(rn));
    let rd = vector_field(rd.to_reg());
    vec_long3_word(q, u, size, bit14, rm, rn, rd)
}

/// Encodes a move of 16 bytes, or of the lower 8: the or of a vector with itself (row `VecThree`).
pub fn enc_vecmov(is_16b: bool, rd: Writable<Reg>, rn: Reg) -> u32
    requires rd { IsVector rd }
    requires rn { IsVector rn }
    ensures form { IsFormOf (vector_mov_form is_16b rd rn) }
    ensures word { result ≡ form_word (vector_mov_form is_16b rd rn) }
{
    let (rn, rd) = (vector_field(rn), vector_field(rd.to_reg()));
    vec_three_word(u32::from(is_16b), 0, 2, rn, 3, rn, rd)
}

/// Encodes an operation on one vector: `qu` is the bits Q and U (row `VecTwo`).
pub fn enc_vec_rr_misc(qu: u32, size: u32, bits_12_16: u32, rd: Writable<Reg>, rn: Reg) -> u32
    requires qu { qu < 4 }
    requires size { size < 4 }
    requires bits_12_16 { bits_12_16 < 32 }
    requires rd { IsVector rd }
    requires rn { IsVector rn }
    ensures form { IsFormOf (vector_misc_form qu size bits_12_16 rd rn) }
    ensures word { result ≡ form_word (vector_misc_form qu size bits_12_16 rd rn) }
{
    let (rn, rd) = (vector_field(rn), vector_field(rd.to_reg()));
    vec_two_word(qu / 2, qu % 2, size, bits_12_16, rn, rd)
}

/// Encodes the sum of the two lanes of a vector: `bits_12_16` is 0b11011, the opcode of `addp` (row `VecScalarPair`).
pub fn enc_vec_rr_pair(bits_12_16: u32, rd: Writable<Reg>, rn: Reg) -> u32
    requires bits_12_16 { bits_12_16 ≡ 0b11011 }
    requires rd { IsVector rd }
    requires rn { IsVector rn }
    ensures form { IsFormOf (vector_pair_sum_form rd rn) }
    ensures word { result ≡ form_word (vector_pair_sum_form rd rn) }
{
    prove!(bits_12_16 == 0b11011);
    let (rn, rd) = (vector_field(rn), vector_field(rd.to_reg()));
    vec_scalar_pair_word(rn, rd)
}

/// Encodes the sums of neighbouring lanes, each twice as long: `u` is 1 for unsigned lanes, and `enc_size` for those of
/// 16 bits (row `VecTwo`).
pub fn enc_vec_rr_pair_long(u: u32, enc_size: u32, rd: Writable<Reg>, rn: Reg) -> u32
    requires u { u < 2 }
    requires enc_size { enc_size < 2 }
    requires rd { IsVector rd }
    requires rn { IsVector rn }
    ensures form { IsFormOf (vector_pair_long_form u enc_size rd rn) }
    ensures word { result ≡ form_word (vector_pair_long_form u enc_size rd rn) }
{
    let (rn, rd) = (vector_field(rn), vector_field(rd.to_reg()));
    vec_two_word(1, u, enc_size, 2, rn, rd)
}

/// Encodes an operation over the lanes of a vector (row `VecAcross`).
pub fn enc_vec_lanes(q: u32, u: u32, size: u32, opcode: u32, rd: Writable<Reg>, rn: Reg) -> u32
    requires q { q < 2 }
    requires u { u < 2 }
    requires size { size < 4 }
    requires opcode { opcode < 32 }
    requires rd { IsVector rd }
    requires rn { IsVector rn }
    ensures form { IsFormOf (vector_lanes_form q u size opcode rd rn) }
    ensures word { result ≡ form_word (vector_lanes_form q u size opcode rd rn) }
{
    let (rn, rd) = (vector_field(rn), vector_field(rd.to_reg()));
    vec_across_word(q, u, size, opcode, rn, rd)
}

/// Encodes a lookup in a table of one vector (`len` 0) or two (`len` 1), of which an extension keeps the result's
/// bytes where an index is out of range (row `VecTable`).
pub fn enc_tbl(is_extension: bool, len: u32, rd: Writable<Reg>, rn: Reg, rm: Reg) -> u32
    requires len { len < 2 }
    requires rd { IsVector rd }
    requires rn { IsVector rn }
    requires rm { IsVector rm }
    ensures form { IsFormOf (table_form is_extension len rd rn rm) }
    ensures word { result ≡ form_word (table_form is_extension len rd rn rm) }
{
    let (rm, rn) = (vector_field(rm), vector_field(rn));
    let rd = vector_field(rd.to_reg());
    vec_table_word(rm, len, u32::from(is_extension), rn, rd)
}

/// Encodes a modified immediate: `q_op` is the bits Q and op, and `imm` the fields abc and defgh in one (row `VecImm`).
pub fn enc_asimd_mod_imm(rd: Writable<Reg>, q_op: u32, cmode: u32, imm: u8) -> u32
    requires rd { IsVector rd }
    requires q_op { q_op < 4 }
    requires cmode { cmode < 16 }
    ensures form { IsFormOf (mod_imm_form rd q_op cmode imm) }
    ensures word { result ≡ form_word (mod_imm_form rd q_op cmode imm) }
{
    let (abc, defgh) = (u32::from(imm / 32), u32::from(imm % 32));
    let (q, op) = (q_op / 2, q_op % 2);
    vec_imm_word(q, op, abc, cmode, defgh, vector_field(rd.to_reg()))
}
