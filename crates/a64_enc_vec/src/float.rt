//! Scalar floats, and vector registers whose row raw bits tell.

ghost use Rattle.std.specs.Prelude.{◌≡◌, ◌*◌, ◌/◌, ◌%◌, ◌^◌, ◌<◌};
ghost use Rattle.a64_base.specs.ScalarSizes.{HasFtype};
ghost use Rattle.a64_rows.specs.Forms.{form_word, IsFormOf};
ghost use Rattle.a64_enc_int.specs.Named.{NamedForm};
ghost use Rattle.a64_enc_int.specs.Registers.{IsGeneral};
ghost use Rattle.a64_enc_vec.specs.Named.{rows_of_vec_rr, rows_of_vec_rrr};
ghost use Rattle.a64_enc_vec.specs.Operands.{float_number, fp_compare_form, fp_int_form, fp_select_form, fp_three_form, vector_two_number};
ghost use Rattle.a64_enc_vec.specs.RawBits.{fp_int_of, fp_three_of, IsFromInteger, IsToInteger};
ghost use Rattle.a64_enc_vec.specs.Registers.{IsVector};

use crate::fields::{fp_int_word, fp_select_word, fp_three_word};
use crate::raw_bits::{pack_vec_rr, pack_vec_rrr};
use crate::register::vector_field;
use a64_base::{Cond, Reg, ScalarSize, Writable};
use a64_enc_int::register_field;
use a64_rows::{Row, pack};

/// Encodes an operation on one vector register: `top22` is the word's bits 31 to 10 (rows `FpOne`, `VecTwo`,
/// `VecAcross`, `VecShift`, `ScalarShift`, `VecScalarPair`, `ScalarCopy` and `VecInsElem`).
pub fn enc_fpurr(top22: u32, rd: Writable<Reg>, rn: Reg) -> u32
    requires top22 { top22 < 2 ^ 22 }
    requires rd { IsVector rd }
    requires rn { IsVector rn }
    requires form { NamedForm rows_of_vec_rr (vector_two_number top22 rd rn) }
    ensures { (named : NamedForm rows_of_vec_rr (vector_two_number top22 rd rn))
        → result ≡ form_word named.form }
{
    pack_vec_rr(top22, vector_field(rn), vector_field(rd.to_reg()))
}

/// Encodes an operation on two vector registers: `top22` is the word's bits 31 to 10, with 0 in Rm (the rows of
/// `enc_vec_rrr`).
pub fn enc_fpurrr(top22: u32, rd: Writable<Reg>, rn: Reg, rm: Reg) -> u32
    requires top22 { top22 < 2 ^ 22 }
    requires zeros { top22 / 2 ^ 6 % 2 ^ 5 ≡ 0 }
    requires rd { IsVector rd }
    requires rn { IsVector rn }
    requires rm { IsVector rm }
    requires form { NamedForm rows_of_vec_rrr (float_number top22 rd rn rm) }
    ensures { (named : NamedForm rows_of_vec_rrr (float_number top22 rd rn rm))
        → result ≡ form_word named.form }
{
    let (rm, rn, rd) = (
        vector_field(rm),
        vector_field(rn),
        vector_field(rd.to_reg()),
    );
    pack_vec_rrr(top22 >> 11, top22 % 64, rm, rn, rd)
}

/// Encodes an operation on three floats: `top17` is the word's bits 31 to 15, with 0 in `rm` (row `FpThree`).
pub fn enc_fpurrrr(top17: u32, rd: Writable<Reg>, rn: Reg, rm: Reg, ra: Reg) -> u32
    requires top17 { top17 * 2 ^ 15 ≡ form_word (fp_three_of top17 0 0 0 0) }
    requires rd { IsVector rd }
    requires rn { IsVector rn }
    requires rm { IsVector rm }
    requires ra { IsVector ra }
    requires form { IsFormOf (fp_three_form top17 rd rn rm ra) }
    ensures { result ≡ form_word (fp_three_form top17 rd rn rm ra) }
{
    let (ftype, o1, o0) = ((top17 >> 7) % 4, (top17 >> 6) % 2, top17 % 2);
    let (rm, ra) = (vector_field(rm), vector_field(ra));
    let (rn, rd) = (vector_field(rn), vector_field(rd.to_reg()));
    fp_three_word(ftype, o1, rm, o0, ra, rn, rd)
}

/// Encodes a comparison of two floats of 16, 32 or 64 bits (row `FpCompare`).
pub fn enc_fcmp(size: ScalarSize, rn: Reg, rm: Reg) -> u32
    requires size { HasFtype size }
    requires rn { IsVector rn }
    requires rm { IsVector rm }
    ensures form { IsFormOf (fp_compare_form size rn rm) }
    ensures word { result ≡ form_word (fp_compare_form size rn rm) }
{
    let (rm, rn) = (vector_field(rm), vector_field(rn));
    pack(Row::FpCompare, &[size.ftype(), rm, rn])
}

/// Encodes a conditional select of two floats of 16, 32 or 64 bits (row `FpSelect`).
pub fn enc_fcsel(rd: Writable<Reg>, rn: Reg, rm: Reg, cond: Cond, size: ScalarSize) -> u32
    requires rd { IsVector rd }
    requires rn { IsVector rn }
    requires rm { IsVector rm }
    requires size { HasFtype size }
    ensures form { IsFormOf (fp_select_form rd rn rm cond size) }
    ensures word { result ≡ form_word (fp_select_form rd rn rm cond size) }
{
    let (rm, rn) = (vector_field(rm), vector_field(rn));
    let rd = vector_field(rd.to_reg());
    fp_select_word(size.ftype(), rm, cond.bits(), rn, rd)
}

/// Encodes a conversion of a float to an integer: `top16` is the word's bits 31 to 16 (row `FpInt`).
pub fn enc_fputoint(top16: u32, rd: Writable<Reg>, rn: Reg) -> u32
    requires top16 { top16 * 2 ^ 16 ≡ form_word (fp_int_of top16 0 0) }
    requires to_integer { IsToInteger top16 }
    requires rd { IsGeneral rd }
    requires rn { IsVector rn }
    requires form { IsFormOf (fp_int_form top16 rd rn) }
    ensures { result ≡ form_word (fp_int_form top16 rd rn) }
{
    let (sf, ftype, op) = (top16 >> 15, (top16 >> 6) % 4, top16 % 32);
    let (rn, rd) = (vector_field(rn), register_field(rd.to_reg()));
    fp_int_word(sf, ftype, op, rn, rd)
}

/// Encodes a conversion or move of an integer to a float: `top16` is the word's bits 31 to 16 (row `FpInt`).
pub fn enc_inttofpu(top16: u32, rd: Writable<Reg>, rn: Reg) -> u32
    requires top16 { top16 * 2 ^ 16 ≡ form_word (fp_int_of top16 0 0) }
    requires from_integer { IsFromInteger top16 }
    requires rd { IsVector rd }
    requires rn { IsGeneral rn }
    requires form { IsFormOf (fp_int_form top16 rd rn) }
    ensures { result ≡ form_word (fp_int_form top16 rd rn) }
{
    let (sf, ftype, op) = (top16 >> 15, (top16 >> 6) % 4, top16 % 32);
    let (rn, rd) = (register_field(rn), vector_field(rd.to_reg()));
    fp_int_word(sf, ftype, op, rn, rd)
}

/// Encodes a rounding of a float to an integral value: `top22` is the word's bits 31 to 10 (the rows of `enc_fpurr`).
pub fn enc_fround(top22: u32, rd: Writable<Reg>, rn: Reg) -> u32
    requires top22 { top22 < 2 ^ 22 }
    requires rd { IsVector rd }
    requires rn { IsVector rn }
    requires form { NamedForm rows_of_vec_rr (vector_two_number top22 rd rn) }
    ensures { (named : NamedForm rows_of_vec_rr (vector_two_number top22 rd rn))
        → result ≡ form_word named.form }
{
    enc_fpurr(top22, rd, rn)
}
