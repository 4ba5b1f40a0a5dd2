//! The words of rows of scalar floats and vectors, of the values of their fields in the row's order (a64_rows,
//! `Row`): each within the width of its field, and all within the limits of the row.

ghost use Rattle.std.specs.Prelude.{◌≡◌, [], ◌∷◌};
ghost use Rattle.a64_rows.specs.declared.row_table.Row.TheVariants.{FpOne, FpTwo, FpThree, FpSelect, FpInt, VecThree, VecPermute, VecDot, VecElem, VecLong3, VecTwo, VecScalarPair, VecAcross, VecShift, ScalarShift, VecImm, VecCopy, ScalarCopy, VecInsElem, VecExt, VecTable};
ghost use Rattle.a64_rows.specs.Forms.{IsForm, row_word};

use a64_rows::{Row, pack};

/// The word of `FpOne`: Floating-point data-processing (1 source).
#[inline(always)]
pub fn fp_one_word(ftype: u32, op: u32, rn: u32, rd: u32) -> u32
    requires { IsForm FpOne (ftype ∷ op ∷ rn ∷ rd ∷ []) }
    ensures { result ≡ row_word FpOne (ftype ∷ op ∷ rn ∷ rd ∷ []) }
{
    pack(Row::FpOne, &[ftype, op, rn, rd])
}

/// The word of `FpTwo`: Floating-point data-processing (2 source).
#[inline(always)]
pub fn fp_two_word(ftype: u32, rm: u32, op: u32, rn: u32, rd: u32) -> u32
    requires { IsForm FpTwo (ftype ∷ rm ∷ op ∷ rn ∷ rd ∷ []) }
    ensures { result ≡ row_word FpTwo (ftype ∷ rm ∷ op ∷ rn ∷ rd ∷ []) }
{
    pack(Row::FpTwo, &[ftype, rm, op, rn, rd])
}

/// The word of `FpThree`: Floating-point data-processing (3 source).
#[inline(always)]
pub fn fp_three_word(ftype: u32, o1: u32, rm: u32, o0: u32, ra: u32, rn: u32, rd: u32) -> u32
    requires { IsForm FpThree (ftype ∷ o1 ∷ rm ∷ o0 ∷ ra ∷ rn ∷ rd ∷ []) }
    ensures { result ≡ row_word FpThree (ftype ∷ o1 ∷ rm ∷ o0 ∷ ra ∷ rn ∷ rd ∷ []) }
{
    pack(Row::FpThree, &[ftype, o1, rm, o0, ra, rn, rd])
}

/// The word of `FpSelect`: Floating-point conditional select.
#[inline(always)]
pub fn fp_select_word(ftype: u32, rm: u32, cond: u32, rn: u32, rd: u32) -> u32
    requires { IsForm FpSelect (ftype ∷ rm ∷ cond ∷ rn ∷ rd ∷ []) }
    ensures { result ≡ row_word FpSelect (ftype ∷ rm ∷ cond ∷ rn ∷ rd ∷ []) }
{
    pack(Row::FpSelect, &[ftype, rm, cond, rn, rd])
}

/// The word of `FpInt`: Conversion between floating-point and integer.
#[inline(always)]
pub fn fp_int_word(sf: u32, ftype: u32, op: u32, rn: u32, rd: u32) -> u32
    requires { IsForm FpInt (sf ∷ ftype ∷ op ∷ rn ∷ rd ∷ []) }
    ensures { result ≡ row_word FpInt (sf ∷ ftype ∷ op ∷ rn ∷ rd ∷ []) }
{
    pack(Row::FpInt, &[sf, ftype, op, rn, rd])
}

/// The word of `VecThree`: Advanced SIMD three same.
#[inline(always)]
pub fn vec_three_word(q: u32, u: u32, size: u32, rm: u32, op: u32, rn: u32, rd: u32) -> u32
    requires { IsForm VecThree (q ∷ u ∷ size ∷ rm ∷ op ∷ rn ∷ rd ∷ []) }
    ensures { result ≡ row_word VecThree (q ∷ u ∷ size ∷ rm ∷ op ∷ rn ∷ rd ∷ []) }
{
    pack(Row::VecThree, &[q, u, size, rm, op, rn, rd])
}

/// The word of `VecPermute`: Advanced SIMD permute.
#[inline(always)]
pub fn vec_permute_word(size: u32, rm: u32, op: u32, rn: u32, rd: u32) -> u32
    requires { IsForm VecPermute (size ∷ rm ∷ op ∷ rn ∷ rd ∷ []) }
    ensures { result ≡ row_word VecPermute (size ∷ rm ∷ op ∷ rn ∷ rd ∷ []) }
{
    pack(Row::VecPermute, &[size, rm, op, rn, rd])
}

/// The word of `VecDot`: Advanced SIMD three-register extension.
#[inline(always)]
pub fn vec_dot_word(q: u32, us: u32, rm: u32, rn: u32, rd: u32) -> u32
    requires { IsForm VecDot (q ∷ us ∷ rm ∷ rn ∷ rd ∷ []) }
    ensures { result ≡ row_word VecDot (q ∷ us ∷ rm ∷ rn ∷ rd ∷ []) }
{
    pack(Row::VecDot, &[q, us, rm, rn, rd])
}

/// The number of an element, as the words of a vector and an element have it.
#[derive(Clone, Copy, Debug)]
pub struct ElementNumber {
    /// The field H: its upper bit, or its only one.
    pub h: u32,
    /// The field L: its lower bit, where it has two.
    pub l: u32,
}

/// The word of `VecElem`: Advanced SIMD vector x indexed element.
#[inline(always)]
pub fn vec_elem_word(
    q: u32,
    sz: u32,
    number: ElementNumber,
    rm: u32,
    o2: u32,
    rn: u32,
    rd: u32,
) -> u32
    requires { IsForm VecElem (q ∷ sz ∷ number.l ∷ rm ∷ o2 ∷ number.h ∷ rn ∷ rd ∷ []) }
    ensures { result ≡ row_word VecElem (q ∷ sz ∷ number.l ∷ rm ∷ o2 ∷ number.h ∷ rn ∷ rd ∷ []) }
{
    pack(Row::VecElem, &[q, sz, number.l, rm, o2, number.h, rn, rd])
}

/// The word of `VecLong3`: Advanced SIMD three different.
#[inline(always)]
pub fn vec_long3_word(q: u32, u: u32, size: u32, mul: u32, rm: u32, rn: u32, rd: u32) -> u32
    requires { IsForm VecLong3 (q ∷ u ∷ size ∷ mul ∷ rm ∷ rn ∷ rd ∷ []) }
    ensures { result ≡ row_word VecLong3 (q ∷ u ∷ size ∷ mul ∷ rm ∷ rn ∷ rd ∷ []) }
{
    pack(Row::VecLong3, &[q, u, size, mul, rm, rn, rd])
}

/// The word of `VecTwo`: Advanced SIMD two-register miscellaneous.
#[inline(always)]
pub fn vec_two_word(q: u32, u: u32, size: u32, op: u32, rn: u32, rd: u32) -> u32
    requires { IsForm VecTwo (q ∷ u ∷ size ∷ op ∷ rn ∷ rd ∷ []) }
    ensures { result ≡ row_word VecTwo (q ∷ u ∷ size ∷ op ∷ rn ∷ rd ∷ []) }
{
    pack(Row::VecTwo, &[q, u, size, op, rn, rd])
}

/// The word of `VecScalarPair`: Advanced SIMD scalar pairwise.
#[inline(always)]
pub fn vec_scalar_pair_word(rn: u32, rd: u32) -> u32
    requires { IsForm VecScalarPair (rn ∷ rd ∷ []) }
    ensures { result ≡ row_word VecScalarPair (rn ∷ rd ∷ []) }
{
    pack(Row::VecScalarPair, &[rn, rd])
}

/// The word of `VecAcross`: Advanced SIMD across lanes.
#[inline(always)]
pub fn vec_across_word(q: u32, u: u32, size: u32, op: u32, rn: u32, rd: u32) -> u32
    requires { IsForm VecAcross (q ∷ u ∷ size ∷ op ∷ rn ∷ rd ∷ []) }
    ensures { result ≡ row_word VecAcross (q ∷ u ∷ size ∷ op ∷ rn ∷ rd ∷ []) }
{
    pack(Row::VecAcross, &[q, u, size, op, rn, rd])
}

/// The word of `VecShift`: Advanced SIMD shift by immediate.
#[inline(always)]
pub fn vec_shift_word(q: u32, u: u32, imm7: u32, op: u32, rn: u32, rd: u32) -> u32
    requires { IsForm VecShift (q ∷ u ∷ imm7 ∷ op ∷ rn ∷ rd ∷ []) }
    ensures { result ≡ row_word VecShift (q ∷ u ∷ imm7 ∷ op ∷ rn ∷ rd ∷ []) }
{
    pack(Row::VecShift, &[q, u, imm7, op, rn, rd])
}

/// The word of `ScalarShift`: Advanced SIMD scalar shift by immediate.
#[inline(always)]
pub fn scalar_shift_word(imm7: u32, op: u32, rn: u32, rd: u32) -> u32
    requires { IsForm ScalarShift (imm7 ∷ op ∷ rn ∷ rd ∷ []) }
    ensures { result ≡ row_word ScalarShift (imm7 ∷ op ∷ rn ∷ rd ∷ []) }
{
    pack(Row::ScalarShift, &[imm7, op, rn, rd])
}

/// The word of `VecImm`: Advanced SIMD modified immediate.
#[inline(always)]
pub fn vec_imm_word(q: u32, op: u32, abc: u32, cmode: u32, defgh: u32, rd: u32) -> u32
    requires { IsForm VecImm (q ∷ op ∷ abc ∷ cmode ∷ defgh ∷ rd ∷ []) }
    ensures { result ≡ row_word VecImm (q ∷ op ∷ abc ∷ cmode ∷ defgh ∷ rd ∷ []) }
{
    pack(Row::VecImm, &[q, op, abc, cmode, defgh, rd])
}

/// The word of `VecCopy`: Advanced SIMD copy, of one element or general register.
#[inline(always)]
pub fn vec_copy_word(q: u32, imm5: u32, op: u32, rn: u32, rd: u32) -> u32
    requires { IsForm VecCopy (q ∷ imm5 ∷ op ∷ rn ∷ rd ∷ []) }
    ensures { result ≡ row_word VecCopy (q ∷ imm5 ∷ op ∷ rn ∷ rd ∷ []) }
{
    pack(Row::VecCopy, &[q, imm5, op, rn, rd])
}

/// The word of `ScalarCopy`: Advanced SIMD scalar copy.
#[inline(always)]
pub fn scalar_copy_word(imm5: u32, rn: u32, rd: u32) -> u32
    requires { IsForm ScalarCopy (imm5 ∷ rn ∷ rd ∷ []) }
    ensures { result ≡ row_word ScalarCopy (imm5 ∷ rn ∷ rd ∷ []) }
{
    pack(Row::ScalarCopy, &[imm5, rn, rd])
}

/// The word of `VecInsElem`: Advanced SIMD copy, INS (element).
#[inline(always)]
pub fn vec_ins_elem_word(imm5: u32, imm4: u32, rn: u32, rd: u32) -> u32
    requires { IsForm VecInsElem (imm5 ∷ imm4 ∷ rn ∷ rd ∷ []) }
    ensures { result ≡ row_word VecInsElem (imm5 ∷ imm4 ∷ rn ∷ rd ∷ []) }
{
    pack(Row::VecInsElem, &[imm5, imm4, rn, rd])
}

/// The word of `VecExt`: Advanced SIMD extract.
#[inline(always)]
pub fn vec_ext_word(rm: u32, imm4: u32, rn: u32, rd: u32) -> u32
    requires { IsForm VecExt (rm ∷ imm4 ∷ rn ∷ rd ∷ []) }
    ensures { result ≡ row_word VecExt (rm ∷ imm4 ∷ rn ∷ rd ∷ []) }
{
    pack(Row::VecExt, &[rm, imm4, rn, rd])
}

/// The word of `VecTable`: Advanced SIMD table lookup.
#[inline(always)]
pub fn vec_table_word(rm: u32, len: u32, ext: u32, rn: u32, rd: u32) -> u32
    requires { IsForm VecTable (rm ∷ len ∷ ext ∷ rn ∷ rd ∷ []) }
    ensures { result ≡ row_word VecTable (rm ∷ len ∷ ext ∷ rn ∷ rd ∷ []) }
{
    pack(Row::VecTable, &[rm, len, ext, rn, rd])
}
