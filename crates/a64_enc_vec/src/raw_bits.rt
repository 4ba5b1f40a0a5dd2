//! The words of rows that raw bits tell, with vector registers.

ghost use Rattle.std.specs.Prelude.{◌≡◌};
ghost use Rattle.a64_enc_int.specs.Named.{rrr_number, AreParts, NamedForm};
ghost use Rattle.a64_enc_vec.specs.Named.{rows_of_vec_rr, rows_of_vec_rrr, vec_rr_number, AreTwoParts};

use crate::fields::{
    ElementNumber, fp_one_word, fp_select_word, fp_three_word, fp_two_word, scalar_copy_word,
    scalar_shift_word, vec_across_word, vec_dot_word, vec_elem_word, vec_ext_word,
    vec_ins_elem_word, vec_long3_word, vec_permute_word, vec_scalar_pair_word, vec_shift_word,
    vec_table_word, vec_three_word, vec_two_word,
};

/// The word of the row that raw bits tell, with two registers.
#[inline(always)]
pub(crate) fn pack_vec_rr(top: u32, rn: u32, rd: u32) -> u32
    requires below { AreTwoParts top rd rn }
    requires form { NamedForm rows_of_vec_rr (vec_rr_number top rd rn) }
    ensures { result ≡ vec_rr_number top rd rn }
{
    let (q, u, size) = ((top >> 20) % 2, (top >> 19) % 2, (top >> 12) % 4);
    let (imm7, imm5) = ((top >> 6) % 128, (top >> 6) % 32);
    match (top >> 14) % 32 {
        0b01111 => vec_shift_word(q, u, imm7, (top >> 1) % 32, rn, rd),
        0b11111 => scalar_shift_word(imm7, (top >> 1) % 32, rn, rd),
        0b11110 => {
            if (top >> 11) % 2 == 0 {
                scalar_copy_word(imm5, rn, rd)
            } else if q == 0 {
                fp_one_word(size, (top >> 5) % 64, rn, rd)
            } else {
                vec_scalar_pair_word(rn, rd)
            }
        }
        _ => {
            if (top >> 11) % 2 == 0 {
                vec_ins_elem_word(imm5, (top >> 1) % 16, rn, rd)
            } else if (top >> 10) % 2 == 0 {
                vec_two_word(q, u, size, (top >> 2) % 32, rn, rd)
            } else {
                vec_across_word(q, u, size, (top >> 2) % 32, rn, rd)
            }
        }
    }
}

/// The word of the row that raw bits tell, with three registers.
#[inline(always)]
pub(crate) fn pack_vec_rrr(top: u32, low: u32, rm: u32, rn: u32, rd: u32) -> u32
    requires below { AreParts top low rd rn rm }
    requires form { NamedForm rows_of_vec_rrr (rrr_number top low rd rn rm) }
    ensures { result ≡ rrr_number top low rd rn rm }
{
    let (q, u, size) = ((top >> 9) % 2, (top >> 8) % 2, (top >> 1) % 4);
    match (top >> 3) % 32 {
        0b01111 => {
            let (h, l) = ((low >> 1) % 2, top % 2);
            let number = ElementNumber { h, l };
            vec_elem_word(q, (top >> 1) % 2, number, rm, (low >> 4) % 2, rn, rd)
        }
        0b11111 => fp_three_word(size, top % 2, rm, low >> 5, low % 32, rn, rd),
        0b11110 => {
            if low % 2 == 0 {
                fp_two_word(size, rm, low >> 2, rn, rd)
            } else {
                fp_select_word(size, rm, low >> 2, rn, rd)
            }
        }
        _ => {
            if top % 2 == 1 {
                if low % 2 == 1 {
                    vec_three_word(q, u, size, rm, low >> 1, rn, rd)
                } else {
                    vec_long3_word(q, u, size, (low >> 4) % 2, rm, rn, rd)
                }
            } else if low % 2 == 1 {
                vec_dot_word(q, (low >> 1) % 2, rm, rn, rd)
            } else if u == 1 {
                vec_ext_word(rm, (low >> 1) % 16, rn, rd)
            } else if (low >> 1) % 2 == 1 {
                vec_permute_word(size, rm, (low >> 2) % 8, rn, rd)
            } else {
                vec_table_word(rm, (low >> 3) % 4, (low >> 2) % 2, rn, rd)
            }
        }
    }
}
