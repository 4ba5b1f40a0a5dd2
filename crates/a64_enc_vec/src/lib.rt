//! Encoders of vector and float instructions: from operands to the word of a row.
//!
//! Each keeps the name and the parameters of its namesake in Cranelift. Its parameters name a form of a row, within the
//! row's limits, and its answer is the word of that form. Functions named after rows take the values of their fields.
#![tactic(auto)]

mod fields;
mod float;
mod memory;
mod operator;
mod raw_bits;
mod register;
mod shift;
mod vector;

pub use fields::{
    ElementNumber, fp_int_word, fp_one_word, fp_select_word, fp_three_word, fp_two_word,
    scalar_copy_word, scalar_shift_word, vec_across_word, vec_copy_word, vec_dot_word,
    vec_elem_word, vec_ext_word, vec_imm_word, vec_ins_elem_word, vec_long3_word, vec_permute_word,
    vec_scalar_pair_word, vec_shift_word, vec_table_word, vec_three_word, vec_two_word,
};
pub use float::{
    enc_fcmp, enc_fcsel, enc_fpurr, enc_fpurrr, enc_fpurrrr, enc_fputoint, enc_fround, enc_inttofpu,
};
pub use memory::{enc_ldst_vec, enc_ldst_vec_pair};
pub use operator::{
    LongFields, OpFields, ThreeOp, TwoFields, TwoOp, across_fields, added_product_fields,
    element_o2, kept_three_op, long_fields, narrow_fields, pair_long_fields, product_fields,
    shift_fields, three_op, two_op,
};
pub use shift::{lane_bits, left_shift_field, shift_field};
pub use vector::{
    enc_asimd_mod_imm, enc_tbl, enc_vec_lanes, enc_vec_rr_misc, enc_vec_rr_pair,
    enc_vec_rr_pair_long, enc_vec_rrr, enc_vec_rrr_long, enc_vecmov,
};
