//! Encoders of integer instructions: from operands to the word of a row.
//!
//! Each keeps the name and the parameters of its namesake in Cranelift. Its parameters name a form of a row, within the
//! row's limits, and its answer is the word of that form. A parameter that holds raw bits of the word is told by the row's
//! word with zeros in all other fields.
#![tactic(auto)]

mod address;
mod arith;
mod atomic;
mod branch;
mod exclusive;
mod fields;
mod memory;
mod register;
mod select;

pub use address::{enc_adr, enc_adr_inst, enc_adrp};
pub use arith::{enc_arith_rr_imm12, enc_arith_rr_imml, enc_arith_rrr, enc_arith_rrrr, enc_bit_rr};
pub use atomic::{
    enc_acq_rel, enc_cas, enc_casp, enc_dmb_ish, enc_ldar, enc_ldaxr, enc_stlr, enc_stlxr,
};
pub use branch::{
    enc_br, enc_cbr, enc_cmpbr, enc_conditional_br, enc_jump26, enc_op_size,
    enc_test_bit_and_branch,
};
pub use exclusive::{LoopTraps, loop_offset, loop_traps};
pub use fields::{
    AccessFields, PairRegisters, TwoRegisters, add_sub_carry_word, add_sub_ext_word,
    add_sub_imm_word, add_sub_reg_word, data_proc2_word, extract_word, ld_literal_word,
    ld_st_imm9_word, ld_st_pair_word, ld_st_reg_word, ld_st_unsigned_word, logic_imm_word,
    logic_reg_word, mul_add_long_word, mul_add_word, mul_high_word,
};
pub use memory::{enc_ldst_imm19, enc_ldst_pair, enc_ldst_reg, enc_ldst_simm9, enc_ldst_uimm12};
pub use register::register_field;
pub use select::{enc_bfm, enc_ccmp, enc_ccmp_imm, enc_csel, enc_move_wide, enc_movk};
