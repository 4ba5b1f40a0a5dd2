//! Words of other assemblers, by encoders and by a row.

use a64_base::{ExtendOp, IrType, stack_reg, vreg, writable_vreg, writable_xreg, xreg, zero_reg};
use a64_enc_int::{
    enc_acq_rel, enc_arith_rr_imm12, enc_arith_rrr, enc_arith_rrrr, enc_cas, enc_casp, enc_dmb_ish,
    enc_ldar, enc_ldaxr, enc_ldst_imm19, enc_ldst_reg, enc_ldst_simm9, enc_ldst_uimm12, enc_stlr,
    enc_stlxr,
};
use a64_enc_vec::{
    enc_asimd_mod_imm, enc_tbl, enc_vec_lanes, enc_vec_rr_misc, enc_vec_rr_pair,
    enc_vec_rr_pair_long, enc_vec_rrr_long, enc_vecmov,
};
use a64_imms::{SImm9, UImm12Scaled};
use a64_ops::AtomicRMWOp;
use a64_rows::{Row, pack};

/// Raw bits that name a row with their registers.
#[test]
fn arithmetic(rt: HostRuntime) {
    let add = enc_arith_rrr(0b100_0101_1000, 0, writable_xreg(1), xreg(2), xreg(3));
    let product = enc_arith_rrrr(0x4d8, zero_reg(), 1, xreg(30), xreg(9), writable_xreg(27));
    for (word, want) in [
        // add x1, x2, x3
        (add, 0x8b03_0041),
        // msub x27, x9, xzr, x30
        (product, 0x9b1f_f93b),
    ] {
        assert_eq!(rt; word, want, "{word:#x} for {want:#x}");
    }
}

/// A row and the values of its fields.
#[test]
fn fields(rt: HostRuntime) {
    // mov x0, #5
    assert_eq!(rt; pack(Row::MoveWide, &[1, 2, 0, 5, 0]), 0xd280_00a0);
}

#[test]
fn immediates(rt: HostRuntime) {
    for (word, want) in [
        // add x1, x2, #5, lsl #12
        (
            enc_arith_rr_imm12(0b1001_0001, 1, 5, xreg(2), writable_xreg(1)),
            0x9140_1441,
        ),
        // subs w3, w4, #4095
        (
            enc_arith_rr_imm12(0b0111_0001, 0, 4095, xreg(4), writable_xreg(3)),
            0x713f_fc83,
        ),
    ] {
        assert_eq!(rt; word, want, "{word:#x} for {want:#x}");
    }
}

#[test]
fn accesses_by_offsets(rt: HostRuntime) {
    let back = SImm9::maybe_from_i64(-256).expect(&rt, "nine bits");
    let ahead = SImm9::maybe_from_i64(255).expect(&rt, "nine bits");
    let words = UImm12Scaled::maybe_from_i64(32760, IrType::I64).expect(&rt, "twelve bits");
    let vectors = UImm12Scaled::maybe_from_i64(16, IrType::I8X16).expect(&rt, "twelve bits");
    for (word, want) in [
        // ldur x1, [x2, #-256]
        (
            enc_ldst_simm9(0b11_1110_0001, back, 0, xreg(2), xreg(1)),
            0xf850_0041,
        ),
        // ldr q3, [sp, #255]!
        (
            enc_ldst_simm9(0b00_1111_0011, ahead, 3, stack_reg(), vreg(3)),
            0x3ccf_ffe3,
        ),
        // ldr x1, [x2, #32760]
        (
            enc_ldst_uimm12(0b11_1110_0001, words, xreg(2), xreg(1)),
            0xf97f_fc41,
        ),
        // str q4, [sp, #16]
        (
            enc_ldst_uimm12(0b00_1111_0010, vectors, stack_reg(), vreg(4)),
            0x3d80_07e4,
        ),
    ] {
        assert_eq!(rt; word, want, "{word:#x} for {want:#x}");
    }
}

#[test]
fn accesses_by_indices_and_literals(rt: HostRuntime) {
    let signed = Some(ExtendOp::SXTW);
    for (word, want) in [
        // ldr x1, [x2, w3, sxtw #3]
        (
            enc_ldst_reg(0b11_1110_0001, xreg(2), xreg(3), true, signed, xreg(1)),
            0xf863_d841,
        ),
        // str d4, [sp, x5]
        (
            enc_ldst_reg(0b11_1111_0000, stack_reg(), xreg(5), false, None, vreg(4)),
            0xfc25_6be4,
        ),
        // ldr x9, #-4
        (enc_ldst_imm19(0x58, 0x7_ffff, xreg(9)), 0x58ff_ffe9),
        // ldr q9, #1048572
        (enc_ldst_imm19(0x9c, 0x3_ffff, vreg(9)), 0x9c7f_ffe9),
    ] {
        assert_eq!(rt; word, want, "{word:#x} for {want:#x}");
    }
}

#[test]
fn atomic_accesses(rt: HostRuntime) {
    let clear = enc_acq_rel(
        IrType::I16,
        AtomicRMWOp::Clr,
        xreg(8),
        writable_xreg(1),
        stack_reg(),
    );
    let swap = enc_acq_rel(
        IrType::I8,
        AtomicRMWOp::Swp,
        xreg(9),
        writable_xreg(27),
        xreg(23),
    );
    let store = enc_stlxr(IrType::I64, writable_xreg(24), xreg(28), xreg(25));
    for (word, want) in [
        // ldclralh w8, w1, [sp]
        (clear, 0x78e8_13e1),
        // swpalb w9, w27, [x23]
        (swap, 0x38e9_82fb),
        // ldar w27, [x21]
        (
            enc_ldar(IrType::I32, writable_xreg(27), xreg(21)),
            0x88df_febb,
        ),
        // stlr w9, [x26]
        (enc_stlr(IrType::I32, xreg(9), xreg(26)), 0x889f_ff49),
        // ldaxrh w27, [x25]
        (
            enc_ldaxr(IrType::I16, writable_xreg(27), xreg(25)),
            0x485f_ff3b,
        ),
        // stlxr w24, x28, [x25]
        (store, 0xc818_ff3c),
        // casal x30, xzr, [x23]
        (
            enc_cas(3, writable_xreg(30), zero_reg(), xreg(23)),
            0xc8fe_feff,
        ),
        // caspal x16, x17, x24, x25, [x28]
        (enc_casp(writable_xreg(16), xreg(24), xreg(28)), 0x4870_ff98),
        // dmb ish
        (enc_dmb_ish(), 0xd503_3bbf),
    ] {
        assert_eq!(rt; word, want, "{word:#x} for {want:#x}");
    }
}

#[test]
fn vectors(rt: HostRuntime) {
    for (word, want) in [
        // umull2 v1.4s, v2.8h, v3.8h
        (
            enc_vec_rrr_long(1, 1, 1, 1, vreg(3), vreg(2), writable_vreg(1)),
            0x6e63_c041,
        ),
        // mov v31.16b, v7.16b
        (enc_vecmov(true, writable_vreg(31), vreg(7)), 0x4ea7_1cff),
        // neg v5.4h, v30.4h
        (
            enc_vec_rr_misc(0b01, 1, 11, writable_vreg(5), vreg(30)),
            0x2e60_bbc5,
        ),
        // addp d9, v8.2d
        (
            enc_vec_rr_pair(0b11011, writable_vreg(9), vreg(8)),
            0x5ef1_b909,
        ),
        // uaddlp v4.4s, v6.8h
        (
            enc_vec_rr_pair_long(1, 1, writable_vreg(4), vreg(6)),
            0x6e60_28c4,
        ),
        // addv b1, v2.8b
        (
            enc_vec_lanes(0, 0, 0, 0b11011, writable_vreg(1), vreg(2)),
            0x0e31_b841,
        ),
        // tbx v3.16b, {v31.16b, v0.16b}, v12.16b
        (
            enc_tbl(true, 1, writable_vreg(3), vreg(31), vreg(12)),
            0x4e0c_33e3,
        ),
        // mvni v20.4s, #0xb8, msl #16
        (
            enc_asimd_mod_imm(writable_vreg(20), 0b11, 0b1101, 0xb8),
            0x6f05_d714,
        ),
    ] {
        assert_eq!(rt; word, want, "{word:#x} for {want:#x}");
    }
}
