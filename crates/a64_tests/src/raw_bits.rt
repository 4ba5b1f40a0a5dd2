//! Words of other assemblers, by the encoders of floats and vectors to which raw bits tell the row.

use a64_base::{vreg, writable_vreg, writable_xreg, xreg};
use a64_enc_vec::{
    enc_fpurr, enc_fpurrr, enc_fpurrrr, enc_fputoint, enc_fround, enc_inttofpu, enc_vec_rrr,
};

/// Raw bits that name a row with two vector registers.
#[test]
fn two_registers(rt: HostRuntime) {
    let absolute = enc_fpurr(0x7_9830, writable_vreg(3), vreg(31));
    let shift = enc_fpurr(0x1b_cf41, writable_vreg(1), vreg(2));
    let floor = enc_fround(0x7_9950, writable_vreg(9), vreg(10));
    let lane = enc_fround(0x17_8601, writable_vreg(3), vreg(4));
    for (word, want) in [
        // fabs d3, d31
        (absolute, 0x1e60_c3e3),
        // ushr v1.4s, v2.4s, #3
        (shift, 0x6f3d_0441),
        // frintm d9, d10
        (floor, 0x1e65_4149),
        // mov d3, v4.d[1]
        (lane, 0x5e18_0483),
    ] {
        assert_eq!(rt; word, want, "{word:#x} for {want:#x}");
    }
}

/// Raw bits that name a row with three vector registers or four.
#[test]
fn more_registers(rt: HostRuntime) {
    let sum = enc_fpurrr(0x7_880a, writable_vreg(1), vreg(2), vreg(3));
    let lanes = enc_fpurrr(0x13_a821, writable_vreg(1), vreg(2), vreg(3));
    let product = enc_fpurrrr(0x3e41, writable_vreg(30), vreg(21), vreg(12), vreg(3));
    let element = enc_vec_rrr(0x27c, vreg(3), 0b00_0110, vreg(2), writable_vreg(1));
    let selection = enc_vec_rrr(0x0f3, vreg(7), 0b11_0011, vreg(6), writable_vreg(5));
    for (word, want) in [
        // fadd s1, s2, s3
        (sum, 0x1e23_2841),
        // add v1.4s, v2.4s, v3.4s
        (lanes, 0x4ea3_8441),
        // fnmsub s30, s21, s12, s3
        (product, 0x1f2c_8ebe),
        // fmla v1.4s, v2.4s, v3.s[2]
        (element, 0x4f83_1841),
        // fcsel d5, d6, d7, gt
        (selection, 0x1e67_ccc5),
    ] {
        assert_eq!(rt; word, want, "{word:#x} for {want:#x}");
    }
}

/// Raw bits that name a conversion.
#[test]
fn conversions(rt: HostRuntime) {
    for (word, want) in [
        // fcvtzu w3, s4
        (enc_fputoint(0x1e39, writable_xreg(3), vreg(4)), 0x1e39_0083),
        // scvtf d1, x2
        (enc_inttofpu(0x9e62, writable_vreg(1), xreg(2)), 0x9e62_0041),
    ] {
        assert_eq!(rt; word, want, "{word:#x} for {want:#x}");
    }
}
