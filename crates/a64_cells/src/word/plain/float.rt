//! The words of operations on scalar floats, of "Data Processing -- Scalar Floating-Point and Advanced SIMD".

ghost use Rattle.std.specs.Prelude.{◌≡◌, ◌<◌, ◌≤◌, true};
ghost use Rattle.a64_base.specs.ScalarSizes.{has_ftype};
ghost use Rattle.a64_operand.specs.FloatOperands as sets;
ghost use Rattle.a64_enc_int.specs.Registers.{IsReal};
ghost use Rattle.a64_rows.specs.Forms.{form_word, IsFormOf};
ghost use Rattle.a64_cells.specs.FloatForms as forms;

use a64_base::{Reg, ScalarSize, VectorSize, Writable};
use a64_enc_int::register_field;
use a64_enc_vec::{
    fp_int_word, fp_one_word, fp_three_word, fp_two_word, scalar_copy_word, scalar_shift_word,
    vec_shift_word, vec_three_word,
};
use a64_imms::ASIMDFPModImm;
use a64_inst::{FPUOpRI, FPUOpRIMod};
use a64_ops::{FPUOp1, FPUOp2, FPUOp3, FpuRoundMode, FpuToIntOp, IntToFpuOp};
use a64_rows::{Row, pack};

/// The field opcode of an operation on one float.
fn one_opcode(op: FPUOp1) -> u32
    ensures value { result ≡ forms.one_opcode op }
    ensures below { result < 6 }
{
    match op {
        FPUOp1::Abs => 1,
        FPUOp1::Neg => 2,
        FPUOp1::Sqrt => 3,
        FPUOp1::Cvt64To32 => 4,
        FPUOp1::Cvt32To64 => 5,
    }
}

/// The field opcode of a rounding.
fn round_opcode(op: FpuRoundMode) -> u32
    ensures value { result ≡ forms.round_opcode op }
    ensures least { 8 ≤ result }
    ensures below { result < 12 }
{
    match op {
        FpuRoundMode::Nearest32 | FpuRoundMode::Nearest64 => 8,
        FpuRoundMode::Plus32 | FpuRoundMode::Plus64 => 9,
        FpuRoundMode::Minus32 | FpuRoundMode::Minus64 => 10,
        FpuRoundMode::Zero32 | FpuRoundMode::Zero64 => 11,
    }
}

/// The size of what a rounding rounds.
fn round_size(op: FpuRoundMode) -> ScalarSize
    ensures value { result ≡ forms.round_size op }
    ensures float { has_ftype result ≡ true }
{
    match op {
        FpuRoundMode::Nearest32
        | FpuRoundMode::Plus32
        | FpuRoundMode::Minus32
        | FpuRoundMode::Zero32 => ScalarSize::Size32,
        FpuRoundMode::Nearest64
        | FpuRoundMode::Plus64
        | FpuRoundMode::Minus64
        | FpuRoundMode::Zero64 => ScalarSize::Size64,
    }
}

/// The field opcode of an operation on two floats.
fn two_opcode(op: FPUOp2) -> u32
    ensures value { result ≡ forms.two_opcode op }
    ensures below { result < 6 }
{
    match op {
        FPUOp2::Mul => 0,
        FPUOp2::Div => 1,
        FPUOp2::Add => 2,
        FPUOp2::Sub => 3,
        FPUOp2::Max => 4,
        FPUOp2::Min => 5,
    }
}

/// The field o1 of an operation on three floats.
fn o1_bit(op: FPUOp3) -> u32
    ensures value { result ≡ forms.o1_of op }
    ensures below { result < 2 }
{
    match op {
        FPUOp3::MAdd | FPUOp3::MSub => 0,
        FPUOp3::NMAdd | FPUOp3::NMSub => 1,
    }
}

/// The field o0 of an operation on three floats.
fn o0_bit(op: FPUOp3) -> u32
    ensures value { result ≡ forms.o0_of op }
    ensures below { result < 2 }
{
    match op {
        FPUOp3::MAdd | FPUOp3::NMAdd => 0,
        FPUOp3::MSub | FPUOp3::NMSub => 1,
    }
}

/// The fields of a conversion between a float and an integer that go by the operator.
#[derive(Clone, Copy, Debug)]
pub struct Conversion {
    /// 1 where the integer has 64 bits, 0 where it has 32.
    pub sf: u32,
    /// The size of the float: 0 for 32 bits, 1 for 64, 3 for 16.
    pub ftype: u32,
    /// The fields rmode and opcode as one: the operation, and how it rounds.
    pub op: u32,
}

/// The fields of a conversion to an integer.
pub fn to_int(op: FpuToIntOp) -> Conversion
    ensures { result ≡ forms.to_int op }
{
    let (sf, ftype, op) = match op {
        FpuToIntOp::F32ToI32 => (0, 0, 24),
        FpuToIntOp::F32ToU32 => (0, 0, 25),
        FpuToIntOp::F32ToI64 => (1, 0, 24),
        FpuToIntOp::F32ToU64 => (1, 0, 25),
        FpuToIntOp::F64ToI32 => (0, 1, 24),
        FpuToIntOp::F64ToU32 => (0, 1, 25),
        FpuToIntOp::F64ToI64 => (1, 1, 24),
        FpuToIntOp::F64ToU64 => (1, 1, 25),
    };
    Conversion { sf, ftype, op }
}

/// The fields of a conversion of an integer.
pub fn from_int(op: IntToFpuOp) -> Conversion
    ensures { result ≡ forms.from_int op }
{
    let (sf, ftype, op) = match op {
        IntToFpuOp::I32ToF32 => (0, 0, 2),
        IntToFpuOp::U32ToF32 => (0, 0, 3),
        IntToFpuOp::I64ToF32 => (1, 0, 2),
        IntToFpuOp::U64ToF32 => (1, 0, 3),
        IntToFpuOp::I32ToF64 => (0, 1, 2),
        IntToFpuOp::U32ToF64 => (0, 1, 3),
        IntToFpuOp::I64ToF64 => (1, 1, 2),
        IntToFpuOp::U64ToF64 => (1, 1, 3),
    };
    Conversion { sf, ftype, op }
}

/// The fields of a move of so many bits of a general register.
pub fn bits_to_float(size: ScalarSize) -> Conversion
    ensures { result ≡ forms.bits_to_float size }
{
    let (sf, ftype) = match size {
        ScalarSize::Size16 => (0, 3),
        ScalarSize::Size64 => (1, 1),
        _ => (0, 0),
    };
    Conversion { sf, ftype, op: 7 }
}

/// The field imm5 of a lane of a vector register.
pub fn lane_number(size: ScalarSize, idx: u8) -> u32
    ensures { result ≡ forms.lane_number size idx }
{
    let idx = u32::from(idx);
    match size {
        ScalarSize::Size8 => 1 + 2 * idx,
        ScalarSize::Size16 => 2 + 4 * idx,
        ScalarSize::Size32 => 4 + 8 * idx,
        ScalarSize::Size64 => 8 + 16 * idx,
        ScalarSize::Size128 => 0,
    }
}

/// The word of a move of a float.
pub fn move_word(size: ScalarSize, rd: Writable<Reg>, rn: Reg) -> u32
    requires size { has_ftype size ≡ true }
    requires rd { IsReal rd }
    requires rn { IsReal rn }
    ensures { result ≡ form_word (forms.move_form size rd rn) }
{
    let (rn, rd) = (register_field(rn), register_field(rd.to_reg()));
    fp_one_word(size.ftype(), 0, rn, rd)
}

/// The word of a move of a whole vector register.
pub fn move_vector_word(rd: Writable<Reg>, rn: Reg) -> u32
    requires rd { IsReal rd }
    requires rn { IsReal rn }
    ensures { result ≡ form_word (forms.move_vector_form rd rn) }
{
    let (rn, rd) = (register_field(rn), register_field(rd.to_reg()));
    vec_three_word(1, 0, 2, rn, 3, rn, rd)
}

/// The word of a move of one lane.
#[tactic(auto, using(crate::proofs::FloatForms::float_lane_below))]
pub fn move_lane_word(size: VectorSize, idx: u8, rd: Writable<Reg>, rn: Reg) -> u32
    requires lane { sets.is_float_lane size idx ≡ true }
    requires rd { IsReal rd }
    requires rn { IsReal rn }
    ensures { result ≡ form_word (forms.move_lane_form size idx rd rn) }
{
    let (rn, rd) = (register_field(rn), register_field(rd.to_reg()));
    scalar_copy_word(lane_number(size.lane_size(), idx), rn, rd)
}

/// The word of an operation on one float.
#[tactic(auto, using(crate::proofs::FloatForms::one_float_size))]
pub fn one_float_word(op: FPUOp1, size: ScalarSize, rd: Writable<Reg>, rn: Reg) -> u32
    requires size { sets.is_fpu_op1_at op size ≡ true }
    requires rd { IsReal rd }
    requires rn { IsReal rn }
    ensures { result ≡ form_word (forms.one_float_form op size rd rn) }
{
    let (rn, rd) = (register_field(rn), register_field(rd.to_reg()));
    fp_one_word(size.ftype(), one_opcode(op), rn, rd)
}

/// The word of a rounding.
pub fn round_word(op: FpuRoundMode, rd: Writable<Reg>, rn: Reg) -> u32
    requires rd { IsReal rd }
    requires rn { IsReal rn }
    ensures { result ≡ form_word (forms.round_form op rd rn) }
{
    let (rn, rd) = (register_field(rn), register_field(rd.to_reg()));
    let ftype = round_size(op).ftype();
    fp_one_word(ftype, round_opcode(op), rn, rd)
}

/// The word of an operation on two floats.
pub fn two_floats_word(op: FPUOp2, size: ScalarSize, rd: Writable<Reg>, rn: Reg, rm: Reg) -> u32
    requires size { has_ftype size ≡ true }
    requires rd { IsReal rd }
    requires rn { IsReal rn }
    requires rm { IsReal rm }
    ensures { result ≡ form_word (forms.two_floats_form op size rd rn rm) }
{
    let (rm, rn) = (register_field(rm), register_field(rn));
    let rd = register_field(rd.to_reg());
    fp_two_word(size.ftype(), rm, two_opcode(op), rn, rd)
}

/// The word of an operation on three floats.
pub fn three_floats_word(
    op: FPUOp3,
    size: ScalarSize,
    rd: Writable<Reg>,
    rn: Reg,
    rm: Reg,
    ra: Reg,
) -> u32
    requires size { has_ftype size ≡ true }
    requires rd { IsReal rd }
    requires rn { IsReal rn }
    requires rm { IsReal rm }
    requires ra { IsReal ra }
    ensures { result ≡ form_word (forms.three_floats_form op size rd rn rm ra) }
{
    let (o1, o0) = (o1_bit(op), o0_bit(op));
    let (rm, ra) = (register_field(rm), register_field(ra));
    let (rn, rd) = (register_field(rn), register_field(rd.to_reg()));
    fp_three_word(size.ftype(), o1, rm, o0, ra, rn, rd)
}

/// The word of a shift to the right.
#[tactic(auto, using(crate::proofs::FloatForms::right_lawful_32, crate::proofs::FloatForms::right_lawful_64, crate::proofs::FloatForms::right_least))]
pub fn right_shift_word(op: FPUOpRI, rd: Writable<Reg>, rn: Reg) -> u32
    requires op { sets.is_right_shift op ≡ true }
    requires rd { IsReal rd }
    requires rn { IsReal rn }
    ensures { result ≡ form_word (forms.right_shift_form op rd rn) }
{
    let (rn, rd) = (register_field(rn), register_field(rd.to_reg()));
    match op {
        FPUOpRI::UShr32(imm) => vec_shift_word(0, 1, imm.enc(), 0, rn, rd),
        FPUOpRI::UShr64(imm) => scalar_shift_word(imm.enc(), 0, rn, rd),
    }
}

/// The word of a shift to the left that keeps the bits below.
#[tactic(auto, using(crate::proofs::FloatForms::left_lawful_32, crate::proofs::FloatForms::left_lawful_64, crate::proofs::FloatForms::left_least))]
pub fn kept_shift_word(op: FPUOpRIMod, rd: Writable<Reg>, rn: Reg) -> u32
    requires op { sets.is_left_shift op ≡ true }
    requires rd { IsReal rd }
    requires rn { IsReal rn }
    ensures { result ≡ form_word (forms.kept_shift_form op rd rn) }
{
    let (rn, rd) = (register_field(rn), register_field(rd.to_reg()));
    match op {
        FPUOpRIMod::Sli32(imm) => vec_shift_word(0, 1, imm.enc(), 10, rn, rd),
        FPUOpRIMod::Sli64(imm) => scalar_shift_word(imm.enc(), 10, rn, rd),
    }
}

/// The word of a move of an immediate float.
pub fn float_immediate_word(size: ScalarSize, imm: ASIMDFPModImm, rd: Writable<Reg>) -> u32
    requires size { has_ftype size ≡ true }
    requires rd { IsReal rd }
    ensures { result ≡ form_word (forms.immediate_form size imm rd) }
{
    let imm8 = u32::from(imm.imm);
    pack(
        Row::FpImm,
        &[size.ftype(), imm8, register_field(rd.to_reg())],
    )
}

/// The word of a conversion between a float and an integer, or of a move of bits.
pub fn conversion_word(conversion: Conversion, rd: Writable<Reg>, rn: Reg) -> u32
    requires rd { IsReal rd }
    requires rn { IsReal rn }
    requires form { IsFormOf (forms.conversion_form conversion rd rn) }
    ensures { result ≡ form_word (forms.conversion_form conversion rd rn) }
{
    let Conversion { sf, ftype, op } = conversion;
    let (rn, rd) = (register_field(rn), register_field(rd.to_reg()));
    fp_int_word(sf, ftype, op, rn, rd)
}
