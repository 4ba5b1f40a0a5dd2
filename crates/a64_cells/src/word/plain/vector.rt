//! The words of operations on vectors, of "Data Processing -- Scalar Floating-Point and Advanced SIMD".

ghost use Rattle.std.specs.Prelude.{◌≡◌, ◌<◌, true};
ghost use Rattle.a64_base.specs.ScalarSizes.{has_ftype};
ghost use Rattle.a64_base.specs.VectorSizes.{float_field};
ghost use Rattle.a64_operand.specs.VectorOperands as sets;
ghost use Rattle.a64_enc_int.specs.Registers.{IsReal};
ghost use Rattle.a64_rows.specs.Forms.{form_word, IsFormOf};
ghost use Rattle.a64_cells.specs.VectorForms as forms;

use a64_base::{Reg, ScalarSize, VectorSize, Writable};
use a64_enc_int::register_field;
use a64_enc_vec::{
    ElementNumber, LongFields, OpFields, ThreeOp, TwoFields, TwoOp, element_o2, left_shift_field,
    shift_field, shift_fields, vec_across_word, vec_dot_word, vec_elem_word, vec_long3_word,
    vec_permute_word, vec_scalar_pair_word, vec_shift_word, vec_three_word, vec_two_word,
};
use a64_ops::{VecALUModOp, VecExtendOp, VecShiftImmOp};

/// 1 where lanes have 64 bits, else 0: the field `sz` of operations on floats.
pub fn float_bit(size: VectorSize) -> u32
    ensures value { result ≡ float_field size }
    ensures below { result < 2 }
{
    match size {
        VectorSize::Size64x2 => 1,
        _ => 0,
    }
}

/// The word of an operation on two vectors.
pub fn three_word(op: ThreeOp, size: VectorSize, rd: Writable<Reg>, rn: Reg, rm: Reg) -> u32
    requires rd { IsReal rd }
    requires rn { IsReal rn }
    requires rm { IsReal rm }
    requires form { IsFormOf (forms.three_form op size rd rn rm) }
    ensures { result ≡ form_word (forms.three_form op size rd rn rm) }
{
    let (q, lanes) = size.enc_size();
    let (rm, rn) = (register_field(rm), register_field(rn));
    let rd = register_field(rd.to_reg());
    match op {
        ThreeOp::Lanes { u, op } => vec_three_word(q, u, lanes, rm, op, rn, rd),
        ThreeOp::Bits { u, size } => vec_three_word(q, u, size, rm, 3, rn, rd),
        ThreeOp::Floats { u, op, base } => {
            let floats = base + float_bit(size);
            vec_three_word(q, u, floats, rm, op, rn, rd)
        }
        ThreeOp::Permute { op } => vec_permute_word(lanes, rm, op, rn, rd),
        ThreeOp::Dot { us } => vec_dot_word(q, us, rm, rn, rd),
    }
}

/// The field H of the number of an element: its upper bit, or its only one.
fn element_h(size: VectorSize, idx: u8) -> u32
    ensures { result ≡ forms.element_h size idx }
{
    match size {
        VectorSize::Size32x4 => u32::from(idx / 2),
        VectorSize::Size64x2 => u32::from(idx),
        _ => 0,
    }
}

/// The field L of the number of an element: its lower bit, where it has two.
fn element_l(size: VectorSize, idx: u8) -> u32
    ensures { result ≡ forms.element_l size idx }
{
    match size {
        VectorSize::Size32x4 => u32::from(idx % 2),
        _ => 0,
    }
}

/// The word of an operation on a vector and an element.
#[tactic(auto, using(crate::proofs::VectorForms::element_is_form))]
pub fn element_word(
    op: VecALUModOp,
    size: VectorSize,
    idx: u8,
    rd: Writable<Reg>,
    rn: Reg,
    rm: Reg,
) -> u32
    requires element { sets.is_elem size idx ≡ true }
    requires rd { IsReal rd }
    requires rn { IsReal rn }
    requires rm { IsReal rm }
    ensures { result ≡ form_word (forms.element_form op size idx rd rn rm) }
{
    let (h, l) = (element_h(size, idx), element_l(size, idx));
    let number = ElementNumber { h, l };
    let (sz, o2) = (float_bit(size), element_o2(op));
    let (rm, rn) = (register_field(rm), register_field(rn));
    let rd = register_field(rd.to_reg());
    vec_elem_word(1, sz, number, rm, o2, rn, rd)
}

/// The word of an operation on the halves of two vectors whose result has lanes twice as long.
pub fn long_product_word(fields: LongFields, high: bool, rd: Writable<Reg>, rn: Reg, rm: Reg) -> u32
    requires rd { IsReal rd }
    requires rn { IsReal rn }
    requires rm { IsReal rm }
    requires form { IsFormOf (forms.long_product_form fields high rd rn rm) }
    ensures { result ≡ form_word (forms.long_product_form fields high rd rn rm) }
{
    let LongFields { u, size, mul } = fields;
    let (rm, rn) = (register_field(rm), register_field(rn));
    let rd = register_field(rd.to_reg());
    vec_long3_word(u32::from(high), u, size, mul, rm, rn, rd)
}

/// The word of an operation of Two-register miscellaneous.
pub fn misc_word(q: u32, fields: TwoFields, rd: Writable<Reg>, rn: Reg) -> u32
    requires rd { IsReal rd }
    requires rn { IsReal rn }
    requires form { IsFormOf (forms.misc_form q fields rd rn) }
    ensures { result ≡ form_word (forms.misc_form q fields rd rn) }
{
    let TwoFields { u, size, op } = fields;
    let (rn, rd) = (register_field(rn), register_field(rd.to_reg()));
    vec_two_word(q, u, size, op, rn, rd)
}

/// The fields of an operation on one vector with these lanes.
fn two_fields(op: TwoOp, lanes: VectorSize) -> TwoFields
    ensures { result ≡ forms.two_fields op lanes }
{
    match op {
        TwoOp::Lanes { u, op } => TwoFields {
            u,
            size: lanes.enc_size().1,
            op,
        },
        TwoOp::Bits { u, op } => TwoFields { u, size: 0, op },
        TwoOp::Floats { u, op } => TwoFields {
            u,
            size: float_bit(lanes),
            op,
        },
    }
}

/// The word of an operation on one vector.
pub fn two_word(op: TwoOp, size: VectorSize, rd: Writable<Reg>, rn: Reg) -> u32
    requires rd { IsReal rd }
    requires rn { IsReal rn }
    requires form { IsFormOf (forms.two_form op size rd rn) }
    ensures { result ≡ form_word (forms.two_form op size rd rn) }
{
    misc_word(size.enc_size().0, two_fields(op, size), rd, rn)
}

/// The word of the sum of the two lanes of a vector.
pub fn pair_word(rd: Writable<Reg>, rn: Reg) -> u32
    requires rd { IsReal rd }
    requires rn { IsReal rn }
    ensures { result ≡ form_word (forms.pair_form rd rn) }
{
    let (rn, rd) = (register_field(rn), register_field(rd.to_reg()));
    vec_scalar_pair_word(rn, rd)
}

/// The word of an operation over the lanes of a vector.
pub fn across_word(fields: OpFields, size: VectorSize, rd: Writable<Reg>, rn: Reg) -> u32
    requires rd { IsReal rd }
    requires rn { IsReal rn }
    requires form { IsFormOf (forms.across_form fields size rd rn) }
    ensures { result ≡ form_word (forms.across_form fields size rd rn) }
{
    let OpFields { u, op } = fields;
    let (q, lanes) = size.enc_size();
    let (rn, rd) = (register_field(rn), register_field(rd.to_reg()));
    vec_across_word(q, u, lanes, op, rn, rd)
}

/// The word of a shift of lanes.
pub fn shift_word(q: u32, fields: OpFields, imm7: u32, rd: Writable<Reg>, rn: Reg) -> u32
    requires rd { IsReal rd }
    requires rn { IsReal rn }
    requires form { IsFormOf (forms.shift_form q fields imm7 rd rn) }
    ensures { result ≡ form_word (forms.shift_form q fields imm7 rd rn) }
{
    let OpFields { u, op } = fields;
    let (rn, rd) = (register_field(rn), register_field(rd.to_reg()));
    vec_shift_word(q, u, imm7, op, rn, rd)
}

/// The word of a shift of lanes by an amount.
#[tactic(auto, using(crate::proofs::VectorForms::shift_is_form))]
pub fn lane_shift_word(
    op: VecShiftImmOp,
    size: VectorSize,
    imm: u8,
    rd: Writable<Reg>,
    rn: Reg,
) -> u32
    requires imm { sets.is_amount op size imm ≡ true }
    requires rd { IsReal rd }
    requires rn { IsReal rn }
    ensures { result ≡ form_word (forms.lane_shift_form op size imm rd rn) }
{
    shift_word(
        size.enc_size().0,
        shift_fields(op),
        shift_field(op, size, imm),
        rd,
        rn,
    )
}

/// The word of a shift of lanes to the left that keeps the bits below.
#[tactic(auto, using(crate::proofs::VectorForms::kept_shift_is_form))]
pub fn kept_lane_shift_word(size: VectorSize, imm: u8, rd: Writable<Reg>, rn: Reg) -> u32
    requires imm { sets.is_left_amount size imm ≡ true }
    requires rd { IsReal rd }
    requires rn { IsReal rn }
    ensures { result ≡ form_word (forms.kept_shift_form size imm rd rn) }
{
    let fields = OpFields { u: 1, op: 10 };
    shift_word(
        size.enc_size().0,
        fields,
        left_shift_field(size, imm),
        rd,
        rn,
    )
}

/// The fields U and opcode of an extension of lanes.
fn extend_fields(t: VecExtendOp) -> OpFields
    ensures { result ≡ forms.extend_fields t }
{
    let u = match t {
        VecExtendOp::Sxtl => 0,
        VecExtendOp::Uxtl => 1,
    };
    OpFields { u, op: 20 }
}

/// The bits of a lane that is extended to one of this size.
fn half_bits(lane: ScalarSize) -> u32
    ensures { result ≡ forms.half_bits lane }
{
    match lane {
        ScalarSize::Size16 => 8,
        ScalarSize::Size32 => 16,
        ScalarSize::Size64 => 32,
        _ => 0,
    }
}

/// The word of an extension of lanes.
#[tactic(auto, using(crate::proofs::VectorForms::extend_is_form))]
pub fn extend_lanes_word(
    t: VecExtendOp,
    high: bool,
    lane: ScalarSize,
    rd: Writable<Reg>,
    rn: Reg,
) -> u32
    requires lane { has_ftype lane ≡ true }
    requires rd { IsReal rd }
    requires rn { IsReal rn }
    ensures { result ≡ form_word (forms.extend_form t high lane rd rn) }
{
    shift_word(u32::from(high), extend_fields(t), half_bits(lane), rd, rn)
}
