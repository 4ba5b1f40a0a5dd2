//! What must hold of operations on vectors, beside the classes of their registers.

ghost use Rattle.std.specs.Prelude.{◌≡◌};
ghost use Rattle.a64_operand.specs.VectorOperands as sets;

use crate::lanes::Lanes;
use crate::operand::is_same_register;
use a64_base::{Reg, ScalarSize, VectorSize};
use a64_ops::{VecALUModOp, VecALUOp, VecMisc2, VecRRNarrowOp, VecShiftImmOp};

/// The lanes of an operator on two vectors.
fn alu_lanes(op: VecALUOp) -> Lanes
    ensures { result ≡ sets.alu_lanes op }
{
    match op {
        VecALUOp::Sqadd
        | VecALUOp::Uqadd
        | VecALUOp::Sqsub
        | VecALUOp::Uqsub
        | VecALUOp::Cmeq
        | VecALUOp::Cmge
        | VecALUOp::Cmgt
        | VecALUOp::Cmhs
        | VecALUOp::Cmhi
        | VecALUOp::And
        | VecALUOp::Bic
        | VecALUOp::Orr
        | VecALUOp::Orn
        | VecALUOp::Eor
        | VecALUOp::Add
        | VecALUOp::Sub
        | VecALUOp::Sshl
        | VecALUOp::Ushl
        | VecALUOp::Addp => Lanes::Any,
        VecALUOp::Fcmeq
        | VecALUOp::Fcmgt
        | VecALUOp::Fcmge
        | VecALUOp::Fadd
        | VecALUOp::Fsub
        | VecALUOp::Fdiv
        | VecALUOp::Fmax
        | VecALUOp::Fmin
        | VecALUOp::Fmul => Lanes::Floats,
        VecALUOp::Umaxp
        | VecALUOp::Mul
        | VecALUOp::Umin
        | VecALUOp::Smin
        | VecALUOp::Umax
        | VecALUOp::Smax
        | VecALUOp::Urhadd => Lanes::To32,
        VecALUOp::Zip1
        | VecALUOp::Zip2
        | VecALUOp::Uzp1
        | VecALUOp::Uzp2
        | VecALUOp::Trn1
        | VecALUOp::Trn2 => Lanes::Full,
        VecALUOp::Sqrdmulh => Lanes::Of16Or32,
    }
}

/// The lanes of an operator on two vectors and the register of its result.
fn mod_lanes(op: VecALUModOp) -> Lanes
    ensures { result ≡ sets.mod_lanes op }
{
    match op {
        VecALUModOp::Bsl | VecALUModOp::Sdot | VecALUModOp::Usdot => Lanes::Any,
        VecALUModOp::Fmla | VecALUModOp::Fmls => Lanes::Floats,
    }
}

/// The lanes of an operator on one vector.
fn misc_lanes(op: VecMisc2) -> Lanes
    ensures { result ≡ sets.misc_lanes op }
{
    match op {
        VecMisc2::Not
        | VecMisc2::Neg
        | VecMisc2::Abs
        | VecMisc2::Cmeq0
        | VecMisc2::Cmge0
        | VecMisc2::Cmgt0
        | VecMisc2::Cmle0
        | VecMisc2::Cmlt0 => Lanes::Any,
        VecMisc2::Fabs
        | VecMisc2::Fneg
        | VecMisc2::Fsqrt
        | VecMisc2::Fcvtzs
        | VecMisc2::Fcvtzu
        | VecMisc2::Frintn
        | VecMisc2::Frintz
        | VecMisc2::Frintm
        | VecMisc2::Frintp
        | VecMisc2::Fcmeq0
        | VecMisc2::Fcmge0
        | VecMisc2::Fcmgt0
        | VecMisc2::Fcmle0
        | VecMisc2::Fcmlt0 => Lanes::Floats,
        VecMisc2::Rev16 => Lanes::FullBytes,
        VecMisc2::Rev32 => Lanes::FullTo16,
        VecMisc2::Rev64 => Lanes::FullTo32,
        VecMisc2::Scvtf | VecMisc2::Ucvtf => Lanes::FullFloats,
        VecMisc2::Cnt => Lanes::Bytes,
    }
}

/// Whether an operator on two vectors has such lanes.
pub fn is_alu_at(op: VecALUOp, size: VectorSize) -> bool
    ensures { result ≡ sets.is_alu_at op size }
{
    alu_lanes(op).has(size)
}

/// Whether an operator on one vector has such lanes.
pub fn is_misc_at(op: VecMisc2, size: VectorSize) -> bool
    ensures { result ≡ sets.is_misc_at op size }
{
    misc_lanes(op).has(size)
}

/// Whether the third operand is the result's register, and an operator has such lanes.
pub fn is_mod_at(rd: &Reg, ri: &Reg, op: VecALUModOp, size: VectorSize) -> bool
    ensures { result ≡ sets.is_mod_at rd.now ri.now op size }
{
    is_same_register(rd, ri) && mod_lanes(op).has(size)
}

/// Whether an operator over lanes has such ones.
pub fn is_across(size: VectorSize) -> bool
    ensures { result ≡ sets.is_across size }
{
    Lanes::AtLeast4.has(size)
}

/// How many lanes a vector has.
pub fn lane_count(size: VectorSize) -> u8
    ensures { result ≡ sets.lane_count size }
{
    match size {
        VectorSize::Size64x2 | VectorSize::Size32x2 => 2,
        VectorSize::Size32x4 | VectorSize::Size16x4 => 4,
        VectorSize::Size16x8 | VectorSize::Size8x8 => 8,
        VectorSize::Size8x16 => 16,
    }
}

/// Whether the addends are in the result's register, the operator takes an element, and the lanes are four of 32 bits or
/// two of 64, of which this is the number of one.
pub fn is_elem_at(rd: &Reg, ri: &Reg, op: VecALUModOp, size: VectorSize, idx: u8) -> bool
    ensures { result ≡ sets.is_elem_at rd.now ri.now op size idx }
{
    is_same_register(rd, ri)
        && matches!(op, VecALUModOp::Fmla | VecALUModOp::Fmls)
        && (Lanes::FullFloats.has(size) && idx < lane_count(size))
}

/// Whether the lanes of a result that has half the bits may have this size.
pub fn is_narrow_at(op: VecRRNarrowOp, size: ScalarSize) -> bool
    ensures { result ≡ sets.is_narrow_at op size }
{
    match size {
        ScalarSize::Size8 => !matches!(op, VecRRNarrowOp::Fcvtn),
        ScalarSize::Size16 | ScalarSize::Size32 => true,
        ScalarSize::Size64 | ScalarSize::Size128 => false,
    }
}

/// Whether they may, and the register of which the lower half stays is the result's.
pub fn is_kept_narrow(rd: &Reg, ri: &Reg, op: VecRRNarrowOp, size: ScalarSize) -> bool
    ensures { result ≡ sets.is_kept_narrow rd.now ri.now op size }
{
    is_same_register(rd, ri) && is_narrow_at(op, size)
}

/// How many bits a lane has.
fn lane_bits(size: VectorSize) -> u8
    ensures { result ≡ sets.lane_bits size }
{
    match size.lane_size() {
        ScalarSize::Size8 => 8,
        ScalarSize::Size16 => 16,
        ScalarSize::Size32 => 32,
        _ => 64,
    }
}

/// Whether a lane is shifted to the left by so many bits.
fn is_left_amount(size: VectorSize, imm: u8) -> bool
    ensures { result ≡ sets.is_left_amount size imm }
{
    imm < lane_bits(size)
}

/// Whether an operator shifts a lane by so many bits.
pub fn is_amount(op: VecShiftImmOp, size: VectorSize, imm: u8) -> bool
    ensures { result ≡ sets.is_amount op size imm }
{
    match op {
        VecShiftImmOp::Shl => is_left_amount(size, imm),
        VecShiftImmOp::Ushr | VecShiftImmOp::Sshr => imm > 0 && imm <= lane_bits(size),
    }
}

/// Whether a lane is shifted to the left by so many bits, and the register of which bits stay is the result's.
pub fn is_kept_amount(rd: &Reg, ri: &Reg, size: VectorSize, imm: u8) -> bool
    ensures { result ≡ sets.is_kept_amount rd.now ri.now size imm }
{
    is_same_register(rd, ri) && is_left_amount(size, imm)
}
