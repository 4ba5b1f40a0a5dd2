//! The fields of shifts of lanes by a number, of "Advanced SIMD shift by immediate".

ghost use Rattle.std.specs.Prelude.{◌≡◌, ◌<◌, true};
ghost use Rattle.a64_operand.specs.VectorOperands as sets;
ghost use Rattle.a64_enc_vec.specs.Shifts as fields;

use a64_base::VectorSize;
use a64_ops::VecShiftImmOp;

/// How many bits a lane has.
pub fn lane_bits(size: VectorSize) -> u32
    ensures value { result ≡ sets.lane_bits size }
    ensures below { result < 65 }
{
    match size {
        VectorSize::Size8x8 | VectorSize::Size8x16 => 8,
        VectorSize::Size16x4 | VectorSize::Size16x8 => 16,
        VectorSize::Size32x2 | VectorSize::Size32x4 => 32,
        VectorSize::Size64x2 => 64,
    }
}

/// The fields immh and immb of a shift of lanes to the left.
pub fn left_shift_field(size: VectorSize, imm: u8) -> u32
    ensures { result ≡ fields.left_shift_field size imm }
{
    lane_bits(size) + u32::from(imm)
}

/// The fields immh and immb of a shift of lanes to the right.
#[tactic(auto, using(crate::proofs::Amounts::right_at_most))]
fn right_shift_field(size: VectorSize, imm: u8) -> u32
    requires { sets.is_right_amount size imm ≡ true }
    ensures { result ≡ fields.right_shift_field size imm }
{
    2 * lane_bits(size) - u32::from(imm)
}

/// The fields immh and immb of a shift of lanes.
pub fn shift_field(op: VecShiftImmOp, size: VectorSize, imm: u8) -> u32
    requires { sets.is_amount op size imm ≡ true }
    ensures { result ≡ fields.shift_field op size imm }
{
    match op {
        VecShiftImmOp::Shl => left_shift_field(size, imm),
        VecShiftImmOp::Ushr | VecShiftImmOp::Sshr => right_shift_field(size, imm),
    }
}
