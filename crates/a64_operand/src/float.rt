//! What must hold of operations on scalar floats, beside the classes of their registers.

ghost use Rattle.std.specs.Prelude.{◌≡◌};
ghost use Rattle.a64_base.specs.ScalarSizes.{has_ftype};
ghost use Rattle.a64_operand.specs.FloatOperands as sets;

use crate::fpu_op::{FPUOpRI, FPUOpRIMod};
use crate::operand::{is_lane, is_same_register};
use a64_base::{Reg, ScalarSize, VectorSize};
use a64_imms::{ASIMDFPModImm, FPULeftShiftImm, FPURightShiftImm};
use a64_ops::FPUOp1;

/// Whether floats have this size: 16, 32 or 64 bits.
pub fn is_float_size(size: ScalarSize) -> bool
    ensures { result ≡ has_ftype size }
{
    matches!(
        size,
        ScalarSize::Size16 | ScalarSize::Size32 | ScalarSize::Size64
    )
}

/// Whether an operator on one float is there at a size.
pub fn is_fpu_op1_at(op: FPUOp1, size: ScalarSize) -> bool
    ensures { result ≡ sets.is_fpu_op1_at op size }
{
    match op {
        FPUOp1::Abs | FPUOp1::Neg | FPUOp1::Sqrt => is_float_size(size),
        FPUOp1::Cvt32To64 => matches!(size, ScalarSize::Size32),
        FPUOp1::Cvt64To32 => matches!(size, ScalarSize::Size64),
    }
}

/// Whether lanes have 32 or 64 bits, and a number is that of one of them in a whole register.
pub fn is_float_lane(size: VectorSize, idx: u8) -> bool
    ensures { result ≡ sets.is_float_lane size idx }
{
    matches!(
        size,
        VectorSize::Size32x2 | VectorSize::Size32x4 | VectorSize::Size64x2
    ) && is_lane(size, idx)
}

/// Whether a shift to the right is one of a lane of so many bits.
fn is_right_shift_of(lane: u8, imm: FPURightShiftImm) -> bool
    ensures { result ≡ sets.is_right_shift_of lane imm }
{
    imm.lane_size_in_bits == lane && imm.amount > 0 && imm.amount <= lane
}

/// Whether the amount of a shift to the right is one of the operator's lane.
pub fn is_right_shift(op: FPUOpRI) -> bool
    ensures { result ≡ sets.is_right_shift op }
{
    match op {
        FPUOpRI::UShr32(imm) => is_right_shift_of(32, imm),
        FPUOpRI::UShr64(imm) => is_right_shift_of(64, imm),
    }
}

/// Whether a shift to the left is one of a lane of so many bits.
fn is_left_shift_of(lane: u8, imm: FPULeftShiftImm) -> bool
    ensures { result ≡ sets.is_left_shift_of lane imm }
{
    imm.lane_size_in_bits == lane && imm.amount < lane
}

/// Whether the amount of a shift to the left is one of the operator's lane.
fn is_left_shift(op: FPUOpRIMod) -> bool
    ensures { result ≡ sets.is_left_shift op }
{
    match op {
        FPUOpRIMod::Sli32(imm) => is_left_shift_of(32, imm),
        FPUOpRIMod::Sli64(imm) => is_left_shift_of(64, imm),
    }
}

/// Whether it is, and the register of which the bits below stay is the result.
pub fn is_kept_shift(rd: &Reg, ri: &Reg, op: FPUOpRIMod) -> bool
    ensures { result ≡ sets.is_kept_shift rd.now ri.now op }
{
    is_same_register(rd, ri) && is_left_shift(op)
}

/// Whether an immediate is a float of the size, which has some. It has eight bits by its type.
pub fn is_float_imm_of(size: ScalarSize, imm: ASIMDFPModImm) -> bool
    ensures { result ≡ sets.is_float_imm_of size imm }
{
    is_float_size(size) && imm.size == size
}
