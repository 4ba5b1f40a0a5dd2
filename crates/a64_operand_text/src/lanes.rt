//! The lanes of operands, by operators and halves.

ghost use Rattle.std.specs.Prelude.{◌≡◌};
ghost use Rattle.a64_base.specs.ScalarSizes as scalars;
ghost use Rattle.a64_operand_text.specs.LaneSizes as sizes;

use a64_base::{ScalarSize, VectorSize};
use a64_ops::{
    VecALUModOp, VecALUOp, VecMisc2, VecRRLongOp, VecRRPairLongOp, VecRRRLongModOp, VecRRRLongOp,
};

/// The next larger size; 128 bits for 128 bits.
pub fn wider(size: ScalarSize) -> ScalarSize
    ensures { result ≡ scalars.wider size }
{
    match size {
        ScalarSize::Size8 => ScalarSize::Size16,
        ScalarSize::Size16 => ScalarSize::Size32,
        ScalarSize::Size32 => ScalarSize::Size64,
        ScalarSize::Size64 | ScalarSize::Size128 => ScalarSize::Size128,
    }
}

/// The next smaller size; 8 bits for 8 bits.
pub fn narrower(size: ScalarSize) -> ScalarSize
    ensures { result ≡ scalars.narrower size }
{
    match size {
        ScalarSize::Size8 | ScalarSize::Size16 => ScalarSize::Size8,
        ScalarSize::Size32 => ScalarSize::Size16,
        ScalarSize::Size64 => ScalarSize::Size32,
        ScalarSize::Size128 => ScalarSize::Size64,
    }
}

/// The vector with lanes of this size, of 128 bits or of 64; two lanes of 64 bits where there is
/// none.
pub fn vector_of(lane: ScalarSize, full: bool) -> VectorSize
    ensures { result ≡ sizes.vector_of lane full }
{
    match (lane, full) {
        (ScalarSize::Size8, false) => VectorSize::Size8x8,
        (ScalarSize::Size8, true) => VectorSize::Size8x16,
        (ScalarSize::Size16, false) => VectorSize::Size16x4,
        (ScalarSize::Size16, true) => VectorSize::Size16x8,
        (ScalarSize::Size32, false) => VectorSize::Size32x2,
        (ScalarSize::Size32, true) => VectorSize::Size32x4,
        _ => VectorSize::Size64x2,
    }
}

/// The lanes that are made wider.
pub fn long_lane(op: VecRRLongOp) -> ScalarSize
    ensures { result ≡ sizes.long_lane op }
{
    match op {
        VecRRLongOp::Shll8 => ScalarSize::Size8,
        VecRRLongOp::Fcvtl16 | VecRRLongOp::Shll16 => ScalarSize::Size16,
        VecRRLongOp::Fcvtl32 | VecRRLongOp::Shll32 => ScalarSize::Size32,
    }
}

/// The lanes that are added in pairs.
pub fn pair_long_lane(op: VecRRPairLongOp) -> ScalarSize
    ensures { result ≡ sizes.pair_long_lane op }
{
    match op {
        VecRRPairLongOp::Saddlp8 | VecRRPairLongOp::Uaddlp8 => ScalarSize::Size8,
        VecRRPairLongOp::Saddlp16 | VecRRPairLongOp::Uaddlp16 => ScalarSize::Size16,
    }
}

/// The lanes that are multiplied.
pub fn product_lane(op: VecRRRLongOp) -> ScalarSize
    ensures { result ≡ sizes.product_lane op }
{
    match op {
        VecRRRLongOp::Smull8 | VecRRRLongOp::Umull8 => ScalarSize::Size8,
        VecRRRLongOp::Smull16 | VecRRRLongOp::Umull16 => ScalarSize::Size16,
        VecRRRLongOp::Smull32 | VecRRRLongOp::Umull32 => ScalarSize::Size32,
    }
}

/// The lanes that are multiplied, where the products are added.
pub fn added_product_lane(op: VecRRRLongModOp) -> ScalarSize
    ensures { result ≡ sizes.added_product_lane op }
{
    match op {
        VecRRRLongModOp::Umlal8 => ScalarSize::Size8,
        VecRRRLongModOp::Umlal16 => ScalarSize::Size16,
        VecRRRLongModOp::Umlal32 => ScalarSize::Size32,
    }
}

/// The lanes of an operator on two vectors: an operator on bits has bytes.
pub fn alu_lanes(op: VecALUOp, size: VectorSize) -> VectorSize
    ensures { result ≡ sizes.alu_lanes op size }
{
    match op {
        VecALUOp::And | VecALUOp::Bic | VecALUOp::Orr | VecALUOp::Orn | VecALUOp::Eor => {
            size.as_scalar8_vector()
        }
        _ => size,
    }
}

/// The lanes of an operator on two vectors and the result.
pub fn alu_mod_lanes(op: VecALUModOp, size: VectorSize) -> VectorSize
    ensures { result ≡ sizes.alu_mod_lanes op size }
{
    match op {
        VecALUModOp::Bsl => VectorSize::Size8x16,
        VecALUModOp::Sdot | VecALUModOp::Usdot => VectorSize::Size32x4,
        VecALUModOp::Fmla | VecALUModOp::Fmls => size,
    }
}

/// The lanes of an operator on one vector: that on bits has bytes.
pub fn misc_lanes(op: VecMisc2, size: VectorSize) -> VectorSize
    ensures { result ≡ sizes.misc_lanes op size }
{
    match op {
        VecMisc2::Not => size.as_scalar8_vector(),
        _ => size,
    }
}
