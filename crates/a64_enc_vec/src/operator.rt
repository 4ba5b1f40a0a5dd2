//! What the operators of vector instructions fix of their words, of "Data Processing -- Scalar Floating-Point and
//! Advanced SIMD".

ghost use Rattle.std.specs.Prelude.{◌≡◌};
ghost use Rattle.a64_enc_vec.specs.VectorOperators as operators;

use a64_base::ScalarSize;
use a64_ops::{
    VecALUModOp, VecALUOp, VecLanesOp, VecMisc2, VecRRLongOp, VecRRNarrowOp, VecRRPairLongOp,
    VecRRRLongModOp, VecRRRLongOp, VecShiftImmOp,
};

/// The row of an operator on two vectors, and what the operator fixes of its fields.
#[derive(Clone, Copy, Debug)]
pub enum ThreeOp {
    /// Three same, lane by lane: `size` is that of the lanes.
    Lanes {
        /// The field U.
        u: u32,
        /// The field opcode.
        op: u32,
    },
    /// Three same, bit by bit, with opcode 3: U and `size` tell the operator.
    Bits {
        /// The field U.
        u: u32,
        /// The field `size`.
        size: u32,
    },
    /// Three same, of floats: `size` is `base`, or one more where the lanes have 64 bits.
    Floats {
        /// The field U.
        u: u32,
        /// The field opcode.
        op: u32,
        /// 0 or 2: the upper bit of `size`.
        base: u32,
    },
    /// Permute.
    Permute {
        /// The field opcode.
        op: u32,
    },
    /// Three-register extension, a sum of products of bytes.
    Dot {
        /// 1 where the first bytes are unsigned, 0 where they are signed.
        us: u32,
    },
}

/// The row of an operator on two vectors.
pub fn three_op(op: VecALUOp) -> ThreeOp
    ensures { result ≡ operators.three_op op }
{
    match op {
        VecALUOp::Sqadd => ThreeOp::Lanes { u: 0, op: 1 },
        VecALUOp::Uqadd => ThreeOp::Lanes { u: 1, op: 1 },
        VecALUOp::Urhadd => ThreeOp::Lanes { u: 1, op: 2 },
        VecALUOp::Sqsub => ThreeOp::Lanes { u: 0, op: 5 },
        VecALUOp::Uqsub => ThreeOp::Lanes { u: 1, op: 5 },
        VecALUOp::Cmgt => ThreeOp::Lanes { u: 0, op: 6 },
        VecALUOp::Cmhi => ThreeOp::Lanes { u: 1, op: 6 },
        VecALUOp::Cmge => ThreeOp::Lanes { u: 0, op: 7 },
        VecALUOp::Cmhs => ThreeOp::Lanes { u: 1, op: 7 },
        VecALUOp::Sshl => ThreeOp::Lanes { u: 0, op: 8 },
        VecALUOp::Ushl => ThreeOp::Lanes { u: 1, op: 8 },
        VecALUOp::Smax => ThreeOp::Lanes { u: 0, op: 12 },
        VecALUOp::Umax => ThreeOp::Lanes { u: 1, op: 12 },
        VecALUOp::Smin => ThreeOp::Lanes { u: 0, op: 13 },
        VecALUOp::Umin => ThreeOp::Lanes { u: 1, op: 13 },
        VecALUOp::Add => ThreeOp::Lanes { u: 0, op: 16 },
        VecALUOp::Sub => ThreeOp::Lanes { u: 1, op: 16 },
        VecALUOp::Cmeq => ThreeOp::Lanes { u: 1, op: 17 },
        VecALUOp::Mul => ThreeOp::Lanes { u: 0, op: 19 },
        VecALUOp::Umaxp => ThreeOp::Lanes { u: 1, op: 20 },
        VecALUOp::Sqrdmulh => ThreeOp::Lanes { u: 1, op: 22 },
        VecALUOp::Addp => ThreeOp::Lanes { u: 0, op: 23 },
        VecALUOp::And => ThreeOp::Bits { u: 0, size: 0 },
        VecALUOp::Bic => ThreeOp::Bits { u: 0, size: 1 },
        VecALUOp::Orr => ThreeOp::Bits { u: 0, size: 2 },
        VecALUOp::Orn => ThreeOp::Bits { u: 0, size: 3 },
        VecALUOp::Eor => ThreeOp::Bits { u: 1, size: 0 },
        VecALUOp::Fadd => ThreeOp::Floats {
            u: 0,
            op: 26,
            base: 0,
        },
        VecALUOp::Fsub => ThreeOp::Floats {
            u: 0,
            op: 26,
            base: 2,
        },
        VecALUOp::Fmul => ThreeOp::Floats {
            u: 1,
            op: 27,
            base: 0,
        },
        VecALUOp::Fcmeq => ThreeOp::Floats {
            u: 0,
            op: 28,
            base: 0,
        },
        VecALUOp::Fcmge => ThreeOp::Floats {
            u: 1,
            op: 28,
            base: 0,
        },
        VecALUOp::Fcmgt => ThreeOp::Floats {
            u: 1,
            op: 28,
            base: 2,
        },
        VecALUOp::Fmax => ThreeOp::Floats {
            u: 0,
            op: 30,
            base: 0,
        },
        VecALUOp::Fmin => ThreeOp::Floats {
            u: 0,
            op: 30,
            base: 2,
        },
        VecALUOp::Fdiv => ThreeOp::Floats {
            u: 1,
            op: 31,
            base: 0,
        },
        VecALUOp::Uzp1 => ThreeOp::Permute { op: 1 },
        VecALUOp::Trn1 => ThreeOp::Permute { op: 2 },
        VecALUOp::Zip1 => ThreeOp::Permute { op: 3 },
        VecALUOp::Uzp2 => ThreeOp::Permute { op: 5 },
        VecALUOp::Trn2 => ThreeOp::Permute { op: 6 },
        VecALUOp::Zip2 => ThreeOp::Permute { op: 7 },
    }
}

/// The row of an operator on two vectors that takes its result's register as a third operand.
pub fn kept_three_op(op: VecALUModOp) -> ThreeOp
    ensures { result ≡ operators.kept_three_op op }
{
    match op {
        VecALUModOp::Bsl => ThreeOp::Bits { u: 1, size: 1 },
        VecALUModOp::Fmla => ThreeOp::Floats {
            u: 0,
            op: 25,
            base: 0,
        },
        VecALUModOp::Fmls => ThreeOp::Floats {
            u: 0,
            op: 25,
            base: 2,
        },
        VecALUModOp::Sdot => ThreeOp::Dot { us: 0 },
        VecALUModOp::Usdot => ThreeOp::Dot { us: 1 },
    }
}

/// The field o2 of a product with an element: 1 for the one that is subtracted, which is `Fmls`.
pub fn element_o2(op: VecALUModOp) -> u32
    ensures { result ≡ operators.element_o2 op }
{
    match op {
        VecALUModOp::Fmls => 1,
        _ => 0,
    }
}

/// What an operator on one vector, of Two-register miscellaneous, fixes of its fields.
#[derive(Clone, Copy, Debug)]
pub enum TwoOp {
    /// `size` is that of the lanes.
    Lanes {
        /// The field U.
        u: u32,
        /// The field opcode.
        op: u32,
    },
    /// Bit by bit: `size` is 0.
    Bits {
        /// The field U.
        u: u32,
        /// The field opcode.
        op: u32,
    },
    /// Of floats: `size` is 1 where the lanes have 64 bits, else 0.
    Floats {
        /// The field U.
        u: u32,
        /// The field opcode.
        op: u32,
    },
}

/// What an operator on one vector fixes.
pub fn two_op(op: VecMisc2) -> TwoOp
    ensures { result ≡ operators.two_op op }
{
    match op {
        VecMisc2::Not => TwoOp::Bits { u: 1, op: 5 },
        VecMisc2::Neg => TwoOp::Lanes { u: 1, op: 11 },
        VecMisc2::Abs => TwoOp::Lanes { u: 0, op: 11 },
        VecMisc2::Cmgt0 => TwoOp::Lanes { u: 0, op: 8 },
        VecMisc2::Cmge0 => TwoOp::Lanes { u: 1, op: 8 },
        VecMisc2::Cmeq0 => TwoOp::Lanes { u: 0, op: 9 },
        VecMisc2::Cmle0 => TwoOp::Lanes { u: 1, op: 9 },
        VecMisc2::Cmlt0 => TwoOp::Lanes { u: 0, op: 10 },
        VecMisc2::Rev16 => TwoOp::Lanes { u: 0, op: 1 },
        VecMisc2::Rev32 => TwoOp::Lanes { u: 1, op: 0 },
        VecMisc2::Rev64 => TwoOp::Lanes { u: 0, op: 0 },
        VecMisc2::Cnt => TwoOp::Lanes { u: 0, op: 5 },
        VecMisc2::Fabs => TwoOp::Lanes { u: 0, op: 15 },
        VecMisc2::Fneg => TwoOp::Lanes { u: 1, op: 15 },
        VecMisc2::Fsqrt => TwoOp::Lanes { u: 1, op: 31 },
        VecMisc2::Fcvtzs => TwoOp::Lanes { u: 0, op: 27 },
        VecMisc2::Fcvtzu => TwoOp::Lanes { u: 1, op: 27 },
        VecMisc2::Frintz => TwoOp::Lanes { u: 0, op: 25 },
        VecMisc2::Frintp => TwoOp::Lanes { u: 0, op: 24 },
        VecMisc2::Fcmgt0 => TwoOp::Lanes { u: 0, op: 12 },
        VecMisc2::Fcmge0 => TwoOp::Lanes { u: 1, op: 12 },
        VecMisc2::Fcmeq0 => TwoOp::Lanes { u: 0, op: 13 },
        VecMisc2::Fcmle0 => TwoOp::Lanes { u: 1, op: 13 },
        VecMisc2::Fcmlt0 => TwoOp::Lanes { u: 0, op: 14 },
        VecMisc2::Frintn => TwoOp::Floats { u: 0, op: 24 },
        VecMisc2::Frintm => TwoOp::Floats { u: 0, op: 25 },
        VecMisc2::Scvtf => TwoOp::Floats { u: 0, op: 29 },
        VecMisc2::Ucvtf => TwoOp::Floats { u: 1, op: 29 },
    }
}

/// The fields of an operation of Two-register miscellaneous that its operator and its lanes give.
#[derive(Clone, Copy, Debug)]
pub struct TwoFields {
    /// The field U.
    pub u: u32,
    /// The field `size`.
    pub size: u32,
    /// The field opcode.
    pub op: u32,
}

/// The fields of an operation whose lanes become twice as long.
pub fn long_fields(op: VecRRLongOp) -> TwoFields
    ensures { result ≡ operators.long_fields op }
{
    let (u, size, op) = match op {
        VecRRLongOp::Fcvtl16 => (0, 0, 23),
        VecRRLongOp::Fcvtl32 => (0, 1, 23),
        VecRRLongOp::Shll8 => (1, 0, 19),
        VecRRLongOp::Shll16 => (1, 1, 19),
        VecRRLongOp::Shll32 => (1, 2, 19),
    };
    TwoFields { u, size, op }
}

/// The fields of a sum of neighbouring lanes that is twice as long.
pub fn pair_long_fields(op: VecRRPairLongOp) -> TwoFields
    ensures { result ≡ operators.pair_long_fields op }
{
    let (u, size) = match op {
        VecRRPairLongOp::Saddlp8 => (0, 0),
        VecRRPairLongOp::Saddlp16 => (0, 1),
        VecRRPairLongOp::Uaddlp8 => (1, 0),
        VecRRPairLongOp::Uaddlp16 => (1, 1),
    };
    TwoFields { u, size, op: 2 }
}

/// The field `size` of an operation whose lanes of integers become these.
fn narrow_size(lane: ScalarSize) -> u32
    ensures { result ≡ operators.narrow_size lane }
{
    match lane {
        ScalarSize::Size16 => 1,
        ScalarSize::Size32 => 2,
        _ => 0,
    }
}

/// The field `size` of an operation whose lanes of floats become these.
fn narrow_float_size(lane: ScalarSize) -> u32
    ensures { result ≡ operators.narrow_float_size lane }
{
    match lane {
        ScalarSize::Size32 => 1,
        _ => 0,
    }
}

/// The fields of an operation whose lanes become half as long: these.
pub fn narrow_fields(op: VecRRNarrowOp, lane: ScalarSize) -> TwoFields
    ensures { result ≡ operators.narrow_fields op lane }
{
    let (u, size, op) = match op {
        VecRRNarrowOp::Xtn => (0, narrow_size(lane), 18),
        VecRRNarrowOp::Sqxtun => (1, narrow_size(lane), 18),
        VecRRNarrowOp::Sqxtn => (0, narrow_size(lane), 20),
        VecRRNarrowOp::Uqxtn => (1, narrow_size(lane), 20),
        VecRRNarrowOp::Fcvtn => (0, narrow_float_size(lane), 22),
    };
    TwoFields { u, size, op }
}

/// The fields of an operation on two vectors whose result has lanes twice as long.
#[derive(Clone, Copy, Debug)]
pub struct LongFields {
    /// The field U.
    pub u: u32,
    /// The field `size`.
    pub size: u32,
    /// 1 for a product, 0 for a product that is added.
    pub mul: u32,
}

/// The fields of a product.
pub fn product_fields(op: VecRRRLongOp) -> LongFields
    ensures { result ≡ operators.product_fields op }
{
    let (u, size) = match op {
        VecRRRLongOp::Smull8 => (0, 0),
        VecRRRLongOp::Smull16 => (0, 1),
        VecRRRLongOp::Smull32 => (0, 2),
        VecRRRLongOp::Umull8 => (1, 0),
        VecRRRLongOp::Umull16 => (1, 1),
        VecRRRLongOp::Umull32 => (1, 2),
    };
    LongFields { u, size, mul: 1 }
}

/// The fields of a product that is added.
pub fn added_product_fields(op: VecRRRLongModOp) -> LongFields
    ensures { result ≡ operators.added_product_fields op }
{
    let size = match op {
        VecRRRLongModOp::Umlal8 => 0,
        VecRRRLongModOp::Umlal16 => 1,
        VecRRRLongModOp::Umlal32 => 2,
    };
    LongFields { u: 1, size, mul: 0 }
}

/// The fields of an operation that its operator alone gives.
#[derive(Clone, Copy, Debug)]
pub struct OpFields {
    /// The field U.
    pub u: u32,
    /// The field opcode.
    pub op: u32,
}

/// The fields of an operation over the lanes of a vector.
pub fn across_fields(op: VecLanesOp) -> OpFields
    ensures { result ≡ operators.across_fields op }
{
    let (u, op) = match op {
        VecLanesOp::Uminv => (1, 26),
        VecLanesOp::Addv => (0, 27),
    };
    OpFields { u, op }
}

/// The fields of a shift by a number.
pub fn shift_fields(op: VecShiftImmOp) -> OpFields
    ensures { result ≡ operators.shift_fields op }
{
    let (u, op) = match op {
        VecShiftImmOp::Shl => (0, 10),
        VecShiftImmOp::Ushr => (1, 0),
        VecShiftImmOp::Sshr => (0, 0),
    };
    OpFields { u, op }
}
