//! The operators of vector instructions (Arm Architecture Reference Manual, C4.1, "Data Processing --
//! Scalar Floating-Point and Advanced SIMD").

ghost use Rattle.std.specs.Prelude.{◌≡◌};

/// An operator on two vectors (Cranelift's `VecALUOp`).
#[derive(Clone, Copy, Debug, PartialEq, Eq)]
pub enum VecALUOp {
    /// Addition of signed lanes, which saturates.
    Sqadd,
    /// Addition of unsigned lanes, which saturates.
    Uqadd,
    /// Subtraction of signed lanes, which saturates.
    Sqsub,
    /// Subtraction of unsigned lanes, which saturates.
    Uqsub,
    /// All ones where two lanes are equal, else zero.
    Cmeq,
    /// All ones where a signed lane is not below the other, else zero.
    Cmge,
    /// All ones where a signed lane is above the other, else zero.
    Cmgt,
    /// All ones where an unsigned lane is not below the other, else zero.
    Cmhs,
    /// All ones where an unsigned lane is above the other, else zero.
    Cmhi,
    /// All ones where two floats are equal, else zero.
    Fcmeq,
    /// All ones where a float is greater than the other, else zero.
    Fcmgt,
    /// All ones where a float is greater than the other or equal, else zero.
    Fcmge,
    /// And, bit by bit.
    And,
    /// And with the complement of the second vector.
    Bic,
    /// Or, bit by bit.
    Orr,
    /// Or with the complement of the second vector.
    Orn,
    /// Exclusive or, bit by bit.
    Eor,
    /// The greater of each two neighbouring unsigned lanes, of both vectors one behind the other.
    Umaxp,
    /// Addition.
    Add,
    /// Subtraction.
    Sub,
    /// Multiplication, of which the low half stays.
    Mul,
    /// Shift of signed lanes by the low byte of the other lane, to the left, or to the right where
    /// it is negative.
    Sshl,
    /// Shift of unsigned lanes by the low byte of the other lane, to the left, or to the right
    /// where it is negative.
    Ushl,
    /// The lesser of two unsigned lanes.
    Umin,
    /// The lesser of two signed lanes.
    Smin,
    /// The greater of two unsigned lanes.
    Umax,
    /// The greater of two signed lanes.
    Smax,
    /// Half of the sum of two unsigned lanes, rounded up.
    Urhadd,
    /// Addition of floats.
    Fadd,
    /// Subtraction of floats.
    Fsub,
    /// Division of floats.
    Fdiv,
    /// The greater of two floats.
    Fmax,
    /// The lesser of two floats.
    Fmin,
    /// Multiplication of floats.
    Fmul,
    /// The sum of each two neighbouring lanes, of both vectors one behind the other.
    Addp,
    /// The lanes of the lower halves of both vectors in turn.
    Zip1,
    /// The lanes of the upper halves of both vectors in turn.
    Zip2,
    /// The upper half of twice the product of signed lanes, rounded, which saturates.
    Sqrdmulh,
    /// The lanes of even number, of both vectors one behind the other.
    Uzp1,
    /// The lanes of odd number, of both vectors one behind the other.
    Uzp2,
    /// The lanes of even number of both vectors in turn.
    Trn1,
    /// The lanes of odd number of both vectors in turn.
    Trn2,
}

impl VecALUOp {
    ghost use Rattle.a64_ops.specs.Names.{vec_alu_op_name};

    /// Its name in assembly text.
    pub fn op_str(&self) -> &'static str
        ensures { result.now ≡ vec_alu_op_name self.now }
    {
        match self {
            VecALUOp::Sqadd => "sqadd",
            VecALUOp::Uqadd => "uqadd",
            VecALUOp::Sqsub => "sqsub",
            VecALUOp::Uqsub => "uqsub",
            VecALUOp::Cmeq => "cmeq",
            VecALUOp::Cmge => "cmge",
            VecALUOp::Cmgt => "cmgt",
            VecALUOp::Cmhs => "cmhs",
            VecALUOp::Cmhi => "cmhi",
            VecALUOp::Fcmeq => "fcmeq",
            VecALUOp::Fcmgt => "fcmgt",
            VecALUOp::Fcmge => "fcmge",
            VecALUOp::And => "and",
            VecALUOp::Bic => "bic",
            VecALUOp::Orr => "orr",
            VecALUOp::Orn => "orn",
            VecALUOp::Eor => "eor",
            VecALUOp::Umaxp => "umaxp",
            VecALUOp::Add => "add",
            VecALUOp::Sub => "sub",
            VecALUOp::Mul => "mul",
            VecALUOp::Sshl => "sshl",
            VecALUOp::Ushl => "ushl",
            VecALUOp::Umin => "umin",
            VecALUOp::Smin => "smin",
            VecALUOp::Umax => "umax",
            VecALUOp::Smax => "smax",
            VecALUOp::Urhadd => "urhadd",
            VecALUOp::Fadd => "fadd",
            VecALUOp::Fsub => "fsub",
            VecALUOp::Fdiv => "fdiv",
            VecALUOp::Fmax => "fmax",
            VecALUOp::Fmin => "fmin",
            VecALUOp::Fmul => "fmul",
            VecALUOp::Addp => "addp",
            VecALUOp::Zip1 => "zip1",
            VecALUOp::Zip2 => "zip2",
            VecALUOp::Sqrdmulh => "sqrdmulh",
            VecALUOp::Uzp1 => "uzp1",
            VecALUOp::Uzp2 => "uzp2",
            VecALUOp::Trn1 => "trn1",
            VecALUOp::Trn2 => "trn2",
        }
    }
}

/// An operator on two vectors that takes its result's register as a third operand (Cranelift's
/// `VecALUModOp`).
#[derive(Clone, Copy, Debug, PartialEq, Eq)]
pub enum VecALUModOp {
    /// Each bit of the first vector where the result's register has a one, else of the second.
    Bsl,
    /// A product of floats, added to what the result's register has, rounded once.
    Fmla,
    /// A product of floats, subtracted from what the result's register has, rounded once.
    Fmls,
    /// The sum of four products of signed bytes, added to each lane of 32 bits.
    Sdot,
    /// The sum of four products of unsigned bytes and signed ones, added to each lane of 32 bits.
    Usdot,
}

impl VecALUModOp {
    ghost use Rattle.a64_ops.specs.Names.{vec_alu_mod_op_name};

    /// Its name in assembly text.
    pub fn op_str(&self) -> &'static str
        ensures { result.now ≡ vec_alu_mod_op_name self.now }
    {
        match self {
            VecALUModOp::Bsl => "bsl",
            VecALUModOp::Fmla => "fmla",
            VecALUModOp::Fmls => "fmls",
            VecALUModOp::Sdot => "sdot",
            VecALUModOp::Usdot => "usdot",
        }
    }
}

/// An operator on one vector (Cranelift's `VecMisc2`).
#[derive(Clone, Copy, Debug, PartialEq, Eq)]
pub enum VecMisc2 {
    /// The complement, bit by bit.
    Not,
    /// The negation.
    Neg,
    /// The absolute value of signed lanes.
    Abs,
    /// The absolute value of floats.
    Fabs,
    /// The negation of floats.
    Fneg,
    /// The square root.
    Fsqrt,
    /// The bytes in reverse, in each 16 bits.
    Rev16,
    /// The lanes in reverse, in each 32 bits.
    Rev32,
    /// The lanes in reverse, in each 64 bits.
    Rev64,
    /// Floats to signed integers, towards zero.
    Fcvtzs,
    /// Floats to unsigned integers, towards zero.
    Fcvtzu,
    /// Signed integers to floats.
    Scvtf,
    /// Unsigned integers to floats.
    Ucvtf,
    /// Rounding to an integral value, to the nearest, of two that are as near to the even one.
    Frintn,
    /// Rounding to an integral value, towards zero.
    Frintz,
    /// Rounding to an integral value, towards minus infinity.
    Frintm,
    /// Rounding to an integral value, towards plus infinity.
    Frintp,
    /// How many ones each byte has.
    Cnt,
    /// All ones where a lane is zero, else zero.
    Cmeq0,
    /// All ones where a signed lane is not below zero, else zero.
    Cmge0,
    /// All ones where a signed lane is above zero, else zero.
    Cmgt0,
    /// All ones where a signed lane is not above zero, else zero.
    Cmle0,
    /// All ones where a signed lane is below zero, else zero.
    Cmlt0,
    /// All ones where a float is zero, else zero.
    Fcmeq0,
    /// All ones where a float is zero or above, else zero.
    Fcmge0,
    /// All ones where a float is above zero, else zero.
    Fcmgt0,
    /// All ones where a float is zero or below, else zero.
    Fcmle0,
    /// All ones where a float is below zero, else zero.
    Fcmlt0,
}

impl VecMisc2 {
    ghost use Rattle.a64_ops.specs.Names.{vec_misc2_name};

    /// Its name in assembly text, without the zero that a comparison has behind its registers.
    pub fn op_str(&self) -> &'static str
        ensures { result.now ≡ vec_misc2_name self.now }
    {
        match self {
            VecMisc2::Not => "mvn",
            VecMisc2::Neg => "neg",
            VecMisc2::Abs => "abs",
            VecMisc2::Fabs => "fabs",
            VecMisc2::Fneg => "fneg",
            VecMisc2::Fsqrt => "fsqrt",
            VecMisc2::Rev16 => "rev16",
            VecMisc2::Rev32 => "rev32",
            VecMisc2::Rev64 => "rev64",
            VecMisc2::Fcvtzs => "fcvtzs",
            VecMisc2::Fcvtzu => "fcvtzu",
            VecMisc2::Scvtf => "scvtf",
            VecMisc2::Ucvtf => "ucvtf",
            VecMisc2::Frintn => "frintn",
            VecMisc2::Frintz => "frintz",
            VecMisc2::Frintm => "frintm",
            VecMisc2::Frintp => "frintp",
            VecMisc2::Cnt => "cnt",
            VecMisc2::Cmeq0 => "cmeq",
            VecMisc2::Cmge0 => "cmge",
            VecMisc2::Cmgt0 => "cmgt",
            VecMisc2::Cmle0 => "cmle",
            VecMisc2::Cmlt0 => "cmlt",
            VecMisc2::Fcmeq0 => "fcmeq",
            VecMisc2::Fcmge0 => "fcmge",
            VecMisc2::Fcmgt0 => "fcmgt",
            VecMisc2::Fcmle0 => "fcmle",
            VecMisc2::Fcmlt0 => "fcmlt",
        }
    }
}

/// An operator over the lanes of one vector (Cranelift's `VecLanesOp`).
#[derive(Clone, Copy, Debug, PartialEq, Eq)]
pub enum VecLanesOp {
    /// Their sum.
    Addv,
    /// The least of them, unsigned.
    Uminv,
}

impl VecLanesOp {
    ghost use Rattle.a64_ops.specs.Names.{vec_lanes_op_name};

    /// Its name in assembly text.
    pub fn op_str(&self) -> &'static str
        ensures { result.now ≡ vec_lanes_op_name self.now }
    {
        match self {
            VecLanesOp::Addv => "addv",
            VecLanesOp::Uminv => "uminv",
        }
    }
}

/// An extension of lanes to twice their bits (Cranelift's `VecExtendOp`).
#[derive(Clone, Copy, Debug, PartialEq, Eq)]
pub enum VecExtendOp {
    /// With their sign.
    Sxtl,
    /// With zeros.
    Uxtl,
}

impl VecExtendOp {
    ghost use Rattle.a64_ops.specs.Names.{vec_extend_op_name};

    /// Its name in assembly text.
    pub fn op_str(&self) -> &'static str
        ensures { result.now ≡ vec_extend_op_name self.now }
    {
        match self {
            VecExtendOp::Sxtl => "sxtl",
            VecExtendOp::Uxtl => "uxtl",
        }
    }
}

/// An operator on one vector whose lanes become twice as long; the name ends with the bits of a
/// lane that is read (Cranelift's `VecRRLongOp`).
#[derive(Clone, Copy, Debug, PartialEq, Eq)]
pub enum VecRRLongOp {
    /// Floats of 16 bits to 32 bits.
    Fcvtl16,
    /// Floats of 32 bits to 64 bits.
    Fcvtl32,
    /// Shift of 8 bits to the left by 8.
    Shll8,
    /// Shift of 16 bits to the left by 16.
    Shll16,
    /// Shift of 32 bits to the left by 32.
    Shll32,
}

impl VecRRLongOp {
    ghost use Rattle.a64_ops.specs.Names.{vec_rr_long_op_name};

    /// Its name in assembly text.
    pub fn op_str(&self) -> &'static str
        ensures { result.now ≡ vec_rr_long_op_name self.now }
    {
        match self {
            VecRRLongOp::Fcvtl16 => "fcvtl",
            VecRRLongOp::Fcvtl32 => "fcvtl",
            VecRRLongOp::Shll8 => "shll",
            VecRRLongOp::Shll16 => "shll",
            VecRRLongOp::Shll32 => "shll",
        }
    }
}

/// An operator on one vector whose lanes become half as long (Cranelift's `VecRRNarrowOp`).
#[derive(Clone, Copy, Debug, PartialEq, Eq)]
pub enum VecRRNarrowOp {
    /// The lower half of each lane.
    Xtn,
    /// Signed lanes, which saturate.
    Sqxtn,
    /// Signed lanes to unsigned ones, which saturate.
    Sqxtun,
    /// Unsigned lanes, which saturate.
    Uqxtn,
    /// Floats.
    Fcvtn,
}

impl VecRRNarrowOp {
    ghost use Rattle.a64_ops.specs.Names.{vec_rr_narrow_op_name};

    /// Its name in assembly text.
    pub fn op_str(&self) -> &'static str
        ensures { result.now ≡ vec_rr_narrow_op_name self.now }
    {
        match self {
            VecRRNarrowOp::Xtn => "xtn",
            VecRRNarrowOp::Sqxtn => "sqxtn",
            VecRRNarrowOp::Sqxtun => "sqxtun",
            VecRRNarrowOp::Uqxtn => "uqxtn",
            VecRRNarrowOp::Fcvtn => "fcvtn",
        }
    }
}

/// An operator on the two lanes of one vector (Cranelift's `VecPairOp`).
#[derive(Clone, Copy, Debug, PartialEq, Eq)]
pub enum VecPairOp {
    /// Their sum.
    Addp,
}

impl VecPairOp {
    ghost use Rattle.a64_ops.specs.Names.{vec_pair_op_name};

    /// Its name in assembly text.
    pub fn op_str(&self) -> &'static str
        ensures { result.now ≡ vec_pair_op_name self.now }
    {
        match self {
            VecPairOp::Addp => "addp",
        }
    }
}

/// An operator on each two neighbouring lanes of one vector, whose result has twice as many bits;
/// the name ends with the bits of a lane that is read (Cranelift's `VecRRPairLongOp`).
#[derive(Clone, Copy, Debug, PartialEq, Eq)]
pub enum VecRRPairLongOp {
    /// The sum of signed lanes of 8 bits.
    Saddlp8,
    /// The sum of signed lanes of 16 bits.
    Saddlp16,
    /// The sum of unsigned lanes of 8 bits.
    Uaddlp8,
    /// The sum of unsigned lanes of 16 bits.
    Uaddlp16,
}

impl VecRRPairLongOp {
    ghost use Rattle.a64_ops.specs.Names.{vec_rr_pair_long_op_name};

    /// Its name in assembly text.
    pub fn op_str(&self) -> &'static str
        ensures { result.now ≡ vec_rr_pair_long_op_name self.now }
    {
        match self {
            VecRRPairLongOp::Saddlp8 => "saddlp",
            VecRRPairLongOp::Saddlp16 => "saddlp",
            VecRRPairLongOp::Uaddlp8 => "uaddlp",
            VecRRPairLongOp::Uaddlp16 => "uaddlp",
        }
    }
}

/// An operator on two vectors whose result has lanes twice as long; the name ends with the bits of
/// a lane that is read (Cranelift's `VecRRRLongOp`).
#[derive(Clone, Copy, Debug, PartialEq, Eq)]
pub enum VecRRRLongOp {
    /// The product of signed lanes of 8 bits.
    Smull8,
    /// The product of signed lanes of 16 bits.
    Smull16,
    /// The product of signed lanes of 32 bits.
    Smull32,
    /// The product of unsigned lanes of 8 bits.
    Umull8,
    /// The product of unsigned lanes of 16 bits.
    Umull16,
    /// The product of unsigned lanes of 32 bits.
    Umull32,
}

impl VecRRRLongOp {
    ghost use Rattle.a64_ops.specs.Names.{vec_rrr_long_op_name};

    /// Its name in assembly text.
    pub fn op_str(&self) -> &'static str
        ensures { result.now ≡ vec_rrr_long_op_name self.now }
    {
        match self {
            VecRRRLongOp::Smull8 => "smull",
            VecRRRLongOp::Smull16 => "smull",
            VecRRRLongOp::Smull32 => "smull",
            VecRRRLongOp::Umull8 => "umull",
            VecRRRLongOp::Umull16 => "umull",
            VecRRRLongOp::Umull32 => "umull",
        }
    }
}

/// An operator on two vectors that adds to lanes twice as long of its result's register; the name
/// ends with the bits of a lane that is read (Cranelift's `VecRRRLongModOp`).
#[derive(Clone, Copy, Debug, PartialEq, Eq)]
pub enum VecRRRLongModOp {
    /// The product of unsigned lanes of 8 bits.
    Umlal8,
    /// The product of unsigned lanes of 16 bits.
    Umlal16,
    /// The product of unsigned lanes of 32 bits.
    Umlal32,
}

impl VecRRRLongModOp {
    ghost use Rattle.a64_ops.specs.Names.{vec_rrr_long_mod_op_name};

    /// Its name in assembly text.
    pub fn op_str(&self) -> &'static str
        ensures { result.now ≡ vec_rrr_long_mod_op_name self.now }
    {
        match self {
            VecRRRLongModOp::Umlal8 => "umlal",
            VecRRRLongModOp::Umlal16 => "umlal",
            VecRRRLongModOp::Umlal32 => "umlal",
        }
    }
}

/// A shift of lanes by a number (Cranelift's `VecShiftImmOp`).
#[derive(Clone, Copy, Debug, PartialEq, Eq)]
pub enum VecShiftImmOp {
    /// To the left.
    Shl,
    /// To the right, with zeros.
    Ushr,
    /// To the right, with the sign.
    Sshr,
}

impl VecShiftImmOp {
    ghost use Rattle.a64_ops.specs.Names.{vec_shift_imm_op_name};

    /// Its name in assembly text.
    pub fn op_str(&self) -> &'static str
        ensures { result.now ≡ vec_shift_imm_op_name self.now }
    {
        match self {
            VecShiftImmOp::Shl => "shl",
            VecShiftImmOp::Ushr => "ushr",
            VecShiftImmOp::Sshr => "sshr",
        }
    }
}

/// A shift of lanes by a number that keeps some bits of its result's register (Cranelift's
/// `VecShiftImmModOp`).
#[derive(Clone, Copy, Debug, PartialEq, Eq)]
pub enum VecShiftImmModOp {
    /// To the left; the bits below stay.
    Sli,
}

impl VecShiftImmModOp {
    ghost use Rattle.a64_ops.specs.Names.{vec_shift_imm_mod_op_name};

    /// Its name in assembly text.
    pub fn op_str(&self) -> &'static str
        ensures { result.now ≡ vec_shift_imm_mod_op_name self.now }
    {
        match self {
            VecShiftImmModOp::Sli => "sli",
        }
    }
}
