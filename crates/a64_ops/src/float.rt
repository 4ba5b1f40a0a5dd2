//! The operators of instructions on scalar floats.

ghost use Rattle.std.specs.Prelude.{◌≡◌};

/// An operator with one float (Cranelift's `FPUOp1`).
#[derive(Clone, Copy, Debug, PartialEq, Eq)]
pub enum FPUOp1 {
    /// The absolute value.
    Abs,
    /// The negation.
    Neg,
    /// The square root.
    Sqrt,
    /// The float of 32 bits as one of 64 bits.
    Cvt32To64,
    /// The float of 64 bits as one of 32 bits.
    Cvt64To32,
}

impl FPUOp1 {
    ghost use Rattle.a64_ops.specs.Names.{fpu_op1_name};

    /// Its name in assembly text.
    pub fn op_str(&self) -> &'static str
        ensures { result.now ≡ fpu_op1_name self.now }
    {
        match self {
            FPUOp1::Abs => "fabs",
            FPUOp1::Neg => "fneg",
            FPUOp1::Sqrt => "fsqrt",
            FPUOp1::Cvt32To64 => "fcvt",
            FPUOp1::Cvt64To32 => "fcvt",
        }
    }
}

/// An operator with two floats (Cranelift's `FPUOp2`).
#[derive(Clone, Copy, Debug, PartialEq, Eq)]
pub enum FPUOp2 {
    /// Addition.
    Add,
    /// Subtraction.
    Sub,
    /// Multiplication.
    Mul,
    /// Division.
    Div,
    /// The greater of two.
    Max,
    /// The lesser of two.
    Min,
}

impl FPUOp2 {
    ghost use Rattle.a64_ops.specs.Names.{fpu_op2_name};

    /// Its name in assembly text.
    pub fn op_str(&self) -> &'static str
        ensures { result.now ≡ fpu_op2_name self.now }
    {
        match self {
            FPUOp2::Add => "fadd",
            FPUOp2::Sub => "fsub",
            FPUOp2::Mul => "fmul",
            FPUOp2::Div => "fdiv",
            FPUOp2::Max => "fmax",
            FPUOp2::Min => "fmin",
        }
    }
}

/// An operator with three floats, which rounds once (Cranelift's `FPUOp3`).
#[derive(Clone, Copy, Debug, PartialEq, Eq)]
pub enum FPUOp3 {
    /// A product that is added.
    MAdd,
    /// A product that is subtracted.
    MSub,
    /// The negation of the sum of a product and an addend.
    NMAdd,
    /// A product less the third operand.
    NMSub,
}

impl FPUOp3 {
    ghost use Rattle.a64_ops.specs.Names.{fpu_op3_name};

    /// Its name in assembly text.
    pub fn op_str(&self) -> &'static str
        ensures { result.now ≡ fpu_op3_name self.now }
    {
        match self {
            FPUOp3::MAdd => "fmadd",
            FPUOp3::MSub => "fmsub",
            FPUOp3::NMAdd => "fnmadd",
            FPUOp3::NMSub => "fnmsub",
        }
    }
}

/// A conversion of a float to an integer, towards zero (Cranelift's `FpuToIntOp`).
#[derive(Clone, Copy, Debug, PartialEq, Eq)]
pub enum FpuToIntOp {
    /// 32 bits to an unsigned number of 32 bits.
    F32ToU32,
    /// 32 bits to a signed number of 32 bits.
    F32ToI32,
    /// 32 bits to an unsigned number of 64 bits.
    F32ToU64,
    /// 32 bits to a signed number of 64 bits.
    F32ToI64,
    /// 64 bits to an unsigned number of 32 bits.
    F64ToU32,
    /// 64 bits to a signed number of 32 bits.
    F64ToI32,
    /// 64 bits to an unsigned number of 64 bits.
    F64ToU64,
    /// 64 bits to a signed number of 64 bits.
    F64ToI64,
}

impl FpuToIntOp {
    ghost use Rattle.a64_ops.specs.Names.{fpu_to_int_op_name};

    /// The name of the conversion in assembly text.
    pub fn op_str(&self) -> &'static str
        ensures { result.now ≡ fpu_to_int_op_name self.now }
    {
        match self {
            FpuToIntOp::F32ToU32 => "fcvtzu",
            FpuToIntOp::F32ToI32 => "fcvtzs",
            FpuToIntOp::F32ToU64 => "fcvtzu",
            FpuToIntOp::F32ToI64 => "fcvtzs",
            FpuToIntOp::F64ToU32 => "fcvtzu",
            FpuToIntOp::F64ToI32 => "fcvtzs",
            FpuToIntOp::F64ToU64 => "fcvtzu",
            FpuToIntOp::F64ToI64 => "fcvtzs",
        }
    }
}

/// A conversion of an integer to a float (Cranelift's `IntToFpuOp`).
#[derive(Clone, Copy, Debug, PartialEq, Eq)]
pub enum IntToFpuOp {
    /// An unsigned number of 32 bits to 32 bits.
    U32ToF32,
    /// A signed number of 32 bits to 32 bits.
    I32ToF32,
    /// An unsigned number of 32 bits to 64 bits.
    U32ToF64,
    /// A signed number of 32 bits to 64 bits.
    I32ToF64,
    /// An unsigned number of 64 bits to 32 bits.
    U64ToF32,
    /// A signed number of 64 bits to 32 bits.
    I64ToF32,
    /// An unsigned number of 64 bits to 64 bits.
    U64ToF64,
    /// A signed number of 64 bits to 64 bits.
    I64ToF64,
}

impl IntToFpuOp {
    ghost use Rattle.a64_ops.specs.Names.{int_to_fpu_op_name};

    /// The name of the conversion in assembly text.
    pub fn op_str(&self) -> &'static str
        ensures { result.now ≡ int_to_fpu_op_name self.now }
    {
        match self {
            IntToFpuOp::U32ToF32 => "ucvtf",
            IntToFpuOp::I32ToF32 => "scvtf",
            IntToFpuOp::U32ToF64 => "ucvtf",
            IntToFpuOp::I32ToF64 => "scvtf",
            IntToFpuOp::U64ToF32 => "ucvtf",
            IntToFpuOp::I64ToF32 => "scvtf",
            IntToFpuOp::U64ToF64 => "ucvtf",
            IntToFpuOp::I64ToF64 => "scvtf",
        }
    }
}

/// A rounding to an integral value, of a float of so many bits (Cranelift's `FpuRoundMode`).
#[derive(Clone, Copy, Debug, PartialEq, Eq)]
pub enum FpuRoundMode {
    /// Towards minus infinity.
    Minus32,
    /// Towards minus infinity.
    Minus64,
    /// Towards plus infinity.
    Plus32,
    /// Towards plus infinity.
    Plus64,
    /// Towards zero.
    Zero32,
    /// Towards zero.
    Zero64,
    /// To the nearest, of two that are as near to the even one.
    Nearest32,
    /// To the nearest, of two that are as near to the even one.
    Nearest64,
}

impl FpuRoundMode {
    ghost use Rattle.a64_ops.specs.Names.{fpu_round_mode_name};

    /// Its name in assembly text.
    pub fn op_str(&self) -> &'static str
        ensures { result.now ≡ fpu_round_mode_name self.now }
    {
        match self {
            FpuRoundMode::Minus32 => "frintm",
            FpuRoundMode::Minus64 => "frintm",
            FpuRoundMode::Plus32 => "frintp",
            FpuRoundMode::Plus64 => "frintp",
            FpuRoundMode::Zero32 => "frintz",
            FpuRoundMode::Zero64 => "frintz",
            FpuRoundMode::Nearest32 => "frintn",
            FpuRoundMode::Nearest64 => "frintn",
        }
    }
}
