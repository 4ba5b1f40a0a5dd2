//! The sizes of operands.

ghost use Rattle.std.specs.Prelude.{◌≡◌, ◌≤◌, false};

use crate::ir_type::IrType;

/// The size of an integer operand (Cranelift's `OperandSize`).
#[derive(Clone, Copy, Debug, PartialEq, Eq)]
pub enum OperandSize {
    /// 32 bits.
    Size32,
    /// 64 bits.
    Size64,
}

impl OperandSize {
    ghost use Rattle.a64_base.specs.OperandSizes.{
      is_32_bits,
      is_64_bits,
      operand_bits,
      sf_of,
      operand_type,
      largest_operand,
      operand_of_bits,
    };
    ghost use Rattle.a64_base.specs.Types.{type_bits, is_vector_type};

    /// The smallest size that has so many bits, at most 64.
    pub fn from_bits(bits: usize) -> OperandSize
        requires { bits ≤ 64 }
        ensures { result ≡ operand_of_bits bits }
    {
        if bits <= 32 {
            OperandSize::Size32
        } else {
            OperandSize::Size64
        }
    }

    /// The smallest size for a value of this type, which is no vector and has at most 64 bits.
    pub fn from_ty(ty: IrType) -> OperandSize
        requires scalar { is_vector_type ty ≡ false }
        requires width { type_bits ty ≤ 64 }
        ensures { result ≡ operand_of_bits (type_bits ty) }
    {
        OperandSize::from_bits(ty.bits() as usize)
    }

    /// Whether it is 32 bits.
    pub fn is32(&self) -> bool
        ensures { result ≡ is_32_bits self.now }
    {
        *self == OperandSize::Size32
    }

    /// Whether it is 64 bits.
    pub fn is64(&self) -> bool
        ensures { result ≡ is_64_bits self.now }
    {
        *self == OperandSize::Size64
    }

    /// The number of bits, 32 or 64.
    pub fn bits(&self) -> u8
        ensures { result ≡ operand_bits self.now }
    {
        match *self {
            OperandSize::Size32 => 32,
            OperandSize::Size64 => 64,
        }
    }

    /// The bit `sf` of an instruction.
    pub fn sf_bit(&self) -> u32
        ensures { result ≡ sf_of self.now }
    {
        match *self {
            OperandSize::Size32 => 0,
            OperandSize::Size64 => 1,
        }
    }

    /// The integer type of this size.
    pub fn to_ty(&self) -> IrType
        ensures { result ≡ operand_type self.now }
    {
        match *self {
            OperandSize::Size32 => IrType::I32,
            OperandSize::Size64 => IrType::I64,
        }
    }

    /// The largest unsigned value of this size.
    pub fn max_value(&self) -> u64
        ensures { result ≡ largest_operand self.now }
    {
        match *self {
            OperandSize::Size32 => 0xffff_ffff,
            OperandSize::Size64 => u64::MAX,
        }
    }
}

/// The size of a scalar in a vector register (Cranelift's `ScalarSize`).
#[derive(Clone, Copy, Debug, PartialEq, Eq)]
pub enum ScalarSize {
    /// 8 bits.
    Size8,
    /// 16 bits.
    Size16,
    /// 32 bits.
    Size32,
    /// 64 bits.
    Size64,
    /// 128 bits.
    Size128,
}

impl ScalarSize {
    ghost use Rattle.a64_base.specs.ScalarSizes.{
      HasOperandSize,
      HasFtype,
      IsWidenable,
      IsNarrowable,
      scalar_operand,
      ftype_of,
      wider,
      narrower,
      scalar_type,
    };

    /// The integer operand that holds such a scalar, of at most 64 bits.
    pub fn operand_size(&self) -> OperandSize
        requires { HasOperandSize self.now }
        ensures { result ≡ scalar_operand self.now }
    {
        match *self {
            ScalarSize::Size8 | ScalarSize::Size16 | ScalarSize::Size32 => OperandSize::Size32,
            ScalarSize::Size64 => OperandSize::Size64,
            ScalarSize::Size128 => unreachable!(),
        }
    }

    /// The field `ftype` of a scalar floating-point instruction; a float has 16, 32 or 64 bits.
    pub fn ftype(&self) -> u32
        requires { HasFtype self.now }
        ensures { result ≡ ftype_of self.now }
    {
        match *self {
            ScalarSize::Size16 => 3,
            ScalarSize::Size32 => 0,
            ScalarSize::Size64 => 1,
            ScalarSize::Size8 | ScalarSize::Size128 => unreachable!(),
        }
    }

    /// The next larger size; 128 bits has none.
    pub fn widen(&self) -> ScalarSize
        requires { IsWidenable self.now }
        ensures { result ≡ wider self.now }
    {
        match *self {
            ScalarSize::Size8 => ScalarSize::Size16,
            ScalarSize::Size16 => ScalarSize::Size32,
            ScalarSize::Size32 => ScalarSize::Size64,
            ScalarSize::Size64 => ScalarSize::Size128,
            ScalarSize::Size128 => unreachable!(),
        }
    }

    /// The next smaller size; 8 bits has none.
    pub fn narrow(&self) -> ScalarSize
        requires { IsNarrowable self.now }
        ensures { result ≡ narrower self.now }
    {
        match *self {
            ScalarSize::Size8 => unreachable!(),
            ScalarSize::Size16 => ScalarSize::Size8,
            ScalarSize::Size32 => ScalarSize::Size16,
            ScalarSize::Size64 => ScalarSize::Size32,
            ScalarSize::Size128 => ScalarSize::Size64,
        }
    }

    /// The integer type of this size.
    pub fn ty(&self) -> IrType
        ensures { result ≡ scalar_type self.now }
    {
        match *self {
            ScalarSize::Size8 => IrType::I8,
            ScalarSize::Size16 => IrType::I16,
            ScalarSize::Size32 => IrType::I32,
            ScalarSize::Size64 => IrType::I64,
            ScalarSize::Size128 => IrType::I128,
        }
    }
}

/// The lanes of a vector register: how many bits each has, and how many there are (Cranelift's
/// `VectorSize`).
#[derive(Clone, Copy, Debug, PartialEq, Eq)]
pub enum VectorSize {
    /// Eight lanes of 8 bits.
    Size8x8,
    /// Sixteen lanes of 8 bits.
    Size8x16,
    /// Four lanes of 16 bits.
    Size16x4,
    /// Eight lanes of 16 bits.
    Size16x8,
    /// Two lanes of 32 bits.
    Size32x2,
    /// Four lanes of 32 bits.
    Size32x4,
    /// Two lanes of 64 bits.
    Size64x2,
}

impl VectorSize {
    ghost use Rattle.a64_base.specs.VectorSizes.{
      byte_lanes,
      lane_operand,
      lane_of,
      is_full,
      q_of,
      lane_field,
      float_field,
      IsVector,
      HasFloatLanes,
    };

    /// The vector of the same width with lanes of 8 bits.
    pub fn as_scalar8_vector(&self) -> VectorSize
        ensures { result ≡ byte_lanes self.now }
    {
        match *self {
            VectorSize::Size8x8 | VectorSize::Size16x4 | VectorSize::Size32x2 => {
                VectorSize::Size8x8
            }
            VectorSize::Size8x16
            | VectorSize::Size16x8
            | VectorSize::Size32x4
            | VectorSize::Size64x2 => VectorSize::Size8x16,
        }
    }

    /// The vector with lanes of this size, of 128 or of 64 bits. There is none with lanes of 128
    /// bits, and none with a single lane of 64.
    pub fn from_lane_size(size: ScalarSize, is_128bit: bool) -> VectorSize
        requires { IsVector size is_128bit }
        ensures lane { lane_of result ≡ size }
        ensures width { is_full result ≡ is_128bit }
    {
        match (size, is_128bit) {
            (ScalarSize::Size8, false) => VectorSize::Size8x8,
            (ScalarSize::Size8, true) => VectorSize::Size8x16,
            (ScalarSize::Size16, false) => VectorSize::Size16x4,
            (ScalarSize::Size16, true) => VectorSize::Size16x8,
            (ScalarSize::Size32, false) => VectorSize::Size32x2,
            (ScalarSize::Size32, true) => VectorSize::Size32x4,
            (ScalarSize::Size64, true) => VectorSize::Size64x2,
            _ => unreachable!(),
        }
    }

    /// The integer operand that holds a lane.
    pub fn operand_size(&self) -> OperandSize
        ensures { result ≡ lane_operand self.now }
    {
        match *self {
            VectorSize::Size64x2 => OperandSize::Size64,
            _ => OperandSize::Size32,
        }
    }

    /// The size of a lane.
    pub fn lane_size(&self) -> ScalarSize
        ensures { result ≡ lane_of self.now }
    {
        match *self {
            VectorSize::Size8x8 | VectorSize::Size8x16 => ScalarSize::Size8,
            VectorSize::Size16x4 | VectorSize::Size16x8 => ScalarSize::Size16,
            VectorSize::Size32x2 | VectorSize::Size32x4 => ScalarSize::Size32,
            VectorSize::Size64x2 => ScalarSize::Size64,
        }
    }

    /// Whether the lanes fill 128 bits.
    pub fn is_128bits(&self) -> bool
        ensures { result ≡ is_full self.now }
    {
        match *self {
            VectorSize::Size8x8 | VectorSize::Size16x4 | VectorSize::Size32x2 => false,
            VectorSize::Size8x16
            | VectorSize::Size16x8
            | VectorSize::Size32x4
            | VectorSize::Size64x2 => true,
        }
    }

    /// The fields `Q` and `size` of a vector instruction.
    pub fn enc_size(&self) -> (u32, u32)
        ensures { result ≡ (q_of self.now, lane_field self.now) }
    {
        match *self {
            VectorSize::Size8x8 => (0, 0),
            VectorSize::Size8x16 => (1, 0),
            VectorSize::Size16x4 => (0, 1),
            VectorSize::Size16x8 => (1, 1),
            VectorSize::Size32x2 => (0, 2),
            VectorSize::Size32x4 => (1, 2),
            VectorSize::Size64x2 => (1, 3),
        }
    }

    /// The field `sz` of a floating-point vector instruction; its lanes have 32 or 64 bits.
    pub fn enc_float_size(&self) -> u32
        requires { HasFloatLanes self.now }
        ensures { result ≡ float_field self.now }
    {
        match *self {
            VectorSize::Size32x2 | VectorSize::Size32x4 => 0,
            VectorSize::Size64x2 => 1,
            _ => unreachable!(),
        }
    }
}
