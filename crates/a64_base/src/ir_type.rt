//! The types of values.

ghost use Rattle.std.specs.Prelude.{◌≡◌, ◌/◌};

/// The type of a value (Cranelift's `ir::Type`).
#[derive(Clone, Copy, Debug, PartialEq, Eq)]
pub enum IrType {
    /// An 8-bit integer.
    I8,
    /// A 16-bit integer.
    I16,
    /// A 32-bit integer.
    I32,
    /// A 64-bit integer.
    I64,
    /// A 128-bit integer.
    I128,
    /// A half-precision float.
    F16,
    /// A single-precision float.
    F32,
    /// A double-precision float.
    F64,
    /// A quadruple-precision float.
    F128,
    /// Two lanes of 8 bits.
    I8X2,
    /// Four lanes of 8 bits.
    I8X4,
    /// Eight lanes of 8 bits.
    I8X8,
    /// Sixteen lanes of 8 bits.
    I8X16,
    /// Two lanes of 16 bits.
    I16X2,
    /// Four lanes of 16 bits.
    I16X4,
    /// Eight lanes of 16 bits.
    I16X8,
    /// Two lanes of 32 bits.
    I32X2,
    /// Four lanes of 32 bits.
    I32X4,
    /// Two lanes of 64 bits.
    I64X2,
    /// Four half-precision lanes.
    F16X4,
    /// Eight half-precision lanes.
    F16X8,
    /// Two single-precision lanes.
    F32X2,
    /// Four single-precision lanes.
    F32X4,
    /// Two double-precision lanes.
    F64X2,
    /// Thirty-two lanes of 8 bits.
    I8X32,
}

impl IrType {
    ghost use Rattle.a64_base.specs.Types.{type_bits, is_vector_type, is_float_type};

    /// Its width in bits, of all lanes together.
    pub fn bits(&self) -> u32
        ensures { result ≡ type_bits self.now }
    {
        match *self {
            IrType::I8 => 8,
            IrType::I16 | IrType::F16 | IrType::I8X2 => 16,
            IrType::I32 | IrType::F32 | IrType::I8X4 | IrType::I16X2 => 32,
            IrType::I64 | IrType::F64 => 64,
            IrType::I8X8 | IrType::I16X4 | IrType::I32X2 | IrType::F16X4 | IrType::F32X2 => 64,
            IrType::I128 | IrType::F128 => 128,
            IrType::I8X16 | IrType::I16X8 | IrType::I32X4 | IrType::I64X2 => 128,
            IrType::F16X8 | IrType::F32X4 | IrType::F64X2 => 128,
            IrType::I8X32 => 256,
        }
    }

    /// Its width in bytes.
    pub fn bytes(&self) -> u32
        ensures { result ≡ type_bits self.now / 8 }
    {
        self.bits() / 8
    }

    /// Whether it has lanes.
    pub fn is_vector(&self) -> bool
        ensures { result ≡ is_vector_type self.now }
    {
        match *self {
            IrType::I8 | IrType::I16 | IrType::I32 | IrType::I64 | IrType::I128 => false,
            IrType::F16 | IrType::F32 | IrType::F64 | IrType::F128 => false,
            _ => true,
        }
    }

    /// Whether it is one float.
    pub fn is_float(&self) -> bool
        ensures { result ≡ is_float_type self.now }
    {
        matches!(
            *self,
            IrType::F16 | IrType::F32 | IrType::F64 | IrType::F128
        )
    }
}
