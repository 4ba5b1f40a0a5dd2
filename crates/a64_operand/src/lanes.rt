//! The lanes that an operator on vectors has.

ghost use Rattle.std.specs.Prelude.{◌≡◌};
ghost use Rattle.a64_operand.specs.VectorOperands as sets;

use a64_base::VectorSize;

/// Which lanes an operator has.
#[derive(Clone, Copy, Debug)]
pub enum Lanes {
    /// All.
    Any,
    /// Lanes of 8, 16 and 32 bits.
    To32,
    /// Lanes of 16 and 32 bits.
    Of16Or32,
    /// Lanes of 32 and 64 bits.
    Floats,
    /// Those that fill 128 bits.
    Full,
    /// Those of 32 and 64 bits that fill 128 bits.
    FullFloats,
    /// Lanes of 8 bits.
    Bytes,
    /// Those of 8 bits that fill 128 bits.
    FullBytes,
    /// Those of 8 and 16 bits that fill 128 bits.
    FullTo16,
    /// Those of 8, 16 and 32 bits that fill 128 bits.
    FullTo32,
    /// Those of which there are four or more.
    AtLeast4,
}

impl Lanes {
    /// Whether the lanes of a vector are among these.
    pub fn has(self, size: VectorSize) -> bool
        ensures { result ≡ sets.has_lanes self size }
    {
        use VectorSize::*;
        match self {
            Lanes::Any => true,
            Lanes::To32 => !matches!(size, Size64x2),
            Lanes::Of16Or32 => matches!(size, Size16x4 | Size16x8 | Size32x2 | Size32x4),
            Lanes::Floats => matches!(size, Size32x2 | Size32x4 | Size64x2),
            Lanes::Full => size.is_128bits(),
            Lanes::FullFloats => matches!(size, Size32x4 | Size64x2),
            Lanes::Bytes => matches!(size, Size8x8 | Size8x16),
            Lanes::FullBytes => matches!(size, Size8x16),
            Lanes::FullTo16 => matches!(size, Size8x16 | Size16x8),
            Lanes::FullTo32 => matches!(size, Size8x16 | Size16x8 | Size32x4),
            Lanes::AtLeast4 => !matches!(size, Size32x2 | Size64x2),
        }
    }
}
