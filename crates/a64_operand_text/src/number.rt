//! Numbers and sizes in texts, for all values of the fields that they come from.

ghost use Rattle.std.specs.Prelude.{◌≡◌};
ghost use Rattle.a64_base.specs.OperandSizes.{operand_of_bits};
ghost use Rattle.a64_base.specs.ScalarSizes.{scalar_operand};
ghost use Rattle.a64_imms.specs.Imm12s as imm12s;

use a64_base::{OperandSize, ScalarSize};
use a64_imms::Imm12;

/// The value of an immediate of 12 bits.
pub fn imm12_value(imm12: Imm12) -> u64
    ensures { result ≡ imm12s.imm12_value imm12 }
{
    u64::from(imm12.bits) * if imm12.shift12 { 4096 } else { 1 }
}

/// The smallest size that has so many bits, or 64 bits.
pub fn operand_of_bits(bits: u8) -> OperandSize
    ensures { result ≡ operand_of_bits bits }
{
    if bits <= 32 {
        OperandSize::Size32
    } else {
        OperandSize::Size64
    }
}

/// The size of the integer register whose bits a scalar takes.
pub fn scalar_operand(size: ScalarSize) -> OperandSize
    ensures { result ≡ scalar_operand size }
{
    match size {
        ScalarSize::Size64 => OperandSize::Size64,
        _ => OperandSize::Size32,
    }
}
