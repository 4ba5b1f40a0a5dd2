//! Reads sizes.

ghost use Rattle.a64_tokens.specs.Reads.{Reads, Always};
ghost use Rattle.a64_tokens.specs.Fields.{scalar_size_text, size_text, vector_size_text};

use a64_base::{OperandSize, ScalarSize, VectorSize};

/// The size of an operand, in bits.
#[inline(always)]
pub fn read_size(token: &[u8]) -> Option<OperandSize>
    ensures { Reads Always size_text token.now result }
{
    match token {
        [b'3', b'2'] => Some(OperandSize::Size32),
        [b'6', b'4'] => Some(OperandSize::Size64),
        _ => None,
    }
}

/// The size of a scalar, in bits.
#[tactic(auto, using(std::proofs::lemmas::Slice::Eq::text_from_reads))]
pub fn read_scalar_size(token: &[u8]) -> Option<ScalarSize>
    ensures { Reads Always scalar_size_text token.now result }
{
    match token {
        b"8" => Some(ScalarSize::Size8),
        b"16" => Some(ScalarSize::Size16),
        b"32" => Some(ScalarSize::Size32),
        b"64" => Some(ScalarSize::Size64),
        b"128" => Some(ScalarSize::Size128),
        _ => None,
    }
}

/// The lanes of a vector: the bits of one, `x`, and how many there are.
#[tactic(auto, using(std::proofs::lemmas::Slice::Eq::text_from_reads))]
pub fn read_vector_size(token: &[u8]) -> Option<VectorSize>
    ensures { Reads Always vector_size_text token.now result }
{
    match token {
        b"8x8" => Some(VectorSize::Size8x8),
        b"8x16" => Some(VectorSize::Size8x16),
        b"16x4" => Some(VectorSize::Size16x4),
        b"16x8" => Some(VectorSize::Size16x8),
        b"32x2" => Some(VectorSize::Size32x2),
        b"32x4" => Some(VectorSize::Size32x4),
        b"64x2" => Some(VectorSize::Size64x2),
        _ => None,
    }
}
