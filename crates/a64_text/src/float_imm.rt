//! Makes immediates of floats of their bits.

ghost use Rattle.a64_tokens.specs.Reads.{Reads};
ghost use Rattle.a64_text.specs.FloatImms.{IsFloatAt};

use a64_base::ScalarSize;
use a64_imms::ASIMDFPModImm;

/// The immediate of these eight bits at the size, which is 16, 32 or 64 bits.
pub fn float_imm_of(size: ScalarSize, bits: u8) -> Option<ASIMDFPModImm>
    ensures { Reads (IsFloatAt size) (λ made. made.imm) bits result }
{
    match size {
        ScalarSize::Size16 | ScalarSize::Size32 | ScalarSize::Size64 => {
            Some(ASIMDFPModImm { imm: bits, size })
        }
        ScalarSize::Size8 | ScalarSize::Size128 => None,
    }
}
