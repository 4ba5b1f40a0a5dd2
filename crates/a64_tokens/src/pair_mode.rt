//! Addressing modes of pairs, and their scales.

ghost use Rattle.a64_imms.specs.Scales.{IsPairScale};
ghost use Rattle.std.specs.Prelude.{◌≡◌};
ghost use Rattle.a64_tokens.specs.PairModes as pairs;
ghost use Rattle.a64_tokens.specs.Reads.{Reads, IsI64};

use a64_base::{IrType, Reg};
use a64_imms::SImm7Scaled;
use a64_inst::PairAMode;

/// An addressing mode of a pair as a line has it: the offset is a number of bytes, and the instruction's
/// name says by what it is scaled.
#[derive(Clone, Copy)]
pub enum WrittenPairMode {
    /// A base plus an offset.
    SignedOffset {
        /// The base.
        reg: Reg,
        /// The offset in bytes.
        offset: i64,
    },
    /// The stack pointer plus an offset, which it is set to before the access.
    SPPreIndexed {
        /// The offset in bytes.
        offset: i64,
    },
    /// The stack pointer, to which an offset is added after the access.
    SPPostIndexed {
        /// The offset in bytes.
        offset: i64,
    },
}

/// The offset that the constructor gives for the value at the scale.
fn offset_at(value: i64, scale: IrType) -> Option<SImm7Scaled>
    requires { IsPairScale scale }
    ensures { Reads (pairs.IsOffsetAt scale) (λ imm. imm.value) value result }
{
    SImm7Scaled::maybe_from_i64(value, scale)
}

impl WrittenPairMode {
    /// The offset in bytes.
    fn offset(&self) -> i64
        ensures value { result ≡ pairs.written_offset self.now }
        ensures fits { IsI64 result }
    {
        match self {
            WrittenPairMode::SignedOffset { offset, .. }
            | WrittenPairMode::SPPreIndexed { offset }
            | WrittenPairMode::SPPostIndexed { offset } => *offset,
        }
    }

    /// The offset that the constructor gives for it at the scale.
    fn scaled(&self, scale: IrType) -> Option<SImm7Scaled>
        requires { IsPairScale scale }
        ensures { Reads (pairs.IsOffsetAt scale) (λ imm. imm.value)
            (pairs.written_offset self.now) result }
    {
        offset_at(self.offset(), scale)
    }

    /// The mode with this offset in place of its own.
    fn with_offset(&self, simm7: SImm7Scaled) -> PairAMode
        ensures { result ≡ pairs.with_offset self.now simm7 }
    {
        match self {
            WrittenPairMode::SignedOffset { reg, .. } => {
                PairAMode::SignedOffset { reg: *reg, simm7 }
            }
            WrittenPairMode::SPPreIndexed { .. } => PairAMode::SPPreIndexed { simm7 },
            WrittenPairMode::SPPostIndexed { .. } => PairAMode::SPPostIndexed { simm7 },
        }
    }

    /// The mode with its offset at the scale of the type, where the constructor gives one.
    ///
    /// So one reader and one rule serve 8 bytes of general registers, and 8 and 16 of vector registers.
    #[tactic(auto, using(crate::proofs::PairReads::no_pair))]
    pub fn at_scale(&self, scale: IrType) -> Option<PairAMode>
        requires { IsPairScale scale }
        ensures { Reads (pairs.IsPairAt scale) pairs.written_pair self.now result }
    {
        let simm7 = self.scaled(scale)?;
        Some(self.with_offset(simm7))
    }
}
