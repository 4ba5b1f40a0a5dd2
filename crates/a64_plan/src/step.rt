//! The steps of a constant.

use a64_base::OperandSize;
use a64_imms::{ImmLogic, MoveWideConst};

/// One step towards a constant in a register.
#[derive(Clone, Copy, Debug)]
pub enum ConstStep {
    /// `movz`: sets the register to 16 bits at one of its halfwords, and zeros elsewhere.
    MovZ(MoveWideConst, OperandSize),
    /// `movn`: sets the register to the complement of what `movz` gives.
    MovN(MoveWideConst, OperandSize),
    /// `movk`: replaces one halfword of the register.
    MovK(MoveWideConst, OperandSize),
    /// `orr` of the zero register and an immediate, at the immediate's size: at 32 bits the upper
    /// half of the register becomes zero.
    Orr(ImmLogic),
}

/// `movz` of 0 at 64 bits.
impl Default for ConstStep {
    ghost use Rattle.std.specs.Prelude.{◌≡◌};
    ghost use Rattle.a64_base.specs.declared.size.OperandSize.TheVariants.{Size64};
    ghost use Rattle.a64_plan.specs.declared.step.ConstStep.TheVariants.{MovZ};

    ghost is_default = { λ step. step ≡ MovZ (record { bits = 0; shift = 0 }) Size64 };

    fn default() -> ConstStep {
        ConstStep::MovZ(MoveWideConst::zero(), OperandSize::Size64)
    }
}
