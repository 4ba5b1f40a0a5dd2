//! Makes bitmask immediates of their values.

ghost use Rattle.a64_imms.specs.Logic.{logic_value};
ghost use Rattle.a64_tokens.specs.Fields.{IsLogicAt};
ghost use Rattle.a64_tokens.specs.Reads.{Reads};

use a64_base::OperandSize;
use a64_imms::ImmLogic;

/// The bitmask immediate that the constructor gives for the value at the size.
pub fn logic_of(size: OperandSize, value: u64) -> Option<ImmLogic>
    ensures { Reads (IsLogicAt size) logic_value value result }
{
    ImmLogic::maybe_from_u64(value, size.to_ty())
}
