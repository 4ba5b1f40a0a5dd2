//! Behind which items execution may go on.

ghost use Rattle.std.specs.Prelude.{◌≡◌};
ghost use Rattle.a64_emit.specs.Falls.{inst_falls};

use crate::where_stops;
use a64_inst::Inst;

/// Whether execution may go on behind an instruction. Behind one that always goes to a label, to an address
/// in a register or to another function it may not, nor behind `Udf`; behind `Brk` it may.
pub fn falls(inst: &Inst) -> bool
    ensures { result ≡ inst_falls inst.now }
{
    where_stops!(inst, false;
        Inst::Jump { dest } => dest.as_label().is_none(),
        Inst::CondBr { taken, not_taken, .. } | Inst::TestBitAndBranch { taken, not_taken, .. } => {
            taken.as_label().is_none() || not_taken.as_label().is_none()
        }
        _ => true,
    )
}
