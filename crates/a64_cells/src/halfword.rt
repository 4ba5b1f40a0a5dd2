//! The halfwords that wide moves hold.

ghost use Rattle.std.specs.Prelude.{◌<◌, ◌^◌};
ghost use Rattle.a64_cells.specs.FormCells.{HasHalfword, RestoresHalfwords};

use a64_imms::MoveWideConst;
use a64_inst::{FrameLayout, Inst};

/// That a halfword has 16 bits. The call does nothing else.
#[inline(always)]
fn is_halfword(_imm: MoveWideConst)
    ensures { _imm.bits < 2 ^ 16 }
{}

/// That the halfword of a wide move has 16 bits. The call does nothing else.
#[inline(always)]
pub fn has_halfword(inst: &Inst)
    ensures { HasHalfword inst.now }
{
    match inst {
        Inst::MovWide { imm, .. } | Inst::MovK { imm, .. } => is_halfword(*imm),
        _ => {}
    }
}

/// That the halfwords of the wide moves that a frame restores have 16 bits. The call does nothing else.
pub fn restores_halfwords(frame: &FrameLayout)
    ensures { RestoresHalfwords frame.now }
{
    for inst in frame.restore.as_slice() {
        has_halfword(inst);
    }
}
