//! The words of instructions that a frame restores.

ghost use Rattle.std.specs.Prelude.{◌≡◌, [], ◌∷◌, true};
ghost use Rattle.a64_operand.specs.declared.virtuals.VirtualRegisters.TheVariants.{Refused};
ghost use Rattle.a64_inst.specs.Faults.{can_restore};
ghost use Rattle.a64_cells.specs.Cells.{inst_cells, restored_cell};

use a64_inst::{EmitInfo, FrameLayout, Inst};

/// That an instruction that a frame can restore is one word, which is no use. The call does nothing else.
#[inline(always)]
pub fn is_one_word(_inst: &Inst, _frame: &FrameLayout, _info: &EmitInfo)
    requires { can_restore _frame.now _info.now Refused _inst.now ≡ true }
    ensures { inst_cells _frame.now _info.now _inst.now
        ≡ restored_cell _frame.now _info.now _inst.now ∷ [] }
{}
