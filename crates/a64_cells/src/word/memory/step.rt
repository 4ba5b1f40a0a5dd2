//! The words of the steps of constants.

ghost use Rattle.std.specs.Prelude.{◌≡◌, ◌≤◌, All, length, map, true};
ghost use Rattle.a64_operand.specs.declared.virtuals.VirtualRegisters.TheVariants.{Refused};
ghost use Rattle.a64_operand.specs.Operands.{is_register_or_zero};
ghost use Rattle.a64_rows.specs.Forms.{form_word};
ghost use Rattle.a64_cells.specs.MemoryForms.{step_form, step_forms};
ghost use Rattle.a64_cells.specs.Words.{CanStep};

use crate::word::plain::immediate::{alu_rr_imm_logic_word, mov_k_word, mov_wide_word};
use a64_base::{Reg, Writable, zero_reg};
use a64_inst::ConstStep;
use a64_ops::{ALUOp, MoveWideOp};
use arrayvec::ArrayVec;

/// The word of a step into a register.
#[tactic(auto, using(crate::proofs::Operands::real))]
fn step_word(rd: Writable<Reg>, step: ConstStep) -> u32
    requires rd { is_register_or_zero Refused rd ≡ true }
    requires step { CanStep step }
    ensures { result ≡ form_word (step_form rd step) }
{
    match step {
        ConstStep::MovZ(imm, size) => mov_wide_word(MoveWideOp::MovZ, rd, imm, size),
        ConstStep::MovN(imm, size) => mov_wide_word(MoveWideOp::MovN, rd, imm, size),
        ConstStep::MovK(imm, size) => mov_k_word(rd, imm, size),
        ConstStep::Orr(imml) => {
            alu_rr_imm_logic_word(ALUOp::Orr, imml.size, rd, zero_reg(), imml)
        }
    }
}

/// The words of steps into a register.
pub fn step_words(rd: Writable<Reg>, steps: &[ConstStep]) -> ArrayVec<u32, 4>
    requires rd { is_register_or_zero Refused rd ≡ true }
    requires steps { All CanStep steps.now }
    requires few { length steps.now ≤ 4 }
    ensures { result.items ≡ map form_word (step_forms rd steps.now) }
{
    let mut words = ArrayVec::new();
    for step in steps {
        words.push(step_word(rd, *step));
    }
    words
}
