//! The words of loads of vectors.

ghost use Rattle.std.specs.Prelude.{◌≡◌, true};
ghost use Rattle.a64_operand.specs.declared.virtuals.VirtualRegisters.TheVariants.{Refused};
ghost use Rattle.a64_operand.specs.VectorOperands.{are_replicate_operands};
ghost use Rattle.a64_rows.specs.Forms.{form_word};
ghost use Rattle.a64_cells.specs.VectorForms.{replicate_form};

use a64_base::{Reg, VectorSize, Writable};
use a64_enc_vec::enc_ldst_vec;

/// The word of a `VecLoadReplicate`.
#[tactic(auto, using(crate::proofs::Operands::vector, crate::proofs::Operands::stack_general), unfolding(a64_operand::specs::VectorOperands::are_replicate_operands))]
pub fn replicate_word(size: VectorSize, rd: Writable<Reg>, rn: Reg) -> u32
    requires { are_replicate_operands Refused rd rn ≡ true }
    ensures { result ≡ form_word (replicate_form size rd rn) }
{
    let (q, lanes) = size.enc_size();
    enc_ldst_vec(q, lanes, rn, rd)
}
