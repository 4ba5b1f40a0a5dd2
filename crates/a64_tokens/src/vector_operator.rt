//! The names of operators of vector instructions.

ghost use Rattle.std.specs.Prelude.{List, [], map};
ghost use Rattle.a64_tokens.specs.declared.vector_operator.TheConstants.{VEC_MISC2_HOMES, VEC_MISC2S, VEC_ALU_OP_HOMES, VEC_FLOAT_OPS, VEC_INTEGER_OPS};
ghost use Rattle.a64_tokens.specs.Hash.{AreRows};
ghost use Rattle.a64_tokens.specs.VectorOperators.{vec_alu_mod_op_text, vec_alu_op_text, vec_extend_op_text, vec_lanes_op_text, vec_misc2_text, vec_pair_op_text, vec_rr_long_op_text, vec_rr_narrow_op_text, vec_rr_pair_long_op_text, vec_rrr_long_mod_op_text, vec_rrr_long_op_text, vec_shift_imm_mod_op_text, vec_shift_imm_op_text};
ghost use Rattle.a64_tokens.specs.VectorRows.{vec_alu_op_rows};
ghost use Rattle.a64_tokens.specs.Reads.{Reads, Always};
ghost use Rattle.a64_tokens.specs.VectorFound.{vec_alu_op_found, vec_misc2_found};

use crate::named::{Named, Row};
use a64_ops::{
    VecALUModOp, VecALUOp, VecExtendOp, VecLanesOp, VecMisc2, VecPairOp, VecRRLongOp,
    VecRRNarrowOp, VecRRPairLongOp, VecRRRLongModOp, VecRRRLongOp, VecShiftImmModOp, VecShiftImmOp,
};

/// For each remainder of a hash, the home of the name that has it: 32 where it names an operator on floats or
/// a permutation, plus the number of its row.
pub static VEC_ALU_OP_HOMES: [u8; 1024] = [
    0, 0, 0, 0, 11, 0, 0, 0, 0, 0, 0, 0, 0, 0, 0, 0, 0, 0, 0, 0, 0, 0, 0, 0, 0, 0, 0, 0, 0, 0, 0,
    0, 0, 0, 0, 0, 21, 0, 0, 0, 0, 0, 0, 0, 0, 0, 0, 0, 0, 0, 0, 0, 0, 0, 0, 0, 0, 0, 0, 0, 0, 0,
    0, 0, 0, 0, 0, 0, 0, 0, 0, 0, 0, 0, 0, 0, 0, 0, 0, 0, 0, 0, 0, 0, 0, 0, 0, 0, 0, 0, 0, 0, 0, 0,
    0, 0, 0, 0, 0, 0, 0, 0, 0, 0, 0, 0, 0, 0, 42, 0, 0, 0, 0, 0, 0, 0, 0, 0, 0, 0, 0, 0, 0, 0, 0,
    0, 0, 0, 0, 0, 0, 0, 0, 0, 0, 0, 0, 0, 0, 0, 0, 0, 0, 0, 0, 0, 0, 0, 0, 0, 0, 0, 0, 0, 0, 0, 0,
    0, 0, 0, 0, 0, 0, 0, 0, 0, 0, 0, 0, 0, 0, 0, 0, 0, 0, 0, 0, 0, 0, 0, 0, 0, 0, 0, 0, 0, 0, 0, 0,
    0, 0, 0, 0, 0, 0, 0, 0, 0, 0, 0, 0, 0, 0, 0, 0, 0, 0, 0, 0, 0, 0, 0, 0, 0, 0, 0, 0, 0, 0, 0, 0,
    0, 26, 0, 0, 0, 0, 0, 0, 0, 0, 0, 0, 0, 0, 0, 22, 0, 0, 0, 0, 0, 0, 0, 0, 0, 0, 0, 0, 0, 0, 0,
    0, 0, 0, 0, 0, 0, 0, 0, 0, 0, 0, 0, 0, 0, 0, 0, 0, 0, 0, 0, 0, 0, 0, 0, 0, 0, 0, 0, 0, 0, 0, 0,
    0, 0, 0, 0, 0, 0, 0, 0, 0, 0, 0, 35, 0, 0, 0, 0, 0, 0, 0, 0, 0, 0, 0, 0, 0, 0, 0, 0, 0, 0, 0,
    0, 38, 0, 0, 0, 40, 0, 0, 0, 0, 0, 0, 7, 0, 0, 0, 0, 0, 0, 0, 0, 0, 0, 0, 0, 0, 0, 0, 0, 0, 9,
    0, 0, 0, 0, 0, 0, 0, 0, 0, 0, 0, 0, 0, 0, 0, 0, 0, 0, 0, 0, 0, 0, 0, 0, 0, 0, 0, 0, 0, 0, 0, 0,
    0, 0, 0, 0, 0, 0, 0, 0, 0, 0, 0, 0, 0, 0, 0, 0, 0, 0, 0, 0, 0, 43, 0, 0, 0, 0, 0, 0, 0, 0, 0,
    0, 0, 0, 0, 0, 0, 0, 0, 0, 0, 0, 15, 0, 0, 0, 0, 0, 0, 0, 0, 0, 0, 0, 0, 0, 0, 0, 0, 0, 0, 0,
    0, 0, 0, 0, 0, 0, 0, 0, 0, 0, 0, 0, 0, 0, 0, 0, 0, 0, 0, 0, 0, 0, 0, 0, 0, 0, 0, 0, 0, 0, 0, 0,
    10, 0, 0, 0, 0, 45, 0, 0, 14, 0, 0, 0, 0, 32, 0, 0, 0, 0, 0, 0, 0, 0, 0, 0, 0, 0, 19, 0, 0, 0,
    0, 0, 0, 0, 0, 0, 0, 0, 24, 0, 0, 0, 0, 0, 0, 0, 0, 0, 0, 0, 0, 0, 0, 0, 0, 0, 17, 0, 0, 0, 0,
    0, 0, 0, 0, 0, 0, 0, 0, 0, 0, 0, 0, 0, 0, 0, 0, 0, 0, 0, 4, 0, 0, 0, 0, 0, 0, 0, 0, 0, 0, 0, 0,
    0, 0, 0, 0, 0, 0, 0, 0, 0, 0, 0, 0, 0, 0, 0, 0, 0, 0, 0, 0, 0, 0, 0, 23, 0, 0, 0, 0, 0, 0, 0,
    0, 0, 0, 0, 0, 0, 0, 0, 0, 0, 0, 0, 0, 0, 0, 0, 0, 0, 0, 0, 0, 0, 0, 0, 0, 0, 0, 0, 0, 13, 0,
    0, 0, 0, 0, 0, 0, 0, 0, 0, 0, 0, 0, 0, 0, 0, 0, 0, 0, 0, 0, 0, 0, 0, 0, 0, 0, 0, 0, 0, 0, 0, 0,
    0, 0, 0, 0, 44, 0, 0, 0, 0, 0, 0, 0, 0, 0, 0, 0, 0, 0, 0, 0, 0, 0, 0, 0, 0, 0, 0, 0, 0, 0, 0,
    0, 0, 0, 0, 0, 0, 0, 0, 0, 0, 0, 0, 0, 0, 0, 0, 0, 0, 0, 20, 0, 0, 0, 0, 0, 0, 0, 0, 0, 0, 0,
    0, 0, 0, 0, 0, 12, 0, 0, 0, 0, 0, 0, 0, 0, 0, 0, 0, 0, 0, 0, 46, 0, 0, 0, 0, 0, 0, 0, 0, 0, 0,
    0, 37, 0, 0, 0, 0, 0, 8, 0, 0, 0, 0, 0, 16, 33, 0, 0, 0, 0, 0, 0, 0, 0, 0, 0, 0, 0, 0, 0, 0, 0,
    0, 0, 0, 0, 0, 39, 0, 0, 25, 0, 0, 0, 0, 0, 0, 0, 0, 0, 0, 0, 0, 0, 0, 0, 0, 0, 0, 0, 0, 0, 0,
    0, 0, 0, 0, 36, 0, 0, 0, 0, 0, 0, 0, 0, 0, 0, 0, 0, 0, 0, 0, 0, 0, 0, 0, 34, 0, 0, 0, 6, 0, 0,
    0, 0, 0, 2, 0, 18, 0, 0, 0, 0, 0, 0, 3, 0, 0, 0, 0, 0, 0, 0, 0, 0, 0, 41, 0, 0, 0, 0, 0, 0, 0,
    0, 0, 0, 0, 0, 0, 0, 0, 0, 0, 0, 0, 0, 0, 0, 0, 0, 0, 0, 0, 0, 0, 0, 0, 0, 0, 0, 0, 0, 0, 0, 0,
    0, 0, 0, 0, 0, 0, 0, 0, 0, 0, 0, 0, 0, 0, 0, 0, 0, 0, 0, 0, 0, 0, 0, 0, 0, 0, 0, 0, 0, 0, 0, 0,
    0, 0, 0, 1, 0, 0, 0, 0, 0, 0, 0, 0, 0, 0, 0, 0, 0, 0, 0, 0, 0, 0, 0, 0, 0, 0, 0, 0, 0, 0, 0, 0,
    0, 0, 0, 0, 0, 0, 5, 0, 0, 0, 0, 0, 0, 0, 0, 0, 0, 0, 0, 0, 0, 0, 0, 0, 0, 0, 0, 0, 0, 0, 0, 0,
    0, 0, 0, 0, 0, 0, 0, 0, 0, 0, 0, 0, 0, 0, 0, 0, 0, 0, 0, 0,
];

/// The operators on two vectors of integers.
pub static VEC_INTEGER_OPS: [Row<VecALUOp>; 27] = [
    (b"Sqadd", &[], VecALUOp::Sqadd),
    (b"Uqadd", &[], VecALUOp::Uqadd),
    (b"Sqsub", &[], VecALUOp::Sqsub),
    (b"Uqsub", &[], VecALUOp::Uqsub),
    (b"Cmeq", &[], VecALUOp::Cmeq),
    (b"Cmge", &[], VecALUOp::Cmge),
    (b"Cmgt", &[], VecALUOp::Cmgt),
    (b"Cmhs", &[], VecALUOp::Cmhs),
    (b"Cmhi", &[], VecALUOp::Cmhi),
    (b"And", &[], VecALUOp::And),
    (b"Bic", &[], VecALUOp::Bic),
    (b"Orr", &[], VecALUOp::Orr),
    (b"Orn", &[], VecALUOp::Orn),
    (b"Eor", &[], VecALUOp::Eor),
    (b"Umaxp", &[], VecALUOp::Umaxp),
    (b"Add", &[], VecALUOp::Add),
    (b"Sub", &[], VecALUOp::Sub),
    (b"Mul", &[], VecALUOp::Mul),
    (b"Sshl", &[], VecALUOp::Sshl),
    (b"Ushl", &[], VecALUOp::Ushl),
    (b"Umin", &[], VecALUOp::Umin),
    (b"Smin", &[], VecALUOp::Smin),
    (b"Umax", &[], VecALUOp::Umax),
    (b"Smax", &[], VecALUOp::Smax),
    (b"Urhadd", &[], VecALUOp::Urhadd),
    (b"Addp", &[], VecALUOp::Addp),
    (b"Sqrdmulh", &[], VecALUOp::Sqrdmulh),
];

/// The operators on two vectors of floats, and the permutations.
pub static VEC_FLOAT_OPS: [Row<VecALUOp>; 15] = [
    (b"Fcmeq", &[], VecALUOp::Fcmeq),
    (b"Fcmgt", &[], VecALUOp::Fcmgt),
    (b"Fcmge", &[], VecALUOp::Fcmge),
    (b"Fadd", &[], VecALUOp::Fadd),
    (b"Fsub", &[], VecALUOp::Fsub),
    (b"Fdiv", &[], VecALUOp::Fdiv),
    (b"Fmax", &[], VecALUOp::Fmax),
    (b"Fmin", &[], VecALUOp::Fmin),
    (b"Fmul", &[], VecALUOp::Fmul),
    (b"Zip1", &[], VecALUOp::Zip1),
    (b"Zip2", &[], VecALUOp::Zip2),
    (b"Uzp1", &[], VecALUOp::Uzp1),
    (b"Uzp2", &[], VecALUOp::Uzp2),
    (b"Trn1", &[], VecALUOp::Trn1),
    (b"Trn2", &[], VecALUOp::Trn2),
];

/// The rows of operators on integers.
fn integer_rows() -> &'static [Row<VecALUOp>]
    ensures { AreRows vec_alu_op_text (λ _. []) (map (λ row. row.2) VEC_INTEGER_OPS) result.now }
{
    &VEC_INTEGER_OPS
}

/// The rows of operators on floats, and of permutations.
fn float_rows() -> &'static [Row<VecALUOp>]
    ensures { AreRows vec_alu_op_text (λ _. []) (map (λ row. row.2) VEC_FLOAT_OPS) result.now }
{
    &VEC_FLOAT_OPS
}

impl Named for VecALUOp {
    ghost text = { vec_alu_op_text };

    ghost kinds_of = { λ _. [] };

    ghost homes = { VEC_ALU_OP_HOMES };

    ghost rows = { vec_alu_op_rows };

    fn home_table() -> &'static [u8] {
        &VEC_ALU_OP_HOMES
    }

    fn row_table(class: u8) -> &'static [Row<VecALUOp>] {
        if class == 0 {
            integer_rows()
        } else {
            float_rows()
        }
    }

    ghost found = { vec_alu_op_found };
}

/// For each remainder of a hash, the row of the name that has it.
pub static VEC_MISC2_HOMES: [u8; 2048] = [
    0, 0, 0, 0, 0, 0, 0, 0, 0, 0, 0, 0, 0, 0, 0, 0, 0, 0, 0, 0, 0, 0, 0, 15, 0, 0, 0, 0, 0, 0, 0,
    0, 0, 0, 0, 0, 0, 0, 0, 0, 0, 0, 0, 0, 0, 0, 0, 0, 0, 0, 0, 0, 0, 0, 0, 0, 0, 0, 0, 0, 0, 0, 0,
    0, 0, 0, 0, 0, 0, 0, 0, 0, 0, 0, 0, 0, 0, 0, 0, 0, 0, 0, 0, 0, 0, 0, 0, 0, 0, 0, 0, 0, 0, 0, 0,
    0, 0, 0, 0, 0, 0, 0, 0, 0, 0, 0, 0, 0, 0, 0, 0, 0, 0, 0, 0, 0, 0, 0, 0, 0, 0, 0, 0, 0, 0, 0, 0,
    0, 0, 0, 0, 0, 0, 0, 0, 0, 0, 0, 0, 0, 0, 0, 0, 0, 0, 0, 0, 0, 0, 0, 0, 0, 0, 0, 0, 0, 0, 0, 0,
    0, 0, 0, 0, 0, 0, 0, 0, 19, 0, 0, 0, 0, 0, 0, 0, 0, 0, 0, 0, 0, 0, 0, 0, 0, 0, 0, 0, 0, 0, 0,
    0, 0, 0, 0, 0, 0, 0, 0, 0, 0, 0, 0, 0, 0, 0, 0, 0, 0, 0, 0, 0, 0, 0, 0, 0, 0, 0, 0, 0, 0, 0, 0,
    0, 13, 0, 0, 0, 0, 0, 0, 0, 0, 0, 0, 0, 0, 0, 0, 0, 0, 0, 0, 0, 0, 0, 0, 0, 0, 0, 0, 0, 0, 0,
    0, 0, 0, 0, 0, 0, 0, 0, 0, 0, 0, 0, 0, 0, 22, 0, 0, 0, 0, 0, 0, 0, 0, 0, 0, 0, 0, 0, 0, 0, 0,
    0, 0, 0, 0, 0, 0, 0, 0, 0, 0, 0, 0, 0, 0, 0, 0, 0, 0, 0, 0, 0, 0, 0, 0, 0, 0, 0, 0, 0, 0, 0, 0,
    0, 0, 0, 0, 0, 0, 0, 0, 0, 0, 0, 0, 0, 0, 0, 0, 0, 5, 0, 0, 0, 0, 0, 0, 0, 0, 0, 0, 0, 0, 0, 0,
    0, 0, 17, 0, 0, 0, 0, 0, 0, 0, 0, 0, 0, 0, 0, 0, 0, 0, 0, 0, 0, 0, 0, 0, 0, 0, 0, 0, 0, 0, 0,
    0, 0, 0, 0, 0, 0, 0, 0, 0, 0, 0, 0, 0, 0, 0, 0, 0, 0, 0, 0, 0, 0, 0, 0, 0, 0, 0, 0, 0, 0, 0, 0,
    0, 0, 0, 0, 0, 0, 0, 0, 0, 0, 0, 0, 0, 0, 0, 0, 0, 0, 0, 0, 0, 0, 0, 0, 0, 0, 0, 0, 0, 0, 0, 0,
    0, 0, 0, 0, 0, 0, 0, 0, 0, 0, 0, 0, 0, 0, 0, 0, 0, 0, 0, 0, 0, 0, 0, 0, 0, 0, 0, 0, 0, 0, 0, 0,
    0, 0, 0, 0, 0, 0, 0, 0, 0, 0, 0, 0, 0, 0, 0, 0, 0, 0, 0, 0, 0, 0, 0, 0, 0, 0, 0, 0, 0, 0, 0, 0,
    0, 0, 0, 0, 0, 0, 0, 0, 0, 0, 0, 0, 0, 0, 0, 0, 0, 0, 0, 0, 0, 0, 0, 0, 0, 0, 0, 0, 0, 11, 18,
    0, 0, 0, 0, 0, 0, 0, 0, 0, 0, 0, 0, 0, 0, 0, 0, 0, 0, 0, 0, 0, 0, 0, 0, 0, 0, 25, 0, 0, 0, 0,
    0, 0, 0, 0, 0, 0, 14, 0, 0, 0, 0, 0, 0, 0, 27, 0, 0, 0, 0, 0, 0, 0, 0, 0, 0, 0, 0, 0, 0, 0, 0,
    0, 0, 0, 0, 0, 0, 0, 0, 0, 0, 0, 0, 0, 0, 0, 0, 0, 0, 0, 0, 0, 0, 0, 16, 0, 0, 0, 0, 0, 0, 0,
    0, 0, 0, 0, 0, 0, 0, 0, 0, 0, 0, 0, 0, 0, 0, 0, 0, 0, 0, 0, 0, 0, 0, 0, 0, 0, 0, 0, 0, 3, 0, 0,
    0, 0, 0, 0, 0, 0, 0, 0, 0, 0, 0, 0, 0, 0, 0, 0, 0, 0, 0, 0, 0, 0, 0, 0, 0, 0, 0, 0, 0, 0, 0, 0,
    0, 0, 0, 0, 0, 0, 0, 0, 0, 0, 0, 0, 0, 0, 0, 0, 0, 0, 0, 0, 0, 0, 0, 0, 0, 0, 0, 0, 0, 0, 0, 0,
    0, 0, 0, 0, 0, 0, 0, 0, 0, 0, 0, 0, 0, 0, 0, 0, 0, 0, 0, 0, 0, 0, 0, 0, 0, 0, 24, 0, 0, 0, 0,
    0, 0, 0, 0, 0, 0, 0, 0, 0, 0, 0, 0, 0, 26, 0, 0, 0, 0, 0, 0, 0, 0, 0, 0, 0, 0, 0, 0, 0, 0, 0,
    0, 0, 0, 0, 0, 0, 0, 0, 0, 0, 0, 0, 0, 0, 0, 0, 0, 0, 0, 0, 0, 0, 0, 0, 0, 0, 0, 0, 0, 0, 0, 0,
    0, 0, 0, 0, 0, 0, 0, 0, 0, 0, 0, 7, 0, 0, 0, 9, 0, 0, 0, 0, 0, 0, 0, 0, 0, 0, 0, 0, 0, 0, 20,
    0, 0, 0, 0, 0, 0, 0, 0, 0, 0, 0, 0, 0, 0, 0, 0, 0, 0, 0, 0, 0, 0, 0, 0, 0, 0, 0, 0, 0, 0, 0, 0,
    0, 0, 0, 0, 0, 0, 0, 0, 0, 0, 0, 0, 0, 0, 0, 0, 0, 0, 0, 0, 0, 0, 0, 0, 0, 0, 0, 0, 0, 0, 0, 0,
    0, 0, 0, 0, 0, 0, 0, 0, 0, 0, 0, 0, 0, 0, 0, 0, 0, 0, 0, 0, 0, 0, 0, 0, 0, 0, 0, 0, 0, 0, 0, 0,
    0, 0, 0, 0, 0, 0, 0, 0, 0, 0, 0, 0, 0, 0, 0, 0, 0, 0, 0, 0, 0, 0, 0, 0, 0, 0, 0, 0, 0, 0, 0, 0,
    0, 0, 0, 0, 0, 0, 0, 0, 0, 0, 0, 0, 0, 0, 0, 0, 0, 0, 0, 0, 0, 0, 0, 0, 0, 0, 0, 0, 0, 0, 0, 0,
    0, 0, 0, 0, 0, 0, 0, 0, 0, 0, 0, 0, 0, 0, 0, 0, 0, 0, 0, 0, 0, 0, 0, 0, 0, 0, 0, 0, 0, 0, 0, 0,
    0, 0, 0, 0, 0, 0, 0, 0, 0, 0, 0, 0, 0, 0, 0, 0, 0, 0, 0, 0, 0, 0, 0, 0, 0, 0, 0, 0, 0, 0, 0, 0,
    0, 0, 0, 0, 0, 0, 0, 0, 0, 0, 0, 0, 0, 0, 0, 0, 0, 0, 0, 0, 0, 0, 0, 0, 0, 0, 0, 0, 0, 0, 0, 0,
    0, 0, 0, 0, 0, 0, 0, 0, 0, 0, 0, 0, 0, 0, 0, 0, 0, 0, 0, 0, 0, 0, 0, 0, 0, 0, 0, 0, 0, 0, 0, 0,
    0, 0, 0, 0, 0, 0, 0, 0, 0, 0, 0, 0, 0, 0, 0, 0, 0, 0, 0, 0, 0, 0, 0, 0, 0, 0, 0, 0, 0, 0, 0, 0,
    0, 0, 0, 0, 0, 0, 0, 0, 0, 0, 0, 0, 0, 0, 0, 0, 0, 0, 0, 0, 0, 0, 0, 0, 0, 0, 0, 0, 0, 0, 0, 0,
    0, 0, 0, 0, 0, 0, 0, 0, 0, 0, 0, 0, 0, 0, 0, 0, 0, 0, 0, 0, 0, 0, 0, 0, 0, 0, 0, 0, 0, 0, 0, 0,
    10, 0, 0, 0, 0, 0, 0, 0, 0, 0, 0, 0, 0, 0, 0, 0, 0, 0, 0, 0, 0, 0, 0, 0, 0, 0, 0, 0, 0, 0, 0,
    0, 0, 0, 0, 0, 0, 0, 0, 0, 0, 0, 0, 0, 0, 0, 0, 0, 0, 0, 0, 0, 0, 0, 0, 0, 0, 0, 0, 0, 0, 0, 0,
    0, 0, 0, 0, 0, 0, 0, 0, 0, 0, 0, 0, 0, 0, 0, 0, 0, 0, 0, 0, 0, 0, 0, 0, 0, 0, 0, 0, 0, 0, 0, 0,
    0, 0, 0, 0, 0, 0, 0, 0, 0, 0, 0, 0, 0, 0, 0, 0, 0, 0, 0, 0, 0, 0, 0, 0, 0, 0, 1, 0, 0, 0, 0, 0,
    0, 0, 0, 0, 0, 0, 0, 0, 0, 0, 0, 0, 0, 0, 0, 0, 0, 0, 0, 0, 0, 0, 0, 0, 0, 0, 0, 0, 0, 0, 0, 0,
    0, 0, 0, 0, 0, 0, 0, 0, 0, 0, 0, 0, 0, 0, 0, 0, 0, 0, 0, 0, 0, 0, 0, 0, 0, 0, 0, 0, 0, 0, 0, 0,
    0, 0, 0, 0, 0, 0, 0, 0, 0, 0, 0, 0, 0, 0, 0, 0, 0, 0, 0, 0, 0, 0, 0, 0, 0, 0, 0, 0, 0, 0, 0, 0,
    0, 0, 0, 0, 0, 0, 0, 0, 0, 0, 0, 0, 0, 0, 0, 0, 0, 0, 0, 0, 0, 0, 0, 0, 0, 0, 0, 0, 0, 0, 0, 0,
    0, 0, 0, 0, 0, 0, 0, 0, 0, 0, 0, 0, 0, 0, 0, 0, 0, 0, 0, 0, 0, 0, 0, 0, 0, 0, 0, 0, 0, 0, 0, 0,
    0, 0, 0, 0, 0, 0, 0, 0, 0, 0, 0, 0, 0, 0, 0, 0, 0, 0, 0, 0, 0, 0, 0, 0, 0, 0, 0, 0, 0, 0, 0, 0,
    0, 0, 0, 0, 0, 0, 0, 0, 0, 0, 0, 0, 0, 0, 12, 0, 0, 0, 0, 0, 0, 0, 0, 0, 0, 0, 0, 0, 0, 0, 0,
    0, 0, 0, 0, 0, 0, 0, 0, 0, 0, 0, 0, 0, 0, 0, 0, 0, 0, 0, 0, 0, 0, 0, 0, 0, 0, 0, 0, 0, 0, 0, 0,
    0, 0, 0, 2, 0, 0, 0, 0, 0, 0, 0, 0, 0, 0, 21, 0, 0, 0, 0, 0, 0, 0, 0, 0, 0, 0, 0, 0, 0, 0, 0,
    0, 0, 0, 0, 0, 0, 0, 0, 0, 0, 0, 0, 0, 0, 0, 0, 0, 0, 0, 0, 0, 0, 0, 0, 0, 0, 0, 0, 0, 0, 0, 0,
    0, 0, 0, 0, 0, 0, 0, 0, 0, 0, 0, 0, 0, 0, 0, 0, 0, 0, 0, 0, 0, 0, 0, 0, 0, 0, 0, 0, 0, 0, 0, 0,
    0, 0, 0, 0, 0, 0, 0, 0, 0, 0, 0, 0, 0, 0, 0, 0, 0, 0, 0, 0, 0, 0, 0, 0, 0, 0, 0, 0, 0, 0, 0, 0,
    0, 0, 0, 0, 0, 0, 0, 0, 0, 0, 0, 0, 0, 0, 0, 0, 0, 0, 0, 0, 0, 0, 0, 0, 0, 0, 0, 0, 0, 0, 0, 0,
    0, 8, 0, 0, 0, 0, 0, 0, 0, 0, 0, 0, 0, 0, 0, 0, 0, 0, 0, 0, 0, 0, 0, 0, 0, 0, 0, 0, 0, 0, 0, 0,
    0, 0, 0, 0, 0, 0, 0, 0, 0, 0, 0, 0, 0, 0, 23, 0, 0, 0, 0, 0, 0, 0, 0, 0, 0, 0, 0, 0, 0, 0, 0,
    0, 0, 0, 0, 0, 0, 0, 0, 0, 0, 0, 0, 0, 0, 0, 0, 0, 0, 0, 0, 0, 0, 0, 0, 0, 0, 0, 0, 0, 0, 0, 0,
    0, 0, 0, 0, 0, 0, 0, 0, 0, 0, 0, 0, 0, 0, 0, 0, 0, 0, 0, 0, 0, 0, 0, 0, 0, 0, 0, 0, 0, 0, 0, 0,
    0, 0, 0, 0, 0, 0, 0, 0, 0, 0, 0, 0, 0, 0, 0, 0, 0, 0, 0, 0, 0, 0, 0, 0, 0, 0, 0, 0, 0, 0, 0, 0,
    0, 0, 0, 0, 0, 0, 0, 0, 0, 0, 0, 0, 0, 0, 6, 0, 0, 0, 0, 0, 0, 0, 0, 0, 0, 0, 0, 0, 0, 0, 0, 0,
    0, 0, 0, 0, 0, 0, 0, 0, 0, 0, 0, 0, 0, 0, 0, 0, 0, 0, 0, 0, 0, 0, 0, 0, 0, 0, 0, 0, 0, 0, 0, 0,
    0, 0, 0, 4, 0, 0, 0, 0, 0, 0, 0, 0, 0, 0, 0, 0, 0, 0, 0, 0, 0, 0, 0, 0, 0, 0, 0, 0, 0, 0, 0, 0,
    0, 0, 0, 0, 0, 0, 0, 0, 0, 0, 0, 0, 0, 0, 0, 0,
];

/// The operators on one vector.
pub static VEC_MISC2S: [Row<VecMisc2>; 28] = [
    (b"Not", &[], VecMisc2::Not),
    (b"Neg", &[], VecMisc2::Neg),
    (b"Abs", &[], VecMisc2::Abs),
    (b"Fabs", &[], VecMisc2::Fabs),
    (b"Fneg", &[], VecMisc2::Fneg),
    (b"Fsqrt", &[], VecMisc2::Fsqrt),
    (b"Rev16", &[], VecMisc2::Rev16),
    (b"Rev32", &[], VecMisc2::Rev32),
    (b"Rev64", &[], VecMisc2::Rev64),
    (b"Fcvtzs", &[], VecMisc2::Fcvtzs),
    (b"Fcvtzu", &[], VecMisc2::Fcvtzu),
    (b"Scvtf", &[], VecMisc2::Scvtf),
    (b"Ucvtf", &[], VecMisc2::Ucvtf),
    (b"Frintn", &[], VecMisc2::Frintn),
    (b"Frintz", &[], VecMisc2::Frintz),
    (b"Frintm", &[], VecMisc2::Frintm),
    (b"Frintp", &[], VecMisc2::Frintp),
    (b"Cnt", &[], VecMisc2::Cnt),
    (b"Cmeq0", &[], VecMisc2::Cmeq0),
    (b"Cmge0", &[], VecMisc2::Cmge0),
    (b"Cmgt0", &[], VecMisc2::Cmgt0),
    (b"Cmle0", &[], VecMisc2::Cmle0),
    (b"Cmlt0", &[], VecMisc2::Cmlt0),
    (b"Fcmeq0", &[], VecMisc2::Fcmeq0),
    (b"Fcmge0", &[], VecMisc2::Fcmge0),
    (b"Fcmgt0", &[], VecMisc2::Fcmgt0),
    (b"Fcmle0", &[], VecMisc2::Fcmle0),
    (b"Fcmlt0", &[], VecMisc2::Fcmlt0),
];

impl Named for VecMisc2 {
    ghost text = { vec_misc2_text };

    ghost kinds_of = { λ _. [] };

    ghost homes = { VEC_MISC2_HOMES };

    ghost rows = { λ _. map (λ row. row.2) VEC_MISC2S };

    fn home_table() -> &'static [u8] {
        &VEC_MISC2_HOMES
    }

    fn row_table(_class: u8) -> &'static [Row<VecMisc2>] {
        &VEC_MISC2S
    }

    ghost found = { vec_misc2_found };
}

/// The operator on two vectors and the register of its result that the token names.
#[tactic(auto, using(std::proofs::lemmas::Slice::Eq::text_from_reads))]
pub fn read_vec_alu_mod_op(token: &[u8]) -> Option<VecALUModOp>
    ensures { Reads Always vec_alu_mod_op_text token.now result }
{
    match token {
        b"Bsl" => Some(VecALUModOp::Bsl),
        b"Fmla" => Some(VecALUModOp::Fmla),
        b"Fmls" => Some(VecALUModOp::Fmls),
        b"Sdot" => Some(VecALUModOp::Sdot),
        b"Usdot" => Some(VecALUModOp::Usdot),
        _ => None,
    }
}

/// The operator over lanes that the token names.
#[tactic(auto, using(std::proofs::lemmas::Slice::Eq::text_from_reads))]
pub fn read_vec_lanes_op(token: &[u8]) -> Option<VecLanesOp>
    ensures { Reads Always vec_lanes_op_text token.now result }
{
    match token {
        b"Addv" => Some(VecLanesOp::Addv),
        b"Uminv" => Some(VecLanesOp::Uminv),
        _ => None,
    }
}

/// The extension of lanes that the token names.
#[tactic(auto, using(std::proofs::lemmas::Slice::Eq::text_from_reads))]
pub fn read_vec_extend_op(token: &[u8]) -> Option<VecExtendOp>
    ensures { Reads Always vec_extend_op_text token.now result }
{
    match token {
        b"Sxtl" => Some(VecExtendOp::Sxtl),
        b"Uxtl" => Some(VecExtendOp::Uxtl),
        _ => None,
    }
}

/// The operator whose lanes become twice as long that the token names.
#[tactic(auto, using(std::proofs::lemmas::Slice::Eq::text_from_reads))]
pub fn read_vec_rr_long_op(token: &[u8]) -> Option<VecRRLongOp>
    ensures { Reads Always vec_rr_long_op_text token.now result }
{
    match token {
        b"Fcvtl16" => Some(VecRRLongOp::Fcvtl16),
        b"Fcvtl32" => Some(VecRRLongOp::Fcvtl32),
        b"Shll8" => Some(VecRRLongOp::Shll8),
        b"Shll16" => Some(VecRRLongOp::Shll16),
        b"Shll32" => Some(VecRRLongOp::Shll32),
        _ => None,
    }
}

/// The operator whose lanes become half as long that the token names.
#[tactic(auto, using(std::proofs::lemmas::Slice::Eq::text_from_reads))]
pub fn read_vec_rr_narrow_op(token: &[u8]) -> Option<VecRRNarrowOp>
    ensures { Reads Always vec_rr_narrow_op_text token.now result }
{
    match token {
        b"Xtn" => Some(VecRRNarrowOp::Xtn),
        b"Sqxtn" => Some(VecRRNarrowOp::Sqxtn),
        b"Sqxtun" => Some(VecRRNarrowOp::Sqxtun),
        b"Uqxtn" => Some(VecRRNarrowOp::Uqxtn),
        b"Fcvtn" => Some(VecRRNarrowOp::Fcvtn),
        _ => None,
    }
}

/// The operator on two lanes that the token names.
#[tactic(auto, using(std::proofs::lemmas::Slice::Eq::text_from_reads))]
pub fn read_vec_pair_op(token: &[u8]) -> Option<VecPairOp>
    ensures { Reads Always vec_pair_op_text token.now result }
{
    match token {
        b"Addp" => Some(VecPairOp::Addp),
        _ => None,
    }
}

/// The operator on each two lanes that the token names.
#[tactic(auto, using(std::proofs::lemmas::Slice::Eq::text_from_reads))]
pub fn read_vec_rr_pair_long_op(token: &[u8]) -> Option<VecRRPairLongOp>
    ensures { Reads Always vec_rr_pair_long_op_text token.now result }
{
    match token {
        b"Saddlp8" => Some(VecRRPairLongOp::Saddlp8),
        b"Saddlp16" => Some(VecRRPairLongOp::Saddlp16),
        b"Uaddlp8" => Some(VecRRPairLongOp::Uaddlp8),
        b"Uaddlp16" => Some(VecRRPairLongOp::Uaddlp16),
        _ => None,
    }
}

/// The operator on two vectors whose lanes become twice as long that the token names.
#[tactic(auto, using(std::proofs::lemmas::Slice::Eq::text_from_reads))]
pub fn read_vec_rrr_long_op(token: &[u8]) -> Option<VecRRRLongOp>
    ensures { Reads Always vec_rrr_long_op_text token.now result }
{
    match token {
        b"Smull8" => Some(VecRRRLongOp::Smull8),
        b"Smull16" => Some(VecRRRLongOp::Smull16),
        b"Smull32" => Some(VecRRRLongOp::Smull32),
        b"Umull8" => Some(VecRRRLongOp::Umull8),
        b"Umull16" => Some(VecRRRLongOp::Umull16),
        b"Umull32" => Some(VecRRRLongOp::Umull32),
        _ => None,
    }
}

/// The operator that adds to lanes twice as long that the token names.
#[tactic(auto, using(std::proofs::lemmas::Slice::Eq::text_from_reads))]
pub fn read_vec_rrr_long_mod_op(token: &[u8]) -> Option<VecRRRLongModOp>
    ensures { Reads Always vec_rrr_long_mod_op_text token.now result }
{
    match token {
        b"Umlal8" => Some(VecRRRLongModOp::Umlal8),
        b"Umlal16" => Some(VecRRRLongModOp::Umlal16),
        b"Umlal32" => Some(VecRRRLongModOp::Umlal32),
        _ => None,
    }
}

/// The shift of lanes that the token names.
#[tactic(auto, using(std::proofs::lemmas::Slice::Eq::text_from_reads))]
pub fn read_vec_shift_imm_op(token: &[u8]) -> Option<VecShiftImmOp>
    ensures { Reads Always vec_shift_imm_op_text token.now result }
{
    match token {
        b"Shl" => Some(VecShiftImmOp::Shl),
        b"Ushr" => Some(VecShiftImmOp::Ushr),
        b"Sshr" => Some(VecShiftImmOp::Sshr),
        _ => None,
    }
}

/// The shift of lanes that keeps bits of its result that the token names.
#[tactic(auto, using(std::proofs::lemmas::Slice::Eq::text_from_reads))]
pub fn read_vec_shift_imm_mod_op(token: &[u8]) -> Option<VecShiftImmModOp>
    ensures { Reads Always vec_shift_imm_mod_op_text token.now result }
{
    match token {
        b"Sli" => Some(VecShiftImmModOp::Sli),
        _ => None,
    }
}
