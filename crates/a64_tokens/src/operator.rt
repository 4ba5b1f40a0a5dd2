//! The names of operators.

ghost use Rattle.std.specs.Prelude.{List, [], map};
ghost use Rattle.a64_tokens.specs.declared.operator.TheConstants.{ALU_OP_HOMES, ALU_OPS, ALU_OP3_HOMES, ALU_OP3S, ATOMIC_RMW_LOOP_OP_HOMES, ATOMIC_RMW_LOOP_OPS, BIT_OP_HOMES, BIT_OPS};
ghost use Rattle.a64_tokens.specs.Operators.{alu_op_text, alu_op3_text, atomic_rmw_loop_op_text, atomic_rmw_op_text, bit_op_text, bfm_op_text, branch_target_type_text, move_wide_op_text};
ghost use Rattle.a64_tokens.specs.Reads.{Reads, Always};
ghost use Rattle.a64_tokens.specs.Found.{alu_op_found, alu_op3_found, atomic_rmw_loop_op_found, bit_op_found};

use crate::named::{Named, Row};
use a64_ops::{
    ALUOp, ALUOp3, AtomicRMWLoopOp, AtomicRMWOp, BfmOp, BitOp, BranchTargetType, MoveWideOp,
};

/// For each remainder of a hash, the row of the name that has it.
pub static ALU_OP_HOMES: [u8; 128] = [
    21, 3, 0, 0, 5, 0, 0, 0, 0, 22, 0, 0, 0, 0, 0, 0, 0, 0, 0, 0, 20, 0, 0, 0, 0, 0, 0, 0, 0, 0, 7,
    0, 0, 16, 0, 0, 0, 0, 0, 0, 0, 0, 13, 0, 0, 17, 0, 2, 0, 0, 0, 8, 0, 14, 0, 0, 0, 0, 0, 0, 0,
    12, 0, 0, 0, 15, 0, 0, 0, 0, 0, 0, 0, 0, 10, 0, 0, 0, 0, 0, 0, 0, 9, 0, 0, 0, 0, 19, 11, 4, 0,
    0, 0, 0, 0, 0, 0, 0, 0, 0, 0, 0, 0, 0, 0, 0, 0, 0, 0, 0, 0, 0, 0, 6, 0, 18, 0, 0, 0, 0, 0, 0,
    0, 0, 0, 1, 0, 0,
];

/// The integer operators.
pub static ALU_OPS: [Row<ALUOp>; 23] = [
    (b"Add", &[], ALUOp::Add),
    (b"Sub", &[], ALUOp::Sub),
    (b"AddS", &[], ALUOp::AddS),
    (b"SubS", &[], ALUOp::SubS),
    (b"And", &[], ALUOp::And),
    (b"Orr", &[], ALUOp::Orr),
    (b"Eor", &[], ALUOp::Eor),
    (b"AndS", &[], ALUOp::AndS),
    (b"AndNot", &[], ALUOp::AndNot),
    (b"OrrNot", &[], ALUOp::OrrNot),
    (b"EorNot", &[], ALUOp::EorNot),
    (b"Adc", &[], ALUOp::Adc),
    (b"Sbc", &[], ALUOp::Sbc),
    (b"AdcS", &[], ALUOp::AdcS),
    (b"SbcS", &[], ALUOp::SbcS),
    (b"UDiv", &[], ALUOp::UDiv),
    (b"SDiv", &[], ALUOp::SDiv),
    (b"Lsl", &[], ALUOp::Lsl),
    (b"Lsr", &[], ALUOp::Lsr),
    (b"Asr", &[], ALUOp::Asr),
    (b"Extr", &[], ALUOp::Extr),
    (b"SMulH", &[], ALUOp::SMulH),
    (b"UMulH", &[], ALUOp::UMulH),
];

impl Named for ALUOp {
    ghost text = { alu_op_text };

    ghost kinds_of = { λ _. [] };

    ghost homes = { ALU_OP_HOMES };

    ghost rows = { λ _. map (λ row. row.2) ALU_OPS };

    fn home_table() -> &'static [u8] {
        &ALU_OP_HOMES
    }

    fn row_table(_class: u8) -> &'static [Row<ALUOp>] {
        &ALU_OPS
    }

    ghost found = { alu_op_found };
}

/// For each remainder of a hash, the row of the name that has it.
pub static ALU_OP3_HOMES: [u8; 8] = [3, 0, 1, 2, 0, 0, 0, 0];

/// The integer operators with three operands.
pub static ALU_OP3S: [Row<ALUOp3>; 4] = [
    (b"MAdd", &[], ALUOp3::MAdd),
    (b"MSub", &[], ALUOp3::MSub),
    (b"UMAddL", &[], ALUOp3::UMAddL),
    (b"SMAddL", &[], ALUOp3::SMAddL),
];

impl Named for ALUOp3 {
    ghost text = { alu_op3_text };

    ghost kinds_of = { λ _. [] };

    ghost homes = { ALU_OP3_HOMES };

    ghost rows = { λ _. map (λ row. row.2) ALU_OP3S };

    fn home_table() -> &'static [u8] {
        &ALU_OP3_HOMES
    }

    fn row_table(_class: u8) -> &'static [Row<ALUOp3>] {
        &ALU_OP3S
    }

    ghost found = { alu_op3_found };
}

/// For each remainder of a hash, the row of the name that has it.
pub static ATOMIC_RMW_LOOP_OP_HOMES: [u8; 256] = [
    0, 0, 0, 0, 5, 0, 0, 0, 0, 10, 0, 0, 0, 0, 0, 0, 0, 0, 0, 0, 0, 0, 0, 0, 0, 0, 0, 0, 0, 0, 0,
    0, 0, 0, 0, 0, 7, 0, 0, 0, 0, 0, 0, 0, 0, 0, 0, 0, 0, 0, 0, 0, 0, 0, 0, 0, 0, 0, 0, 0, 0, 0, 0,
    0, 0, 0, 0, 0, 0, 0, 0, 0, 0, 0, 0, 0, 6, 0, 0, 0, 0, 0, 0, 0, 0, 0, 0, 0, 0, 2, 0, 0, 0, 0, 0,
    0, 0, 0, 0, 0, 0, 0, 0, 0, 0, 0, 0, 0, 0, 0, 0, 0, 0, 4, 0, 0, 0, 0, 0, 0, 0, 0, 0, 0, 0, 0, 0,
    0, 0, 0, 0, 0, 0, 0, 0, 0, 0, 0, 0, 0, 0, 0, 0, 0, 0, 0, 0, 0, 0, 0, 0, 0, 0, 0, 0, 0, 0, 0, 0,
    0, 0, 0, 0, 0, 0, 0, 0, 0, 0, 0, 0, 0, 0, 0, 0, 0, 0, 0, 0, 0, 0, 0, 0, 0, 0, 0, 0, 0, 0, 0, 0,
    0, 0, 0, 0, 0, 0, 9, 0, 0, 0, 0, 0, 0, 0, 0, 0, 0, 0, 0, 0, 0, 0, 0, 0, 0, 0, 3, 0, 0, 0, 0, 0,
    0, 0, 0, 0, 0, 0, 0, 0, 0, 0, 0, 0, 0, 8, 0, 0, 0, 0, 0, 0, 0, 0, 0, 0, 0, 0, 0, 0, 0, 0, 1, 0,
    0,
];

/// The atomic operations that are loops.
pub static ATOMIC_RMW_LOOP_OPS: [Row<AtomicRMWLoopOp>; 11] = [
    (b"Add", &[], AtomicRMWLoopOp::Add),
    (b"Sub", &[], AtomicRMWLoopOp::Sub),
    (b"And", &[], AtomicRMWLoopOp::And),
    (b"Nand", &[], AtomicRMWLoopOp::Nand),
    (b"Eor", &[], AtomicRMWLoopOp::Eor),
    (b"Orr", &[], AtomicRMWLoopOp::Orr),
    (b"Smax", &[], AtomicRMWLoopOp::Smax),
    (b"Smin", &[], AtomicRMWLoopOp::Smin),
    (b"Umax", &[], AtomicRMWLoopOp::Umax),
    (b"Umin", &[], AtomicRMWLoopOp::Umin),
    (b"Xchg", &[], AtomicRMWLoopOp::Xchg),
];

impl Named for AtomicRMWLoopOp {
    ghost text = { atomic_rmw_loop_op_text };

    ghost kinds_of = { λ _. [] };

    ghost homes = { ATOMIC_RMW_LOOP_OP_HOMES };

    ghost rows = { λ _. map (λ row. row.2) ATOMIC_RMW_LOOP_OPS };

    fn home_table() -> &'static [u8] {
        &ATOMIC_RMW_LOOP_OP_HOMES
    }

    fn row_table(_class: u8) -> &'static [Row<AtomicRMWLoopOp>] {
        &ATOMIC_RMW_LOOP_OPS
    }

    ghost found = { atomic_rmw_loop_op_found };
}

/// For each remainder of a hash, the row of the name that has it.
pub static BIT_OP_HOMES: [u8; 16] = [4, 0, 5, 0, 0, 2, 1, 0, 0, 0, 0, 0, 0, 0, 3, 0];

/// The operations on bits.
pub static BIT_OPS: [Row<BitOp>; 6] = [
    (b"RBit", &[], BitOp::RBit),
    (b"Clz", &[], BitOp::Clz),
    (b"Cls", &[], BitOp::Cls),
    (b"Rev16", &[], BitOp::Rev16),
    (b"Rev32", &[], BitOp::Rev32),
    (b"Rev64", &[], BitOp::Rev64),
];

impl Named for BitOp {
    ghost text = { bit_op_text };

    ghost kinds_of = { λ _. [] };

    ghost homes = { BIT_OP_HOMES };

    ghost rows = { λ _. map (λ row. row.2) BIT_OPS };

    fn home_table() -> &'static [u8] {
        &BIT_OP_HOMES
    }

    fn row_table(_class: u8) -> &'static [Row<BitOp>] {
        &BIT_OPS
    }

    ghost found = { bit_op_found };
}

/// The move of a bitfield that the token names.
#[tactic(auto, using(std::proofs::lemmas::Slice::Eq::text_from_reads))]
pub fn read_bfm_op(token: &[u8]) -> Option<BfmOp>
    ensures { Reads Always bfm_op_text token.now result }
{
    match token {
        b"UBfm" => Some(BfmOp::UBfm),
        b"SBfm" => Some(BfmOp::SBfm),
        _ => None,
    }
}

/// The wide move that the token names.
#[tactic(auto, using(std::proofs::lemmas::Slice::Eq::text_from_reads))]
pub fn read_move_wide_op(token: &[u8]) -> Option<MoveWideOp>
    ensures { Reads Always move_wide_op_text token.now result }
{
    match token {
        b"MovZ" => Some(MoveWideOp::MovZ),
        b"MovN" => Some(MoveWideOp::MovN),
        _ => None,
    }
}

/// The branches that may go to a place, which the token names.
#[tactic(auto, using(std::proofs::lemmas::Slice::Eq::text_from_reads))]
pub fn read_branch_target_type(token: &[u8]) -> Option<BranchTargetType>
    ensures { Reads Always branch_target_type_text token.now result }
{
    match token {
        b"None" => Some(BranchTargetType::None),
        b"C" => Some(BranchTargetType::C),
        b"J" => Some(BranchTargetType::J),
        b"JC" => Some(BranchTargetType::JC),
        _ => None,
    }
}

/// The atomic operation that the token names.
#[tactic(auto, using(std::proofs::lemmas::Slice::Eq::text_from_reads))]
pub fn read_atomic_rmw_op(token: &[u8]) -> Option<AtomicRMWOp>
    ensures { Reads Always atomic_rmw_op_text token.now result }
{
    match token {
        b"Add" => Some(AtomicRMWOp::Add),
        b"Clr" => Some(AtomicRMWOp::Clr),
        b"Eor" => Some(AtomicRMWOp::Eor),
        b"Set" => Some(AtomicRMWOp::Set),
        b"Smax" => Some(AtomicRMWOp::Smax),
        b"Smin" => Some(AtomicRMWOp::Smin),
        b"Umax" => Some(AtomicRMWOp::Umax),
        b"Umin" => Some(AtomicRMWOp::Umin),
        b"Swp" => Some(AtomicRMWOp::Swp),
        _ => None,
    }
}
