//! The names of shifts, extensions, conditions and truth values.

ghost use Rattle.std.specs.Prelude.{List, [], map};
ghost use Rattle.a64_tokens.specs.declared.modifier.TheConstants.{SHIFT_OP_HOMES, SHIFT_OPS, EXTEND_HOMES, EXTENDS, COND_HOMES, CONDS};
ghost use Rattle.a64_tokens.specs.Operators.{shift_op_text, extend_text, cond_text, bool_text};
ghost use Rattle.a64_tokens.specs.Reads.{Reads, Always};
ghost use Rattle.a64_tokens.specs.Found.{shift_op_found, extend_found, cond_found};

use crate::named::{Named, Row};
use a64_base::{Cond, ExtendOp, ShiftOp};

/// For each remainder of a hash, the row of the name that has it.
pub static SHIFT_OP_HOMES: [u8; 8] = [0, 1, 0, 0, 0, 2, 3, 0];

/// The shifts.
pub static SHIFT_OPS: [Row<ShiftOp>; 4] = [
    (b"LSL", &[], ShiftOp::LSL),
    (b"LSR", &[], ShiftOp::LSR),
    (b"ASR", &[], ShiftOp::ASR),
    (b"ROR", &[], ShiftOp::ROR),
];

impl Named for ShiftOp {
    ghost text = { shift_op_text };

    ghost kinds_of = { λ _. [] };

    ghost homes = { SHIFT_OP_HOMES };

    ghost rows = { λ _. map (λ row. row.2) SHIFT_OPS };

    fn home_table() -> &'static [u8] {
        &SHIFT_OP_HOMES
    }

    fn row_table(_class: u8) -> &'static [Row<ShiftOp>] {
        &SHIFT_OPS
    }

    ghost found = { shift_op_found };
}

/// For each remainder of a hash, the row of the name that has it.
pub static EXTEND_HOMES: [u8; 256] = [
    0, 0, 0, 0, 0, 0, 0, 0, 0, 0, 0, 0, 0, 0, 0, 0, 0, 0, 0, 0, 0, 0, 0, 0, 0, 0, 0, 6, 0, 0, 0, 0,
    0, 0, 0, 7, 0, 0, 0, 0, 0, 0, 0, 0, 0, 0, 0, 0, 0, 0, 0, 0, 0, 0, 0, 0, 0, 0, 0, 0, 0, 0, 0, 0,
    0, 0, 0, 0, 1, 0, 0, 0, 0, 0, 0, 0, 0, 0, 0, 0, 0, 0, 0, 0, 0, 0, 0, 0, 0, 0, 0, 0, 0, 0, 0, 0,
    0, 0, 0, 0, 0, 0, 0, 0, 0, 0, 0, 0, 0, 0, 0, 0, 0, 0, 0, 4, 0, 0, 0, 0, 0, 0, 0, 0, 0, 0, 0, 0,
    0, 0, 0, 0, 0, 0, 0, 0, 0, 0, 0, 0, 0, 0, 0, 0, 0, 0, 0, 0, 0, 0, 0, 0, 0, 0, 0, 0, 0, 0, 0, 0,
    0, 0, 0, 5, 0, 0, 0, 0, 0, 0, 0, 0, 0, 0, 0, 0, 0, 0, 0, 0, 0, 0, 0, 0, 0, 0, 0, 0, 2, 0, 0, 0,
    0, 0, 0, 0, 3, 0, 0, 0, 0, 0, 0, 0, 0, 0, 0, 0, 0, 0, 0, 0, 0, 0, 0, 0, 0, 0, 0, 0, 0, 0, 0, 0,
    0, 0, 0, 0, 0, 0, 0, 0, 0, 0, 0, 0, 0, 0, 0, 0, 0, 0, 0, 0, 0, 0, 0, 0, 0, 0, 0, 0, 0, 0, 0, 0,
];

/// The extensions.
pub static EXTENDS: [Row<ExtendOp>; 8] = [
    (b"UXTB", &[], ExtendOp::UXTB),
    (b"UXTH", &[], ExtendOp::UXTH),
    (b"UXTW", &[], ExtendOp::UXTW),
    (b"UXTX", &[], ExtendOp::UXTX),
    (b"SXTB", &[], ExtendOp::SXTB),
    (b"SXTH", &[], ExtendOp::SXTH),
    (b"SXTW", &[], ExtendOp::SXTW),
    (b"SXTX", &[], ExtendOp::SXTX),
];

impl Named for ExtendOp {
    ghost text = { extend_text };

    ghost kinds_of = { λ _. [] };

    ghost homes = { EXTEND_HOMES };

    ghost rows = { λ _. map (λ row. row.2) EXTENDS };

    fn home_table() -> &'static [u8] {
        &EXTEND_HOMES
    }

    fn row_table(_class: u8) -> &'static [Row<ExtendOp>] {
        &EXTENDS
    }

    ghost found = { extend_found };
}

/// For each remainder of a hash, the row of the name that has it.
pub static COND_HOMES: [u8; 128] = [
    0, 0, 0, 0, 0, 0, 0, 0, 0, 15, 0, 0, 7, 0, 0, 0, 0, 0, 0, 0, 3, 0, 0, 0, 0, 0, 0, 0, 0, 0, 0,
    0, 0, 0, 0, 0, 0, 0, 0, 0, 0, 2, 0, 5, 0, 0, 12, 10, 0, 0, 0, 0, 0, 6, 1, 0, 0, 0, 4, 0, 0, 0,
    0, 9, 0, 0, 0, 0, 0, 0, 0, 0, 0, 0, 0, 0, 0, 0, 0, 0, 0, 0, 0, 0, 0, 0, 0, 0, 0, 0, 0, 0, 0, 0,
    0, 0, 0, 0, 0, 0, 0, 0, 0, 0, 0, 11, 0, 13, 0, 0, 0, 0, 0, 0, 0, 0, 0, 0, 0, 0, 14, 0, 0, 0, 0,
    0, 0, 8,
];

/// The conditions.
pub static CONDS: [Row<Cond>; 16] = [
    (b"Eq", &[], Cond::Eq),
    (b"Ne", &[], Cond::Ne),
    (b"Hs", &[], Cond::Hs),
    (b"Lo", &[], Cond::Lo),
    (b"Mi", &[], Cond::Mi),
    (b"Pl", &[], Cond::Pl),
    (b"Vs", &[], Cond::Vs),
    (b"Vc", &[], Cond::Vc),
    (b"Hi", &[], Cond::Hi),
    (b"Ls", &[], Cond::Ls),
    (b"Ge", &[], Cond::Ge),
    (b"Lt", &[], Cond::Lt),
    (b"Gt", &[], Cond::Gt),
    (b"Le", &[], Cond::Le),
    (b"Al", &[], Cond::Al),
    (b"Nv", &[], Cond::Nv),
];

impl Named for Cond {
    ghost text = { cond_text };

    ghost kinds_of = { λ _. [] };

    ghost homes = { COND_HOMES };

    ghost rows = { λ _. map (λ row. row.2) CONDS };

    fn home_table() -> &'static [u8] {
        &COND_HOMES
    }

    fn row_table(_class: u8) -> &'static [Row<Cond>] {
        &CONDS
    }

    ghost found = { cond_found };
}

/// The truth value that the token names.
#[tactic(auto, using(std::proofs::lemmas::Slice::Eq::text_from_reads))]
pub fn read_bool(token: &[u8]) -> Option<bool>
    ensures { Reads Always bool_text token.now result }
{
    match token {
        b"false" => Some(false),
        b"true" => Some(true),
        _ => None,
    }
}
