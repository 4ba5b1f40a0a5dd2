//! The names of what branches test, each with the kinds of its fields.

ghost use Rattle.std.specs.Prelude.{List, map};
ghost use Rattle.a64_read.specs.declared.branch_name.TheConstants.{COND_BR_HOMES, COND_BRS};
ghost use Rattle.a64_read.specs.Branches.{cond_br_name_text, cond_br_kinds, cond_br_name_of, cond_br_fields, IsOwnCondBr};
ghost use Rattle.a64_read.specs.BranchMakes.{MakesCondBr};
ghost use Rattle.a64_read.specs.BranchLaws.{cond_br_found, few_cond_br_kinds, cond_br_apart, some_cond_br_field, cond_br_made_some, cond_br_made_only, cond_br_fields_kinds};
ghost use Rattle.a64_tokens.specs.Operators.{test_bit_text};
ghost use Rattle.a64_tokens.specs.Reads.{Reads, Always};

use crate::at;
use crate::call::Call;
use a64_base::{CondBrKind, TestBitAndBranchKind};
use a64_tokens::named::{Named, Row};
use a64_tokens::value::{Kind, Value};

/// The name of what a conditional branch tests.
#[derive(Clone, Copy)]
pub enum CondBrName {
    /// `Zero`.
    Zero,
    /// `NotZero`.
    NotZero,
    /// `Cond`.
    Cond,
}

/// For each remainder of a hash, the row of the name that has it.
pub static COND_BR_HOMES: [u8; 4] = [1, 0, 0, 2];

/// What a conditional branch tests.
pub static COND_BRS: [Row<CondBrName>; 3] = [
    (b"Zero", &[Kind::Reg, Kind::Size], CondBrName::Zero),
    (b"NotZero", &[Kind::Reg, Kind::Size], CondBrName::NotZero),
    (b"Cond", &[Kind::Cond], CondBrName::Cond),
];

impl Named for CondBrName {
    ghost text = { cond_br_name_text };

    ghost kinds_of = { cond_br_kinds };

    ghost homes = { COND_BR_HOMES };

    ghost rows = { λ _. map (λ row. row.2) COND_BRS };

    fn home_table() -> &'static [u8] {
        &COND_BR_HOMES
    }

    fn row_table(_class: u8) -> &'static [Row<CondBrName>] {
        &COND_BRS
    }

    ghost found = { cond_br_found };
}

/// The test of this name with these fields.
#[tactic(auto, unfolding(crate::specs::BranchMakes::MakesCondBr))]
fn make_cond_br(name: CondBrName, values: &[Value]) -> Option<CondBrKind>
    ensures { MakesCondBr name values.now result }
{
    match name {
        CondBrName::Zero => Some(CondBrKind::Zero(at::get(values, 0), at::get(values, 1))),
        CondBrName::NotZero => Some(CondBrKind::NotZero(at::get(values, 0), at::get(values, 1))),
        CondBrName::Cond => Some(CondBrKind::Cond(at::get(values, 0))),
    }
}

impl Call for CondBrName {
    type Made = CondBrKind;

    ghost name_of = { cond_br_name_of };

    ghost fields_of = { cond_br_fields };

    ghost own = { IsOwnCondBr };

    ghost makes = { MakesCondBr };

    fn make(self, values: &[Value]) -> Option<CondBrKind> {
        make_cond_br(self, values)
    }

    ghost few = { few_cond_br_kinds };

    ghost apart = { cond_br_apart };

    ghost some_field = { some_cond_br_field };

    ghost made_some = { cond_br_made_some };

    ghost made_only = { cond_br_made_only };

    ghost fields_kinds = { cond_br_fields_kinds };
}

/// What a branch on one bit tests, by its name.
#[tactic(auto, using(std::proofs::lemmas::Slice::Eq::text_from_reads))]
pub fn read_test_bit(token: &[u8]) -> Option<TestBitAndBranchKind>
    ensures { Reads Always test_bit_text token.now result }
{
    match token {
        b"Z" => Some(TestBitAndBranchKind::Z),
        b"NZ" => Some(TestBitAndBranchKind::NZ),
        _ => None,
    }
}
