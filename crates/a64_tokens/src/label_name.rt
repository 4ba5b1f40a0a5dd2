//! The names of addresses in the code.

ghost use Rattle.std.specs.Prelude.{List, [], map};
ghost use Rattle.a64_tokens.specs.declared.label_name.TheConstants.{MEM_LABEL_HOMES, MEM_LABELS};
ghost use Rattle.a64_tokens.specs.Operators.{mem_label_name_text};
ghost use Rattle.a64_tokens.specs.Found.{mem_label_found};

use crate::named::{Named, Row};

/// The name of an address in the code.
#[derive(Clone, Copy)]
pub enum MemLabelName {
    /// `PCRel`.
    PCRel,
    /// `Mach`.
    Mach,
    /// `Pool`.
    Pool,
}

/// For each remainder of a hash, the row of the name that has it.
pub static MEM_LABEL_HOMES: [u8; 4] = [0, 2, 1, 0];

/// The addresses in the code.
pub static MEM_LABELS: [Row<MemLabelName>; 3] = [
    (b"PCRel", &[], MemLabelName::PCRel),
    (b"Mach", &[], MemLabelName::Mach),
    (b"Pool", &[], MemLabelName::Pool),
];

impl Named for MemLabelName {
    ghost text = { mem_label_name_text };

    ghost kinds_of = { λ _. [] };

    ghost homes = { MEM_LABEL_HOMES };

    ghost rows = { λ _. map (λ row. row.2) MEM_LABELS };

    fn home_table() -> &'static [u8] {
        &MEM_LABEL_HOMES
    }

    fn row_table(_class: u8) -> &'static [Row<MemLabelName>] {
        &MEM_LABELS
    }

    ghost found = { mem_label_found };
}
