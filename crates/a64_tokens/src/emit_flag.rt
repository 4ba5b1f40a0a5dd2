//! The settings that a file may name.

ghost use Rattle.std.specs.Prelude.{List, [], map};
ghost use Rattle.a64_tokens.specs.declared.emit_flag.TheConstants.{EMIT_FLAG_HOMES, EMIT_FLAGS};
ghost use Rattle.a64_tokens.specs.Operators.{emit_flag_text};
ghost use Rattle.a64_tokens.specs.Found.{emit_flag_found};

use crate::named::{Named, Row};

/// A setting: a field of `EmitFlags`.
#[derive(Clone, Copy, Debug, PartialEq, Eq, PartialOrd, Ord)]
pub enum EmitFlag {
    /// `enable_probestack`.
    EnableProbestack,
    /// `enable_table_access_spectre_mitigation`.
    EnableTableAccessSpectreMitigation,
    /// `use_csdb`.
    UseCsdb,
}

/// For each remainder of a hash, the row of the name that has it.
pub static EMIT_FLAG_HOMES: [u8; 4] = [0, 2, 1, 0];

/// The settings.
pub static EMIT_FLAGS: [Row<EmitFlag>; 3] = [
    (b"enable_probestack", &[], EmitFlag::EnableProbestack),
    (
        b"enable_table_access_spectre_mitigation",
        &[],
        EmitFlag::EnableTableAccessSpectreMitigation,
    ),
    (b"use_csdb", &[], EmitFlag::UseCsdb),
];

impl Named for EmitFlag {
    ghost text = { emit_flag_text };

    ghost kinds_of = { λ _. [] };

    ghost homes = { EMIT_FLAG_HOMES };

    ghost rows = { λ _. map (λ row. row.2) EMIT_FLAGS };

    fn home_table() -> &'static [u8] {
        &EMIT_FLAG_HOMES
    }

    fn row_table(_class: u8) -> &'static [Row<EmitFlag>] {
        &EMIT_FLAGS
    }

    ghost found = { emit_flag_found };
}
