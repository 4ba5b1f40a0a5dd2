//! The areas of a frame whose sizes a file gives.

ghost use Rattle.std.specs.Prelude.{List, [], map};
ghost use Rattle.a64_tokens.specs.declared.frame_field.TheConstants.{FRAME_FIELD_HOMES, FRAME_FIELDS};
ghost use Rattle.a64_tokens.specs.Operators.{frame_field_text};
ghost use Rattle.a64_tokens.specs.Found.{frame_field_found};

use crate::named::{Named, Row};

/// The size of an area of a frame: a field of `FrameLayout`.
#[derive(Clone, Copy, Debug, PartialEq, Eq, PartialOrd, Ord)]
pub enum FrameField {
    /// `setup_area_size`.
    SetupAreaSize,
    /// `tail_args_size`.
    TailArgsSize,
    /// `clobber_size`.
    ClobberSize,
    /// `fixed_frame_storage_size`.
    FixedFrameStorageSize,
    /// `outgoing_args_size`.
    OutgoingArgsSize,
}

/// For each remainder of a hash, the row of the name that has it.
pub static FRAME_FIELD_HOMES: [u8; 16] = [0, 0, 4, 0, 0, 0, 0, 0, 0, 3, 2, 1, 0, 0, 0, 0];

/// The sizes of a frame.
pub static FRAME_FIELDS: [Row<FrameField>; 5] = [
    (b"setup_area_size", &[], FrameField::SetupAreaSize),
    (b"tail_args_size", &[], FrameField::TailArgsSize),
    (b"clobber_size", &[], FrameField::ClobberSize),
    (
        b"fixed_frame_storage_size",
        &[],
        FrameField::FixedFrameStorageSize,
    ),
    (b"outgoing_args_size", &[], FrameField::OutgoingArgsSize),
];

impl Named for FrameField {
    ghost text = { frame_field_text };

    ghost kinds_of = { λ _. [] };

    ghost homes = { FRAME_FIELD_HOMES };

    ghost rows = { λ _. map (λ row. row.2) FRAME_FIELDS };

    fn home_table() -> &'static [u8] {
        &FRAME_FIELD_HOMES
    }

    fn row_table(_class: u8) -> &'static [Row<FrameField>] {
        &FRAME_FIELDS
    }

    ghost found = { frame_field_found };
}
