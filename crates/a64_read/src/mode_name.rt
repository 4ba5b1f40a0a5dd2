//! The names of addressing modes, each with the kinds of its fields.

ghost use Rattle.std.specs.Prelude.{List, [], map};
ghost use Rattle.a64_read.specs.declared.mode_name.TheConstants.{MODE_HOMES, MODES, PAIR_MODE_HOMES, PAIR_MODES};
ghost use Rattle.a64_read.specs.Modes.{mode_name_text, mode_kinds, mode_name_of, mode_fields, IsOwnMode, pair_name_text, pair_kinds, pair_name_of, pair_fields, IsOwnPair};
ghost use Rattle.a64_read.specs.ModeMakes.{MakesMode, MakesPair};
ghost use Rattle.a64_read.specs.ModeLaws.{mode_found, few_mode_kinds, mode_apart, some_mode_field, mode_made_some, mode_made_only, mode_fields_kinds, pair_found, few_pair_kinds, pair_apart, some_pair_field, pair_made_some, pair_made_only, pair_fields_kinds};

use crate::call::Call;
use crate::mode::{make_mode, make_pair_mode};
use a64_inst::AMode;
use a64_tokens::named::{Named, Row};
use a64_tokens::pair_mode::WrittenPairMode;
use a64_tokens::value::{Kind, Value};

/// The name of an addressing mode.
#[derive(Clone, Copy)]
pub enum ModeName {
    /// `RegReg`.
    RegReg,
    /// `RegScaled`.
    RegScaled,
    /// `RegScaledExtended`.
    RegScaledExtended,
    /// `RegExtended`.
    RegExtended,
    /// `Unscaled`.
    Unscaled,
    /// `UnsignedOffset`.
    UnsignedOffset,
    /// `Label`.
    Label,
    /// `SPPreIndexed`.
    SPPreIndexed,
    /// `SPPostIndexed`.
    SPPostIndexed,
    /// `FPOffset`.
    FPOffset,
    /// `SPOffset`.
    SPOffset,
    /// `IncomingArg`.
    IncomingArg,
    /// `SlotOffset`.
    SlotOffset,
    /// `RegOffset`.
    RegOffset,
    /// `Const`.
    Const,
}

/// For each remainder of a hash, the row of the name that has it.
pub static MODE_HOMES: [u8; 64] = [
    0, 14, 0, 13, 0, 0, 0, 12, 0, 10, 0, 0, 0, 0, 0, 0, 0, 0, 0, 0, 1, 0, 4, 0, 0, 2, 0, 0, 0, 11,
    0, 0, 0, 0, 9, 0, 7, 0, 0, 0, 0, 0, 0, 0, 3, 0, 0, 0, 0, 0, 0, 0, 8, 0, 0, 0, 0, 0, 5, 6, 0, 0,
    0, 0,
];

/// The addressing modes.
pub static MODES: [Row<ModeName>; 15] = [
    (b"RegReg", &[Kind::Reg, Kind::Reg], ModeName::RegReg),
    (b"RegScaled", &[Kind::Reg, Kind::Reg], ModeName::RegScaled),
    (
        b"RegScaledExtended",
        &[Kind::Reg, Kind::Reg, Kind::Extend],
        ModeName::RegScaledExtended,
    ),
    (
        b"RegExtended",
        &[Kind::Reg, Kind::Reg, Kind::Extend],
        ModeName::RegExtended,
    ),
    (b"Unscaled", &[Kind::Reg, Kind::Offset9], ModeName::Unscaled),
    (
        b"UnsignedOffset",
        &[Kind::Reg, Kind::I64, Kind::Type],
        ModeName::UnsignedOffset,
    ),
    (b"Label", &[Kind::MemLabelName, Kind::I64], ModeName::Label),
    (b"SPPreIndexed", &[Kind::Offset9], ModeName::SPPreIndexed),
    (b"SPPostIndexed", &[Kind::Offset9], ModeName::SPPostIndexed),
    (b"FPOffset", &[Kind::I64], ModeName::FPOffset),
    (b"SPOffset", &[Kind::I64], ModeName::SPOffset),
    (b"IncomingArg", &[Kind::I64], ModeName::IncomingArg),
    (b"SlotOffset", &[Kind::I64], ModeName::SlotOffset),
    (b"RegOffset", &[Kind::Reg, Kind::I64], ModeName::RegOffset),
    (b"Const", &[Kind::U32], ModeName::Const),
];

impl Named for ModeName {
    ghost text = { mode_name_text };

    ghost kinds_of = { mode_kinds };

    ghost homes = { MODE_HOMES };

    ghost rows = { λ _. map (λ row. row.2) MODES };

    fn home_table() -> &'static [u8] {
        &MODE_HOMES
    }

    fn row_table(_class: u8) -> &'static [Row<ModeName>] {
        &MODES
    }

    ghost found = { mode_found };
}

impl Call for ModeName {
    type Made = AMode;

    ghost name_of = { mode_name_of };

    ghost fields_of = { mode_fields };

    ghost own = { IsOwnMode };

    ghost makes = { MakesMode };

    fn make(self, values: &[Value]) -> Option<AMode> {
        make_mode(self, values)
    }

    ghost few = { few_mode_kinds };

    ghost apart = { mode_apart };

    ghost some_field = { some_mode_field };

    ghost made_some = { mode_made_some };

    ghost made_only = { mode_made_only };

    ghost fields_kinds = { mode_fields_kinds };
}

/// The name of an addressing mode of a pair.
#[derive(Clone, Copy)]
pub enum PairModeName {
    /// `SignedOffset`.
    SignedOffset,
    /// `SPPreIndexed`.
    SPPreIndexed,
    /// `SPPostIndexed`.
    SPPostIndexed,
}

/// For each remainder of a hash, the row of the name that has it.
pub static PAIR_MODE_HOMES: [u8; 32] = [
    0, 0, 0, 0, 1, 0, 0, 0, 0, 0, 0, 0, 0, 0, 0, 0, 0, 0, 0, 0, 2, 0, 0, 0, 0, 0, 0, 0, 0, 0, 0, 0,
];

/// The addressing modes of pairs.
pub static PAIR_MODES: [Row<PairModeName>; 3] = [
    (
        b"SignedOffset",
        &[Kind::Reg, Kind::I64],
        PairModeName::SignedOffset,
    ),
    (b"SPPreIndexed", &[Kind::I64], PairModeName::SPPreIndexed),
    (b"SPPostIndexed", &[Kind::I64], PairModeName::SPPostIndexed),
];

impl Named for PairModeName {
    ghost text = { pair_name_text };

    ghost kinds_of = { pair_kinds };

    ghost homes = { PAIR_MODE_HOMES };

    ghost rows = { λ _. map (λ row. row.2) PAIR_MODES };

    fn home_table() -> &'static [u8] {
        &PAIR_MODE_HOMES
    }

    fn row_table(_class: u8) -> &'static [Row<PairModeName>] {
        &PAIR_MODES
    }

    ghost found = { pair_found };
}

impl Call for PairModeName {
    type Made = WrittenPairMode;

    ghost name_of = { pair_name_of };

    ghost fields_of = { pair_fields };

    ghost own = { IsOwnPair };

    ghost makes = { MakesPair };

    fn make(self, values: &[Value]) -> Option<WrittenPairMode> {
        make_pair_mode(self, values)
    }

    ghost few = { few_pair_kinds };

    ghost apart = { pair_apart };

    ghost some_field = { some_pair_field };

    ghost made_some = { pair_made_some };

    ghost made_only = { pair_made_only };

    ghost fields_kinds = { pair_fields_kinds };
}
