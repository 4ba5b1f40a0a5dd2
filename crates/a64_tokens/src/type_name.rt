//! The names of types.

ghost use Rattle.std.specs.Prelude.{List, [], map};
ghost use Rattle.a64_tokens.specs.declared.type_name.TheConstants.{TYPE_HOMES, TYPES};
ghost use Rattle.a64_tokens.specs.Types.{type_text};
ghost use Rattle.a64_tokens.specs.Found.{type_found};

use crate::named::{Named, Row};
use a64_base::IrType;

/// For each remainder of a hash, the row of the name that has it.
pub static TYPE_HOMES: [u8; 128] = [
    0, 0, 0, 0, 23, 0, 0, 0, 0, 0, 0, 0, 0, 0, 2, 5, 0, 18, 0, 0, 0, 0, 0, 0, 0, 0, 0, 0, 0, 0, 6,
    0, 0, 0, 0, 0, 0, 0, 0, 0, 0, 9, 0, 0, 4, 0, 0, 0, 0, 0, 0, 0, 0, 0, 0, 0, 0, 10, 13, 8, 0, 19,
    0, 12, 0, 0, 3, 0, 0, 0, 0, 0, 0, 0, 14, 0, 0, 0, 0, 0, 0, 0, 7, 0, 0, 0, 0, 0, 0, 11, 0, 0, 0,
    20, 0, 21, 24, 0, 0, 0, 0, 0, 0, 0, 0, 0, 15, 0, 16, 0, 0, 22, 0, 0, 0, 0, 0, 0, 0, 0, 0, 0, 0,
    0, 17, 0, 0, 1,
];

/// The types.
pub static TYPES: [Row<IrType>; 25] = [
    (b"i8", &[], IrType::I8),
    (b"i16", &[], IrType::I16),
    (b"i32", &[], IrType::I32),
    (b"i64", &[], IrType::I64),
    (b"i128", &[], IrType::I128),
    (b"f16", &[], IrType::F16),
    (b"f32", &[], IrType::F32),
    (b"f64", &[], IrType::F64),
    (b"f128", &[], IrType::F128),
    (b"i8x2", &[], IrType::I8X2),
    (b"i8x4", &[], IrType::I8X4),
    (b"i8x8", &[], IrType::I8X8),
    (b"i8x16", &[], IrType::I8X16),
    (b"i16x2", &[], IrType::I16X2),
    (b"i16x4", &[], IrType::I16X4),
    (b"i16x8", &[], IrType::I16X8),
    (b"i32x2", &[], IrType::I32X2),
    (b"i32x4", &[], IrType::I32X4),
    (b"i64x2", &[], IrType::I64X2),
    (b"f16x4", &[], IrType::F16X4),
    (b"f16x8", &[], IrType::F16X8),
    (b"f32x2", &[], IrType::F32X2),
    (b"f32x4", &[], IrType::F32X4),
    (b"f64x2", &[], IrType::F64X2),
    (b"i8x32", &[], IrType::I8X32),
];

impl Named for IrType {
    ghost text = { type_text };

    ghost kinds_of = { λ _. [] };

    ghost homes = { TYPE_HOMES };

    ghost rows = { λ _. map (λ row. row.2) TYPES };

    fn home_table() -> &'static [u8] {
        &TYPE_HOMES
    }

    fn row_table(_class: u8) -> &'static [Row<IrType>] {
        &TYPES
    }

    ghost found = { type_found };
}
