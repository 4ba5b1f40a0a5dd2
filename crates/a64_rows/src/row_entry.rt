//! What the table of instruction words has of a row.

ghost use Rattle.std.specs.Prelude.{◌≡◌, ◌<◌, Some, IfSome, get_or, length, map};
ghost use Rattle.a64_rows.specs.Fields.{text_of};
ghost use Rattle.a64_rows.specs.Order.{all_rows, placed};
ghost use Rattle.a64_rows.specs.Rows.{fields_of, fixed_of, name_of, no_field, slots_of};
ghost use Rattle.a64_rows.specs.Slots.{field_of};

use crate::entries::ROWS;
use crate::field::FieldName;
use crate::row_table::Row;
use crate::slots::{FieldAt, Slot};

/// A field: its name, and where it stands.
pub(crate) type Field = (FieldName, Slot);

/// A row, its bits outside the fields with zeros in the fields, and its fields in the order of its values.
pub(crate) type Entry = (Row, u32, &'static [Field]);

/// The table.
#[inline(always)]
pub(crate) fn rows() -> &'static [Entry]
    ensures order { map (λ row. row.0) result.now ≡ all_rows }
    ensures fixed { map (λ row. row.1) result.now ≡ map fixed_of all_rows }
    ensures fields { map (λ row. row.2.now) result.now ≡ map fields_of all_rows }
{
    &ROWS
}

impl Row {
    /// The row with this name.
    pub fn named(name: &[u8]) -> Option<Row>
        ensures some { IfSome result (λ row. name_of row ≡ name.now) }
        ensures only { (row : Row) → name_of row ≡ name.now → result ≡ Some row }
    {
        for (row, _, _) in rows() {
            if row.name().as_bytes() == name {
                return Some(*row);
            }
        }
        None
    }

    /// The fixed word of a row: its bits outside the fields, and zeros in the fields.
    pub fn fixed(self) -> u32
        ensures { result ≡ fixed_of self }
    {
        self.entry().1
    }

    /// How many fields the row has.
    pub fn field_count(self) -> usize
        ensures { result ≡ length (slots_of self) }
    {
        self.entry().2.len()
    }

    /// Where the field with this index stands, in the order of the row's values.
    pub fn field_at(self, i: usize) -> FieldAt
        requires { i < length (slots_of self) }
        ensures { result ≡ field_of (get_or (fields_of self) i no_field).1 }
    {
        let (_, slot) = self.entry().2[i];
        match slot {
            Slot::Bits(lowest, width) => FieldAt {
                at: lowest,
                width,
                doubled: false,
            },
            Slot::Doubled => FieldAt {
                at: 31,
                width: 1,
                doubled: true,
            },
        }
    }

    /// The name of the field with this index, in the order of the row's values.
    pub fn field_name(self, i: usize) -> &'static str
        requires { i < length (slots_of self) }
        ensures { result.now ≡ text_of (get_or (fields_of self) i no_field).0 }
    {
        let (name, _) = self.entry().2[i];
        name.text()
    }

    /// Its index in the table.
    #[inline(always)]
    fn index(self) -> usize
        ensures { result ≡ (placed self).place }
    {
        self as usize
    }

    /// What the table has for the row.
    #[inline(always)]
    pub(crate) fn entry(self) -> Entry
        ensures fixed { result.1 ≡ fixed_of self }
        ensures fields { result.2.now ≡ fields_of self }
    {
        rows()[self.index()]
    }
}
