//! The names of entries stand in their table.

ghost use Rattle.a64_text.specs.declared.name_table.TheConstants.{NAME_HOMES};
ghost use Rattle.a64_text.specs.NameRows.{name_rows};
ghost use Rattle.a64_text.specs.Names.{name_text, kinds_of};
ghost use Rattle.a64_text.specs.Makers.{name_found};

use crate::name::Name;
use crate::name_table::{
    NAME_HOMES, access_rows, control_rows, float_rows, integer_rows, other_rows, sequence_rows,
    vector_move_rows, vector_rows,
};
use a64_tokens::named::{Named, Row};

impl Named for Name {
    ghost text = { name_text };

    ghost kinds_of = { kinds_of };

    ghost homes = { NAME_HOMES };

    ghost rows = { name_rows };

    fn home_table() -> &'static [u8] {
        &NAME_HOMES
    }

    #[inline(always)]
    fn row_table(class: u8) -> &'static [Row<Name>] {
        // Each number below 8 has an arm, so that the class is not compared with the number of classes.
        match class % 8 {
            0 => integer_rows(),
            1 => float_rows(),
            2 => vector_rows(),
            3 => vector_move_rows(),
            4 => control_rows(),
            5 => sequence_rows(),
            6 => access_rows(),
            7 => other_rows(),
            _ => unreachable!(),
        }
    }

    ghost found = { name_found };
}
