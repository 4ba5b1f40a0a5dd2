//! The names of where functions leave results, each with the kinds of its fields.

ghost use Rattle.std.specs.Prelude.{List, map};
ghost use Rattle.a64_read.specs.declared.location_name.TheConstants.{LOCATION_HOMES, LOCATIONS};
ghost use Rattle.a64_read.specs.Locations.{location_name_text, location_kinds, location_name_of, location_fields, IsOwnLocation};
ghost use Rattle.a64_read.specs.LocationMakes.{MakesLocation};
ghost use Rattle.a64_read.specs.LocationLaws.{location_found, few_location_kinds, location_apart, some_location_field, location_made_some, location_made_only, location_fields_kinds};

use crate::at;
use crate::call::Call;
use a64_inst::RetLocation;
use a64_tokens::named::{Named, Row};
use a64_tokens::value::{Kind, Value};

/// The name of where a function leaves a result.
#[derive(Clone, Copy)]
pub enum LocationName {
    /// `reg`.
    Reg,
    /// `stack`.
    Stack,
}

/// For each remainder of a hash, the row of the name that has it.
pub static LOCATION_HOMES: [u8; 2] = [0, 1];

/// Where functions leave results.
pub static LOCATIONS: [Row<LocationName>; 2] = [
    (b"reg", &[Kind::Reg, Kind::Type], LocationName::Reg),
    (b"stack", &[Kind::I64, Kind::Type], LocationName::Stack),
];

impl Named for LocationName {
    ghost text = { location_name_text };

    ghost kinds_of = { location_kinds };

    ghost homes = { LOCATION_HOMES };

    ghost rows = { λ _. map (λ row. row.2) LOCATIONS };

    fn home_table() -> &'static [u8] {
        &LOCATION_HOMES
    }

    fn row_table(_class: u8) -> &'static [Row<LocationName>] {
        &LOCATIONS
    }

    ghost found = { location_found };
}

/// The place of this name with these fields.
#[tactic(auto, unfolding(crate::specs::LocationMakes::MakesLocation))]
fn make_location(name: LocationName, values: &[Value]) -> Option<RetLocation>
    ensures { MakesLocation name values.now result }
{
    match name {
        LocationName::Reg => Some(RetLocation::Reg(at::get(values, 0), at::get(values, 1))),
        LocationName::Stack => Some(RetLocation::Stack(at::get(values, 0), at::get(values, 1))),
    }
}

impl Call for LocationName {
    type Made = RetLocation;

    ghost name_of = { location_name_of };

    ghost fields_of = { location_fields };

    ghost own = { IsOwnLocation };

    ghost makes = { MakesLocation };

    fn make(self, values: &[Value]) -> Option<RetLocation> {
        make_location(self, values)
    }

    ghost few = { few_location_kinds };

    ghost apart = { location_apart };

    ghost some_field = { some_location_field };

    ghost made_some = { location_made_some };

    ghost made_only = { location_made_only };

    ghost fields_kinds = { location_fields_kinds };
}
