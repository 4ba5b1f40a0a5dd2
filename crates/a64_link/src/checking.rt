//! What is wrong with units.

ghost use Rattle.std.specs.Prelude.{◌≡◌, ◌<◌, ◌^◌, ◌&&◌, nat_lt, length};
ghost use Rattle.std.specs.List.{list_any, sum_by};
ghost use Rattle.a64_link.specs.Units.{is_call as calls, word_count, room, near};
ghost use Rattle.a64_link.specs.Layout.{AreSymbols};
ghost use Rattle.a64_link.specs.Faults.{defines_fault, undefined_in, undefined_from, large_from};

use crate::error::LinkError;
use crate::layout::{NEAR, is_call, room_of};
use crate::unit::{Relocation, Symbol, Unit};
use a64_base::ExternalName;
use a64_label_map::LabelMap;

/// What is wrong with what the unit of this number, of so many bytes, defines.
pub(crate) fn first_bad_define(
    i: usize,
    bytes: u32,
    defines: &[(ExternalName, u32)],
) -> Option<LinkError>
    ensures { result ≡ defines_fault i bytes defines.now }
{
    for define in defines {
        let (name, place) = *define;
        if place % 4 != 0 || place >= bytes {
            return Some(LinkError::BadDefine(i, name));
        }
    }
    None
}

/// The first of these relocations whose symbol no unit defines.
fn first_undefined_in(
    units: &[Unit],
    symbols: &LabelMap<Symbol>,
    relocs: &[Relocation],
) -> Option<LinkError>
    requires { AreSymbols units.now symbols.now }
    ensures { result ≡ undefined_in units.now relocs.now }
{
    let _ = units;
    for reloc in relocs {
        let name = reloc.2;
        if !symbols.contains(name.0) {
            return Some(LinkError::Undefined(name));
        }
    }
    None
}

/// The first relocation of all units whose symbol none of them defines.
pub(crate) fn first_undefined(units: &[Unit], symbols: &LabelMap<Symbol>) -> Option<LinkError>
    requires { AreSymbols units.now symbols.now }
    ensures { result ≡ undefined_from units.now units.now }
{
    for unit in units {
        if let Some(error) = first_undefined_in(units, symbols, &unit.relocs) {
            return Some(error);
        }
    }
    None
}

/// The first unit that has a call and is too large for a branch to reach all of it.
pub(crate) fn first_large(units: &[Unit]) -> Option<LinkError>
    requires { sum_by word_count units.now < 2 ^ 29 }
    ensures { result ≡ large_from 0 units.now }
{
    for (i, unit) in units.iter().enumerate() {
        if is_large(unit) {
            return Some(LinkError::UnitTooLarge(i));
        }
    }
    None
}

/// Whether a unit has a call, and is too large for a branch to reach all of it.
fn is_large(unit: &Unit) -> bool
    requires { length unit.now.words.items < 2 ^ 29 }
    ensures { result ≡ (list_any (λ r. calls r.1) unit.now.relocs.items
        && nat_lt near (room unit.now)) }
{
    if !has_call(&unit.relocs) {
        return false;
    }
    room_of(unit) > u64::from(NEAR)
}

/// Whether some relocation is that of a call.
fn has_call(relocs: &[Relocation]) -> bool
    ensures { result ≡ list_any (λ r. calls r.1) relocs.now }
{
    for reloc in relocs {
        if is_call(reloc.1) {
            return true;
        }
    }
    false
}
