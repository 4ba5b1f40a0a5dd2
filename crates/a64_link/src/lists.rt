//! The lists of symbols and of thunks of linked units.

ghost use Rattle.std.specs.Prelude.{◌≡◌, ◌++◌, map, IfOk, OnOk, All};
ghost use Rattle.std.specs.FinMap.{entries};
ghost use Rattle.a64_link.specs.Layout.{IsUnit, AreSums, AreSymbols, AreStarts};
ghost use Rattle.a64_link.specs.Linked.{thunks_in, all_thunks};
ghost use Rattle.a64_link.specs.Lists.{MayStand, placed_by};

use crate::layout::is_far;
use crate::unit::{Symbol, Unit};
use a64_base::ExternalName;
use a64_label_map::LabelMap;
use std::alloc::{AllocError, Global};

/// The symbols with their places, in bytes, by number.
///
/// # Errors
///
/// Want of memory.
pub(crate) fn list_symbols(
    alloc: Global,
    symbols: &LabelMap<Symbol>,
    starts: &[u32],
) -> Result<Vec<(ExternalName, u32)>, AllocError>
    requires { All (λ e. MayStand starts.now e.1) (entries symbols.now) }
    ensures { IfOk result (λ list. list.items ≡ map (placed_by starts.now) (entries symbols.now)) }
{
    let entries = symbols.entries(alloc)?;
    let mut list = Vec::with_capacity(alloc, entries.len())?;
    for &(number, symbol) in &entries {
        list.push_reserved((ExternalName(number), starts[symbol.unit] + symbol.place));
    }
    Ok(list)
}

/// Lists the thunks of the unit of this number behind those of the units before it.
///
/// # Errors
///
/// Want of memory.
fn add_thunks(
    thunks: &mut Vec<u32>,
    units: &[Unit],
    sums: &[u32],
    symbols: &LabelMap<Symbol>,
    starts: &[u32],
    i: usize,
    unit: &Unit,
) -> Result<(), AllocError>
    requires sums { AreSums units.now sums.now }
    requires symbols { AreSymbols units.now symbols.now }
    requires starts { AreStarts units.now starts.now }
    requires unit { IsUnit units.now i unit.now }
    ensures { OnOk result (thunks.new.items
        ≡ thunks.old.items ++ thunks_in units.now starts.now i unit.now) }
{
    let mut next = starts[i] + 4 * unit.words.len() as u32;
    for reloc in unit.relocs.as_slice() {
        if is_far(units, sums, symbols, i, reloc) {
            thunks.push(next)?;
            next += 20;
        }
    }
    Ok(())
}

/// The places of the thunks, in bytes, in order.
///
/// # Errors
///
/// Want of memory.
pub(crate) fn list_thunks(
    alloc: Global,
    units: &[Unit],
    sums: &[u32],
    symbols: &LabelMap<Symbol>,
    starts: &[u32],
) -> Result<Vec<u32>, AllocError>
    requires sums { AreSums units.now sums.now }
    requires symbols { AreSymbols units.now symbols.now }
    requires starts { AreStarts units.now starts.now }
    ensures { IfOk result (λ thunks. thunks.items ≡ all_thunks units.now starts.now) }
{
    let mut thunks = Vec::new(alloc);
    for (i, unit) in units.iter().enumerate() {
        add_thunks(&mut thunks, units, sums, symbols, starts, i, unit)?;
    }
    Ok(thunks)
}
