//! Links units.

ghost use Rattle.std.specs.Prelude.{◌≡◌, ◌⊎◌, ◌<◌, ◌≤◌, ◌^◌, None, IfOk, IfErr};
ghost use Rattle.std.specs.List.{sum_by};
ghost use Rattle.a64_link.specs.declared.error.LinkError.TheVariants.{OutOfMemory, TooLarge};
ghost use Rattle.a64_link.specs.Units.{word_count, rooms};
ghost use Rattle.a64_link.specs.Layout.{AreSymbols};
ghost use Rattle.a64_link.specs.Linking.{AreLinkable};
ghost use Rattle.a64_link.specs.Faults.{fault_of, too_large};
ghost use Rattle.a64_link.specs.Linked.{IsLinked, IsRefusal, CallsArrive};

use crate::error::LinkError;
use crate::layout::{room_sums, starts_of};
use crate::linking::{Plan, link_words};
use crate::lists::{list_symbols, list_thunks};
use crate::refusals::checked_symbols;
use crate::unit::{Linked, Symbol, Unit};
use a64_label_map::LabelMap;
use std::alloc::Global;

/// Puts units that may be linked at their places, with their thunks, symbols and relocations.
///
/// # Errors
///
/// All together are too large, or want of memory.
fn place_all(
    alloc: Global,
    units: &[Unit],
    base: u64,
    symbols: &LabelMap<Symbol>,
) -> Result<Linked, LinkError>
    requires few { sum_by word_count units.now < 2 ^ 29 }
    requires symbols { AreSymbols units.now symbols.now }
    requires linkable { AreLinkable units.now }
    requires faultless { fault_of units.now ≡ too_large units.now }
    ensures linked { IfOk result (IsLinked units.now base) }
    ensures refused { IfErr result (IsRefusal units.now) }
    ensures calls { IfOk result (CallsArrive units.now) }
{
    let sums = room_sums(alloc, units)?;
    let (starts, end) = starts_of(alloc, units, &sums, symbols)?;
    let plan = Plan {
        units,
        base,
        sums: &sums,
        symbols,
        starts: &starts,
    };
    let words = link_words(alloc, &plan, end)?;
    let symbols_list = list_symbols(alloc, symbols, &starts)?;
    let thunks = list_thunks(alloc, units, &sums, symbols, &starts)?;
    Ok(Linked {
        words,
        starts,
        symbols: symbols_list,
        thunks,
    })
}

/// Links units into one: puts them behind each other in order, each at a multiple of 16 bytes,
/// makes calls lead to the symbols that they name, through thunks where a branch might not reach,
/// and puts addresses, in which place 0 is at `base`.
///
/// # Errors
///
/// The first thing that is wrong with the units, in the order of [`LinkError`], or want of memory.
pub fn link(alloc: Global, units: &[Unit], base: u64) -> Result<Linked, LinkError>
    requires few { sum_by word_count units.now < 2 ^ 29 }
    ensures linked { IfOk result (IsLinked units.now base) }
    ensures refused { IfErr result (IsRefusal units.now) }
    ensures calls { IfOk result (CallsArrive units.now) }
{
    let symbols = checked_symbols(alloc, units)?;
    place_all(alloc, units, base, &symbols)
}
