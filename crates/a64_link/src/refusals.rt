//! Why units are not linked, but for the size of all together.

ghost use Rattle.std.specs.Prelude.{◌≡◌, ◌⊎◌, ◌<◌, ◌^◌, length, Some, IfOk, IfErr};
ghost use Rattle.std.specs.List.{sum_by};
ghost use Rattle.a64_link.specs.declared.error.LinkError.TheVariants.{OutOfMemory};
ghost use Rattle.a64_link.specs.Units.{word_count};
ghost use Rattle.a64_link.specs.Faults.{unit_fault, units_fault, fault_of, too_large, TellsFault};
ghost use Rattle.a64_link.specs.Layout.{AreSymbols};
ghost use Rattle.a64_link.specs.Linking.{AreLinkable};

use crate::checking::{first_bad_define, first_large, first_undefined};
use crate::error::LinkError;
use crate::sites::check_relocs;
use crate::symbols::symbols_of;
use crate::unit::{Symbol, Unit};
use a64_label_map::LabelMap;
use std::alloc::Global;

/// Checks the unit of this number by itself: what it defines, and then its relocations.
///
/// # Errors
///
/// What is wrong with the first of these that is wrong, or want of memory.
fn check_unit(alloc: Global, i: usize, unit: &Unit) -> Result<(), LinkError>
    requires { length unit.now.words.items < 2 ^ 29 }
    ensures { TellsFault result (unit_fault i unit.now) }
{
    let bytes = 4 * unit.words.len() as u32;
    if let Some(fault) = first_bad_define(i, bytes, &unit.defines) {
        return Err(fault);
    }
    check_relocs(alloc, i, &unit.words, &unit.relocs)
}

/// Checks units, each by itself.
///
/// # Errors
///
/// What is wrong with the first of them that cannot be linked, or want of memory.
fn check_units(alloc: Global, units: &[Unit]) -> Result<(), LinkError>
    requires { sum_by word_count units.now < 2 ^ 29 }
    ensures { TellsFault result (units_fault 0 units.now) }
{
    for (i, unit) in units.iter().enumerate() {
        check_unit(alloc, i, unit)?;
    }
    Ok(())
}

/// Where units define their symbols, if nothing is wrong with the units but, perhaps, the size of
/// all together.
///
/// # Errors
///
/// The first fault of the units, or want of memory.
pub(crate) fn checked_symbols(alloc: Global, units: &[Unit]) -> Result<LabelMap<Symbol>, LinkError>
    requires few { sum_by word_count units.now < 2 ^ 29 }
    ensures symbols { IfOk result (AreSymbols units.now) }
    ensures linkable { IfOk result (λ _. AreLinkable units.now) }
    ensures faultless { IfOk result (λ _. fault_of units.now ≡ too_large units.now) }
    ensures err { IfErr result (λ error. (error ≡ OutOfMemory)
        ⊎ (fault_of units.now ≡ Some error)) }
{
    check_units(alloc, units)?;
    let symbols = symbols_of(alloc, units)?;
    if let Some(fault) = first_undefined(units, &symbols) {
        return Err(fault);
    }
    if let Some(fault) = first_large(units) {
        return Err(fault);
    }
    Ok(symbols)
}
