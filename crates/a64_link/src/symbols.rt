//! What units define.

ghost use Rattle.std.specs.Prelude.{◌≡◌, ◌⊎◌, [], OnOk, IfOk, IfErr};
ghost use Rattle.a64_link.specs.declared.error.LinkError.TheVariants.{OutOfMemory};
ghost use Rattle.a64_link.specs.Faults.{repeated_in, definitions, TellsFault};
ghost use Rattle.a64_link.specs.Layout.{AreSymbols};
ghost use Rattle.a64_link.specs.Symbols.{HasAdded, Repeats};

use crate::error::LinkError;
use crate::unit::{Symbol, Unit};
use a64_base::ExternalName;
use a64_label_map::LabelMap;
use std::alloc::Global;

/// Adds what the unit of this number defines.
///
/// # Errors
///
/// A symbol that is there, or want of memory.
fn add_definitions(
    symbols: &mut LabelMap<Symbol>,
    i: usize,
    defines: &[(ExternalName, u32)],
) -> Result<(), LinkError>
    ensures ok { OnOk result (HasAdded i defines.now symbols.old symbols.new) }
    ensures err { IfErr result (λ error. (error ≡ OutOfMemory)
        ⊎ Repeats symbols.old defines.now error) }
{
    for define in defines {
        let (name, place) = *define;
        if symbols.insert(name.0, Symbol { unit: i, place })?.is_some() {
            return Err(LinkError::DefinedTwice(name));
        }
    }
    Ok(())
}

/// Where units define their symbols.
///
/// # Errors
///
/// The first symbol that is defined a second time, or want of memory.
pub(crate) fn symbols_of(alloc: Global, units: &[Unit]) -> Result<LabelMap<Symbol>, LinkError>
    ensures symbols { IfOk result (AreSymbols units.now) }
    ensures fault { TellsFault result (repeated_in [] (definitions units.now)) }
{
    let mut symbols = LabelMap::new(alloc);
    for (i, unit) in units.iter().enumerate() {
        add_definitions(&mut symbols, i, &unit.defines)?;
    }
    Ok(symbols)
}
