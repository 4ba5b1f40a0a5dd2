//! Where units stand.

ghost use Rattle.std.specs.Prelude.{◌≡◌, ◌+◌, ◌*◌, ◌-◌, ◌<◌, ◌≤◌, ◌^◌, ◌⊎◌, length, IfOk, IfErr};
ghost use Rattle.std.specs.List.{count_by, sum_by};
ghost use Rattle.a64_link.specs.declared.error.LinkError.TheVariants.{TooLarge, OutOfMemory};
ghost use Rattle.a64_link.specs.Units.{is_call as calls, room, rooms, round_up as up16, size, span, word_count};
ghost use Rattle.a64_link.specs.Layout.{AreSums, AreSymbols, AreStarts, IsUnit, is_far as far, extent};

use crate::error::LinkError;
use crate::unit::{Relocation, Symbol, Unit};
use a64_base::Reloc;
use a64_label_map::LabelMap;
use std::alloc::{AllocError, Global};

/// The longest span, in bytes, over which a branch surely reaches.
pub(crate) const NEAR: u32 = (1 << 27) - 1;

/// The next multiple of 16.
pub(crate) fn round_up(n: u32) -> u32
    requires { n < 2 ^ 32 - 15 }
    ensures { result ≡ up16 n }
{
    (n + 15) / 16 * 16
}

/// Whether a relocation is that of a call.
pub(crate) fn is_call(kind: Reloc) -> bool
    ensures { result ≡ calls kind }
{
    matches!(kind, Reloc::Arm64Call)
}

/// How many relocations are those of calls.
fn count_calls(relocs: &[Relocation]) -> usize
    ensures { result ≡ count_by (λ r. calls r.1) relocs.now }
{
    let mut count = 0;
    for reloc in relocs {
        if is_call(reloc.1) {
            count += 1;
        }
    }
    count
}

/// The bytes that a unit can take, with a thunk for each call, or, where these are 2^31 or more, a
/// number that is too.
pub(crate) fn room_of(unit: &Unit) -> u64
    requires { length unit.now.words.items < 2 ^ 29 }
    ensures { (result ≡ room unit.now) ⊎ ((2 ^ 31 ≤ result) × (2 ^ 31 ≤ room unit.now)) }
{
    let calls = count_calls(&unit.relocs).min(1 << 32) as u64;
    (4 * unit.words.len() as u64 + 20 * calls + 15) / 16 * 16
}

/// The sums of the rooms of the first units: of none, of one, and so on.
///
/// # Errors
///
/// All together have 2^31 bytes or more, or want of memory.
pub(crate) fn room_sums(alloc: Global, units: &[Unit]) -> Result<Vec<u32>, LinkError>
    requires { sum_by word_count units.now < 2 ^ 29 }
    ensures ok { IfOk result (λ sums. AreSums units.now sums.items) }
    ensures err { IfErr result (λ error. (error ≡ OutOfMemory)
        ⊎ ((error ≡ TooLarge) × (2 ^ 31 ≤ rooms units.now))) }
{
    let mut sums = Vec::new(alloc);
    let mut sum: u32 = 0;
    sums.push(sum)?;
    for unit in units {
        let room = room_of(unit);
        if room >= u64::from((1 << 31) - sum) {
            return Err(LinkError::TooLarge);
        }
        sum += room as u32;
        sums.push(sum)?;
    }
    Ok(sums)
}

/// The room of the units from the one to the other, both counted.
fn span_of(units: &[Unit], sums: &[u32], i: usize, j: usize) -> u32
    requires sums { AreSums units.now sums.now }
    requires i { i < length units.now }
    requires j { j < length units.now }
    ensures { result ≡ span units.now i j }
{
    let _ = units;
    sums[i.max(j) + 1] - sums[i.min(j)]
}

/// Whether a relocation of the unit of this number is a call that has a thunk.
pub(crate) fn is_far(
    units: &[Unit],
    sums: &[u32],
    symbols: &LabelMap<Symbol>,
    i: usize,
    reloc: &Relocation,
) -> bool
    requires sums { AreSums units.now sums.now }
    requires symbols { AreSymbols units.now symbols.now }
    requires i { i < length units.now }
    ensures { result ≡ far units.now i reloc.now }
{
    if !is_call(reloc.1) {
        return false;
    }
    match symbols.get(reloc.2.0) {
        Some(symbol) => span_of(units, sums, i, symbol.unit) > NEAR,
        None => false,
    }
}

/// How many bytes the unit of this number takes with its thunks.
fn extent_of(units: &[Unit], sums: &[u32], symbols: &LabelMap<Symbol>, i: usize, unit: &Unit) -> u32
    requires sums { AreSums units.now sums.now }
    requires symbols { AreSymbols units.now symbols.now }
    requires unit { IsUnit units.now i unit.now }
    ensures { result ≡ extent units.now i unit.now }
{
    let mut count: u32 = 0;
    for reloc in unit.relocs.as_slice() {
        if is_far(units, sums, symbols, i, reloc) {
            count += 1;
        }
    }
    4 * unit.words.len() as u32 + 20 * count
}

/// Where units start, and where the last of them ends with its thunks, in bytes.
///
/// # Errors
///
/// Want of memory.
pub(crate) fn starts_of(
    alloc: Global,
    units: &[Unit],
    sums: &[u32],
    symbols: &LabelMap<Symbol>,
) -> Result<(Vec<u32>, u32), AllocError>
    requires sums { AreSums units.now sums.now }
    requires symbols { AreSymbols units.now symbols.now }
    ensures { IfOk result (λ found. AreStarts units.now found.0.items) }
{
    let mut starts = Vec::with_capacity(alloc, units.len())?;
    let mut end: u32 = 0;
    for (i, unit) in units.iter().enumerate() {
        let start = round_up(end);
        starts.push(start)?;
        end = start + extent_of(units, sums, symbols, i, unit);
    }
    Ok((starts, end))
}
