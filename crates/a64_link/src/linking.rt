//! Puts units behind each other.

ghost use Rattle.std.specs.Prelude.{◌≡◌, ◌+◌, ◌*◌, ◌/◌, ◌%◌, ◌-◌, ◌<◌, ◌≤◌, ◌^◌, ◌+ℤ◌, ◌⊎◌, pos, length, take, OnOk, IfOk, IfErr, get_or};
ghost use Rattle.std.specs.List.{count_by};
ghost use Rattle.a64_imms.specs.Offsets.{residue};
ghost use Rattle.a64_words.specs.Word.{signed};
ghost use Rattle.a64_buffer.specs.Kinds.{IsWithin};
ghost use Rattle.a64_label_use.specs.FarJumps.{LeadFar};
ghost use Rattle.a64_link.specs.declared.error.LinkError.TheVariants.{TooLarge, OutOfMemory};
ghost use Rattle.a64_link.specs.Units.{size, rooms};
ghost use Rattle.a64_link.specs.Layout.{IsUnit, AreSymbols, AreStarts, is_far as far, end_before, thunk_of, start_of};
ghost use Rattle.a64_link.specs.Linking.{IsPlan, AreLinkable, IsReloc, IsBranch, IsLed, IsThunkPut, IsAddressPut, IsPut, StandsSoFar, IsUnitPut, AreLinked};

use crate::layout::{is_call, is_far};
use crate::unit::{Relocation, Symbol, Unit};
use a64_buffer::MachInstLabelUse;
use a64_label_map::LabelMap;
use a64_label_use::LabelUse;
use std::alloc::{AllocError, Global};

/// What is known of units before their words are put.
#[derive(Clone, Copy)]
pub(crate) struct Plan<'a> {
    /// The units, in order.
    pub units: &'a [Unit],
    /// The address of place 0, in bytes.
    pub base: u64,
    /// The room of the first units, for each number of them, in bytes.
    pub sums: &'a [u32],
    /// What each symbol names that a unit defines.
    pub symbols: &'a LabelMap<Symbol>,
    /// Where each unit starts, in bytes from the start of the code.
    pub starts: &'a [u32],
}

/// The word of a branch at a place, made to lead to another place.
fn led(word: u32, place: u32, goal: u32) -> u32
    requires aligned { goal % 4 ≡ place % 4 }
    requires within { IsWithin (2 ^ 27 - 1) (2 ^ 27) place goal }
    ensures { IsBranch word result place goal }
{
    let mut bytes = word.to_le_bytes();
    LabelUse::Branch26.patch(&mut bytes, place, goal);
    u32::from_le_bytes(bytes)
}

/// The last word of a far veneer, at its place, that leads to another place.
fn far_word(place: u32, goal: u32) -> u32
    requires place { place < 2 ^ 31 }
    requires goal { goal < 2 ^ 31 }
    ensures says { pos place +ℤ signed 32 result ≡ pos goal }
    ensures runs { LeadFar place result goal }
{
    let mut bytes = [0; 4];
    LabelUse::PCRel32.patch(&mut bytes, place, goal);
    u32::from_le_bytes(bytes)
}

/// Makes a branch lead from its place to another.
fn lead(words: &mut [u32], at: usize, place: u32, goal: u32)
    requires at { at < length words.old }
    requires aligned { goal % 4 ≡ place % 4 }
    requires within { IsWithin (2 ^ 27 - 1) (2 ^ 27) place goal }
    ensures { IsLed words.old words.new at place goal }
{
    words[at] = led(words[at], place, goal);
}

/// Puts a thunk behind words.
fn put_thunk(words: &mut Vec<u32>, goal: u32) -> Result<(), AllocError>
    requires room { 4 * length words.old.items + 20 ≤ 2 ^ 31 }
    requires goal { goal < 2 ^ 31 }
    ensures { OnOk result (IsThunkPut words.old.items words.new.items goal) }
{
    let last = far_word(4 * words.len() as u32 + 16, goal);
    words.push(0x9800_0090)?;
    words.push(0x1000_0071)?;
    words.push(0x8b11_0210)?;
    words.push(0xd61f_0200)?;
    words.push(last)?;
    Ok(())
}

/// The number that stands where an address is asked for, modulo 2^64.
fn address(base: u64, goal: u32, addend: i64) -> u64
    ensures { result ≡ residue (2 ^ 64) (pos (base + goal) +ℤ addend) }
{
    base.wrapping_add(u64::from(goal))
        .wrapping_add_signed(addend)
}

/// Puts an address into two words, the lower half first.
fn put_address(words: &mut [u32], at: usize, value: u64)
    requires { at + 1 < length words.old }
    ensures { IsAddressPut words.old words.new at value }
{
    words[at] = (value & 0xffff_ffff) as u32;
    words[at + 1] = (value >> 32) as u32;
}

/// Puts what a relocation of the unit of this number asks for.
fn put_reloc(
    words: &mut Vec<u32>,
    plan: &Plan<'_>,
    i: usize,
    unit: &Unit,
    k: usize,
    reloc: &Relocation,
) -> Result<(), AllocError>
    requires plan { IsPlan plan.now.units.now plan.now.sums.now plan.now.symbols.now
        plan.now.starts.now }
    requires unit { IsUnit plan.now.units.now i unit.now }
    requires reloc { IsReloc unit.now k reloc.now }
    requires behind { 4 * length words.old.items
        ≡ thunk_of plan.now.units.now plan.now.starts.now i unit.now k }
    ensures { OnOk result (IsPut plan.now.units.now plan.now.base plan.now.starts.now i reloc.now
        words.old.items words.new.items) }
{
    let _ = unit;
    let _ = k;
    let Some(symbol) = plan.symbols.get(reloc.2.0) else {
        unreachable!()
    };
    let goal = plan.starts[symbol.unit] + symbol.place;
    let place = plan.starts[i] + reloc.0;
    let at = (place / 4) as usize;
    if !is_call(reloc.1) {
        put_address(words, at, address(plan.base, goal, reloc.3));
        return Ok(());
    }
    if is_far(plan.units, plan.sums, plan.symbols, i, reloc) {
        let thunk = 4 * words.len() as u32;
        put_thunk(words, goal)?;
        lead(words, at, place, thunk);
        return Ok(());
    }
    lead(words, at, place, goal);
    Ok(())
}

/// Puts a unit behind those before it: zeros up to its start, its words, and its thunks.
fn put_unit(words: &mut Vec<u32>, plan: &Plan<'_>, i: usize, unit: &Unit) -> Result<(), AllocError>
    requires plan { IsPlan plan.now.units.now plan.now.sums.now plan.now.symbols.now
        plan.now.starts.now }
    requires unit { IsUnit plan.now.units.now i unit.now }
    requires behind { 4 * length words.old.items
        ≡ end_before plan.now.units.now plan.now.starts.now i }
    ensures { OnOk result (IsUnitPut plan.now.units.now plan.now.base plan.now.starts.now i
        unit.now words.old.items words.new.items (length unit.now.relocs.items)) }
{
    words.resize((plan.starts[i] / 4) as usize, 0)?;
    words.extend_from_slice(&unit.words)?;
    for (k, reloc) in unit.relocs.iter().enumerate() {
        put_reloc(words, plan, i, unit, k, reloc)?;
    }
    Ok(())
}

/// The words of linked units, which end at a place in bytes. Memory for all of them is taken at
/// once.
///
/// # Errors
///
/// Want of memory.
pub(crate) fn link_words(alloc: Global, plan: &Plan<'_>, end: u32) -> Result<Vec<u32>, AllocError>
    requires { IsPlan plan.now.units.now plan.now.sums.now plan.now.symbols.now
        plan.now.starts.now }
    ensures { IfOk result (λ words. AreLinked plan.now.units.now plan.now.base
        plan.now.starts.now words.items (length plan.now.units.now)) }
{
    let mut words = Vec::with_capacity(alloc, (end / 4) as usize)?;
    for (i, unit) in plan.units.iter().enumerate() {
        put_unit(&mut words, plan, i, unit)?;
    }
    Ok(words)
}
