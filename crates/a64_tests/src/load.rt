//! Many short branches before a long item, and a long item behind a far branch, over kinds of short
//! ranges. Each word of the finished code is held against a plain model.

ghost use Rattle.std.specs.Prelude.{◌≡◌, ◌+◌, ◌%◌, ◌^◌, ◌<◌, ◌≤◌, true, OnOk, length};
ghost use Rattle.a64_buffer.specs.declared.site.Target.TheVariants.{Label};
ghost use Rattle.a64_buffer.specs.Buffer.{end_of};
ghost use Rattle.a64_buffer.specs.Classes.{owed};
ghost use Rattle.a64_buffer.specs.Grown.{MakesRoom, AddsUse, IsGrown};

use crate::short_use::ShortUse;
use a64_base::MachLabel;
use a64_buffer::{Constants, Finished, ForceVeneers, MachBuffer, MachInstLabelUse};
use std::alloc::{AllocError, Global};

/// Writes an island where one is needed before so many bytes.
fn make_room<K: MachInstLabelUse>(
    buffer: &mut MachBuffer<'_, K>,
    distance: u32,
) -> Result<(), AllocError>
    requires { end_of buffer.old + owed K.kinds buffer.old + 4 < 2 ^ 31 }
    ensures { OnOk result (MakesRoom K.kinds distance buffer.old buffer.new) }
{
    if buffer.island_needed(distance) {
        return buffer.emit_island(distance, ForceVeneers::No, true);
    }
    Ok(())
}

/// Adds a word that is a use of a label, behind an island where one is needed.
fn add_use<K: MachInstLabelUse>(
    buffer: &mut MachBuffer<'_, K>,
    word: u32,
    label: MachLabel,
    kind: K,
) -> Result<(), AllocError>
    requires short { end_of buffer.old + owed K.kinds buffer.old + 8 < 2 ^ 31 }
    requires ranges { 36 ≤ K.kinds.range 1 }
    ensures { OnOk result (AddsUse K.kinds word (Label label) kind buffer.old buffer.new) }
{
    make_room(buffer, 32)?;
    let offset = buffer.cur_offset();
    buffer.put4(word)?;
    buffer.use_label_at_offset(offset, label, kind)
}

/// Adds uses of a label behind them, and a long item before that.
fn add_uses_and_item<K: MachInstLabelUse>(
    buffer: &mut MachBuffer<'_, K>,
    word: u32,
    kind: K,
    uses: u32,
    item: &[u8],
) -> Result<(), AllocError>
    requires grown { IsGrown K.kinds 0 0 1 0 buffer.old }
    requires ranges { 36 ≤ K.kinds.range 1 }
    requires veneers { K.kinds.veneers kind ≡ true }
    requires uses { uses ≤ 60 }
    requires words { length item.now % 4 ≡ 0 }
    requires item { length item.now ≤ 4096 }
    ensures { OnOk result (IsGrown K.kinds 0 10000 1 1 buffer.new) }
{
    for _use in 0..uses {
        add_use(buffer, word, MachLabel(0), kind)?;
    }
    make_room(buffer, item.len() as u32)?;
    buffer.put_data(item)?;
    buffer.bind_label(MachLabel(0))
}

/// The finished code of uses of a label, of an item of so many bytes 7, and of the label behind it.
fn code_of<K: MachInstLabelUse>(
    alloc: Global,
    word: u32,
    kind: K,
    uses: u32,
    item_bytes: usize,
) -> Result<Finished, AllocError>
    requires ranges { 36 ≤ K.kinds.range 1 }
    requires veneers { K.kinds.veneers kind ≡ true }
    requires uses { uses ≤ 60 }
    requires words { item_bytes % 4 ≡ 0 }
    requires item { item_bytes ≤ 4096 }
{
    let constants = Constants::new(alloc);
    let mut buffer = MachBuffer::new(alloc, &constants);
    let item = vec![in alloc; 7_u8; item_bytes]?;
    add_uses_and_item(&mut buffer, word, kind, uses, &item)?;
    // what is true of every buffer is told where its end is
    let _end = buffer.cur_offset();
    buffer.finish()
}

/// Adds a word at the end so many times, with its least byte first.
fn add_words(bytes: &mut Vec<u8>, word: u32, count: usize) -> Result<(), AllocError> {
    for _ in 0..count {
        bytes.extend_from_slice(&word.to_le_bytes())?;
    }
    Ok(())
}

/// A word of sixty short branches with islands between them: twelve branches, a jump over the
/// island behind them, and the island, in which each branch has a jump to the label.
fn crowded_word(place: u32) -> u32
    requires { place < 800 }
{
    match place % 100 {
        0..48 => 0x3600_01a0,
        48 => 0x1400_000d,
        _ => 0x1400_0000 + (800 - place) / 4,
    }
}

#[test]
fn sixty_short_branches_before_a_long_item(rt: HostRuntime) -> Result<(), AllocError> {
    let alloc = rt.alloc();
    let code = code_of(alloc, 0x3600_0000, ShortUse::Near, 60, 300)?;
    let mut bytes = Vec::new(alloc);
    for i in 0..125 {
        add_words(&mut bytes, crowded_word(4 * i), 1)?;
    }
    add_words(&mut bytes, 0x0707_0707, 75)?;
    assert_eq!(rt; code.bytes, bytes);
    let islands = [(48, 100), (148, 200), (248, 300), (348, 400), (448, 500)];
    assert_eq!(rt; code.islands.as_slice(), islands.as_slice());
    assert_eq!(rt; code.labels.as_slice(), [(MachLabel(0), 800)].as_slice());
    assert_eq!(rt; code.pool, 800);
    Ok(())
}

#[test]
fn a_long_item_behind_a_far_use(rt: HostRuntime) -> Result<(), AllocError> {
    let alloc = rt.alloc();
    let code = code_of(alloc, 0x1400_0000, ShortUse::Far, 1, 4096)?;
    let mut bytes = Vec::new(alloc);
    // the use leads to its far veneer, behind the jump over the island
    for word in [
        0x1400_0002,
        0x1400_0006,
        0xf000_0001,
        0xf000_0002,
        0xf000_0003,
        0xf000_0004,
        4100,
    ] {
        add_words(&mut bytes, word, 1)?;
    }
    add_words(&mut bytes, 0x0707_0707, 1024)?;
    assert_eq!(rt; code.bytes, bytes);
    assert_eq!(rt; code.islands.as_slice(), [(4, 28)].as_slice());
    assert_eq!(rt; code.labels.as_slice(), [(MachLabel(0), 4124)].as_slice());
    assert_eq!(rt; code.pool, 4124);
    Ok(())
}
