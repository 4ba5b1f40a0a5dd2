//! Uses of labels by the public calls of a buffer of code, without items.

ghost use Rattle.std.specs.Prelude.{◌≡◌, ◌<◌, ◌≤◌, ◌^◌, ◌+◌, ◌*◌, ◌%◌, true, IfOk, OnOk, length};
ghost use Rattle.a64_buffer.specs.Buffer.{end_of};
ghost use Rattle.a64_buffer.specs.Classes.{owed};
ghost use Rattle.a64_buffer.specs.Grown.{MakesRoom};
ghost use Rattle.a64_label_use.specs.LabelUses.{label_kinds};
ghost use Rattle.a64_stream.specs.Uses.{HasUses};

use a64_base::MachLabel;
use a64_buffer::{Constants, Finished, ForceVeneers, MachBuffer};
use a64_emit::LabelUse;
use std::alloc::{AllocError, Global};

/// How many bytes a word that is a use takes, together with what the use may be given in an island.
const ROOM: u32 = 32;

/// The word and the kind of a use: by turns a branch of each range.
fn branch(number: u32) -> (u32, LabelUse)
    ensures { label_kinds.veneers result.1 ≡ true }
{
    match number % 3 {
        0 => (0x3600_0000, LabelUse::Branch14),
        1 => (0x5400_0000, LabelUse::Branch19),
        _ => (0x1400_0000, LabelUse::Branch26),
    }
}

/// The label of a use, of so many uses: by turns one that is bound behind it, and one that is bound
/// before it. They lie scattered over all the code.
fn destination(number: u32, count: u32) -> MachLabel
    requires { number < count }
    ensures last { result.0 ≤ count }
    ensures forward { number % 2 ≡ 0 → number < result.0 }
    ensures backward { number % 2 ≡ 1 → result.0 ≤ number }
{
    let scattered = number.wrapping_mul(0x9e37_79b1) >> 4;
    if number % 2 == 0 {
        MachLabel(number + 1 + scattered % (count - number))
    } else {
        MachLabel(scattered % (number + 1))
    }
}

/// Writes an island where one is needed before the next use.
fn make_room(buffer: &mut MachBuffer<'_, LabelUse>) -> Result<(), AllocError>
    requires { end_of buffer.old + owed label_kinds buffer.old + 4 < 2 ^ 31 }
    ensures { OnOk result (MakesRoom label_kinds 32 buffer.old buffer.new) }
{
    if buffer.island_needed(ROOM) {
        return buffer.emit_island(ROOM, ForceVeneers::No, true);
    }
    Ok(())
}

/// Adds a use at the end, of so many uses.
fn add_use(buffer: &mut MachBuffer<'_, LabelUse>, number: u32, count: u32) -> Result<(), AllocError>
    requires below { number < count }
    requires few { count < 2 ^ 25 }
    requires uses { HasUses count number (number + 1) buffer.old }
    ensures { OnOk result (HasUses count (number + 1) (number + 1) buffer.new) }
{
    make_room(buffer)?;
    let offset = buffer.cur_offset();
    let (word, kind) = branch(number);
    buffer.put4(word)?;
    buffer.use_label_at_offset(offset, destination(number, count), kind)
}

/// Adds so many uses, each behind the label of its number, and the last label.
fn add_uses(buffer: &mut MachBuffer<'_, LabelUse>, count: u32) -> Result<(), AllocError>
    requires few { count < 2 ^ 25 }
    requires uses { HasUses count 0 0 buffer.old }
    ensures { OnOk result (HasUses count count (count + 1) buffer.new) }
{
    for number in 0..count {
        buffer.bind_label(MachLabel(number))?;
        add_use(buffer, number, count)?;
    }
    buffer.bind_label(MachLabel(count))
}

/// The code of so many uses of labels, with islands where they are needed.
///
/// # Errors
///
/// Want of memory.
// A function of its own in the machine code, so that a profiler can tell its share.
#[inline(never)]
pub fn code_of_uses(alloc: Global, count: u32) -> Result<Finished, AllocError>
    requires { count < 2 ^ 25 }
    ensures { IfOk result (λ code. 4 * count ≤ length code.bytes.items) }
{
    let constants = Constants::new(alloc);
    let mut buffer: MachBuffer<'_, LabelUse> = MachBuffer::new(alloc, &constants);
    add_uses(&mut buffer, count)?;
    buffer.finish()
}
