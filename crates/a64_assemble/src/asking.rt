//! Islands that are asked for.

ghost use Rattle.std.specs.Prelude.{◌≡◌, ◌⊎◌, ◌+◌, ◌-◌, ◌^◌, ◌<◌, OnOk, MatchBool};
ghost use Rattle.a64_buffer.specs.Buffer.{end_of};
ghost use Rattle.a64_buffer.specs.Classes.{owed, Fits};
ghost use Rattle.a64_buffer.specs.declared.force.ForceVeneers.TheVariants.{Yes};
ghost use Rattle.a64_label_use.specs.LabelUses.{label_kinds};
ghost use Rattle.a64_assemble.specs.Asks.{Asks};

use a64_buffer::{ForceVeneers, MachBuffer};
use a64_emit::LabelUse;
use std::alloc::AllocError;

/// Whether an island is to be written before so many bytes more: one is needed, or it is forced and
/// some use waits.
fn is_asked(buffer: &MachBuffer<'_, LabelUse>, distance: u32, force: ForceVeneers) -> bool
    ensures asked { MatchBool result
        ((Fits label_kinds buffer.now distance → ⊥)
        ⊎ ((force ≡ Yes) × (Fits label_kinds buffer.now (2 ^ 32 - 1) → ⊥)))
        (Fits label_kinds buffer.now distance
        × (force ≡ Yes → Fits label_kinds buffer.now (2 ^ 32 - 1))) }
{
    if buffer.island_needed(distance) {
        return true;
    }
    match force {
        ForceVeneers::No => false,
        ForceVeneers::Yes => buffer.island_needed(u32::MAX),
    }
}

/// Writes an island, where one is needed before so many bytes more, or is asked for by force and some
/// use waits. An island that comes gives veneers to all far uses where `force` says so, else by need, and begins
/// with a jump where one is asked for.
///
/// # Errors
///
/// Want of memory.
pub fn ask(
    buffer: &mut MachBuffer<'_, LabelUse>,
    distance: u32,
    asked: ForceVeneers,
    force: ForceVeneers,
    jump: bool,
) -> Result<(), AllocError>
    requires short { end_of buffer.old + owed label_kinds buffer.old + 4 < 2 ^ 31 }
    ensures { OnOk result (Asks distance asked force jump buffer.old buffer.new) }
{
    let _end = buffer.cur_offset();
    if is_asked(buffer, distance, asked) {
        return buffer.emit_island(distance, force, jump);
    }
    Ok(())
}
