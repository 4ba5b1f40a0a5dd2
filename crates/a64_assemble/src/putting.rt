//! Items in a buffer that writes islands.

ghost use Rattle.std.specs.Prelude.{◌≡◌, ◌≢◌, ◌+◌, ◌^◌, ◌<◌, ◌≤◌, true, None, [], IfOk, OnOk};
ghost use Rattle.std.specs.FinMap.{empty};
ghost use Rattle.a64_inst.specs.declared.item.Item.TheVariants.{Emit};
ghost use Rattle.a64_operand.specs.declared.virtuals.VirtualRegisters.TheVariants.{Refused};
ghost use Rattle.a64_inst.specs.Faults.{inst_fault};
ghost use Rattle.a64_buffer.specs.Buffer.{end_of, no_records};
ghost use Rattle.a64_buffer.specs.Classes.{owed};
ghost use Rattle.a64_buffer.specs.Constants.{AreConstants};
ghost use Rattle.a64_emit.specs.Bounds as bounds;
ghost use Rattle.a64_emit.specs.Bounds.{whole};
ghost use Rattle.a64_emit.specs.Falls.{inst_falls};
ghost use Rattle.a64_emit.specs.Faults.{own_fault, second_binding};
ghost use Rattle.a64_label_use.specs.LabelUses.{label_kinds};
ghost use Rattle.a64_assemble.specs.Asks.{AsksNext, MayMove, Moves, NeedsNone};
ghost use Rattle.a64_assemble.specs.Elements as elements;
ghost use Rattle.a64_assemble.specs.Elements.{BoundsRooms, element_of, elements_of, room_of, whole_in};
ghost use Rattle.a64_assemble.specs.Made.{HasPutAll};
ghost use Rattle.a64_assemble.specs.Progress.{AreQuiet};

use crate::ahead::next_room;
use crate::asking::ask;
use a64_base::UserStackMap;
use a64_buffer::{ForceVeneers, MachBuffer};
use a64_emit::{LabelUse, MachInstEmit, asked_space, falls};
use a64_inst::{EmitInfo, EmitState, FrameLayout, Inst, Item};
use std::alloc::{AllocError, Global};

/// How items are put, which is one for all of them.
#[derive(Clone, Copy)]
pub struct Putting<'a> {
    /// The settings of emission.
    pub info: &'a EmitInfo,
    /// Whether each island gives veneers to all far uses.
    pub force: ForceVeneers,
    /// Whether the items are quiet: behind none of them an island is asked for. They are where nothing can want
    /// one, or where none is forced and the whole is below the shortest range; it is told once, from sums that the
    /// checks have.
    pub quiet: bool,
    /// The most bytes that the next words need behind any item. Only where an open use does not reach past so
    /// many is it looked at what comes next: a look at each next item takes some 24 machine instructions more for
    /// an item of mixed code, and the bound costs nothing while it is found.
    pub widest: u32,
}

/// Emits an instruction at the end of a buffer, which is its place; where it has words, an island comes behind them where the
/// next words need one, and gives veneers to all far uses where islands are forced. In quiet code none
/// comes. The next words need no more than `widest` bytes, so that the rest is
/// looked at only where an island is needed before so many.
///
/// # Errors
///
/// Want of memory.
#[inline(always)]
fn put_inst(
    inst: &Inst,
    rest: &[Item],
    place: u32,
    buffer: &mut MachBuffer<'_, LabelUse>,
    state: &mut EmitState,
    how: &Putting<'_>,
) -> Result<(), AllocError>
    requires place { place ≡ end_of buffer.old }
    requires good { inst_fault state.old.frame how.now.info.now buffer.old.constants Refused
        inst.now ≡ None }
    requires may { MayMove
        (element_of state.old.frame how.now.info.now (Emit inst.now state.old.map))
        (elements_of state.old.frame how.now.info.now rest.now) buffer.old }
    requires asked { bounds.asked_of inst.now ≡ None }
    requires wide { room_of (elements_of state.old.frame how.now.info.now rest.now)
        ≤ how.now.widest }
    requires quiet { how.now.quiet ≡ true → NeedsNone how.now.force
        (element_of state.old.frame how.now.info.now (Emit inst.now state.old.map))
        (elements_of state.old.frame how.now.info.now rest.now) buffer.old }
    ensures buffer { OnOk result (Moves how.now.force
        (element_of state.old.frame how.now.info.now (Emit inst.now state.old.map))
        (elements_of state.old.frame how.now.info.now rest.now) buffer.old buffer.new) }
    ensures frame { OnOk result (state.new.frame ≡ state.old.frame) }
{
    inst.emit(buffer, how.info, state)?;
    let _end = buffer.cur_offset();
    if how.quiet || !buffer.island_needed(how.widest) {
        return Ok(());
    }
    let frame = state.frame_layout();
    ask_behind(inst, place, rest, buffer, how.info, frame, how.force)
}

/// Writes an island behind the words of an instruction, which begin at `start`, a place in bytes from the
/// start of the code, where the next words need one. An island that comes gives veneers to all far uses
/// where `force` says so, else by need, and begins with a jump where execution may go on behind the
/// instruction. None comes where no word was put behind `start`, nor where no words follow. Stands out of
/// line, since few instructions come so near to what an open use reaches.
///
/// # Errors
///
/// Want of memory.
#[inline(never)]
fn ask_behind(
    inst: &Inst,
    start: u32,
    rest: &[Item],
    buffer: &mut MachBuffer<'_, LabelUse>,
    info: &EmitInfo,
    frame: &FrameLayout,
    force: ForceVeneers,
) -> Result<(), AllocError>
    requires whole { whole_in (elements_of frame.now info.now rest.now) < 2 ^ 31 }
    requires short { start ≢ end_of buffer.old
        → end_of buffer.old + owed label_kinds buffer.old + 4 < 2 ^ 31 }
    ensures without { OnOk result (start ≡ end_of buffer.old → buffer.new ≡ buffer.old) }
    ensures behind { OnOk result (start ≢ end_of buffer.old →
        AsksNext force (inst_falls inst.now)
        (elements.next_room (elements_of frame.now info.now rest.now)) buffer.old buffer.new) }
{
    if buffer.cur_offset() == start {
        return Ok(());
    }
    match next_room(rest, frame, info) {
        Some(distance) => ask(buffer, distance, ForceVeneers::No, force, falls(inst)),
        None => Ok(()),
    }
}

/// Puts an instruction at the end of a buffer, which is its place, and an island behind it where what follows needs one, or
/// where it asks for one. In quiet code none is needed, nor forced. The next words need no more than `widest` bytes.
///
/// # Errors
///
/// Want of memory.
#[inline(always)]
fn put_emitted(
    inst: &Inst,
    map: Option<UserStackMap>,
    rest: &[Item],
    place: u32,
    buffer: &mut MachBuffer<'_, LabelUse>,
    state: &mut EmitState,
    how: &Putting<'_>,
) -> Result<(), AllocError>
    requires place { place ≡ end_of buffer.old }
    requires good { inst_fault state.old.frame how.now.info.now buffer.old.constants Refused
        inst.now ≡ None }
    requires may { MayMove (element_of state.old.frame how.now.info.now (Emit inst.now map))
        (elements_of state.old.frame how.now.info.now rest.now) buffer.old }
    requires wide { room_of (elements_of state.old.frame how.now.info.now rest.now)
        ≤ how.now.widest }
    requires quiet { how.now.quiet ≡ true → NeedsNone how.now.force
        (element_of state.old.frame how.now.info.now (Emit inst.now map))
        (elements_of state.old.frame how.now.info.now rest.now) buffer.old }
    ensures buffer { OnOk result (Moves how.now.force
        (element_of state.old.frame how.now.info.now (Emit inst.now map))
        (elements_of state.old.frame how.now.info.now rest.now) buffer.old buffer.new) }
    ensures frame { OnOk result (state.new.frame ≡ state.old.frame) }
{
    if let Some(space) = asked_space(inst) {
        return ask(buffer, space, how.force, how.force, true);
    }
    state.pre_safepoint(map);
    put_inst(inst, rest, place, buffer, state, how)
}

/// Puts items one after another into a buffer without code, with islands between them, and answers their
/// places. Labels are bound here, and instructions put by a call: with one way for both, each item of mixed code
/// takes some 9 machine instructions more, since each arm has its own way out on want of memory.
///
/// # Errors
///
/// Want of memory.
pub fn put_items(
    alloc: Global,
    items: &[Item],
    buffer: &mut MachBuffer<'_, LabelUse>,
    state: &mut EmitState,
    how: &Putting<'_>,
) -> Result<Vec<u32>, AllocError>
    requires words { buffer.old.words ≡ [] }
    requires uses { buffer.old.uses ≡ [] }
    requires labels { buffer.old.labels ≡ empty }
    requires islands { buffer.old.islands ≡ [] }
    requires traps { buffer.old.traps ≡ [] }
    requires records { buffer.old.records ≡ no_records }
    requires good { own_fault state.old.frame how.now.info.now buffer.old.constants items.now
        ≡ None }
    requires once { second_binding items.now ≡ None }
    requires short { whole state.old.frame how.now.info.now items.now < 2 ^ 31 }
    requires wide { BoundsRooms how.now.widest
        (elements_of state.old.frame how.now.info.now items.now) }
    requires quiet { how.now.quiet ≡ true → AreQuiet how.now.force
        (elements_of state.old.frame how.now.info.now items.now) }
    ensures put { IfOk result (λ places. HasPutAll how.now.force
        (elements_of state.old.frame how.now.info.now items.now) places.items buffer.new) }
    ensures constants { OnOk result (buffer.new.constants ≡ buffer.old.constants) }
    ensures sized { OnOk result (AreConstants buffer.old.constants) }
{
    let mut places = Vec::with_capacity(alloc, items.len())?;
    let mut place = buffer.cur_offset();
    for index in 0..items.len() {
        places.push_reserved(place);
        let item = &items[index];
        match item {
            Item::Bind(label) => buffer.bind_label(*label)?,
            Item::Emit { inst, map } => {
                put_emitted(inst, *map, &items[index + 1..], place, buffer, state, how)?
            }
        }
        place = buffer.cur_offset();
    }
    Ok(places)
}
