//! Whether there is room for an instruction.

ghost use Rattle.std.specs.Prelude.{◌≡◌, MatchBool, None, true};
ghost use Rattle.a64_operand.specs.declared.virtuals.VirtualRegisters.TheVariants.{Refused};
ghost use Rattle.a64_inst.specs.Faults.{inst_fault};
ghost use Rattle.a64_emit.specs.Emission.{IsReady};
ghost use Rattle.a64_emit.specs.Rooms.{HasRoomFor};

use crate::extent::{asked_space, most_added};
use a64_buffer::MachBuffer;
use a64_inst::{EmitInfo, EmitState, Inst};
use a64_label_use::LabelUse;

/// Code is shorter than so many bytes.
const CODE_LIMIT: u64 = 1 << 31;

/// Whether there is room for an instruction at the end of a buffer, so that
/// [`emit`](crate::MachInstEmit::emit) may be called, where nothing is wrong with the instruction by itself.
/// It takes no memory, and time for the registers that a return or a call restores at most.
///
/// It goes by the worst case: `false` says that the code could reach 2^31 bytes, with all that the
/// instruction and the open uses may add; or that some open use might no longer reach what an island gives
/// it, if that came behind the instruction. Then an island makes room, by
/// [`emit_island`](MachBuffer::emit_island). A place for an island needs room for that alone.
pub fn room_for(
    sink: &MachBuffer<'_, LabelUse>,
    inst: &Inst,
    info: &EmitInfo,
    state: &EmitState,
) -> bool
    ensures worst { MatchBool result (HasRoomFor state.now.frame info.now sink.now inst.now)
        (HasRoomFor state.now.frame info.now sink.now inst.now → ⊥) }
    ensures ready { result ≡ true
        → inst_fault state.now.frame info.now sink.now.constants Refused inst.now ≡ None
        → IsReady sink.now state.now.frame info.now inst.now }
{
    let added = most_added(inst, state.frame_layout(), info);
    let longest = u64::from(sink.cur_offset())
        .saturating_add(sink.owed())
        .saturating_add(added);
    if longest >= CODE_LIMIT {
        return false;
    }
    match asked_space(inst) {
        Some(_) => true,
        None => !sink.island_needed(added as u32),
    }
}
