//! Emission of one instruction at a time.

ghost use Rattle.std.specs.Prelude.{◌≡◌, ◌+◌, ◌^◌, ◌<◌, ◌≤◌, All, MatchBool, map, true, None, OnOk, OnErr, IfOk, IfErr};
ghost use Rattle.a64_buffer.specs.Buffer.{end_of, IsBound, IsDirect};
ghost use Rattle.a64_buffer.specs.Classes.{owed};
ghost use Rattle.a64_buffer.specs.Finished.{IsFinished};
ghost use Rattle.a64_emit.specs.Emission.{Binds, IsReady};
ghost use Rattle.a64_emit.specs.Rooms.{most_added, HasRoomFor};
ghost use Rattle.a64_inst.specs.Faults.{inst_fault};
ghost use Rattle.a64_label_use.specs.LabelUses.{label_kinds};
ghost use Rattle.a64_operand.specs.declared.virtuals.VirtualRegisters.TheVariants.{Refused};
ghost use Rattle.a64_operand.specs.Operands.{is_register};
ghost use Rattle.a64_plan.specs.Plans.{plan_of};
ghost use Rattle.a64_inst.specs.Constants.{step_into};
ghost use Rattle.a64_assembler.specs.Assembly.{label_at};
ghost use Rattle.a64_assembler.specs.Numbers.{insts_of};
ghost use Rattle.a64_assembler.specs.Emitting.{begun, EmitsOne, EmitsAll, IsBindCause, IsFinishCause, IsIslandCause, IsLabelCause, IsRoomCause, MakesRoom, WritesIsland};

use crate::constants::VCodeConstants;
use crate::error::EmitterError;
use crate::numbers::WithNumber;
use a64_base::{MachLabel, Reg, UserStackMap, Writable};
use a64_buffer::{Constants, Finished, ForceVeneers, MachBuffer};
use a64_emit::{LabelUse, MachInstEmit, constant_size, room_for};
use a64_inst::{EmitFlags, EmitInfo, EmitState, FrameLayout, Inst};
use std::alloc::Global;
use std::marker::Model;

/// Code is shorter than so many bytes.
const CODE_LIMIT: u64 = 1 << 31;

/// The most labels that there may be.
const MOST: u32 = u32::MAX;

/// Whether the code stays shorter than its limit, with all that the open uses may add, and so many bytes more.
fn is_short(buffer: &MachBuffer<'_, LabelUse>, more: u64) -> bool
    ensures { MatchBool result (end_of buffer.now + owed label_kinds buffer.now + more < 2 ^ 31)
        (2 ^ 31 ≤ end_of buffer.now + owed label_kinds buffer.now + more) }
{
    u64::from(buffer.cur_offset())
        .saturating_add(buffer.owed())
        .saturating_add(more)
        < CODE_LIMIT
}

/// Writes an island, with a jump over it, behind which an instruction has room that the worst cases bound.
///
/// # Errors
///
/// [`EmitterError::TooLarge`], or want of memory. Then nothing has changed.
fn write_island(
    buffer: &mut MachBuffer<'_, LabelUse>,
    force: ForceVeneers,
) -> Result<(), EmitterError>
    ensures ok { OnOk result (WritesIsland force buffer.old buffer.new) }
    ensures err { OnErr result (buffer.new ≡ buffer.old) }
    ensures cause { IfErr result (IsIslandCause buffer.old) }
{
    if !is_short(buffer, 4) {
        return Err(EmitterError::TooLarge);
    }
    let distance = Inst::worst_case_size() + Inst::worst_case_island_growth();
    buffer.emit_island(distance, force, true)?;
    Ok(())
}

/// Makes room for an instruction with which nothing is wrong by itself. Most have room behind an island; where a long
/// one still has none, a second island gives veneers to all uses that wait.
///
/// # Errors
///
/// [`EmitterError::TooLarge`], or want of memory. Islands may have been written.
fn make_room(
    buffer: &mut MachBuffer<'_, LabelUse>,
    inst: &Inst,
    info: &EmitInfo,
    state: &EmitState,
) -> Result<(), EmitterError>
    requires { inst_fault state.now.frame info.now buffer.old.constants Refused inst.now ≡ None }
    ensures ready { OnOk result (IsReady buffer.new state.now.frame info.now inst.now) }
    ensures room { OnOk result (HasRoomFor state.now.frame info.now buffer.new inst.now) }
    ensures made { MakesRoom state.now.frame info.now inst.now buffer.old buffer.new }
    ensures cause { IfErr result (IsRoomCause buffer.old
        (most_added state.now.frame info.now inst.now)) }
{
    if room_for(buffer, inst, info, state) {
        return Ok(());
    }
    write_island(buffer, ForceVeneers::No)?;
    if room_for(buffer, inst, info, state) {
        return Ok(());
    }
    write_island(buffer, ForceVeneers::Yes)?;
    if !room_for(buffer, inst, info, state) {
        return Err(EmitterError::TooLarge);
    }
    Ok(())
}

/// Whether the code can be finished.
///
/// # Errors
///
/// Why it cannot: the first of [`EmitterError::UnboundLabel`], [`EmitterError::OutOfReach`] and
/// [`EmitterError::TooLarge`] that applies.
fn check_whole(buffer: &MachBuffer<'_, LabelUse>) -> Result<(), EmitterError>
    ensures bound { OnOk result (All (IsBound buffer.now.labels) buffer.now.uses) }
    ensures direct { OnOk result (All (IsDirect label_kinds buffer.now.labels) buffer.now.uses) }
    ensures short { OnOk result (end_of buffer.now + owed label_kinds buffer.now < 2 ^ 31) }
    ensures cause { IfErr result (IsFinishCause buffer.now) }
{
    if let Some(label) = buffer.first_unbound() {
        return Err(EmitterError::UnboundLabel(label));
    }
    if let Some(label) = buffer.first_unreached() {
        return Err(EmitterError::OutOfReach(label));
    }
    if !is_short(buffer, 0) {
        return Err(EmitterError::TooLarge);
    }
    Ok(())
}

/// Code to which instructions are emitted one after another, each behind an island where it has no room.
///
/// Calls test each instruction and make room for it: by an island, and where a long one still has none, by a second
/// one for all uses that wait. So `TooLarge` means the size of the code alone, and a client needs no clause on bound
/// labels, at the cost of a byte for each label, since the buffer does not tell which are bound. Want of memory may
/// leave a first part of an instruction, so the emitter is to be dropped then.
#[derive(Drop)]
pub struct Emitter<'c> {
    buffer: MachBuffer<'c, LabelUse>,
    constants: &'c Constants,
    info: EmitInfo,
    state: EmitState,
    /// Of each label that was given out, by its number, whether it is bound.
    bound: Vec<bool>,
}

impl<'c> Model for Emitter<'c> {
    ghost use Rattle.std.specs.Prelude.{ℕ, List, ◌≡◌, ◌^◌, ◌<◌, length};
    ghost use Rattle.std.specs.Ordering.{nat_cmp};
    ghost use Rattle.std.specs.FinMap.{code};
    ghost use Rattle.std.specs.Coded.{codes, coded_ℕ, coded_list};
    ghost use Rattle.a64_assembler.specs.Emitting.{Emission, AreBound};

    ghost Value = { Emission };

    ghost coded = { Prim.hlevel (
      codes,
      code {R = nat_cmp} coded_ℕ coded_ℕ,
      code {R = nat_cmp} coded_ℕ (coded_list coded_ℕ),
    ) };

    ghost view = { λ e. record {
      code = e.buffer;
      flags = e.info;
      state = e.state;
      labels = length e.bound.items;
    } };

    ghost invariant = { λ e. (e.buffer.constants ≡ e.constants.now)
        × AreBound e.bound.items e.buffer.labels
        × (length e.bound.items < 2 ^ 32) };
}

impl<'c> Emitter<'c> {
    /// No code, over the constants that it may load, for a function without a frame, with no setting on. It takes no
    /// memory.
    #[tactic(auto, using(crate::proofs::Marks::none_bound))]
    pub fn new(alloc: Global, constants: &'c VCodeConstants) -> Emitter<'c>
        ensures { result ≡ begun constants.now.constants }
    {
        let constants = constants.constants();
        Emitter {
            buffer: MachBuffer::new(alloc, constants),
            constants,
            info: EmitInfo::new(EmitFlags::none()),
            state: EmitState::new(FrameLayout::none(alloc)),
            bound: Vec::new(alloc),
        }
    }

    /// Sets the frame of the function that the code is. A stack map that was kept is dropped.
    pub fn set_frame(&mut self, frame: FrameLayout)
        ensures { self.new ≡ record self.old { state = record { frame = frame; map = None } } }
    {
        self.state = EmitState::new(frame);
    }

    /// Sets the settings.
    pub fn set_flags(&mut self, flags: EmitFlags)
        ensures { self.new ≡ record self.old { flags = flags } }
    {
        self.info = EmitInfo::new(flags);
    }

    /// Keeps a stack map for the next instruction, or none (Cranelift's `EmitState::pre_safepoint`).
    pub fn pre_safepoint(&mut self, map: Option<UserStackMap>)
        ensures { self.new ≡ record self.old { state = record self.old.state { map = map } } }
    {
        self.state.pre_safepoint(map);
    }

    /// A label that was not given before.
    ///
    /// # Errors
    ///
    /// [`EmitterError::TooMany`], or want of memory. Then nothing has changed.
    #[tactic(auto, using(crate::proofs::Marks::one_given))]
    pub fn new_label(&mut self) -> Result<MachLabel, EmitterError>
        ensures ok { IfOk result (λ label. label ≡ label_at self.old.labels) }
        ensures given { OnOk result (self.new ≡ record self.old { labels = self.old.labels + 1 }) }
        ensures err { OnErr result (self.new ≡ self.old) }
        ensures cause { IfErr result (IsLabelCause self.old) }
    {
        let count = self.bound.len();
        if count >= MOST as usize {
            return Err(EmitterError::TooMany);
        }
        self.bound.push(false)?;
        Ok(MachLabel(count as u32))
    }

    /// Binds a label that was given out, and is not bound yet, to the end.
    ///
    /// # Errors
    ///
    /// [`EmitterError::UnknownLabel`], [`EmitterError::LabelBoundTwice`], or want of memory. Then nothing has
    /// changed.
    #[tactic(auto, using(crate::proofs::Marks::one_bound))]
    pub fn bind(&mut self, label: MachLabel) -> Result<(), EmitterError>
        ensures ok { OnOk result (Binds label self.old.code self.new.code) }
        ensures rest { OnOk result (self.new ≡ record self.old { code = self.new.code }) }
        ensures err { OnErr result (self.new ≡ self.old) }
        ensures cause { IfErr result (IsBindCause label self.old) }
    {
        let index = label.0 as usize;
        if index >= self.bound.len() {
            return Err(EmitterError::UnknownLabel(label));
        }
        if self.bound[index] {
            return Err(EmitterError::LabelBoundTwice(label));
        }
        self.buffer.bind_label(label)?;
        self.bound[index] = true;
        Ok(())
    }

    /// Puts an instruction at the end, behind an island where it has no room.
    ///
    /// # Errors
    ///
    /// [`EmitterError::BadInstruction`], and then nothing has changed; [`EmitterError::TooLarge`], and then islands may
    /// have been written; or want of memory, after which the emitter is to be dropped, since the code may hold a first
    /// part of the instruction.
    #[tactic(auto, using(crate::proofs::MadeRooms::labels_stay, crate::proofs::MadeRooms::constants_stay, crate::proofs::MadeRooms::put_labels, crate::proofs::MadeRooms::put_constants))]
    pub fn emit(&mut self, inst: &Inst) -> Result<(), EmitterError>
        ensures { EmitsOne inst.now result self.old self.new }
    {
        let size = constant_size(inst, self.constants);
        inst.check(self.state.frame_layout(), &self.info, size)?;
        make_room(&mut self.buffer, inst, &self.info, &self.state)?;
        inst.emit(&mut self.buffer, &self.info, &mut self.state)?;
        Ok(())
    }

    /// Puts instructions at the end, one after another, as [`Emitter::emit`] does.
    ///
    /// # Errors
    ///
    /// As of [`Emitter::emit`], of the first that is refused. Those before it stand.
    pub fn emit_all(&mut self, insts: &[Inst]) -> Result<(), EmitterError>
        ensures { EmitsAll insts.now result self.old self.new }
    {
        for inst in insts {
            self.emit(inst)?;
        }
        Ok(())
    }

    /// Puts the moves at the end that give a value to a register from x0 to x30: the shortest ones, of which there are
    /// at most four.
    ///
    /// # Errors
    ///
    /// As of [`Emitter::emit_all`].
    pub fn load_constant(&mut self, rd: Writable<Reg>, value: u64) -> Result<(), EmitterError>
        requires { is_register Refused rd ≡ true }
        ensures { EmitsAll (map (step_into rd) (plan_of value)) result self.old self.new }
    {
        let insts = Inst::load_constant(*self.bound.allocator(), rd, value)?;
        self.emit_all(insts.as_slice())
    }

    /// Puts an operation at the end, with what stands before it.
    ///
    /// # Errors
    ///
    /// As of [`Emitter::emit_all`].
    pub fn emit_with_number(&mut self, insts: &WithNumber) -> Result<(), EmitterError>
        ensures { EmitsAll (insts_of insts.now) result self.old self.new }
    {
        self.emit_all(insts.before.as_slice())?;
        self.emit(&insts.operation)
    }

    /// Where the next word will stand, in bytes from the start of the code.
    pub fn offset(&self) -> u32
        ensures { result ≡ end_of self.now.code }
    {
        self.buffer.cur_offset()
    }

    /// The finished code: each word stands where it was put, and each use leads to its target.
    ///
    /// # Errors
    ///
    /// [`EmitterError::UnboundLabel`], [`EmitterError::OutOfReach`], [`EmitterError::TooLarge`], or want of memory.
    pub fn finish(self) -> Result<Finished, EmitterError>
        ensures ok { IfOk result (λ code. IsFinished label_kinds self.entry.code code) }
        ensures err { IfErr result (IsFinishCause self.entry.code) }
    {
        check_whole(&self.buffer)?;
        Ok(self.buffer.finish()?)
    }
}
