//! Emission of single instructions.
//!
//! Branches are put out of line, each kind by a function of its own, with larger operands by reference: a
//! function clears the room of its values and saves registers when it begins. In one function for all, each
//! branch would pay for what the others need.

ghost use Rattle.std.specs.Prelude.{◌≡◌, ◌≢◌, ◌⊎◌, ◌+◌, ◌*◌, ◌/◌, ◌%◌, ◌^◌, ◌<◌, ◌≤◌, Bool, List, [], ◌∷◌, ◌++◌, length, map, OnOk, OnErr, IfSome, IsSome, true, None, Some};
ghost use Rattle.a64_inst.specs.declared.group.Group.TheVariants.{Call, Control, Memory};
ghost use Rattle.a64_inst.specs.declared.emission.EmitFlags.{EmitFlags};
ghost use Rattle.a64_operand.specs.declared.virtuals.VirtualRegisters.TheVariants.{Refused};
ghost use Rattle.a64_inst.specs.Faults.{has_operands, has_mode};
ghost use Rattle.a64_inst.specs.ControlOperands.{are_cond_br_operands, are_jump_operands, are_test_bit_operands, is_test};
ghost use Rattle.a64_operand.specs.Operands.{is_register_or_zero};
ghost use Rattle.a64_inst.specs.Groups.{group_of};
ghost use Rattle.a64_inst.specs.State.{State};
ghost use Rattle.a64_buffer.specs.Buffer.{Buffer, end_of};
ghost use Rattle.a64_buffer.specs.Classes.{Fits};
ghost use Rattle.a64_label_use.specs.declared.label_use.LabelUse.{LabelUse};
ghost use Rattle.a64_emit.specs.Bounds.{asked_of, charge_of, size_of};
ghost use Rattle.a64_cells.specs.Shapes as shapes;
ghost use Rattle.a64_cells.specs.Shapes.{Cell, Data, data_cell, plain, reloc_cell};
ghost use Rattle.a64_cells.specs.Cells.{inst_cells, kept_cells};
ghost use Rattle.a64_cells.specs.ControlForms.{authenticated_ret_forms};
ghost use Rattle.a64_cells.specs.Words.{MayBePut, IsThere, as_put, put_branches, put_cell, put_cells, put_cond_br, put_for, put_jump, put_label_address, put_test_bit, put_trap_if};
ghost use Rattle.a64_label_use.specs.LabelUses.{label_kinds};
ghost use Rattle.a64_emit.specs.WorstCases as worst_cases;
ghost use Rattle.a64_emit.specs.Emission.{trapped, CanPut, PutsCells, PutsInPart, IslandsIfNeeded, Puts, Emits, EmitsInPart, IsAppendedInPart, HasIslandRoom, IsReady};

use crate::call::emit_calling;
use crate::extent::asked_space;
use crate::sequence::emit_sequence;
use crate::uses::{branch_site, trap_site};
use a64_base::{
    APIKey, BranchTarget, CondBrKind, ExternalName, MachLabel, Reg, Reloc, TestBitAndBranchKind,
    TrapCode, UserStackMap, Writable,
};
use a64_buffer::{ForceVeneers, MachBuffer, Target};
use a64_cells::Site;
use a64_cells::word::control::{
    UDF_WORD, authenticated_ret_words, cond_br_word, jump_word, label_address_word,
    only_control_word, test_bit_and_branch_word, trap_if_word,
};
use a64_cells::word::memory::{SeveralWords, held_memory_word, memory_words};
use a64_cells::word::plain::plain_word;
use a64_inst::{EmitInfo, EmitState, FrameLayout, Group, Inst};
use a64_label_use::LabelUse;
use std::alloc::AllocError;

/// What can be emitted into a buffer of A64 code (Cranelift's `MachInstEmit`).
pub trait MachInstEmit {
    /// When it can be emitted.
    ghost can_emit: { Self → Buffer LabelUse → EmitFlags → State → Type 0 };

    /// What emitting it does, under the settings and the state before: the buffer before and after.
    ghost emits: { Self → EmitFlags → State → Buffer LabelUse → Buffer LabelUse → Type 0 };

    /// What emitting only a first part of it does.
    ghost emits_in_part: { Self → EmitFlags → State → Buffer LabelUse → Buffer LabelUse → Type 0 };

    /// The words that it is made of, under the settings and the state before.
    ghost item_cells: { Self → EmitFlags → State → List Cell };

    /// Whether the worst cases bound it.
    ghost is_bounded: { Self → Bool };

    /// Adds the words at the end of the buffer, with their uses; at a place for an island, the island, where
    /// the space behind it needs one.
    ///
    /// # Errors
    ///
    /// Want of memory. The buffer then may hold the first part of the words, and is to be dropped.
    fn emit(
        &self,
        sink: &mut MachBuffer<'_, LabelUse>,
        info: &EmitInfo,
        state: &mut EmitState,
    ) -> Result<(), AllocError>
        requires { can_emit self.now sink.old info.now state.old }
        ensures ok { OnOk result (emits self.now info.now state.old sink.old sink.new) }
        ensures state { OnOk result (state.new ≡ record state.old { map = None }) }
        ensures err { OnErr result (emits_in_part self.now info.now state.old sink.old sink.new) };

    /// The most bytes that the words of one instruction take. It bounds no call, no return that calls,
    /// no jump through a table and no place for an island.
    fn worst_case_size() -> u32
        ensures number { result ≡ 44 }
        ensures size { (item : Self) (flags : EmitFlags) (state : State)
            → is_bounded item ≡ true
            → size_of (item_cells item flags state) ≤ result }
        ensures growth { (item : Self) (flags : EmitFlags) (state : State)
            (before after : Buffer LabelUse) → is_bounded item ≡ true
            → emits item flags state before after → end_of after ≤ end_of before + result };

    /// The most bytes that islands may add because of one instruction: a jump around an island, and what
    /// its uses may want there. It bounds the instructions that [`MachInstEmit::worst_case_size`] does.
    fn worst_case_island_growth() -> u32
        ensures number { result ≡ 128 }
        ensures charge { (item : Self) (flags : EmitFlags) (state : State)
            → is_bounded item ≡ true
            → charge_of (item_cells item flags state) ≤ result };
}

/// One word without a use.
#[inline(always)]
fn emit_plain(sink: &mut MachBuffer<'_, LabelUse>, word: u32) -> Result<(), AllocError>
    requires { CanPut sink.old (put_cell word None None ∷ []) }
    ensures { PutsCells result sink.old sink.new (put_cell word None None ∷ []) }
{
    sink.put4(word)
}

/// Words without uses, one behind the other.
pub fn put_words(sink: &mut MachBuffer<'_, LabelUse>, words: &[u32]) -> Result<(), AllocError>
    requires short { end_of sink.old + 4 * length words.now < 2 ^ 31 }
    requires fits { Fits label_kinds sink.old (4 * length words.now) }
    ensures ok { OnOk result (sink.new ≡ record sink.old {
      words = sink.old.words ++ words.now;
    }) }
    ensures err { OnErr result (PutsInPart sink.old sink.new words.now) }
{
    for word in words {
        sink.put4(*word)?;
    }
    Ok(())
}

/// One word without a use, at which a trap is recorded where it may trap.
#[inline(always)]
fn put_trapping(
    sink: &mut MachBuffer<'_, LabelUse>,
    word: u32,
    trap: Option<TrapCode>,
) -> Result<(), AllocError>
    requires short { end_of sink.old + 4 < 2 ^ 31 }
    requires fits { Fits label_kinds sink.old 4 }
    ensures ok { OnOk result (sink.new ≡ trapped trap (record sink.old {
      words = sink.old.words ++ word ∷ [];
    }) (end_of sink.old)) }
    ensures err { OnErr result ((sink.new ≡ sink.old)
        ⊎ (sink.new ≡ trapped trap sink.old (end_of sink.old))) }
{
    if let Some(code) = trap {
        sink.add_trap(code)?;
    }
    sink.put4(word)
}

/// One word without a use, at which a relocation is recorded.
pub fn put_reloc(
    sink: &mut MachBuffer<'_, LabelUse>,
    word: u32,
    kind: Reloc,
    name: ExternalName,
    addend: i64,
) -> Result<(), AllocError>
    requires { CanPut sink.old (reloc_cell (Data word) kind name addend ∷ []) }
    ensures { PutsCells result sink.old sink.new (reloc_cell (Data word) kind name addend ∷ []) }
{
    sink.add_reloc(kind, name, addend)?;
    sink.put4(word)
}

/// One word with its use, at which a trap is recorded where it may trap.
#[inline(always)]
pub fn put_using(
    sink: &mut MachBuffer<'_, LabelUse>,
    word: u32,
    site: Site,
    trap: Option<TrapCode>,
) -> Result<(), AllocError>
    requires lawful { MayBePut sink.old.constants site }
    requires can { CanPut sink.old (put_cell word (Some site) trap ∷ []) }
    ensures { PutsCells result sink.old sink.new (put_cell word (Some site) trap ∷ []) }
{
    let offset = sink.cur_offset();
    put_trapping(sink, word, trap)?;
    match site.target {
        Target::Label(label) => sink.use_label_at_offset(offset, label, site.kind),
        Target::Constant(constant) => sink.use_constant(offset, constant, site.kind),
        Target::Trap(code) => sink.defer_trap(offset, code, site.kind),
        Target::IslandEnd => unreachable!(),
    }
}

/// One word that may be a use, and may trap.
#[inline(always)]
pub fn emit_last(
    sink: &mut MachBuffer<'_, LabelUse>,
    word: u32,
    site: Option<Site>,
    trap: Option<TrapCode>,
) -> Result<(), AllocError>
    requires lawful { IfSome site (MayBePut sink.old.constants) }
    requires can { CanPut sink.old (put_cell word site trap ∷ []) }
    ensures { PutsCells result sink.old sink.new (put_cell word site trap ∷ []) }
{
    match site {
        Some(site) => put_using(sink, word, site, trap),
        None => put_trapping(sink, word, trap),
    }
}

/// Words of which only the last may be a use, and may trap.
pub fn emit_several(
    sink: &mut MachBuffer<'_, LabelUse>,
    words: &SeveralWords,
) -> Result<(), AllocError>
    requires lawful { IfSome words.now.site (MayBePut sink.old.constants) }
    requires can { CanPut sink.old
        (put_cells words.now.first.items words.now.last words.now.site words.now.trap) }
    ensures { PutsCells result sink.old sink.new
        (put_cells words.now.first.items words.now.last words.now.site words.now.trap) }
{
    put_words(sink, words.first.as_slice())?;
    emit_last(sink, words.last, words.site, words.trap)
}

/// One word with the use that a branch is.
#[inline(always)]
fn emit_branch(
    sink: &mut MachBuffer<'_, LabelUse>,
    word: u32,
    kind: LabelUse,
    dest: BranchTarget,
) -> Result<(), AllocError>
    requires { CanPut sink.old (put_cell word (shapes.branch_site kind dest) None ∷ []) }
    ensures { PutsCells result sink.old sink.new
        (put_cell word (shapes.branch_site kind dest) None ∷ []) }
{
    emit_last(sink, word, branch_site(kind, dest), None)
}

/// The words of a load or a store, or of an address.
#[inline(never)]
fn emit_memory_words(
    inst: &Inst,
    sink: &mut MachBuffer<'_, LabelUse>,
    info: &EmitInfo,
    frame: &FrameLayout,
) -> Result<(), AllocError>
    requires group { group_of inst.now ≡ Memory }
    requires good { has_operands frame.now info.now Refused inst.now ≡ true }
    requires mode { has_mode inst.now ≡ true }
    requires there { IsThere sink.old.constants inst.now }
    requires can { CanPut sink.old (put_for frame.now info.now inst.now) }
    ensures { PutsCells result sink.old sink.new (put_for frame.now info.now inst.now) }
{
    match memory_words(inst, frame, info) {
        Some(words) => emit_several(sink, &words),
        None => Ok(()),
    }
}

/// A load or a store, or an address: most are one word.
#[inline(always)]
fn emit_memory(
    inst: &Inst,
    sink: &mut MachBuffer<'_, LabelUse>,
    info: &EmitInfo,
    frame: &FrameLayout,
) -> Result<(), AllocError>
    requires group { group_of inst.now ≡ Memory }
    requires good { has_operands frame.now info.now Refused inst.now ≡ true }
    requires mode { has_mode inst.now ≡ true }
    requires there { IsThere sink.old.constants inst.now }
    requires can { CanPut sink.old (put_for frame.now info.now inst.now) }
    ensures { PutsCells result sink.old sink.new (put_for frame.now info.now inst.now) }
{
    match held_memory_word(inst, frame, info) {
        Some(last) => emit_last(sink, last.word, last.site(), last.trap),
        None => emit_memory_words(inst, sink, info, frame),
    }
}

/// A conditional branch, with a jump behind it.
#[inline(always)]
fn emit_conditional(
    sink: &mut MachBuffer<'_, LabelUse>,
    word: u32,
    kind: LabelUse,
    taken: &BranchTarget,
    not_taken: &BranchTarget,
) -> Result<(), AllocError>
    requires good { are_jump_operands not_taken.now ≡ true }
    requires can { CanPut sink.old (put_branches word kind taken.now not_taken.now) }
    ensures { PutsCells result sink.old sink.new (put_branches word kind taken.now not_taken.now) }
{
    emit_branch(sink, word, kind, *taken)?;
    emit_branch(sink, jump_word(*not_taken), LabelUse::Branch26, *not_taken)
}

/// A branch on a condition, with a jump behind it. Out of line, like those below, so that an instruction
/// has no room of another to clear, and saves no registers for it.
#[inline(never)]
fn emit_cond_br(
    sink: &mut MachBuffer<'_, LabelUse>,
    taken: &BranchTarget,
    not_taken: &BranchTarget,
    kind: &CondBrKind,
) -> Result<(), AllocError>
    requires good { are_cond_br_operands Refused taken.now not_taken.now kind.now ≡ true }
    requires can { CanPut sink.old (put_cond_br taken.now not_taken.now kind.now) }
    ensures { PutsCells result sink.old sink.new (put_cond_br taken.now not_taken.now kind.now) }
{
    let word = cond_br_word(*taken, *kind);
    emit_conditional(sink, word, LabelUse::Branch19, taken, not_taken)
}

/// A branch on a bit of a register, with a jump behind it.
#[inline(never)]
fn emit_test_bit_and_branch(
    sink: &mut MachBuffer<'_, LabelUse>,
    kind: TestBitAndBranchKind,
    taken: &BranchTarget,
    not_taken: &BranchTarget,
    rn: &Reg,
    bit: u8,
) -> Result<(), AllocError>
    requires good { are_test_bit_operands Refused taken.now not_taken.now rn.now bit ≡ true }
    requires can { CanPut sink.old (put_test_bit kind taken.now not_taken.now rn.now bit) }
    ensures { PutsCells result sink.old sink.new
        (put_test_bit kind taken.now not_taken.now rn.now bit) }
{
    let word = test_bit_and_branch_word(kind, *taken, *rn, bit);
    emit_conditional(sink, word, LabelUse::Branch14, taken, not_taken)
}

/// A jump.
#[inline(never)]
fn emit_jump(sink: &mut MachBuffer<'_, LabelUse>, dest: BranchTarget) -> Result<(), AllocError>
    requires good { are_jump_operands dest ≡ true }
    requires can { CanPut sink.old (put_jump dest) }
    ensures { PutsCells result sink.old sink.new (put_jump dest) }
{
    emit_branch(sink, jump_word(dest), LabelUse::Branch26, dest)
}

/// A branch to a trap word.
#[inline(never)]
fn emit_trap_if(
    sink: &mut MachBuffer<'_, LabelUse>,
    kind: &CondBrKind,
    code: TrapCode,
) -> Result<(), AllocError>
    requires kind { is_test Refused kind.now ≡ true }
    requires can { CanPut sink.old (put_trap_if kind.now code) }
    ensures { PutsCells result sink.old sink.new (put_trap_if kind.now code) }
{
    emit_last(sink, trap_if_word(*kind), Some(trap_site(code)), None)
}

/// The address of a label.
#[inline(never)]
fn emit_label_address(
    sink: &mut MachBuffer<'_, LabelUse>,
    dst: &Writable<Reg>,
    label: MachLabel,
) -> Result<(), AllocError>
    requires dst { is_register_or_zero Refused dst.now ≡ true }
    requires can { CanPut sink.old (put_label_address dst.now label) }
    ensures { PutsCells result sink.old sink.new (put_label_address dst.now label) }
{
    let word = label_address_word(*dst);
    emit_branch(sink, word, LabelUse::Adr21, BranchTarget::Label(label))
}

/// A return that authenticates its address.
#[inline(never)]
fn emit_authenticated_ret(
    sink: &mut MachBuffer<'_, LabelUse>,
    key: APIKey,
    is_hint: bool,
) -> Result<(), AllocError>
    requires { CanPut sink.old (map as_put (map plain (authenticated_ret_forms key is_hint))) }
    ensures { PutsCells result sink.old sink.new
        (map as_put (map plain (authenticated_ret_forms key is_hint))) }
{
    put_words(sink, authenticated_ret_words(key, is_hint).as_slice())
}

/// A data word, which is no use, at which a trap is recorded where it may trap.
#[inline(never)]
fn emit_data(
    sink: &mut MachBuffer<'_, LabelUse>,
    word: u32,
    trap: Option<TrapCode>,
) -> Result<(), AllocError>
    requires { CanPut sink.old (put_cell word None trap ∷ []) }
    ensures { PutsCells result sink.old sink.new (put_cell word None trap ∷ []) }
{
    emit_last(sink, word, None, trap)
}

/// Two data words, the low half of a number first.
fn emit_word8(sink: &mut MachBuffer<'_, LabelUse>, value: u64) -> Result<(), AllocError>
    requires { CanPut sink.old (data_cell (value % 2 ^ 32) ∷ data_cell (value / 2 ^ 32) ∷ []) }
    ensures { PutsCells result sink.old sink.new
        (data_cell (value % 2 ^ 32) ∷ data_cell (value / 2 ^ 32) ∷ []) }
{
    sink.put8(value)
}

/// A branch or an address with a use, or data.
#[inline(always)]
fn emit_control(
    inst: &Inst,
    sink: &mut MachBuffer<'_, LabelUse>,
    _info: &EmitInfo,
    _frame: &FrameLayout,
) -> Result<(), AllocError>
    requires group { group_of inst.now ≡ Control }
    requires good { has_operands _frame.now _info.now Refused inst.now ≡ true }
    requires can { CanPut sink.old (put_for _frame.now _info.now inst.now) }
    ensures { PutsCells result sink.old sink.new (put_for _frame.now _info.now inst.now) }
{
    match inst {
        Inst::Jump { dest } => emit_jump(sink, *dest),
        Inst::CondBr {
            taken,
            not_taken,
            kind,
        } => emit_cond_br(sink, taken, not_taken, kind),
        Inst::TestBitAndBranch {
            kind,
            taken,
            not_taken,
            rn,
            bit,
        } => emit_test_bit_and_branch(sink, *kind, taken, not_taken, rn, *bit),
        Inst::TrapIf { kind, trap_code } => emit_trap_if(sink, kind, *trap_code),
        Inst::LabelAddress { dst, label } => emit_label_address(sink, dst, *label),
        Inst::AuthenticatedRet { key, is_hint } => { emit_authenticated_ret(sink, *key, *is_hint) }
        Inst::Udf { trap_code } => emit_data(sink, UDF_WORD, Some(*trap_code)),
        Inst::Word4 { value } => emit_data(sink, *value, None),
        Inst::Word8 { value } => emit_word8(sink, *value),
        _ => Ok(()),
    }
}

/// An island, where so many bytes more need one.
#[inline(never)]
fn emit_asked(sink: &mut MachBuffer<'_, LabelUse>, space: u32) -> Result<(), AllocError>
    requires { HasIslandRoom sink.old }
    ensures ok { OnOk result (IslandsIfNeeded space sink.old sink.new) }
    ensures err { OnErr result (sink.new ≡ sink.old) }
{
    if sink.island_needed(space) {
        sink.emit_island(space, ForceVeneers::No, true)
    } else {
        Ok(())
    }
}

/// A branch, a hint, an address, data, or a place for an island.
#[inline(always)]
fn emit_control_inst(
    inst: &Inst,
    sink: &mut MachBuffer<'_, LabelUse>,
    info: &EmitInfo,
    frame: &FrameLayout,
) -> Result<(), AllocError>
    requires group { group_of inst.now ≡ Control }
    requires can { CanPut sink.old (map as_put (inst_cells frame.now info.now inst.now)) }
    requires island { IsSome (asked_of inst.now) → HasIslandRoom sink.old }
    requires good { has_operands frame.now info.now Refused inst.now ≡ true }
    ensures ok { OnOk result (Puts (asked_of inst.now)
        (map as_put (inst_cells frame.now info.now inst.now)) sink.old sink.new) }
    ensures err { OnErr result (IsAppendedInPart sink.old sink.new
        (map as_put (inst_cells frame.now info.now inst.now))) }
{
    match only_control_word(inst, frame, info) {
        Some(word) => emit_plain(sink, word),
        None => match asked_space(inst) {
            Some(space) => emit_asked(sink, space),
            None => emit_control(inst, sink, info, frame),
        },
    }
}

/// An instruction that is no call, by its group. `IN_CALL` says whether it stands among the words of a call, or of
/// a return that calls. That changes nothing of the code, but so each of the two callers has a copy of its own, which
/// stands in line there.
#[inline(always)]
fn emit_in_line<const IN_CALL: bool>(
    inst: &Inst,
    group: Group,
    sink: &mut MachBuffer<'_, LabelUse>,
    info: &EmitInfo,
    frame: &FrameLayout,
) -> Result<(), AllocError>
    requires group { group ≡ group_of inst.now }
    requires other { group_of inst.now ≢ Call }
    requires can { CanPut sink.old (map as_put (inst_cells frame.now info.now inst.now)) }
    requires island { IsSome (asked_of inst.now) → HasIslandRoom sink.old }
    requires good { has_operands frame.now info.now Refused inst.now ≡ true }
    requires mode { has_mode inst.now ≡ true }
    requires there { IsThere sink.old.constants inst.now }
    ensures ok { OnOk result (Puts (asked_of inst.now)
        (map as_put (inst_cells frame.now info.now inst.now)) sink.old sink.new) }
    ensures err { OnErr result (IsAppendedInPart sink.old sink.new
        (map as_put (inst_cells frame.now info.now inst.now))) }
{
    match group {
        Group::Plain(group) => emit_plain(sink, plain_word(inst, group, frame, info)),
        Group::Control => emit_control_inst(inst, sink, info, frame),
        Group::Memory => emit_memory(inst, sink, info, frame),
        Group::Sequence => emit_sequence(inst, sink, info, frame),
        Group::Call => unreachable!(),
    }
}

/// An instruction that is no call and no place for an island, out of line.
#[inline(never)]
pub fn emit_plain_inst(
    inst: &Inst,
    sink: &mut MachBuffer<'_, LabelUse>,
    info: &EmitInfo,
    frame: &FrameLayout,
) -> Result<(), AllocError>
    requires other { group_of inst.now ≢ Call }
    requires asked { asked_of inst.now ≡ None }
    requires can { CanPut sink.old (map as_put (inst_cells frame.now info.now inst.now)) }
    requires good { has_operands frame.now info.now Refused inst.now ≡ true }
    requires mode { has_mode inst.now ≡ true }
    requires there { IsThere sink.old.constants inst.now }
    ensures { PutsCells result sink.old sink.new
        (map as_put (inst_cells frame.now info.now inst.now)) }
{
    emit_in_line::<true>(inst, inst.group(), sink, info, frame)
}

/// An instruction, by one look at its group. A map of the stack is kept where it is a call that returns behind it.
#[inline(always)]
fn emit_by_group(
    inst: &Inst,
    sink: &mut MachBuffer<'_, LabelUse>,
    info: &EmitInfo,
    frame: &FrameLayout,
    kept: Option<UserStackMap>,
) -> Result<(), AllocError>
    requires { IsReady sink.old frame.now info.now inst.now }
    ensures ok { OnOk result (Puts (asked_of inst.now)
        (kept_cells frame.now info.now inst.now kept) sink.old sink.new) }
    ensures err { OnErr result (IsAppendedInPart sink.old sink.new
        (kept_cells frame.now info.now inst.now kept)) }
{
    match inst.group() {
        Group::Call => emit_calling(inst, sink, info, frame, kept),
        group => emit_in_line::<false>(inst, group, sink, info, frame),
    }
}

impl MachInstEmit for Inst {
    ghost can_emit = { λ inst buffer flags state. IsReady buffer state.frame flags inst };

    ghost emits = { λ inst flags state before after. Emits flags state inst before after };

    ghost emits_in_part = { λ inst flags state before after.
        EmitsInPart flags state inst before after };

    ghost item_cells = { λ inst flags state. kept_cells state.frame flags inst state.map };

    ghost is_bounded = { worst_cases.is_bounded };

    fn emit(
        &self,
        sink: &mut MachBuffer<'_, LabelUse>,
        info: &EmitInfo,
        state: &mut EmitState,
    ) -> Result<(), AllocError> {
        let kept = state.take_stack_map();
        emit_by_group(self, sink, info, state.frame_layout(), kept)
    }

    #[tactic(auto, using(crate::proofs::WorstCases::worst_size, crate::proofs::WorstCases::worst_bytes))]
    fn worst_case_size() -> u32 {
        44
    }

    #[tactic(auto, using(crate::proofs::WorstCases::worst_charge))]
    fn worst_case_island_growth() -> u32 {
        128
    }
}
