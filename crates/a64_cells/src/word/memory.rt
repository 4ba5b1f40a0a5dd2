//! The words of loads and stores, and of addresses.

pub mod access;
pub mod address;
pub mod atomic;
pub mod replicate;
pub mod step;

ghost use Rattle.std.specs.Prelude.{◌≡◌, [], length, true, false, is_some, option_map, IfSome, MatchOption};
ghost use Rattle.a64_inst.specs.declared.group.Group.TheVariants.{Memory};
ghost use Rattle.a64_operand.specs.declared.virtuals.VirtualRegisters.TheVariants.{Refused};
ghost use Rattle.a64_inst.specs.Groups.{group_of};
ghost use Rattle.a64_inst.specs.Faults.{has_operands, has_mode};
ghost use Rattle.a64_inst.specs.MemoryOperands as memory;
ghost use Rattle.a64_inst.specs.Modes.{base_offset_of};
ghost use Rattle.a64_cells.specs.Shapes.{Words};
ghost use Rattle.a64_cells.specs.Cells.{access_shape, inst_cells, literal_use, shape_of};
ghost use Rattle.a64_cells.specs.Words.{AreSeveral};

use crate::site::{Site, mode_site, mode_target};
use crate::trapping_words;
use crate::word::memory::access::{held_word, in_code_word, pair_word, pair64_word, pair128_word};
use crate::word::memory::address::{address_count, address_words};
use crate::word::memory::atomic::{
    cas_word, cas128_word, load_acquire_word, rmw_word, store_release_word,
};
use crate::word::memory::replicate::replicate_word;
use crate::word::memory::step::step_words;
use a64_base::{TrapCode, writable_spilltmp_reg};
use a64_buffer::Target;
use a64_inst::{AMode, AccessRef, EmitInfo, FrameLayout, Inst};
use a64_label_use::LabelUse;
use a64_mode::{final_mode, final_steps};
use arrayvec::ArrayVec;

/// Words of which only the last may be a use, and may trap.
#[derive(Drop)]
pub struct SeveralWords {
    /// The words before the last.
    pub first: ArrayVec<u32, 4>,
    /// The last word.
    pub last: u32,
    /// The use that the last word is, where it is one.
    pub site: Option<Site>,
    /// The code of the trap that is recorded at the last word.
    pub trap: Option<TrapCode>,
}

/// The words of a load or a store of one register.
#[tactic(auto, unfolding(a64_inst::specs::MemoryOperands::are_access_operands))]
fn access_words(access: &AccessRef<'_>, frame: &FrameLayout) -> SeveralWords
    requires operands { memory.are_access_operands frame.now Refused access.now ≡ true }
    requires mode { memory.has_access_mode access.now.op access.now.mem ≡ true }
    ensures { AreSeveral result.first.items result.last result.site result.trap
        (access_shape frame.now access.now) }
{
    let ty = access.ty();
    let steps = final_steps(frame, ty, access.mem);
    let mode = final_mode(frame, ty, access.mem);
    SeveralWords {
        first: step_words(writable_spilltmp_reg(), steps.as_slice()),
        last: held_word(access.op, access.reg, &mode),
        site: mode_site(access.mem),
        trap: access.flags.trap_code(),
    }
}

/// The word of an access that may be a use, and may trap.
#[derive(Clone, Copy)]
pub struct LastWord {
    /// The word.
    pub word: u32,
    /// What it leads to, where it is a use. The kind of that use is always a literal's, and not kept: so the
    /// compiler knows it where the word is put, and what the buffer does for it is chosen when the program is
    /// built.
    pub target: Option<Target>,
    /// The code of the trap that is recorded at it.
    pub trap: Option<TrapCode>,
}

impl LastWord {
    /// The use that it is, where it is one.
    #[inline(always)]
    pub fn site(self) -> Option<Site>
        ensures { result ≡ option_map literal_use self.target }
    {
        self.target.map(|target| Site {
            kind: LabelUse::Ldr19,
            target,
        })
    }
}

/// The word of a load or a store of one register in a mode that an instruction holds.
#[tactic(auto, unfolding(a64_inst::specs::MemoryOperands::are_access_operands))]
#[inline(always)]
fn held_access(access: &AccessRef<'_>, _frame: &FrameLayout) -> LastWord
    requires operands { memory.are_access_operands _frame.now Refused access.now ≡ true }
    requires mode { memory.has_access_mode access.now.op access.now.mem ≡ true }
    requires held { is_some (base_offset_of _frame.now access.now.mem) ≡ false }
    ensures { AreSeveral [] result.word (option_map literal_use result.target) result.trap
        (access_shape _frame.now access.now) }
{
    LastWord {
        word: in_code_word(access.op, access.reg, access.mem),
        target: mode_target(access.mem),
        trap: access.flags.trap_code(),
    }
}

/// The word of an instruction that is a load or a store of one register in a mode that an instruction
/// holds.
#[inline(always)]
pub fn held_memory_word(inst: &Inst, frame: &FrameLayout, _info: &EmitInfo) -> Option<LastWord>
    requires good { has_operands frame.now _info.now Refused inst.now ≡ true }
    requires mode { has_mode inst.now ≡ true }
    ensures { IfSome result (λ last.
        AreSeveral [] last.word (option_map literal_use last.target) last.trap
        (shape_of frame.now _info.now inst.now)) }
{
    let access = inst.access_ref()?;
    // The word of a literal is made from where the register stands. The other modes get a copy of it.
    if let AMode::Const { addr: _ } = access.mem {
        return Some(held_access(&access, frame));
    }
    if access.mem.has_wide_offset() {
        return None;
    }
    Some(held_access(&access, frame))
}

/// The words of a load or a store, or of an address, where there are any.
pub fn memory_words(inst: &Inst, frame: &FrameLayout, info: &EmitInfo) -> Option<SeveralWords>
    requires group { group_of inst.now ≡ Memory }
    requires good { has_operands frame.now info.now Refused inst.now ≡ true }
    requires mode { has_mode inst.now ≡ true }
    ensures { MatchOption result (shape_of frame.now info.now inst.now ≡ Words [])
        (λ words. AreSeveral words.first.items words.last words.site words.trap
        (shape_of frame.now info.now inst.now)) }
{
    if let Some(access) = inst.access_ref() {
        return Some(access_words(&access, frame));
    }
    let (last, flags) = trapping_words!(inst;
        Inst::LoadAddr { rd, mem } => return address_words(*rd, frame, mem),
        _ => unreachable!(),
    );
    Some(SeveralWords {
        first: ArrayVec::new(),
        last,
        site: None,
        trap: flags.trap_code(),
    })
}

/// How many words a load or a store, or an address, has.
pub fn memory_count(inst: &Inst, frame: &FrameLayout, info: &EmitInfo) -> u64
    requires { group_of inst.now ≡ Memory }
    ensures { result ≡ length (inst_cells frame.now info.now inst.now) }
{
    if let Some(access) = inst.access_ref() {
        return final_steps(frame, access.ty(), access.mem).len() as u64 + 1;
    }
    match inst {
        Inst::LoadAddr { rd, mem } => address_count(&rd.to_reg(), frame, mem),
        _ => 1,
    }
}
