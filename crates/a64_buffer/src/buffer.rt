//! A buffer of code.

ghost use Rattle.std.specs.Prelude.{◌≡◌, ◌+◌, ◌/◌, ◌%◌, ◌^◌, ◌<◌, All, IfOk, OnOk, OnErr, [], ◌∷◌, ◌++◌, None, IsSomeAnd, MatchBool, false, length, map};
ghost use Rattle.std.specs.FinMap as finmap;
ghost use Rattle.a64_buffer.specs.declared.site.Target.TheVariants.{Label, Constant, Trap};
ghost use Rattle.a64_words.specs.Word.{words_of};
ghost use Rattle.a64_buffer.specs.Constants.{IsConstant, AreConstants};
ghost use Rattle.a64_buffer.specs.Classes.{owed, Fits};

use crate::constants::Constants;
use crate::finish::Finished;
use crate::force::ForceVeneers;
use crate::label_use::MachInstLabelUse;
use crate::parts::Parts;
use crate::site::Target;
use a64_base::{ExternalName, MachLabel, Reloc, TrapCode, UserStackMap, VCodeConstant};
use std::alloc::{AllocError, Global};
use std::marker::Model;

/// Code that grows at its end, with uses of labels that lead to them once the code is finished.
#[derive(Drop)]
pub struct MachBuffer<'c, K: MachInstLabelUse> {
    parts: Parts<'c, K>,
}

impl<'c, K: MachInstLabelUse> Model for MachBuffer<'c, K> {
    ghost use Rattle.std.specs.Prelude.{ℕ, List};
    ghost use Rattle.std.specs.Ordering.{nat_cmp};
    ghost use Rattle.std.specs.FinMap.{code};
    ghost use Rattle.std.specs.Coded.{codes, coded_ℕ, coded_list};
    ghost use Rattle.a64_buffer.specs.Buffer.{Buffer};

    ghost Value = { Buffer K };

    ghost coded = { Prim.hlevel (
      codes,
      code {R = nat_cmp} coded_ℕ coded_ℕ,
      code {R = nat_cmp} coded_ℕ (coded_list coded_ℕ),
    ) };

    ghost use Rattle.a64_buffer.specs.Sound.{seen, AreSound};

    ghost view = { λ a. seen a.parts };

    ghost invariant = { λ a. AreSound K.kinds a.parts };
}

impl<'c, K: MachInstLabelUse> MachBuffer<'c, K> {
    ghost use Rattle.a64_buffer.specs.Buffer.{new_buffer, end_of, IsFree, IsOutside, IsBound, IsFirstUnbound, IsFirstUnreached, made_use, closed_at, IsReached};
    ghost use Rattle.a64_buffer.specs.Sound.{IsWhole};
    ghost use Rattle.a64_buffer.specs.Islands.{HasIsland};
    ghost use Rattle.a64_buffer.specs.Later.{IsLaterFrom, IsLater, HasStopBelow};
    ghost use Rattle.a64_buffer.specs.Finished.{IsFinished};

    /// A buffer without code, over the constants that the code may load. It takes no memory.
    pub fn new(alloc: Global, constants: &'c Constants) -> Self
        ensures { result ≡ new_buffer constants.now }
    {
        MachBuffer {
            parts: Parts::new(alloc, constants),
        }
    }

    /// Takes the memory for so many words and uses more, where it is known how many there will be. Else
    /// memory is taken as it is needed.
    ///
    /// # Errors
    ///
    /// Want of memory.
    pub fn reserve(&mut self, words: usize, uses: usize) -> Result<(), AllocError>
        ensures { self.new ≡ self.old }
    {
        self.parts.reserve(words, uses)
    }

    /// Where the next word will stand, in bytes from the start of the code. What is true of every buffer
    /// is told here: uses stand before the end, islands end at it at most and begin with their jump or with
    /// what a use gets, each open use still reaches what it gets in an island at the end, a use that has a
    /// stop has it before the end, or at its label, no two uses stop at one place but loads of one constant
    /// and uses at their labels, and the constants have their sizes.
    #[inline(always)]
    pub fn cur_offset(&self) -> u32
        ensures value { result ≡ end_of self.now }
        ensures whole { IsWhole K.kinds self.now }
        ensures stops { All (HasStopBelow (end_of self.now) self.now.labels) self.now.uses }
        ensures constants { AreConstants self.now.constants }
    {
        self.parts.constants.are_sized();
        self.parts.end()
    }

    /// Adds a word at the end.
    ///
    /// # Errors
    ///
    /// Want of memory, and then nothing has changed.
    #[inline(always)]
    pub fn put4(&mut self, word: u32) -> Result<(), AllocError>
        requires short { end_of self.old + 4 < 2 ^ 31 }
        requires fits { Fits K.kinds self.old 4 }
        ensures ok { OnOk result (self.new ≡ record self.old {
          words = self.old.words ++ word ∷ [];
        }) }
        ensures err { OnErr result (self.new ≡ self.old) }
        ensures later { OnOk result (IsLater self.old self.new) }
    {
        self.parts.put(word)
    }

    /// Adds the eight bytes of a number at the end, the least byte first: two words, the low half first.
    ///
    /// # Errors
    ///
    /// Want of memory, and then nothing has changed.
    pub fn put8(&mut self, value: u64) -> Result<(), AllocError>
        requires short { end_of self.old + 8 < 2 ^ 31 }
        requires fits { Fits K.kinds self.old 8 }
        ensures ok { OnOk result (self.new ≡ record self.old {
          words = self.old.words ++ value % 2 ^ 32 ∷ value / 2 ^ 32 ∷ [];
        }) }
        ensures err { OnErr result (self.new ≡ self.old) }
        ensures later { OnOk result (IsLater self.old self.new) }
    {
        self.parts.put_two(value)
    }

    /// Adds bytes at the end, a multiple of four of them.
    ///
    /// # Errors
    ///
    /// Want of memory, and then nothing has changed.
    pub fn put_data(&mut self, bytes: &[u8]) -> Result<(), AllocError>
        requires whole { length bytes.now % 4 ≡ 0 }
        requires short { end_of self.old + length bytes.now < 2 ^ 31 }
        requires fits { Fits K.kinds self.old (length bytes.now) }
        ensures ok { OnOk result (self.new ≡ record self.old {
          words = self.old.words ++ words_of bytes.now;
        }) }
        ensures err { OnErr result (self.new ≡ self.old) }
        ensures later { OnOk result (IsLater self.old self.new) }
    {
        self.parts.put_data(bytes)
    }

    /// Records a relocation at the end (Cranelift's `MachBuffer::add_reloc`): the word that comes next, or the
    /// eight bytes of an absolute address, are to lead to the symbol of the name, plus the addend in bytes.
    ///
    /// # Errors
    ///
    /// Want of memory, and then nothing has changed.
    pub fn add_reloc(
        &mut self,
        kind: Reloc,
        name: ExternalName,
        addend: i64,
    ) -> Result<(), AllocError>
        ensures ok { OnOk result (self.new ≡ record self.old {
          records = record self.old.records {
            relocs = self.old.records.relocs ++ (end_of self.old, kind, name, addend) ∷ [];
          };
        }) }
        ensures err { OnErr result (self.new ≡ self.old) }
        ensures later { OnOk result (IsLater self.old self.new) }
    {
        self.parts.add_reloc(kind, name, addend)
    }

    /// Records a trap at the end: the word that comes next may trap, for the reason of the code.
    ///
    /// # Errors
    ///
    /// Want of memory, and then nothing has changed.
    #[inline(always)]
    pub fn add_trap(&mut self, code: TrapCode) -> Result<(), AllocError>
        ensures ok { OnOk result (self.new ≡ record self.old {
          traps = self.old.traps ++ (end_of self.old, code) ∷ [];
        }) }
        ensures err { OnErr result (self.new ≡ self.old) }
        ensures later { OnOk result (IsLater self.old self.new) }
    {
        self.parts.add_trap(code)
    }

    /// Records a call that ends here (Cranelift's `MachBuffer::add_call_site`): the end is where it returns to.
    ///
    /// # Errors
    ///
    /// Want of memory, and then nothing has changed.
    pub fn add_call_site(&mut self) -> Result<(), AllocError>
        ensures ok { OnOk result (self.new ≡ record self.old {
          records = record self.old.records {
            calls = self.old.records.calls ++ end_of self.old ∷ [];
          };
        }) }
        ensures err { OnErr result (self.new ≡ self.old) }
        ensures later { OnOk result (IsLater self.old self.new) }
    {
        self.parts.add_call_site()
    }

    /// Records a patchable call that ends here (Cranelift's `MachBuffer::add_patchable_call_site`): its words are
    /// the last `len` bytes before the end.
    ///
    /// # Errors
    ///
    /// Want of memory, and then nothing has changed.
    pub fn add_patchable_call_site(&mut self, len: u32) -> Result<(), AllocError>
        ensures ok { OnOk result (self.new ≡ record self.old {
          records = record self.old.records {
            patchable = self.old.records.patchable ++ (end_of self.old, len) ∷ [];
          };
        }) }
        ensures err { OnErr result (self.new ≡ self.old) }
        ensures later { OnOk result (IsLater self.old self.new) }
    {
        self.parts.add_patchable_call_site(len)
    }

    /// Records the stack map of the call that ends here (Cranelift's `MachBuffer::push_user_stack_map`, for a call
    /// that returns to the end).
    ///
    /// # Errors
    ///
    /// Want of memory, and then nothing has changed.
    pub fn push_user_stack_map(&mut self, map: UserStackMap) -> Result<(), AllocError>
        ensures ok { OnOk result (self.new ≡ record self.old {
          records = record self.old.records {
            maps = self.old.records.maps ++ (end_of self.old, map) ∷ [];
          };
        }) }
        ensures err { OnErr result (self.new ≡ self.old) }
        ensures later { OnOk result (IsLater self.old self.new) }
    {
        self.parts.push_user_stack_map(map)
    }

    /// Makes a word that was put, and that has no use yet, a use of a label. With it all open uses still
    /// reach what they get in an island at the end.
    ///
    /// # Errors
    ///
    /// Want of memory, and then nothing has changed.
    #[inline(always)]
    pub fn use_label_at_offset(
        &mut self,
        offset: u32,
        label: MachLabel,
        kind: K,
    ) -> Result<(), AllocError>
        requires aligned { offset % 4 ≡ 0 }
        requires inside { offset < end_of self.old }
        requires free { IsFree self.old.uses offset }
        requires outside { IsOutside self.old.islands offset }
        requires fits { Fits K.kinds (record self.old {
          uses = self.old.uses ++ made_use K.kinds self.old.labels offset (Label label) kind ∷ [];
        }) 0 }
        ensures ok { OnOk result (self.new ≡ record self.old {
          uses = self.old.uses ++ made_use K.kinds self.old.labels offset (Label label) kind ∷ [];
        }) }
        ensures err { OnErr result (self.new ≡ self.old) }
        ensures later { OnOk result (IsLaterFrom offset self.old self.new) }
    {
        self.parts.add_use(offset, Target::Label(label), kind)
    }

    /// Makes a word that was put, and that has no use yet, a load of a constant, by a kind of urgency 2.
    /// An island or the pool gets a copy of the constant.
    ///
    /// # Errors
    ///
    /// Want of memory, and then nothing has changed.
    #[inline(always)]
    pub fn use_constant(
        &mut self,
        offset: u32,
        constant: VCodeConstant,
        kind: K,
    ) -> Result<(), AllocError>
        requires aligned { offset % 4 ≡ 0 }
        requires inside { offset < end_of self.old }
        requires free { IsFree self.old.uses offset }
        requires outside { IsOutside self.old.islands offset }
        requires urgency { K.kinds.urgency kind ≡ 2 }
        requires known { IsSomeAnd (finmap.get self.old.constants constant.0) IsConstant }
        requires fits { Fits K.kinds (record self.old {
          uses = self.old.uses ++ made_use K.kinds self.old.labels offset (Constant constant) kind
              ∷ [];
        }) 0 }
        ensures ok { OnOk result (self.new ≡ record self.old {
          uses = self.old.uses ++ made_use K.kinds self.old.labels offset (Constant constant) kind
              ∷ [];
        }) }
        ensures err { OnErr result (self.new ≡ self.old) }
        ensures later { OnOk result (IsLaterFrom offset self.old self.new) }
    {
        self.parts.add_use(offset, Target::Constant(constant), kind)
    }

    /// Makes a word that was put, and that has no use yet, a branch to a trap, by a kind of urgency 2. An
    /// island or the pool gets a word that traps.
    ///
    /// # Errors
    ///
    /// Want of memory, and then nothing has changed.
    pub fn defer_trap(&mut self, offset: u32, code: TrapCode, kind: K) -> Result<(), AllocError>
        requires aligned { offset % 4 ≡ 0 }
        requires inside { offset < end_of self.old }
        requires free { IsFree self.old.uses offset }
        requires outside { IsOutside self.old.islands offset }
        requires urgency { K.kinds.urgency kind ≡ 2 }
        requires fits { Fits K.kinds (record self.old {
          uses = self.old.uses ++ made_use K.kinds self.old.labels offset (Trap code) kind ∷ [];
        }) 0 }
        ensures ok { OnOk result (self.new ≡ record self.old {
          uses = self.old.uses ++ made_use K.kinds self.old.labels offset (Trap code) kind ∷ [];
        }) }
        ensures err { OnErr result (self.new ≡ self.old) }
        ensures later { OnOk result (IsLaterFrom offset self.old self.new) }
    {
        self.parts.add_use(offset, Target::Trap(code), kind)
    }

    /// Binds a label, which is not bound yet, to the end.
    ///
    /// # Errors
    ///
    /// Want of memory, and then nothing has changed.
    #[inline(always)]
    pub fn bind_label(&mut self, label: MachLabel) -> Result<(), AllocError>
        requires { finmap.get self.old.labels label.0 ≡ None }
        ensures ok { OnOk result (self.new ≡ record self.old {
          uses = map (closed_at K.kinds label.0 (end_of self.old)) self.old.uses;
          labels = finmap.insert self.old.labels label.0 (end_of self.old);
        }) }
        ensures err { OnErr result (self.new ≡ self.old) }
        ensures later { OnOk result (IsLater self.old self.new) }
    {
        self.parts.bind(label)
    }

    /// Whether an island has to be written before so many bytes more, for all open uses to reach what they
    /// get there. The bound is never late. It counts the most that each open use may put before what others
    /// get, at most 28 bytes, and may be early by as much for each.
    #[inline(always)]
    pub fn island_needed(&self, distance: u32) -> bool
        ensures { MatchBool result (Fits K.kinds self.now distance
            → ⊥) (Fits K.kinds self.now distance) }
    {
        self.parts.island_needed(distance)
    }

    /// Writes an island at the end: a jump over it, where that is asked for, a jump word for each open
    /// branch of urgency 1 or 2, a copy of each constant that is waited for, and a word for each trap. Open
    /// branches of urgency 3 get far veneers, all or none of them: where that is forced, or where by the bound
    /// of [`island_needed`](MachBuffer::island_needed), which may be early, some would not reach so many bytes
    /// more. Without a jump the island is for a place that nothing runs into: its contents begin at once, and
    /// where nothing is open nothing is written or listed.
    ///
    /// # Errors
    ///
    /// Want of memory, and then nothing has changed.
    pub fn emit_island(
        &mut self,
        distance: u32,
        force: ForceVeneers,
        jump: bool,
    ) -> Result<(), AllocError>
        requires short { end_of self.old + owed K.kinds self.old + 4 < 2 ^ 31 }
        ensures ok { OnOk result (HasIsland K.kinds distance force jump self.old self.new) }
        ensures err { OnErr result (self.new ≡ self.old) }
    {
        self.parts.emit_island(distance, force, jump)
    }

    /// The used label of least number that is not bound; `None` where all used labels are bound.
    pub fn first_unbound(&self) -> Option<MachLabel>
        ensures { IsFirstUnbound self.now result }
    {
        self.parts.first_unbound()
    }

    /// The label of the first use that can have no veneer and does not reach it; `None` where each such use
    /// reaches its label, as [`finish`](MachBuffer::finish) asks.
    pub fn first_unreached(&self) -> Option<MachLabel>
        ensures { IsFirstUnreached K.kinds self.now result }
    {
        self.parts.first_unreached()
    }

    /// How many bytes the open uses may put into an island, without the jump over it, or into the pool behind the
    /// code.
    pub fn owed(&self) -> u64
        ensures { result ≡ owed K.kinds self.now }
    {
        self.parts.owed()
    }

    /// The finished code: each word stands where it was put, and each use leads to its target, if need be
    /// through veneers in islands and in the pool behind the code.
    ///
    /// # Errors
    ///
    /// Want of memory.
    pub fn finish(self) -> Result<Finished, AllocError>
        requires short { end_of self + owed K.kinds self < 2 ^ 31 }
        requires bound { All (IsBound self.labels) self.uses }
        requires direct { All (λ u. K.kinds.veneers u.kind ≡ false
            → IsReached K.kinds self.labels u) self.uses }
        ensures { IfOk result (λ code. IsFinished K.kinds self.entry code) }
    {
        self.parts.finish()
    }
}
