//! Islands, and what gives open uses what they wait for.

ghost use Rattle.std.specs.Prelude.{◌≡◌, ◌⊎◌, ◌+◌, ◌*◌, ◌^◌, ◌<◌, ◌≤◌, All, MatchBool, OnOk, OnErr, true, slice_index_or, vec_len, vec_capacity, length};
ghost use Rattle.a64_buffer.specs.Buffer.{end_of};
ghost use Rattle.a64_buffer.specs.Classes.{owed, Fits};
ghost use Rattle.a64_buffer.specs.declared.force.ForceVeneers.TheVariants.{No, Yes};
ghost use Rattle.a64_buffer.specs.declared.site.Target.TheVariants.{Label};

use crate::class::Class;
use crate::force::ForceVeneers;
use crate::label_use::MachInstLabelUse;
use crate::parts::Parts;
use crate::queues::{first_below, queue_use};
use crate::site::{Target, Use};
use a64_base::MachLabel;
use std::alloc::AllocError;

impl<'c, K: MachInstLabelUse> Parts<'c, K> {
    ghost use Rattle.a64_buffer.specs.Sound.{seen, IsPlaced, IsKinded, AreSound};
    ghost use Rattle.a64_buffer.specs.Chain.{constant_of};
    ghost use Rattle.a64_buffer.specs.Queues.{AllLimits, AreWaiting};
    ghost use Rattle.a64_buffer.specs.Space.{HasSpace, HasSpaceForMore, IsTracked, KeepsQueues, IsKept, Keeps};
    ghost use Rattle.a64_buffer.specs.Steps.{AddsUse, MayAddUse, IsNextOpen, IsReady, IsOfClass};
    ghost use Rattle.a64_buffer.specs.Steps.{GivesAll, GivesUse, MayWrite, Writes, WritesFar};
    ghost use Rattle.a64_buffer.specs.Steps.{StandsAt, EndsJump, EndsIsland};
    ghost use Rattle.a64_buffer.specs.Pieces.{begun};
    ghost use Rattle.a64_buffer.specs.Islands.{HasIsland};

    /// The open use that comes first in the order of islands, where its rank is below a limit.
    #[inline(always)]
    fn next_open(&self, limit: u64) -> Option<usize>
        requires limit { limit ≤ 5 }
        requires limits { AllLimits K.kinds self.now.uses.items self.now.queues }
        requires kinded { All (λ u. IsKinded K.kinds u.target u.kind) self.now.uses.items }
        requires low { All (IsPlaced (2 ^ 31)) self.now.uses.items }
        ensures { IsNextOpen K.kinds limit self.now.uses.items result }
    {
        first_below(&self.queues, limit)
    }

    /// Gives an open use of a label and a class its veneer, and answers the use that was added.
    #[inline(always)]
    fn give_veneer(&mut self, index: usize, label: MachLabel, class: Class) -> Use<K>
        requires ready { IsReady K.kinds self.old index }
        requires class { IsOfClass K.kinds class self.old.uses.items index }
        requires label { (d : _) →
            (slice_index_or self.old.uses.items index d).target ≡ Label label }
        ensures gives { GivesAll K.kinds class (seen self.old) (seen self.new) }
        ensures added { AddsUse self.old.uses.items self.new.uses.items result }
        ensures keeps { KeepsQueues K.kinds self.old self.new }
    {
        match class {
            Class::Near | Class::Middle => self.give_jump(index, label, class),
            Class::Far => self.give_far(index, label),
            Class::Load | Class::Trapping | Class::Direct => unreachable!(),
        }
    }

    /// Gives the open use that comes first, which is of a class, what it waits for, and answers the
    /// use that was added, if any.
    #[inline(always)]
    fn give(&mut self, index: usize, class: Class) -> Option<Use<K>>
        requires ready { IsReady K.kinds self.old index }
        requires class { IsOfClass K.kinds class self.old.uses.items index }
        ensures gives { GivesAll K.kinds class (seen self.old) (seen self.new) }
        ensures added { MayAddUse self.old.uses.items self.new.uses.items result }
        ensures keeps { KeepsQueues K.kinds self.old self.new }
    {
        match self.uses[index].target {
            Target::Label(label) => return Some(self.give_veneer(index, label, class)),
            Target::Constant(constant) => self.give_copy(constant),
            Target::Trap(code) => self.give_trap(index, code),
            Target::IslandEnd => unreachable!(),
        }
        None
    }

    /// Gives the open use that comes first, which is of a class, what it waits for, and keeps what
    /// waits then.
    ///
    /// Only the queue of that class is settled: to settle all five takes some 300 machine instructions
    /// for each piece. The code is compiled for each class and proved once; to derive the class in
    /// each step takes some 90 machine instructions for a use that an island serves.
    #[inline(always)]
    fn serve_as(&mut self, index: usize, class: Class)
        requires ready { IsReady K.kinds self.old index }
        requires class { IsOfClass K.kinds class self.old.uses.items index }
        requires kept { IsKept K.kinds self.old 0 }
        ensures gives { GivesAll K.kinds class (seen self.old) (seen self.new) }
        ensures keeps { Keeps K.kinds self.old self.new }
    {
        let from = self.uses.len();
        let added = self.give(index, class);
        self.settle_class(from, class);
        if let Some(site) = added {
            queue_use(
                &mut self.queues,
                &site,
                site.waiting_class(),
                site.limit(),
                from,
            );
        }
    }

    /// Gives the open use that comes first what it waits for, and keeps what waits then.
    ///
    /// Each arm names its class, so that what depends on the class is settled when it is compiled.
    #[inline(always)]
    fn serve(&mut self, index: usize)
        requires ready { IsReady K.kinds self.old index }
        requires kept { IsKept K.kinds self.old 0 }
        ensures gives { GivesUse K.kinds index (seen self.old) (seen self.new) }
        ensures keeps { Keeps K.kinds self.old self.new }
    {
        match self.uses[index].class() {
            Class::Near => self.serve_as(index, Class::Near),
            Class::Load => self.serve_as(index, Class::Load),
            Class::Trapping => self.serve_as(index, Class::Trapping),
            Class::Middle => self.serve_as(index, Class::Middle),
            Class::Far => self.serve_as(index, Class::Far),
            Class::Direct => unreachable!(),
        }
    }

    /// Gives all open uses whose rank is below a limit what they wait for, in the order of islands.
    pub fn write_until(&mut self, limit: u64)
        requires limit { limit ≤ 5 }
        requires may { MayWrite K.kinds (seen self.old) }
        requires space { HasSpace K.kinds self.old }
        requires kept { IsKept K.kinds self.old 0 }
        ensures writes { Writes K.kinds limit (seen self.old) (seen self.new) }
        ensures space { HasSpace K.kinds self.new }
        ensures keeps { Keeps K.kinds self.old self.new }
    {
        while let Some(index) = self.next_open(limit) {
            self.serve(index);
        }
    }

    /// Takes the memory for all that open uses may want, and for one use, word and island more.
    pub fn reserve_all(&mut self) -> Result<(), AllocError>
        requires owed { owed K.kinds (seen self.old) < 2 ^ 31 }
        requires tracked { IsTracked K.kinds self.old }
        ensures ok { OnOk result (HasSpaceForMore K.kinds self.new) }
        ensures rest { seen self.new ≡ seen self.old }
        ensures earlier { self.new.earlier.items ≡ self.old.earlier.items }
        ensures heads { self.new.heads ≡ self.old.heads }
        ensures loads { self.new.loads ≡ self.old.loads }
        ensures queues { self.new.queues ≡ self.old.queues }
        ensures burdens { self.new.burdens ≡ self.old.burdens }
    {
        let owed = self.burdens.third as usize;
        self.words.reserve(owed / 4 + 2)?;
        self.uses.reserve(owed / 12 + 1)?;
        self.earlier.reserve(owed / 12 + 1)?;
        self.traps.reserve(owed / 4)?;
        self.islands.reserve(1)?;
        Ok(())
    }

    /// Begins an island, with a jump where it is to have one, whose end is not known yet. That waits
    /// for nothing, so it is in no queue.
    fn begin_island(&mut self, jump: bool)
        requires short { end_of (seen self.old) + 4 < 2 ^ 31 }
        requires words { length self.old.words.items < self.old.words.capacity }
        requires uses { vec_len self.old.uses < vec_capacity self.old.uses }
        requires earlier { vec_len self.old.earlier < vec_capacity self.old.earlier }
        requires kept { IsKept K.kinds self.old 1 }
        requires few { self.old.burdens.third < 2 ^ 32 }
        ensures begun { seen self.new ≡ begun K.kinds jump (seen self.old) }
        ensures keeps { Keeps K.kinds self.old self.new }
        ensures islands { self.new.islands ≡ self.old.islands }
    {
        if !jump {
            return;
        }
        let offset = self.end();
        self.words.push_reserved(K::jump_word());
        self.push_use(Use {
            offset,
            target: Target::IslandEnd,
            kind: K::jump_use(),
            stop: None,
        });
    }

    /// Lets the jump over an island, the use at an index, lead to its end, where the island has
    /// one.
    #[inline(always)]
    fn end_jump(&mut self, index: usize, start: u32, end: u32, jump: bool)
        requires over { jump ≡ true → StandsAt index start self.old.uses.items }
        requires tracked { IsTracked K.kinds self.old }
        ensures uses { EndsJump jump start end self.old.uses.items self.new.uses.items }
        ensures tracked { IsTracked K.kinds self.new }
        ensures capacity { vec_capacity self.new.uses ≡ vec_capacity self.old.uses }
        ensures rest { self.new ≡ record self.old {
          uses = self.new.uses;
          burdens = self.new.burdens;
        } }
    {
        if !jump {
            return;
        }
        let class = self.uses[index].waiting_class();
        self.stop_at(index, end, class);
    }

    /// Ends an island: its jump, the use at an index, leads there, and it is listed, where it has a
    /// jump or contents.
    fn end_island(&mut self, index: usize, start: u32, jump: bool)
        requires over { jump ≡ true → StandsAt index start self.old.uses.items }
        requires short { end_of (seen self.old) < 2 ^ 31 }
        requires islands { vec_len self.old.islands < vec_capacity self.old.islands }
        requires tracked { IsTracked K.kinds self.old }
        ensures ended { EndsIsland jump start (seen self.old) (seen self.new) }
        ensures tracked { IsTracked K.kinds self.new }
        ensures queues { self.new.queues ≡ self.old.queues }
        ensures capacity { vec_capacity self.new.uses ≡ vec_capacity self.old.uses }
    {
        let end = self.end();
        self.end_jump(index, start, end, jump);
        if jump || start < end {
            self.islands.push_reserved((start, end));
        }
    }

    /// Whether the open uses of the longest range are given veneers: that is forced, or some could
    /// be out of reach.
    fn promotes(&self, distance: u32, force: ForceVeneers) -> bool
        requires short { end_of (seen self.now) < 2 ^ 31 }
        requires owed { owed K.kinds (seen self.now) < 2 ^ 32 }
        requires kinded { All (λ u. IsKinded K.kinds u.target u.kind) self.now.uses.items }
        requires waiting { AreWaiting K.kinds self.now.uses.items self.now.queues self.now.burdens }
        ensures { MatchBool result
            ((force ≡ Yes) ⊎ (Fits K.kinds (seen self.now) distance → ⊥))
            ((force ≡ No) × Fits K.kinds (seen self.now) distance) }
    {
        match force {
            ForceVeneers::Yes => true,
            ForceVeneers::No => !self.has_room(distance),
        }
    }

    /// Writes an island at the end: its jump at least, where it is to have one.
    pub fn emit_island(
        &mut self,
        distance: u32,
        force: ForceVeneers,
        jump: bool,
    ) -> Result<(), AllocError>
        requires sound { AreSound K.kinds self.old }
        requires short { end_of (seen self.old) + owed K.kinds (seen self.old) + 4 < 2 ^ 31 }
        ensures sound { AreSound K.kinds self.new }
        ensures ok { OnOk result
            (HasIsland K.kinds distance force jump (seen self.old) (seen self.new)) }
        ensures err { OnErr result (seen self.new ≡ seen self.old) }
    {
        self.reserve_all()?;
        self.reserve_veneers()?;
        let start = self.end();
        let index = self.uses.len();
        self.begin_island(jump);
        self.write_until(4);
        self.promote(distance, force);
        self.end_island(index, start, jump);
        Ok(())
    }

    /// Gives the open uses of the longest range far veneers, or none of them.
    fn promote(&mut self, distance: u32, force: ForceVeneers)
        requires may { MayWrite K.kinds (seen self.old) }
        requires space { HasSpace K.kinds self.old }
        requires kept { IsKept K.kinds self.old 0 }
        ensures promotes { WritesFar K.kinds distance force (seen self.old) (seen self.new) }
        ensures keeps { Keeps K.kinds self.old self.new }
    {
        if self.promotes(distance, force) {
            self.write_until(5);
        }
    }
}
