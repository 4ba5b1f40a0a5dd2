//! What is kept of the uses that wait for islands.

ghost use Rattle.std.specs.Prelude.{◌≡◌, ◌+◌, ◌^◌, ◌<◌, ◌≤◌, ◌≢◌, ◌↔◌, ◌++◌, ◌∷◌, [], ℕ, All, IsTrue, OnOk, length, take, slice_index_or};
ghost use Rattle.a64_buffer.specs.Buffer.{end_of};
ghost use Rattle.a64_buffer.specs.Classes.{wants, rank_of, third, veneer_uses, weight_of, burden, owed, Fits};
ghost use Rattle.a64_buffer.specs.Queues.{IsSameQueue, HaveRoomFor, LoseRoom, HaveRoomForOne, IsWaitingClass, limit_of, IsLimit, AllHold, AllLimits, AreBurdens, AreWaiting};
ghost use Rattle.a64_buffer.specs.declared.queue.Queue.{Queue};

use crate::class::Class;
use crate::label_use::MachInstLabelUse;
use crate::parts::Parts;
use crate::queues::{have_room, queue_use, reserve_veneers, settle_queue};
use crate::site::Use;
use std::alloc::AllocError;

impl<'c, K: MachInstLabelUse> Parts<'c, K> {
    ghost use Rattle.a64_buffer.specs.Sound.{seen, IsKinded};

    /// Keeps a use of a class and with a limit, which is added next, where it is open.
    #[inline(always)]
    pub fn await_use(&mut self, site: &Use<K>, class: Class, limit: u64)
        requires class { IsWaitingClass K.kinds site.now class }
        requires limit { limit ≡ limit_of K.kinds site.now }
        requires low { limit < 2 ^ 33 }
        requires room { HaveRoomForOne class limit self.old.queues }
        requires waiting { AreWaiting K.kinds self.old.uses.items self.old.queues self.old.burdens }
        requires few { burden K.kinds third self.old.uses.items < 2 ^ 32 }
        ensures waiting { AreWaiting K.kinds (self.old.uses.items ++ site.now ∷ [])
            self.new.queues self.new.burdens }
        ensures rest { self.new ≡ record self.old {
          queues = self.new.queues;
          burdens = self.new.burdens;
        } }
    {
        let index = self.uses.len();
        queue_use(&mut self.queues, site, class, limit, index);
        if class.wants() {
            self.burdens.gain(class);
        }
    }

    /// Takes the memory for the uses that an island may add, in the queue of the longest range.
    pub fn reserve_veneers(&mut self) -> Result<(), AllocError>
        requires burdens { AreBurdens K.kinds self.old.uses.items self.old.burdens }
        ensures kept { (rank : ℕ) (q : Queue)
            → IsSameQueue (slice_index_or self.old.queues rank q)
            (slice_index_or self.new.queues rank q) }
        ensures ok { OnOk result (HaveRoomFor (weight_of K.kinds veneer_uses self.old.uses.items
            + 1) self.new.queues) }
        ensures rest { self.new ≡ record self.old { queues = self.new.queues } }
    {
        let more = self.burdens.third as usize / 12 + 1;
        reserve_veneers(&mut self.queues, more)?;
        Ok(())
    }

    /// Leaves closed uses of a class behind, among those before an index.
    #[inline(always)]
    pub fn settle_class(&mut self, from: usize, class: Class)
        requires from { from ≤ length self.old.uses.items }
        requires wants { IsTrue (wants class) }
        requires burdens { AreBurdens K.kinds self.old.uses.items self.old.burdens }
        requires hold { AllHold K.kinds (take from self.old.uses.items) self.old.queues }
        requires limits { (rank : ℕ) (q : Queue) → rank < 5 → rank_of class ≢ rank
            → IsLimit K.kinds rank (take from self.old.uses.items)
            (slice_index_or self.old.queues rank q).limit
            (slice_index_or self.old.queues rank q).first }
        ensures hold { AllHold K.kinds (take from self.old.uses.items) self.new.queues }
        ensures limits { AllLimits K.kinds (take from self.old.uses.items) self.new.queues }
        ensures room { LoseRoom 0 self.old.queues self.new.queues }
        ensures rest { self.new ≡ record self.old { queues = self.new.queues } }
    {
        let none = self.burdens.has_none(class);
        settle_queue(&mut self.queues, &self.uses[..from], class, none);
    }

    /// Whether each open use reaches what it gets in the worst island, if that begins so many bytes
    /// behind the end: it looks at the first of each rank alone.
    #[inline(always)]
    pub fn has_room(&self, more: u32) -> bool
        requires short { end_of (seen self.now) < 2 ^ 31 }
        requires owed { owed K.kinds (seen self.now) < 2 ^ 32 }
        requires kinded { All (λ u. IsKinded K.kinds u.target u.kind) self.now.uses.items }
        requires waiting { AreWaiting K.kinds self.now.uses.items self.now.queues self.now.burdens }
        ensures { IsTrue result ↔ Fits K.kinds (seen self.now) more }
    {
        let from = u64::from(self.end()) + u64::from(more) + 4;
        have_room(&self.queues, from, self.burdens)
    }
}
