//! The open uses of all ranks, each in the queue of its rank.

ghost use Rattle.std.specs.Prelude.{◌≡◌, ◌≢◌, ◌⊎◌, ◌-◌, ◌^◌, ◌<◌, ◌≤◌, ◌↔◌, ◌++◌, ◌∷◌, [], ℕ, true, IsTrue, OnOk, None, length, slice_index_or};
ghost use Rattle.std.specs.BinaryHeap.{IsHeap};
ghost use Rattle.a64_buffer.specs.Classes.{wants, rank_of};
ghost use Rattle.a64_buffer.specs.Queues.{entry_cmp, entries, IsSameQueue, HaveRoomFor, LoseRoom, HaveRoomForOne, ReachLimits, IsFoundBelow, NoneWaits, IsWaitingClass, limit_of, IsLimit, AllHold, AllLimits};
ghost use Rattle.a64_buffer.specs.declared.queue.Queue.{Queue};

use crate::class::Class;
use crate::label_use::MachInstLabelUse;
use crate::queue::Queue;
use crate::room::Burdens;
use crate::site::Use;
use std::alloc::{AllocError, Global};

/// Queues without uses, one for each rank. They take no memory.
pub fn no_queues(alloc: Global) -> [Queue; 5]
    ensures none { (rank : ℕ) (q : Queue) → rank < 5
        → entries (slice_index_or result rank q) ≡ [] }
    ensures order { (rank : ℕ) (q : Queue) → rank < 5
        → IsHeap entry_cmp (entries (slice_index_or result rank q)) }
    ensures next { (rank : ℕ) (q : Queue) → rank < 5
        → (slice_index_or result rank q).next ≡ None }
    ensures limit { (rank : ℕ) (q : Queue) → rank < 5
        → (slice_index_or result rank q).limit ≡ 2 ^ 64 - 1 }
{
    [
        Queue::new(alloc),
        Queue::new(alloc),
        Queue::new(alloc),
        Queue::new(alloc),
        Queue::new(alloc),
    ]
}

/// Takes the memory for a use with a limit in the queue of its class, where that wants anything.
#[inline(always)]
pub fn reserve_queue(queues: &mut [Queue; 5], class: Class, limit: u64) -> Result<(), AllocError>
    ensures kept { (rank : ℕ) (q : Queue) → IsSameQueue (slice_index_or queues.old rank q)
        (slice_index_or queues.new rank q) }
    ensures ok { OnOk result (HaveRoomForOne class limit queues.new) }
{
    if class.wants() {
        queues[class.rank() as usize].reserve_for(limit)?;
    }
    Ok(())
}

/// Takes the memory for so many uses in the queue of the longest range, to which alone islands add.
pub fn reserve_veneers(queues: &mut [Queue; 5], more: usize) -> Result<(), AllocError>
    ensures kept { (rank : ℕ) (q : Queue) → IsSameQueue (slice_index_or queues.old rank q)
        (slice_index_or queues.new rank q) }
    ensures ok { OnOk result (HaveRoomFor more queues.new) }
{
    queues[4].reserve(more)
}

/// Puts a use with a limit and an index into the queue of its class, where it is open.
#[inline(always)]
pub fn queue_use<K: MachInstLabelUse>(
    queues: &mut [Queue; 5],
    site: &Use<K>,
    class: Class,
    limit: u64,
    index: usize,
)
    requires class { IsWaitingClass K.kinds site.now class }
    requires limit { limit ≡ limit_of K.kinds site.now }
    requires low { limit < 2 ^ 33 }
    requires room { HaveRoomForOne class limit queues.old }
    ensures hold { (uses : _) → length uses ≡ index → AllHold K.kinds uses queues.old
        → AllHold K.kinds (uses ++ site.now ∷ []) queues.new }
    ensures limits { (uses : _) → length uses ≡ index → AllLimits K.kinds uses queues.old
        → AllLimits K.kinds (uses ++ site.now ∷ []) queues.new }
    ensures room { LoseRoom 1 queues.old queues.new }
{
    if class.wants() {
        queues[class.rank() as usize].add(limit, index);
    }
}

/// An open use of a class and a limit was closed; where it is told so, no use of the class is open.
#[inline(always)]
pub fn close_queued<K: MachInstLabelUse>(
    queues: &mut [Queue; 5],
    uses: &[Use<K>],
    class: Class,
    limit: u64,
    none: bool,
)
    requires wants { IsTrue (wants class) }
    requires none { none ≡ true → NoneWaits K.kinds (rank_of class) uses.now 0
        (length uses.now) }
    requires hold { AllHold K.kinds uses.now queues.old }
    requires limits { (rank : ℕ) (q : Queue) → rank < 5
        → (rank_of class ≢ rank) ⊎ (limit ≢ (slice_index_or queues.old rank q).limit)
        → IsLimit K.kinds rank uses.now (slice_index_or queues.old rank q).limit
        (slice_index_or queues.old rank q).first }
    ensures hold { AllHold K.kinds uses.now queues.new }
    ensures limits { AllLimits K.kinds uses.now queues.new }
{
    let rank = class.rank();
    queues[rank as usize].close(uses, rank, limit, none);
}

/// Leaves closed uses behind in the queue of a class; where it is told so, no use of the class is open.
#[inline(always)]
pub fn settle_queue<K: MachInstLabelUse>(
    queues: &mut [Queue; 5],
    uses: &[Use<K>],
    class: Class,
    none: bool,
)
    requires wants { IsTrue (wants class) }
    requires none { none ≡ true → NoneWaits K.kinds (rank_of class) uses.now 0
        (length uses.now) }
    requires hold { AllHold K.kinds uses.now queues.old }
    requires limits { (rank : ℕ) (q : Queue) → rank < 5 → rank_of class ≢ rank
        → IsLimit K.kinds rank uses.now (slice_index_or queues.old rank q).limit
        (slice_index_or queues.old rank q).first }
    ensures hold { AllHold K.kinds uses.now queues.new }
    ensures limits { AllLimits K.kinds uses.now queues.new }
    ensures room { LoseRoom 0 queues.old queues.new }
{
    let rank = class.rank();
    queues[rank as usize].leave_closed(uses, rank, none);
}

/// The use of the least limit in the first queue below a limit that has an open use.
#[inline(always)]
pub fn first_below(queues: &[Queue; 5], limit: u64) -> Option<usize>
    requires { limit ≤ 5 }
    ensures ranks { length queues.now ≡ 5 }
    ensures found { IsFoundBelow limit queues.now result }
{
    for rank in 0..limit {
        let queue = &queues[rank as usize];
        if queue.limit != u64::MAX {
            return Some(queue.first);
        }
    }
    None
}

/// Whether each open use reaches a place and the burden of its urgency behind it: the limits decide.
#[inline(always)]
pub fn have_room(queues: &[Queue; 5], from: u64, burdens: Burdens) -> bool
    requires from { from < 2 ^ 40 }
    requires first { burdens.first < 2 ^ 40 }
    requires second { burdens.second < 2 ^ 40 }
    requires third { burdens.third < 2 ^ 40 }
    ensures ranks { length queues.now ≡ 5 }
    ensures reach { IsTrue result
        ↔ ReachLimits from burdens.first burdens.second burdens.third queues.now }
{
    let second = from + burdens.second;
    from + burdens.first <= queues[0].limit
        && second <= queues[1].limit
        && second <= queues[2].limit
        && second <= queues[3].limit
        && from + burdens.third <= queues[4].limit
}
