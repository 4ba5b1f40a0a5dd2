//! The open uses of one rank, the one of the least limit first.
//!
//! A queue is the list of uses itself from an index on, and a heap of the uses at older words. An
//! insertion into an ordered map may fail half-way through an island, where memory of a vector is taken
//! before. A heap for all open uses takes some 200 machine instructions more for a pair of a jump and
//! its label.

ghost use Rattle.std.specs.Prelude.{true, ◌≡◌, ◌≢◌, ℕ, All, IfSome, MatchOption, ◌+◌, ◌-◌, ◌^◌, ◌<◌, ◌≤◌, [], ◌∷◌, ◌++◌, OnOk, None, Some, length, min, slice_index_or, IsPermutation};
ghost use Rattle.std.specs.BinaryHeap.{IsHeap, heap_len, heap_capacity};
ghost use Rattle.a64_buffer.specs.Classes.{class, rank_of};
ghost use Rattle.a64_buffer.specs.Queues.{entry_cmp, entry_of, entries, LosesRoom, IsSameQueue, HasRoomFor, IsFirstStray, HoldsIn, NoneWaits, IsNextWaiting, WaitsAt, IsLimitAt, IsFirstOf, IsLimit};

use crate::label_use::MachInstLabelUse;
use crate::site::Use;
use std::alloc::{AllocError, Global};
use std::collections::BinaryHeap;

/// The open uses of one rank. Uses that have been closed since may stand among them.
///
/// Nearly all uses are added at limits that rise. They need no memory of their own: the first of them
/// is known by its index, and the others stand behind it in the list of uses.
#[derive(Drop)]
pub struct Queue {
    /// The least limit of the open uses, or the greatest number of 64 bits where there is none.
    pub limit: u64,
    /// The index of the open use that has it.
    pub first: usize,
    /// No open use has a greater limit.
    most: u64,
    /// The index of the first of the uses that were added at rising limits.
    next: Option<usize>,
    /// For each other use how far its limit is from the greatest number of 64 bits, and its index.
    strays: BinaryHeap<(u64, usize)>,
}

/// The first open use of a rank from an index on.
fn next_waiting<K: MachInstLabelUse>(uses: &[Use<K>], from: usize, rank: u64) -> Option<usize>
    requires rank { rank < 5 }
    ensures { IsNextWaiting K.kinds rank uses.now from result }
{
    for index in from..uses.len() {
        if uses[index].waits_in(rank) {
            return Some(index);
        }
    }
    None
}

/// The limit of the use at an index, or the greatest number of 64 bits where there is none.
fn limit_at<K: MachInstLabelUse>(uses: &[Use<K>], index: Option<usize>) -> u64
    requires within { IfSome index (λ i. i < length uses.now) }
    ensures { IsLimitAt K.kinds uses.now index result }
{
    match index {
        Some(index) => uses[index].limit(),
        None => u64::MAX,
    }
}

impl Queue {
    /// No uses. It takes no memory.
    pub fn new(alloc: Global) -> Self
        ensures none { entries result ≡ [] }
        ensures order { IsHeap entry_cmp (entries result) }
        ensures next { result.next ≡ None }
        ensures limit { result.limit ≡ 2 ^ 64 - 1 }
    {
        Queue {
            limit: u64::MAX,
            first: 0,
            most: 0,
            next: None,
            strays: BinaryHeap::new(alloc),
        }
    }

    /// Takes the memory for so many uses more.
    pub fn reserve(&mut self, more: usize) -> Result<(), AllocError>
        ensures kept { IsSameQueue self.old self.new }
        ensures ok { OnOk result (heap_len self.new.strays + more
            ≤ heap_capacity self.new.strays) }
    {
        self.strays.reserve(more)
    }

    /// Takes the memory for a use with a limit.
    #[inline(always)]
    pub fn reserve_for(&mut self, limit: u64) -> Result<(), AllocError>
        ensures kept { IsSameQueue self.old self.new }
        ensures ok { OnOk result (HasRoomFor limit self.new) }
    {
        if limit < self.most {
            self.strays.reserve(1)?;
        }
        Ok(())
    }

    /// Adds a use with a limit, for which there is room, and which has an index.
    #[inline(always)]
    pub fn add(&mut self, limit: u64, index: usize)
        requires room { HasRoomFor limit self.old }
        ensures rising { self.old.most ≤ limit
            → (self.new.most ≡ limit) × (MatchOption self.old.next (self.new.next
            ≡ Some index) (λ n. self.new.next ≡ Some n))
            × (entries self.new ≡ entries self.old) }
        ensures stray { limit < self.old.most
            → (self.new.most ≡ self.old.most) × (self.new.next ≡ self.old.next)
            × IsPermutation (entry_of limit index ∷ entries self.old) (entries self.new)
            × (IsHeap entry_cmp (entries self.old) → IsHeap entry_cmp (entries self.new)) }
        ensures first { limit < self.old.limit
            → (self.new.limit ≡ limit) × (self.new.first ≡ index) }
        ensures kept { self.old.limit ≤ limit
            → (self.new.limit ≡ self.old.limit) × (self.new.first ≡ self.old.first) }
        ensures room { LosesRoom 1 self.old self.new }
    {
        if limit < self.most {
            self.push_stray(limit, index);
        } else {
            self.most = limit;
            if self.next.is_none() {
                self.next = Some(index);
            }
        }
        if limit < self.limit {
            self.limit = limit;
            self.first = index;
        }
    }

    /// Adds a use to the strays, for which there is room.
    #[inline(never)]
    fn push_stray(&mut self, limit: u64, index: usize)
        requires room { heap_len self.old.strays < heap_capacity self.old.strays }
        ensures added { IsPermutation (entry_of limit index
            ∷ entries self.old) (entries self.new) }
        ensures order { IsHeap entry_cmp (entries self.old)
            → IsHeap entry_cmp (entries self.new) }
        ensures len { heap_len self.new.strays ≡ heap_len self.old.strays + 1 }
        ensures capacity { heap_capacity self.old.strays ≤ heap_capacity self.new.strays }
        ensures rest { self.new ≡ record self.old { strays = self.new.strays } }
    {
        match self.strays.push((u64::MAX - limit, index)) {
            Ok(()) => {}
            Err(_) => unreachable!(),
        }
    }

    /// The first stray.
    #[inline(always)]
    fn first_stray(&self) -> Option<usize>
        ensures is { IsFirstStray (entries self.now) result }
        ensures greatest { IfSome result (λ i. IsHeap entry_cmp (entries self.now)
            → All (λ e. e.0 ≤ (slice_index_or (entries self.now) 0 (0, 0)).0)
            (entries self.now)) }
    {
        match self.strays.peek() {
            Some(&(_, index)) => Some(index),
            None => None,
        }
    }

    /// A use with a limit was closed; where it is told so, none is open.
    #[inline(always)]
    pub fn close<K: MachInstLabelUse>(&mut self, uses: &[Use<K>], rank: u64, limit: u64, none: bool)
        requires rank { rank < 5 }
        requires holds { HoldsIn K.kinds rank uses.now self.old }
        requires none { none ≡ true → NoneWaits K.kinds rank uses.now 0 (length uses.now) }
        requires limit { limit ≢ self.old.limit
            → IsLimit K.kinds rank uses.now self.old.limit self.old.first }
        ensures holds { HoldsIn K.kinds rank uses.now self.new }
        ensures limit { IsLimit K.kinds rank uses.now self.new.limit self.new.first }
    {
        if limit == self.limit {
            self.leave_closed(uses, rank, none);
        }
    }

    /// Leaves closed uses behind, which are all of them where it is told so, and finds the least limit.
    #[inline(always)]
    pub fn leave_closed<K: MachInstLabelUse>(&mut self, uses: &[Use<K>], rank: u64, none: bool)
        requires rank { rank < 5 }
        requires holds { HoldsIn K.kinds rank uses.now self.old }
        requires none { none ≡ true → NoneWaits K.kinds rank uses.now 0 (length uses.now) }
        ensures holds { HoldsIn K.kinds rank uses.now self.new }
        ensures limit { IsLimit K.kinds rank uses.now self.new.limit self.new.first }
        ensures room { LosesRoom 0 self.old self.new }
    {
        if none {
            self.leave_all();
            return;
        }
        self.settle(uses, rank);
    }

    /// Leaves all uses behind, of which none is open.
    #[inline(always)]
    fn leave_all(&mut self)
        ensures { self.new ≡ record self.old { limit = 2 ^ 64 - 1; first = 0; next = None } }
    {
        self.limit = u64::MAX;
        self.first = 0;
        self.next = None;
    }

    /// Leaves closed uses behind, until open ones are first, and finds the least limit.
    #[inline(always)]
    fn settle<K: MachInstLabelUse>(&mut self, uses: &[Use<K>], rank: u64)
        requires rank { rank < 5 }
        requires holds { HoldsIn K.kinds rank uses.now self.old }
        ensures holds { HoldsIn K.kinds rank uses.now self.new }
        ensures limit { IsLimit K.kinds rank uses.now self.new.limit self.new.first }
        ensures room { LosesRoom 0 self.old self.new }
    {
        self.skip_closed(uses, rank);
        self.drop_closed(uses, rank);
        let first = self.least(uses, rank);
        self.limit = limit_at(uses, first);
        self.first = first.unwrap_or(0);
    }

    /// The open use of the least limit, once open uses are first.
    #[inline(always)]
    fn least<K: MachInstLabelUse>(&self, uses: &[Use<K>], rank: u64) -> Option<usize>
        requires holds { HoldsIn K.kinds rank uses.now self.now }
        requires next { WaitsAt K.kinds rank uses.now self.now.next }
        requires stray { (i : ℕ) → IsFirstStray (entries self.now) (Some i)
            → WaitsAt K.kinds rank uses.now (Some i) }
        ensures { IsFirstOf K.kinds rank uses.now result }
    {
        let Some(stray) = self.first_stray() else {
            return self.next;
        };
        let Some(next) = self.next else {
            return Some(stray);
        };
        if uses[next].limit() <= uses[stray].limit() {
            Some(next)
        } else {
            Some(stray)
        }
    }

    /// Goes on to the next open use among those that were added at rising limits.
    #[inline(always)]
    fn skip_closed<K: MachInstLabelUse>(&mut self, uses: &[Use<K>], rank: u64)
        requires rank { rank < 5 }
        requires holds { HoldsIn K.kinds rank uses.now self.old }
        ensures holds { HoldsIn K.kinds rank uses.now self.new }
        ensures open { WaitsAt K.kinds rank uses.now self.new.next }
        ensures rest { self.new ≡ record self.old { next = self.new.next } }
    {
        let Some(next) = self.next else {
            return;
        };
        self.next = next_waiting(uses, next, rank);
    }

    /// Takes closed uses from the front of the strays, until an open one is first.
    #[inline(always)]
    fn drop_closed<K: MachInstLabelUse>(&mut self, uses: &[Use<K>], rank: u64)
        requires holds { HoldsIn K.kinds rank uses.now self.old }
        ensures holds { HoldsIn K.kinds rank uses.now self.new }
        ensures open { (i : ℕ) → IsFirstStray (entries self.new) (Some i)
            → WaitsAt K.kinds rank uses.now (Some i) }
        ensures next { self.new.next ≡ self.old.next }
        ensures room { LosesRoom 0 self.old self.new }
    {
        while let Some(index) = self.first_stray() {
            if uses[index].is_open() {
                return;
            }
            self.drop_first();
        }
    }

    /// Takes the first stray away.
    #[inline(never)]
    fn drop_first(&mut self)
        requires some { 0 < length (entries self.old) }
        ensures dropped { IsPermutation (entries self.old)
            (slice_index_or (entries self.old) 0 (0, 0) ∷ entries self.new) }
        ensures order { IsHeap entry_cmp (entries self.old)
            → IsHeap entry_cmp (entries self.new) }
        ensures len { heap_len self.new.strays < heap_len self.old.strays }
        ensures room { LosesRoom 0 self.old self.new }
        ensures rest { self.new ≡ record self.old { strays = self.new.strays } }
    {
        let _first = self.strays.pop();
    }
}
