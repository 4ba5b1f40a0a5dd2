//! Classes of uses, by what they may want of an island.

ghost use Rattle.std.specs.Prelude.{◌≡◌, ◌+◌, ◌^◌, ◌<◌, ◌≤◌, ◌↔◌, true, IsTrue};
ghost use Rattle.a64_buffer.specs.Classes as classes;
ghost use Rattle.a64_buffer.specs.Classes.{first, second, third, cost, rank_of};

use crate::label_use::MachInstLabelUse;
use crate::site::{Target, Use};

/// What a use may want of an island.
#[derive(Clone, Copy, Debug, PartialEq, Eq)]
pub enum Class {
    /// A branch of urgency 1: a jump word.
    Near,
    /// A load of a constant: a copy of it.
    Load,
    /// A branch to a trap: a trap word.
    Trapping,
    /// A branch of urgency 2: a jump word.
    Middle,
    /// A branch of urgency 3: a far veneer.
    Far,
    /// Nothing: the use leads straight to its target.
    Direct,
}

impl<K: MachInstLabelUse> Use<K> {
    ghost use Rattle.a64_buffer.specs.Queues.{IsWaitingClass, limit_of};

    /// What the use may want.
    #[inline(always)]
    pub fn class(&self) -> Class
        ensures { result ≡ classes.class K.kinds self.now }
    {
        match self.target {
            Target::Label(_) => label_class(self.kind.supports_veneer(), self.kind.urgency()),
            Target::Constant(_) => Class::Load,
            Target::Trap(_) => Class::Trapping,
            Target::IslandEnd => Class::Direct,
        }
    }

    /// Whether it waits for a veneer, a constant or a trap word.
    #[inline(always)]
    pub fn is_open(&self) -> bool
        ensures { result ≡ classes.is_open K.kinds self.now }
    {
        self.class().wants() && self.stop.is_none()
    }

    /// Its class where it waits for anything, and else one that wants nothing.
    #[inline(always)]
    pub fn waiting_class(&self) -> Class
        ensures { IsWaitingClass K.kinds self.now result }
    {
        if self.stop.is_some() {
            return Class::Direct;
        }
        self.class()
    }

    /// Whether it waits, and is of a rank.
    #[inline(always)]
    pub fn waits_in(&self, rank: u64) -> bool
        requires { rank < 5 }
        ensures { IsTrue result ↔ (classes.is_open K.kinds self.now ≡ true
            × rank_of (classes.class K.kinds self.now) ≡ rank) }
    {
        self.stop.is_none() && self.class().rank() == rank
    }

    /// How far ahead what it gets may stand, in bytes from the start of the code.
    #[inline(always)]
    pub fn limit(&self) -> u64
        ensures is { result ≡ limit_of K.kinds self.now }
        ensures low { result < 2 ^ 33 }
    {
        u64::from(self.offset) + u64::from(self.kind.max_pos_range())
    }
}

/// The class of a use of a label.
#[inline(always)]
fn label_class(veneers: bool, urgency: u8) -> Class
    ensures { result ≡ classes.label_class veneers urgency }
{
    if !veneers {
        return Class::Direct;
    }
    match urgency {
        1 => Class::Near,
        2 => Class::Middle,
        _ => Class::Far,
    }
}

impl Class {
    /// Whether it wants anything.
    #[inline(always)]
    pub fn wants(self) -> bool
        ensures { result ≡ classes.wants self }
    {
        match self {
            Class::Direct => false,
            _ => true,
        }
    }

    /// The order in which an island gives.
    #[inline(always)]
    pub fn rank(self) -> u64
        ensures is { result ≡ classes.rank_of self }
        ensures most { result ≤ 5 }
    {
        match self {
            Class::Near => 0,
            Class::Load => 1,
            Class::Trapping => 2,
            Class::Middle => 3,
            Class::Far => 4,
            Class::Direct => 5,
        }
    }

    /// How many bytes what is given may put before what uses of urgency 1 get.
    #[inline(always)]
    pub fn first_cost(self) -> u64
        ensures { result ≡ cost first self }
    {
        match self {
            Class::Near => 4,
            _ => 0,
        }
    }

    /// The same, before what uses of urgency 2 get.
    #[inline(always)]
    pub fn second_cost(self) -> u64
        ensures { result ≡ cost second self }
    {
        match self {
            Class::Near | Class::Middle | Class::Trapping => 4,
            Class::Load => 28,
            Class::Far | Class::Direct => 0,
        }
    }

    /// The same, before what uses of urgency 3 get, so before the end of the island.
    #[inline(always)]
    pub fn third_cost(self) -> u64
        ensures { result ≡ cost third self }
    {
        match self {
            Class::Near | Class::Middle => 24,
            Class::Load => 28,
            Class::Trapping => 4,
            Class::Far => 20,
            Class::Direct => 0,
        }
    }

    /// How many uses veneers for it add.
    pub fn veneer_uses(self) -> usize
        ensures { result ≡ classes.veneer_uses self }
    {
        match self {
            Class::Near | Class::Middle => 2,
            Class::Far => 1,
            _ => 0,
        }
    }

    /// How many trap words it adds.
    pub fn trap_words(self) -> usize
        ensures { result ≡ classes.trap_words self }
    {
        match self {
            Class::Trapping => 1,
            _ => 0,
        }
    }
}
