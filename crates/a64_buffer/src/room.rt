//! Whether open uses still reach what they get in islands.

ghost use Rattle.std.specs.Prelude.{true, ◌≡◌, ◌+◌, ◌^◌, ◌<◌, ◌≤◌};
ghost use Rattle.a64_buffer.specs.Classes.{first, second, third};

use crate::class::Class;

/// How many bytes of an island come before what uses of each urgency get.
#[derive(Clone, Copy)]
pub struct Burdens {
    /// Before what uses of urgency 1 get.
    pub first: u64,
    /// Before what uses of urgency 2 get.
    pub second: u64,
    /// Before what uses of urgency 3 get, and so in all.
    pub third: u64,
}

impl Burdens {
    ghost use Rattle.a64_buffer.specs.Classes.{cost};
    ghost use Rattle.a64_buffer.specs.Queues.{ShowNone};

    /// An open use of a class came to be.
    #[inline(always)]
    pub fn gain(&mut self, class: Class)
        requires first { self.old.first < 2 ^ 40 }
        requires second { self.old.second < 2 ^ 40 }
        requires third { self.old.third < 2 ^ 40 }
        ensures first { self.new.first ≡ self.old.first + cost first class }
        ensures second { self.new.second ≡ self.old.second + cost second class }
        ensures third { self.new.third ≡ self.old.third + cost third class }
    {
        self.first += class.first_cost();
        self.second += class.second_cost();
        self.third += class.third_cost();
    }

    /// An open use of a class was closed.
    #[inline(always)]
    pub fn lose(&mut self, class: Class)
        requires first { cost first class ≤ self.old.first }
        requires second { cost second class ≤ self.old.second }
        requires third { cost third class ≤ self.old.third }
        ensures first { self.new.first + cost first class ≡ self.old.first }
        ensures second { self.new.second + cost second class ≡ self.old.second }
        ensures third { self.new.third + cost third class ≡ self.old.third }
    {
        self.first -= class.first_cost();
        self.second -= class.second_cost();
        self.third -= class.third_cost();
    }

    /// Whether it shows that no use of a class is open.
    #[inline(always)]
    pub fn has_none(&self, class: Class) -> bool
        ensures { result ≡ true → ShowNone class self.now }
    {
        match class {
            Class::Near => self.first == 0,
            Class::Load | Class::Trapping | Class::Middle => self.second == 0,
            Class::Far => self.third == self.second,
            Class::Direct => self.third == 0,
        }
    }
}
