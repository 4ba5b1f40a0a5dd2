//! The registers that functions may change.

ghost use Rattle.std.specs.Prelude.{ℕ, ◌≡◌, ◌<◌, ◌↔◌, true, IsTrue, MatchBool};
ghost use Rattle.a64_base.specs.Sets.{has_number};
ghost use Rattle.a64_role.specs.Queries as queries;
ghost use Rattle.a64_role.specs.Queries.{HasMore};

use a64_base::{CallConv, PReg, PRegSet, RegClass};

/// The registers that functions of each convention may change.
#[derive(Clone, Copy, Debug)]
pub struct ClobberTable {
    /// Those of the Arm procedure call standard.
    pub system_v: PRegSet,
    /// Those of the convention with tail calls.
    pub tail: PRegSet,
    /// Those of Apple's convention.
    pub apple_aarch64: PRegSet,
}

impl ClobberTable {
    /// The registers that a function of this convention may change.
    pub fn of(&self, conv: CallConv) -> PRegSet
        ensures { result ≡ queries.clobbers_of self.now conv }
    {
        match conv {
            CallConv::SystemV => self.system_v,
            CallConv::Tail => self.tail,
            CallConv::AppleAarch64 => self.apple_aarch64,
        }
    }
}

/// Whether a set has a register of a class, with a number below 32, that another lacks.
#[tactic(auto, using(crate::proofs::Sets::more_by, crate::proofs::Sets::held_more))]
fn has_more_of(set: &PRegSet, other: &PRegSet, class: RegClass) -> bool
    ensures { MatchBool result (HasMore set.now other.now)
        ((n : ℕ) → n < 32 → has_number set.now class n ≡ true
        → has_number other.now class n ≡ true) }
{
    for number in 0..32 {
        let register = PReg::new(number, class);
        if set.contains(register) && !other.contains(register) {
            return true;
        }
    }
    false
}

/// Whether a set has the stack pointer, and another lacks it.
#[tactic(auto, using(crate::proofs::Sets::more_by))]
fn has_more_stack(set: &PRegSet, other: &PRegSet) -> bool
    ensures { MatchBool result (HasMore set.now other.now)
        (has_number set.now RegClass.Int 63 ≡ true
        → has_number other.now RegClass.Int 63 ≡ true) }
{
    let register = PReg::new(63, RegClass::Int);
    set.contains(register) && !other.contains(register)
}

/// Whether a set has a register that another lacks.
#[tactic(auto, using(crate::proofs::Sets::no_more))]
pub fn has_more(set: &PRegSet, other: &PRegSet) -> bool
    ensures { IsTrue result ↔ HasMore set.now other.now }
{
    has_more_of(set, other, RegClass::Int)
        || has_more_of(set, other, RegClass::Float)
        || has_more_stack(set, other)
}
