//! Reads sets of registers.

ghost use Rattle.std.specs.Prelude.{◌≡◌, ◌<◌, IfOk};
ghost use Rattle.a64_read.specs.Clobbers.{clobbers_text, members, nth_register, IsPRegSet};
ghost use Rattle.a64_tokens.specs.Reads.{Reads};

use crate::list::read_list;
use a64_base::{PReg, PRegSet, RegClass};
use std::alloc::{AllocError, Global};

/// The place of a register among all of them, in the order in which lists have them.
fn place_of(register: PReg) -> u8
    ensures below { result < 65 }
    ensures there { nth_register result ≡ register }
{
    match register.class() {
        RegClass::Float => 33 + register.hw_enc(),
        RegClass::Int if register.hw_enc() == 63 => 32,
        RegClass::Int => register.hw_enc(),
    }
}

/// The set itself, which has registers of the machine alone.
fn whole_set(set: PRegSet) -> PRegSet
    ensures same { result ≡ set }
    ensures fits { IsPRegSet result }
{
    set
}

/// The set that has these registers, where they stand in their order.
fn set_of(registers: &[PReg]) -> Option<PRegSet>
    ensures { Reads IsPRegSet members registers.now result }
{
    let mut set = PRegSet::empty();
    let mut next = 0;
    for register in registers {
        let place = place_of(*register);
        if place < next {
            return None;
        }
        set.add(*register);
        next = place + 1;
    }
    Some(whole_set(set))
}

/// The set whose registers the token lists, in their order.
///
/// # Errors
///
/// Want of memory, for the list.
pub fn read_clobbers(alloc: Global, token: &[u8]) -> Result<Option<PRegSet>, AllocError>
    ensures { IfOk result (Reads IsPRegSet clobbers_text token.now) }
{
    let Some(registers) = read_list::<PReg>(alloc, token)? else {
        return Ok(None);
    };
    Ok(set_of(registers.as_slice()))
}
