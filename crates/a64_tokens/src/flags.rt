//! Reads what is known of a memory access.

ghost use Rattle.std.specs.Prelude.{◌≡◌, None};
ghost use Rattle.a64_tokens.specs.Reads.{Reads};
ghost use Rattle.a64_tokens.specs.Fields.{flags_text, IsFlags};

use crate::decimal::read_u8;
use a64_base::{MemFlagsData, TrapCode};

/// An access that does not trap.
fn no_trap() -> MemFlagsData
    ensures { result ≡ None }
{
    MemFlagsData::trusted()
}

/// What the token says of an access: `-` where it does not trap, else the code of its trap.
pub fn read_flags(token: &[u8]) -> Option<MemFlagsData>
    ensures { Reads IsFlags flags_text token.now result }
{
    match token {
        b"-" => Some(no_trap()),
        _ => Some(MemFlagsData::with_trap(TrapCode(read_u8(token)?))),
    }
}
