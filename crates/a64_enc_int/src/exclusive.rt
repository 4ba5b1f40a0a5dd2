//! Loops of an exclusive load and an exclusive store: where the branch behind them leads, and which of their words
//! trap.

ghost use Rattle.std.specs.Prelude.{◌≡◌, ◌≤◌, ◌+◌, ◌*◌, negsuc};

use a64_base::TrapCode;

/// The offset in bytes of the branch at the end of a loop of exclusive accesses, back to its load, where so many
/// words, at most 4, stand between the load and the store. Behind these and before the branch stands the store.
pub fn loop_offset(between: usize) -> i32
    requires { between ≤ 4 }
    ensures { result ≡ negsuc (4 * between + 7) }
{
    -4 * (between as i32 + 2)
}

/// How the accesses of a loop trap, where they do. No other of its words does.
#[derive(Clone, Copy, Debug)]
pub struct LoopTraps {
    /// The trap of the exclusive load.
    pub load: Option<TrapCode>,
    /// The trap of the exclusive store.
    pub store: Option<TrapCode>,
}

/// The traps of a loop of exclusive accesses whose instruction traps so, where it does.
pub fn loop_traps(trap: Option<TrapCode>) -> LoopTraps
    ensures { result ≡ record { load = trap; store = trap } }
{
    LoopTraps {
        load: trap,
        store: trap,
    }
}
