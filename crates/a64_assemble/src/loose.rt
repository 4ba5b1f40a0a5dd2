//! How far the ends of items may come apart, with what islands between them may add.
//!
//! Sums over the first items answer each use, and no walk; a bisection finds the loads that may still wait.

ghost use Rattle.std.specs.Prelude.{◌≡◌, ◌+◌, ◌-◌, ◌*◌, ◌^◌, ◌<◌, ℕ, List, length, take, nat_le};
ghost use Rattle.a64_assemble.specs.Tally.{AreSums, AreMarks, AreRising, IsFirstWaiting};
ghost use Rattle.a64_emit.specs.Reach.{is_quiet, loose, reach};
ghost use Rattle.a64_inst.specs.declared.emission.EmitFlags.{EmitFlags};
ghost use Rattle.a64_inst.specs.declared.frame.FrameLayout.{FrameLayout};
ghost use Rattle.a64_inst.specs.declared.item.Item.{Item};
ghost use Rattle.a64_buffer.specs.declared.force.ForceVeneers.{ForceVeneers};

use crate::marks::Mark;

/// With so many bytes behind it, a load of a constant or a deferred trap waits no more.
const LOAD_RANGE: u32 = 1 << 20;

/// The first of the items before another behind which those before that one have less than 2^20 bytes.
fn first_waiting(marks: &[Mark], index: usize) -> usize
    requires rising { AreRising marks.now }
    requires within { index < length marks.now }
    ensures { IsFirstWaiting marks.now index result }
{
    let end = marks[index].size;
    marks[1..=index].partition_point(
        |mark: &Mark| -> bool
            ensures { result ≡ nat_le (2 ^ 20) (end - mark.now.size) }
        { end.saturating_sub(mark.size) >= LOAD_RANGE },
    )
}

/// How many uses of the first so many items may still want something of an island.
fn loose_uses(marks: &[Mark], index: usize) -> u32
    requires sums { AreSums marks.now }
    requires within { index < length marks.now }
    ensures count { (frame : FrameLayout) (flags : EmitFlags) (items : List Item)
        → AreMarks frame flags items marks.now
        → result ≡ loose frame flags (take index items) }
    ensures few { 28 * result < 2 ^ 31 }
{
    let mark = marks[index];
    let first = first_waiting(marks, index);
    mark.branches + (mark.loads - marks[first].loads)
}

/// How far the start of one item and the end of another may come apart in bytes, in whichever order they
/// stand. The sums are those over the first items; quiet items want no island.
pub fn reach_of(marks: &[Mark], quiet: bool, i: usize, j: usize) -> u64
    requires sums { AreSums marks.now }
    requires first { i + 1 < length marks.now }
    requires second { j + 1 < length marks.now }
    ensures { (frame : FrameLayout) (flags : EmitFlags) (items : List Item) (force : ForceVeneers)
        → AreMarks frame flags items marks.now → quiet ≡ is_quiet frame flags force items
        → result ≡ reach frame flags force items i j }
{
    let low = i.min(j);
    let start = marks[low];
    let end = marks[i.max(j) + 1];
    if quiet {
        return u64::from(end.size - start.size);
    }
    u64::from(end.growth - start.growth) + 28 * u64::from(loose_uses(marks, low))
}
