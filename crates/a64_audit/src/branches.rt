//! Where direct branches lead.

ghost use Rattle.std.specs.Prelude.{◌≡◌, ◌<◌, ◌*◌, ◌-◌, ◌^◌, ◌≤ℤ◌, ◌<ℤ◌, pos, negsuc, suc, nat_lt, if◌then◌else◌, IfSome};
ghost use Rattle.a64_audit.specs.Judging.{IsTarget};
ghost use Rattle.a64_audit.specs.Verdicts.{offset_of};

use a64_rows::{Row, Slot};

/// The number that a field says as two's complement. `half` is its first value that says one below
/// zero.
fn signed(value: u32, half: u32) -> i64
    requires value { value < 2 * half }
    requires half { half < 2 ^ 26 }
    ensures { result ≡ if nat_lt value half then pos value else negsuc (2 * half - suc value) }
{
    if value < half {
        i64::from(value)
    } else {
        i64::from(value) - 2 * i64::from(half)
    }
}

/// How many words away the target of a direct branch is, by its row. None: words of the row are no
/// direct branches.
fn branch_offset(row: Row, word: u32) -> Option<i64>
    ensures is { result ≡ offset_of row word }
    ensures near { IfSome result (λ words. (negsuc (2 ^ 25) ≤ℤ words)
        × (words <ℤ pos (2 ^ 25))) }
{
    match row {
        Row::Branch26 => Some(signed(Slot::Bits(0, 26).value_in(word), 1 << 25)),
        Row::BranchCond | Row::CompareBranch => {
            Some(signed(Slot::Bits(5, 19).value_in(word), 1 << 18))
        }
        Row::TestBranch => Some(signed(Slot::Bits(5, 14).value_in(word), 1 << 13)),
        _ => None,
    }
}

/// The target, in bytes, of the direct branch of this row at a place. None: it is none.
pub(crate) fn branch_target(row: Row, word: u32, place: u32) -> Option<i64>
    ensures is { IsTarget row word place result }
    ensures near { IfSome result (λ place. (negsuc (2 ^ 32) ≤ℤ place)
        × (place <ℤ pos (2 ^ 33))) }
{
    let offset = branch_offset(row, word)?;
    Some(i64::from(place) + 4 * offset)
}
