//! Finds what is wrong with code.

ghost use Rattle.std.specs.Prelude.{◌≡◌, ◌^◌, ◌<◌, nat_le, length, IsTrue};
ghost use Rattle.std.specs.Bool.{Decides};
ghost use Rattle.std.specs.List.{Contains};
ghost use Rattle.std.specs.List.Sorted.{IsNonDecreasing};
ghost use Rattle.a64_audit.specs.Entries.{contents_of};
ghost use Rattle.a64_audit.specs.Judging.{IsFirstBadRange, IsJudged};
ghost use Rattle.a64_audit.specs.declared.verdict.Verdict.{Verdict};
ghost use Rattle.a64_audit.specs.declared.verdict.Verdict.TheVariants.{Clean};
ghost use Rattle.a64_audit.specs.Verdicts.{AreGoodBefore, InData, IsVerdict, IsClean, word_at};
ghost use Rattle.a64_rows.specs.Forms.{Matches};
ghost use Rattle.a64_rows.specs.declared.row_table.Row.{Row};

use crate::branches::branch_target;
use crate::file::AuditFile;
use crate::verdict::Verdict;
use a64_rows::{Row, decode_word};

/// The word at which a trap may stand.
const TRAP_WORD: u32 = 0x0000_c11f;

/// The index of the first range that is empty, not of whole words, past the end of the code, or not
/// behind the one before it.
fn first_bad_range(file: &AuditFile) -> Option<usize>
    requires { length file.now.words.items < 2 ^ 29 }
    ensures { IsFirstBadRange (contents_of file.now) result }
{
    let size = 4 * file.words.len() as u32;
    let mut end_before = 0;
    for (i, range) in file.ranges.iter().enumerate() {
        let (begin, end) = *range;
        let whole = begin % 4 == 0 && end % 4 == 0;
        if begin >= end || !whole || end > size || end_before > begin {
            return Some(i);
        }
        end_before = end;
    }
    None
}

/// Whether a place lies in a range of data.
fn is_data(file: &AuditFile, place: u32) -> bool
    requires { AreGoodBefore (contents_of file.now) (length file.now.ranges.items) }
    ensures { Decides result (InData (contents_of file.now) place) }
{
    let ranges = file.ranges.as_slice();
    let index = ranges.partition_point(
        |range: &(u32, u32)| -> bool
            ensures { result ≡ nat_le range.now.1 place }
        { range.1 <= place },
    );
    match ranges.get(index) {
        Some((begin, _)) => *begin <= place,
        None => false,
    }
}

/// Whether a trap is named at a place. A file that was read has traps by place, and a bisection finds them; a
/// client may hand in any, and where they do not ascend they are looked for one by one.
fn is_trap(traps: &[u32], ascending: bool, place: u32) -> bool
    requires { IsTrue ascending → IsNonDecreasing traps.now }
    ensures { Decides result (Contains traps.now place) }
{
    if ascending {
        traps.binary_search(&place).is_ok()
    } else {
        traps.contains(&place)
    }
}

/// What is wrong with the word of this row at a place: it may be a direct branch that leads out of
/// the code, or into data.
fn judge_branch(file: &AuditFile, place: u32, word: u32, row: Row) -> Option<Verdict>
    requires few { length file.now.words.items < 2 ^ 29 }
    requires good { AreGoodBefore (contents_of file.now) (length file.now.ranges.items) }
    requires word { word ≡ word_at (contents_of file.now) place }
    requires matches { Matches row word }
    requires one_row { (other : Row) → Matches other word → other ≡ row }
    ensures { IsJudged (contents_of file.now) place result }
{
    let Some(target) = branch_target(row, word, place) else {
        return None;
    };
    if target < 0 || target >= 4 * file.words.len() as i64 {
        return Some(Verdict::OutOfCode(place));
    }
    if is_data(file, target as u32) {
        return Some(Verdict::IntoData(place));
    }
    None
}

/// What is wrong first with the word at a place. `ascending`: the traps stand in order.
fn judge(file: &AuditFile, place: u32, word: u32, ascending: bool) -> Option<Verdict>
    requires few { length file.now.words.items < 2 ^ 29 }
    requires good { AreGoodBefore (contents_of file.now) (length file.now.ranges.items) }
    requires word { word ≡ word_at (contents_of file.now) place }
    requires ascending { IsTrue ascending → IsNonDecreasing file.now.traps.items }
    ensures { IsJudged (contents_of file.now) place result }
{
    if let Some(form) = decode_word(word) {
        return judge_branch(file, place, word, form.row);
    }
    if word == TRAP_WORD && is_trap(file.traps.as_slice(), ascending, place) {
        return None;
    }
    Some(Verdict::UnknownWord(place))
}

/// What is wrong first with the code of a file. It takes no memory.
pub fn audit(file: &AuditFile) -> Verdict
    requires { length file.now.words.items < 2 ^ 29 }
    ensures verdict { IsVerdict (contents_of file.now) result }
    ensures clean { result ≡ Clean → IsClean (contents_of file.now) }
    ensures only { (other : Verdict) → IsVerdict (contents_of file.now) other
        → other ≡ result }
{
    if let Some(index) = first_bad_range(file) {
        return Verdict::BadRange(index);
    }
    let ascending = file.traps.is_sorted();
    for (index, word) in file.words.iter().enumerate() {
        let place = 4 * index as u32;
        if !is_data(file, place) {
            if let Some(verdict) = judge(file, place, *word, ascending) {
                return verdict;
            }
        }
    }
    Verdict::Clean
}
