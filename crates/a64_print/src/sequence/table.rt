//! The text of a jump by a table.

ghost use Rattle.std.specs.Prelude.{◌≡◌, ◌++◌, if◌then◌else◌, codes, OnOk, length};
ghost use Rattle.std.specs.Fmt.{decimal};
ghost use Rattle.std.specs.String.{string_bytes};
ghost use Rattle.a64_operand_text.specs.SequenceTexts as texts;

use a64_base::{BranchTarget, Cond, MachLabel, Reg, push_numbered};
use a64_operand_text::Operand::{Condition, Near, Number, TableEntry, Target, X};
use a64_operand_text::{line1, push_two_lines};
use std::alloc::AllocError;

/// What stands before the number of a label in a list.
fn label_start(is_first: bool) -> &'static str
    ensures { result.now ≡ (if is_first then codes "label" else codes ", label") }
{
    if is_first { "label" } else { ", label" }
}

/// Appends a label of a list, and the comma before it.
fn push_label(out: &mut String, is_first: bool, label: &MachLabel) -> Result<(), AllocError>
    ensures { OnOk result (string_bytes out.new ≡ string_bytes out.old
        ++ ((if is_first then codes "label" else codes ", label") ++ decimal label.now.0)) }
{
    push_numbered(out, label_start(is_first), label.0)
}

/// Appends labels, with commas between them.
fn push_labels(out: &mut String, labels: &[MachLabel]) -> Result<(), AllocError>
    ensures { OnOk result (string_bytes out.new
        ≡ string_bytes out.old ++ texts.labels_text labels.now) }
{
    let mut is_first = true;
    for label in labels {
        push_label(out, is_first, label)?;
        is_first = false;
    }
    Ok(())
}

/// Appends a name and a list of labels behind it.
#[tactic(auto, unfolding(a64_operand_text::specs::SequenceTexts::label_list_text))]
fn push_label_list(out: &mut String, name: &str, labels: &[MachLabel]) -> Result<(), AllocError>
    ensures { OnOk result (string_bytes out.new
        ≡ string_bytes out.old ++ texts.label_list_text name.now labels.now) }
{
    out.push_str(name)?;
    out.push_str(" [")?;
    push_labels(out, labels)?;
    out.push_str("]")
}

/// Appends the part that keeps the index below the number of entries.
#[tactic(auto, unfolding(a64_operand_text::specs::SequenceTexts::table_bound_text))]
fn push_bound(out: &mut String, count: u64, ridx: Reg, rtmp2: &Reg) -> Result<(), AllocError>
    ensures { OnOk result (string_bytes out.new
        ≡ string_bytes out.old ++ texts.table_bound_text count ridx rtmp2.now) }
{
    push_two_lines(
        out,
        "mov",
        &[X(*rtmp2), Number(count)],
        "csel",
        &[X(*rtmp2), X(ridx), X(*rtmp2), Condition(Cond::Lo)],
    )
}

/// Appends the part that reads the entry.
#[tactic(auto, unfolding(a64_operand_text::specs::SequenceTexts::table_entry_text))]
fn push_entry(out: &mut String, rtmp1: &Reg, rtmp2: &Reg) -> Result<(), AllocError>
    ensures { OnOk result (string_bytes out.new
        ≡ string_bytes out.old ++ texts.table_entry_text rtmp1.now rtmp2.now) }
{
    push_two_lines(
        out,
        "adr",
        &[X(*rtmp1), Near(16)],
        "ldrsw",
        &[X(*rtmp2), TableEntry(*rtmp1, *rtmp2)],
    )
}

/// Appends the part that adds the entry to the table's address, and jumps there.
#[tactic(auto, unfolding(a64_operand_text::specs::SequenceTexts::table_jump_text))]
fn push_jump(out: &mut String, rtmp1: &Reg, rtmp2: &Reg) -> Result<(), AllocError>
    ensures { OnOk result (string_bytes out.new
        ≡ string_bytes out.old ++ texts.table_jump_text rtmp1.now rtmp2.now) }
{
    push_two_lines(
        out,
        "add",
        &[X(*rtmp1), X(*rtmp1), X(*rtmp2)],
        "br",
        &[X(*rtmp1)],
    )
}

/// Appends the entries, and where the jump goes without one.
#[tactic(auto, unfolding(a64_operand_text::specs::SequenceTexts::table_targets_text))]
fn push_targets(
    out: &mut String,
    default: MachLabel,
    targets: &[MachLabel],
) -> Result<(), AllocError>
    ensures { OnOk result (string_bytes out.new
        ≡ string_bytes out.old ++ texts.table_targets_text default targets.now) }
{
    push_label_list(out, "jt_entries", targets)?;
    out.push_str(" ; ")?;
    line1(out, "default", Target(BranchTarget::Label(default)))
}

/// Appends the text of a jump by a table.
///
/// # Errors
///
/// Want of memory.
#[tactic(auto, unfolding(a64_operand_text::specs::SequenceTexts::jt_sequence_text))]
pub fn push_jt_sequence(
    out: &mut String,
    default: MachLabel,
    targets: &[MachLabel],
    ridx: Reg,
    rtmp1: &Reg,
    rtmp2: &Reg,
) -> Result<(), AllocError>
    ensures { OnOk result (string_bytes out.new ≡ string_bytes out.old
        ++ texts.jt_sequence_text default targets.now ridx rtmp1.now rtmp2.now) }
{
    push_bound(out, targets.len() as u64, ridx, rtmp2)?;
    out.push_str(" ; csdb ; ")?;
    push_entry(out, rtmp1, rtmp2)?;
    out.push_str(" ; ")?;
    push_jump(out, rtmp1, rtmp2)?;
    out.push_str(" ; ")?;
    push_targets(out, default, targets)
}
