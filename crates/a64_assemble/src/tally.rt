//! How many branches of items are to labels that no later item binds.

ghost use Rattle.std.specs.Prelude.{◌≡◌, ◌+◌, ◌^◌, ◌<◌, ◌≤◌, ◌∷◌, ◌++◌, [], ℕ, List, IfOk, OnOk, option_and_then};
ghost use Rattle.std.specs.List.{cons_option};
ghost use Rattle.a64_inst.specs.declared.emission.EmitFlags.{EmitFlags};
ghost use Rattle.a64_inst.specs.declared.frame.FrameLayout.{FrameLayout};
ghost use Rattle.a64_inst.specs.declared.item.Item.{Item};
ghost use Rattle.a64_cells.specs.Cells.{cells_of, sites_of, listed_uses, uses_of};
ghost use Rattle.a64_assemble.specs.LooseUses as loose_uses;
ghost use Rattle.a64_assemble.specs.Tally as tally;
ghost use Rattle.a64_assemble.specs.Tally.{branches, waiting, count_of, every, same, alive, IsTally};

use a64_base::MachLabel;
use a64_buffer::{MachInstLabelUse, Target};
use a64_emit::{Site, Uses};
use a64_inst::Item;
use a64_label_map::LabelMap;
use std::alloc::AllocError;

/// The label of a branch that may want a veneer.
fn branch_label(site: Site) -> Option<MachLabel>
    ensures { result ≡ tally.branch_label site }
{
    match site.target {
        Target::Label(label) if site.kind.supports_veneer() => Some(label),
        _ => None,
    }
}

/// The label of a use, where there is one that is such a branch.
fn used_branch(site: Option<Site>) -> Option<MachLabel>
    ensures { result ≡ option_and_then tally.branch_label site }
{
    branch_label(site?)
}

/// How often a label is counted.
fn count_of_label(counts: &LabelMap<u32>, label: MachLabel) -> u32
    ensures { result ≡ count_of counts.now label.0 }
{
    match counts.get(label.0) {
        Some(count) => count,
        None => 0,
    }
}

/// Counts a use by its label, where it is a branch. It answers how many branches it is.
///
/// # Errors
///
/// Want of memory.
fn count_use(site: Option<Site>, counts: &mut LabelMap<u32>) -> Result<u32, AllocError>
    requires few { (n : ℕ) → count_of counts.old n < 2 ^ 31 }
    ensures total { IfOk result (λ count. count ≡ branches every (cons_option site [])) }
    ensures labels { OnOk result ((n : ℕ) → count_of counts.new n
        ≡ count_of counts.old n + branches (same n) (cons_option site [])) }
{
    let Some(label) = used_branch(site) else {
        return Ok(0);
    };
    let before = count_of_label(counts, label);
    counts.insert(label.0, before + 1)?;
    Ok(1)
}

/// Counts the branches of an item's uses by their labels; no entry of a table is one. It answers how many
/// there are.
///
/// # Errors
///
/// Want of memory.
fn count_uses(uses: Uses, counts: &mut LabelMap<u32>) -> Result<u32, AllocError>
    requires few { (n : ℕ) → count_of counts.old n < 2 ^ 30 }
    ensures total { IfOk result (λ count. (cells : _)
        → uses_of 0 cells ≡ listed_uses uses.entry
        → count ≡ branches every (sites_of cells)) }
    ensures labels { OnOk result ((cells : _) → uses_of 0 cells ≡ listed_uses uses.entry
        → (n : ℕ) → count_of counts.new n ≡ count_of counts.old n
        + branches (same n) (sites_of cells)) }
    ensures few { IfOk result (λ count. count ≤ 2) }
{
    let first = count_use(uses.first, counts)?;
    let second = count_use(uses.second, counts)?;
    Ok(first + second)
}

/// Counts the branches of one more item; those to a label that it binds do not count any more. It
/// answers how many count, of which it is given how many did before.
///
/// # Errors
///
/// Want of memory.
pub fn count_item(
    item: &Item,
    uses: Uses,
    counts: &mut LabelMap<u32>,
    live: u32,
) -> Result<u32, AllocError>
    requires few { live < 2 ^ 30 }
    requires within { (n : ℕ) → count_of counts.old n ≤ live }
    ensures total { IfOk result (λ count. (frame : FrameLayout) (flags : EmitFlags)
        (items : List Item) → uses_of 0 (cells_of frame flags item.now) ≡ listed_uses uses.entry
        → IsTally frame flags items counts.old → live ≡ alive frame flags every items
        → count ≡ alive frame flags every (items ++ item.now ∷ [])) }
    ensures labels { OnOk result ((frame : FrameLayout) (flags : EmitFlags) (items : List Item)
        → uses_of 0 (cells_of frame flags item.now) ≡ listed_uses uses.entry
        → IsTally frame flags items counts.old
        → IsTally frame flags (items ++ item.now ∷ []) counts.new) }
{
    match item {
        Item::Bind(label) => {
            let gone = count_of_label(counts, *label);
            counts.insert(label.0, 0)?;
            Ok(live.saturating_sub(gone))
        }
        Item::Emit { .. } => {
            let more = count_uses(uses, counts)?;
            Ok(live + more)
        }
    }
}

/// How many uses of an item are loads of constants or deferred traps: one use.
fn wait_count(site: Option<Site>) -> u32
    ensures { result ≡ waiting (cons_option site []) }
{
    match site {
        Some(
            Site {
                kind: _,
                target: Target::Constant(_) | Target::Trap(_),
            },
        ) => 1,
        _ => 0,
    }
}

/// How many uses of an item are loads of constants or deferred traps; no entry of a table is one.
pub fn wait_counts(uses: Uses) -> u32
    ensures total { (cells : _) → uses_of 0 cells ≡ listed_uses uses.entry
        → result ≡ waiting (sites_of cells) }
    ensures few { result ≤ 2 }
{
    wait_count(uses.first) + wait_count(uses.second)
}
