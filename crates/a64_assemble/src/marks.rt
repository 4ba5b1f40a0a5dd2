//! Sums over the first items, for each number of them.

ghost use Rattle.std.specs.Prelude.{◌≡◌, ◌+◌, ◌*◌, ◌^◌, ◌<◌, ◌≤◌, ◌∷◌, ◌++◌, [], ℕ, List, length, take, IfOk, OnOk};
ghost use Rattle.a64_inst.specs.declared.item.Item.{Item};
ghost use Rattle.a64_emit.specs.Bounds.{IsExtent, whole, growth_of};
ghost use Rattle.a64_emit.specs.Bounds as bounds;
ghost use Rattle.a64_assemble.specs.Tally.{count_of, IsTally, IsMark, AreMarks};

use crate::tally::{count_item, wait_counts};
use a64_emit::{Extent, burden_of};
use a64_inst::{EmitInfo, FrameLayout, Item};
use a64_label_map::LabelMap;
use std::alloc::{AllocError, Global};

/// Sums over items.
#[derive(Clone, Copy)]
pub struct Mark {
    /// The bytes of their own words.
    pub size: u32,
    /// These, and what islands may add because of them.
    pub growth: u32,
    /// How many loads of constants and deferred traps they have.
    pub loads: u32,
    /// How many branches they have to labels that none of them behind the branch binds.
    pub branches: u32,
}

/// What islands may add because of an item, without the space that it asks for.
fn item_charge(extent: Extent) -> u64
    ensures { (frame : _) (flags : _) (item : Item)
        → IsExtent frame flags item extent.size extent.charge extent.range
        → growth_of frame flags item < 2 ^ 31 → result ≡ bounds.item_charge frame flags item }
{
    if extent.size == 0 {
        extent.charge.min(4)
    } else {
        extent.charge
    }
}

/// The sums with one more item.
///
/// # Errors
///
/// Want of memory.
fn next_mark(
    mark: Mark,
    item: &Item,
    counts: &mut LabelMap<u32>,
    info: &EmitInfo,
    frame: &FrameLayout,
) -> Result<Mark, AllocError>
    requires size { mark.size ≤ mark.growth }
    requires few { 28 * (mark.loads + mark.branches) ≤ mark.growth }
    requires within { (n : ℕ) → count_of counts.old n ≤ mark.branches }
    requires short { mark.growth + growth_of frame.now info.now item.now < 2 ^ 31 }
    ensures mark { IfOk result (λ next. (items : List Item)
        → IsTally frame.now info.now items counts.old → IsMark frame.now info.now items mark
        → IsMark frame.now info.now (items ++ item.now ∷ []) next) }
    ensures labels { OnOk result ((items : List Item)
        → IsTally frame.now info.now items counts.old
        → IsTally frame.now info.now (items ++ item.now ∷ []) counts.new) }
{
    let burden = burden_of(item, frame, info);
    let size = burden.extent.size as u32;
    let charge = item_charge(burden.extent) as u32;
    let branches = count_item(item, burden.uses, counts, mark.branches)?;
    Ok(Mark {
        size: mark.size + size,
        growth: mark.growth + size + charge,
        loads: mark.loads + wait_counts(burden.uses),
        branches,
    })
}

/// The sums over the first items, for each number of them from none to all.
///
/// # Errors
///
/// Want of memory.
pub fn marks_of(
    alloc: Global,
    items: &[Item],
    info: &EmitInfo,
    frame: &FrameLayout,
) -> Result<Vec<Mark>, AllocError>
    requires short { whole frame.now info.now items.now < 2 ^ 31 }
    ensures { IfOk result (λ marks. AreMarks frame.now info.now items.now marks.items) }
{
    let mut marks = Vec::with_capacity(alloc, items.len() + 1)?;
    let mut counts = LabelMap::new(alloc);
    let mut mark = Mark {
        size: 0,
        growth: 0,
        loads: 0,
        branches: 0,
    };
    marks.push(mark)?;
    for item in items {
        mark = next_mark(mark, item, &mut counts, info, frame)?;
        marks.push(mark)?;
    }
    Ok(marks)
}
