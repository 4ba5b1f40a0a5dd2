//! Whether the uses that can have no veneer reach their labels, with what islands between may add.
//!
//! These are `Ldr19` and `Adr21`: other kinds have veneers, or a range beyond all code. It is asked only of code
//! that may have 2^20 bytes and has such a use.

ghost use Rattle.std.specs.Prelude.{◌≡◌, ◌⊎◌, ◌+◌, ◌^◌, ◌<◌, None, Some, List, length, option_and_then, IfOk, IfErr, MatchResult};
ghost use Rattle.a64_inst.specs.declared.emission.EmitFlags.{EmitFlags};
ghost use Rattle.a64_inst.specs.declared.frame.FrameLayout.{FrameLayout};
ghost use Rattle.a64_inst.specs.declared.item.Item.{Item};
ghost use Rattle.a64_buffer.specs.declared.force.ForceVeneers.{ForceVeneers};
ghost use Rattle.a64_emit.specs.declared.error.EmitError.TheVariants.{OutOfMemory};
ghost use Rattle.a64_emit.specs.Bounds.{whole};
ghost use Rattle.a64_cells.specs.Cells.{inst_cells, sites_of};
ghost use Rattle.a64_emit.specs.Faults.{second_binding};
ghost use Rattle.a64_emit.specs.Reach as Reach;
ghost use Rattle.a64_emit.specs.Reach.{first_some, out_of_reach};
ghost use Rattle.a64_assemble.specs.Found.{IsFound};
ghost use Rattle.a64_assemble.specs.Tally.{AreMarks, AreSums, AreWithin, HasBindings};

use crate::checks::Found;
use crate::loose::reach_of;
use crate::marks::{Mark, marks_of};
use a64_base::MachLabel;
use a64_buffer::ForceVeneers;
use a64_emit::{EmitError, Site, near_label, uses_in};
use a64_inst::{EmitInfo, FrameLayout, Inst, Item};
use a64_label_map::LabelMap;
use std::alloc::{AllocError, Global};

/// How far a use that can have no veneer surely reaches, in bytes.
const NEAR_RANGE: u32 = (1 << 20) - 1;

/// Whether nothing of the code can want an island.
pub fn is_quiet(found: Found, force: ForceVeneers) -> bool
    ensures { (frame : FrameLayout) (flags : EmitFlags) (items : List Item)
        → IsFound frame flags items found → result ≡ Reach.is_quiet frame flags force items }
{
    match found.shortest {
        Some(range) => matches!(force, ForceVeneers::No) && found.size < range,
        None => true,
    }
}

/// The index of the item that binds each label.
///
/// # Errors
///
/// Want of memory.
fn bindings_of(alloc: Global, items: &[Item]) -> Result<LabelMap<u32>, AllocError>
    requires few { length items.now < 2 ^ 32 }
    requires once { second_binding items.now ≡ None }
    ensures { IfOk result (HasBindings items.now) }
{
    let mut bindings = LabelMap::new(alloc);
    for (index, item) in items.iter().enumerate() {
        let Item::Bind(label) = item else {
            continue;
        };
        bindings.insert(label.0, index as u32)?;
    }
    Ok(bindings)
}

/// The label of a use of the item with this index, where there is one that may be too far from it.
fn far_label(
    site: Option<Site>,
    index: usize,
    marks: &[Mark],
    bindings: &LabelMap<u32>,
    quiet: bool,
) -> Option<MachLabel>
    requires sums { AreSums marks.now }
    requires within { AreWithin bindings.now marks.now }
    requires index { index + 1 < length marks.now }
    ensures { (frame : FrameLayout) (flags : EmitFlags) (force : ForceVeneers) (items : List Item)
        → AreMarks frame flags items marks.now → HasBindings items bindings.now
        → quiet ≡ Reach.is_quiet frame flags force items
        → result ≡ option_and_then (Reach.far_label frame flags force items index) site }
{
    let label = near_label(site?)?;
    let binding = bindings.get(label.0)?;
    if reach_of(marks, quiet, index, binding as usize) > u64::from(NEAR_RANGE) {
        Some(label)
    } else {
        None
    }
}

/// The label of the first such use of an instruction that is the item with this index; no entry of a table is
/// one.
fn far_in(
    inst: &Inst,
    index: usize,
    marks: &[Mark],
    bindings: &LabelMap<u32>,
    quiet: bool,
    info: &EmitInfo,
    frame: &FrameLayout,
) -> Option<MachLabel>
    requires sums { AreSums marks.now }
    requires within { AreWithin bindings.now marks.now }
    requires index { index + 1 < length marks.now }
    ensures { (force : ForceVeneers) (items : List Item)
        → AreMarks frame.now info.now items marks.now → HasBindings items bindings.now
        → quiet ≡ Reach.is_quiet frame.now info.now force items
        → result ≡ first_some (Reach.far_label frame.now info.now force items index)
        (sites_of (inst_cells frame.now info.now inst.now)) }
{
    let uses = uses_in(inst, frame, info);
    match far_label(uses.first, index, marks, bindings, quiet) {
        Some(label) => Some(label),
        None => far_label(uses.second, index, marks, bindings, quiet),
    }
}

/// Whether each use that can have no veneer reaches its label, by the sums over the first items.
///
/// # Errors
///
/// The label of the first that may not.
fn check_uses(
    items: &[Item],
    marks: &[Mark],
    bindings: &LabelMap<u32>,
    quiet: bool,
    info: &EmitInfo,
    frame: &FrameLayout,
) -> Result<(), EmitError>
    requires marks { AreMarks frame.now info.now items.now marks.now }
    requires bindings { HasBindings items.now bindings.now }
    requires short { whole frame.now info.now items.now < 2 ^ 31 }
    ensures { (force : ForceVeneers) → quiet ≡ Reach.is_quiet frame.now info.now force items.now
        → MatchResult result
        (λ _. out_of_reach frame.now info.now force items.now ≡ None)
        (λ error. out_of_reach frame.now info.now force items.now ≡ Some error) }
{
    for (index, item) in items.iter().enumerate() {
        let Item::Emit { inst, map: _ } = item else {
            continue;
        };
        if let Some(label) = far_in(inst, index, marks, bindings, quiet, info, frame) {
            return Err(EmitError::OutOfReach(label));
        }
    }
    Ok(())
}

/// Whether each use that can have no veneer reaches its label, whatever islands stand between. Where no
/// use needs its label near, or all of the code is near, that costs nothing.
///
/// # Errors
///
/// The label of the first that may not, or want of memory.
pub fn check_reach(
    alloc: Global,
    items: &[Item],
    found: Found,
    force: ForceVeneers,
    info: &EmitInfo,
    frame: &FrameLayout,
) -> Result<(), EmitError>
    requires few { length items.now < 2 ^ 32 }
    requires once { second_binding items.now ≡ None }
    requires found { IsFound frame.now info.now items.now found }
    ensures ok { IfOk result (λ _. out_of_reach frame.now info.now force items.now ≡ None) }
    ensures err { IfErr result (λ error. (error ≡ OutOfMemory)
        ⊎ (out_of_reach frame.now info.now force items.now ≡ Some error)) }
{
    if !found.near || found.size <= NEAR_RANGE {
        return Ok(());
    }
    let marks = marks_of(alloc, items, info, frame)?;
    let bindings = bindings_of(alloc, items)?;
    let quiet = is_quiet(found, force);
    check_uses(items, &marks, &bindings, quiet, info, frame)
}
