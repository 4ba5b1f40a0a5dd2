//! The checks of items before they are emitted.

ghost use Rattle.std.specs.Prelude.{◌≡◌, ◌≢◌, ◌⊎◌, ◌+◌, ◌-◌, ◌^◌, ◌<◌, ◌≤◌, ◌||◌, false, max, min, None, Some, option_map, All, length, OnOk, IfOk, IfErr, IfSome, MatchResult, [], ℕ};
ghost use Rattle.std.specs.List.{cons_option, filter_map, list_any};
ghost use Rattle.std.specs.Option.{option_or};
ghost use Rattle.a64_emit.specs.declared.error.EmitError.TheVariants.{OutOfMemory, TooLarge, UnboundLabel};
ghost use Rattle.a64_emit.specs.Bounds as bounds;
ghost use Rattle.a64_emit.specs.Bounds.{IsExtent, saturated};
ghost use Rattle.a64_cells.specs.Shapes.{table_labels};
ghost use Rattle.a64_cells.specs.Cells.{cells_of, sites_of, listed_uses, two_uses, uses_of};
ghost use Rattle.a64_cells.specs.FormCells.{HoldsHalfword};
ghost use Rattle.a64_emit.specs.Faults as Faults;
ghost use Rattle.a64_emit.specs.Faults.{own_fault, HasLabels, bindings, second_binding, first_missing, used_label, unbound_use, or_else, too_large};
ghost use Rattle.a64_emit.specs.Reach.{is_near};
ghost use Rattle.a64_assemble.specs.Found.{IsFound, IsWidth};

use crate::look::{Look, look_at};
use a64_base::MachLabel;
use a64_buffer::{Constants, Target};
use a64_emit::{
    Burden, EmitError, Extent, Light, Site, Table, Uses, burden_of, has_halfword, lesser,
    near_label,
};
use a64_inst::{EmitInfo, FrameLayout, Item, OwnFault, VirtualRegisters};
use a64_label_map::LabelMap;
use std::alloc::Global;

/// The refusal because of a fault of the item with this index.
fn own_error(index: usize, fault: OwnFault) -> EmitError
    ensures { result ≡ Faults.own_error index fault }
{
    match fault {
        OwnFault::BadOperand => EmitError::BadOperand(index),
        OwnFault::BadMode => EmitError::BadMode(index),
        OwnFault::ScratchConflict => EmitError::ScratchConflict(index),
        OwnFault::UnknownConstant => EmitError::UnknownConstant(index),
    }
}

/// That the halfword of an item that is a wide move has 16 bits. The call does nothing else.
#[inline(always)]
fn holds_halfword(item: &Item)
    ensures { HoldsHalfword item.now }
{
    match item {
        Item::Bind(_) => {}
        Item::Emit { inst, map: _ } => has_halfword(inst),
    }
}

/// The numbers of the labels that items bind.
///
/// # Errors
///
/// The first label that is bound twice, or want of memory.
pub fn bound_labels(alloc: Global, items: &[Item]) -> Result<LabelMap<()>, EmitError>
    ensures ok { IfOk result (λ bound. (second_binding items.now ≡ None)
        × HasLabels bound (bindings items.now)) }
    ensures err { IfErr result (λ error. (error ≡ OutOfMemory)
        ⊎ (second_binding items.now ≡ Some error)) }
{
    let mut bound = LabelMap::new(alloc);
    for item in items {
        let Item::Bind(label) = item else {
            continue;
        };
        if bound.insert(label.0, ())?.is_some() {
            return Err(EmitError::LabelBoundTwice(*label));
        }
    }
    Ok(bound)
}

/// The label that a use leads to, where it is not bound.
#[inline(always)]
fn missing(site: Option<Site>, bound: &LabelMap<()>) -> Option<MachLabel>
    ensures { (labels : _) → HasLabels bound.now labels
        → result ≡ first_missing labels (filter_map used_label (cons_option site [])) }
{
    match site?.target {
        Target::Label(label) if !bound.contains(label.0) => Some(label),
        _ => None,
    }
}

/// The first of some labels that is not bound.
fn missing_label(labels: &[MachLabel], bound: &LabelMap<()>) -> Option<MachLabel>
    ensures { (among : _) → HasLabels bound.now among
        → result ≡ first_missing among labels.now }
{
    for label in labels {
        if !bound.contains(label.0) {
            return Some(*label);
        }
    }
    None
}

/// The first label of a table that is not bound: one of its targets, or else its default.
fn missing_entry(table: Table, bound: &LabelMap<()>) -> Option<MachLabel>
    ensures { (labels : _) → HasLabels bound.now labels
        → result
        ≡ first_missing labels (table_labels table.entry.default table.entry.targets.now) }
{
    match missing_label(table.targets, bound) {
        Some(label) => Some(label),
        None if bound.contains(table.default.0) => None,
        None => Some(table.default),
    }
}

/// The first label that one of two uses leads to and that is not bound.
#[inline(always)]
fn missing_in_two(
    first: Option<Site>,
    second: Option<Site>,
    bound: &LabelMap<()>,
) -> Option<MachLabel>
    ensures { (labels : _) → HasLabels bound.now labels
        → (cells : _) → uses_of 0 cells ≡ two_uses first second
        → result ≡ first_missing labels (filter_map used_label (sites_of cells)) }
{
    match missing(first, bound) {
        Some(label) => Some(label),
        None => missing(second, bound),
    }
}

/// The first label that one of these uses leads to and that is not bound.
#[inline(always)]
fn missing_in(uses: Uses, bound: &LabelMap<()>) -> Option<MachLabel>
    ensures { (labels : _) → HasLabels bound.now labels
        → (cells : _) → uses_of 0 cells ≡ listed_uses uses.entry
        → result ≡ first_missing labels (filter_map used_label (sites_of cells)) }
{
    if let Some(label) = missing(uses.first, bound) {
        return Some(label);
    }
    if let Some(label) = missing(uses.second, bound) {
        return Some(label);
    }
    missing_entry(uses.table?, bound)
}

/// Whether a use needs its label near.
#[inline(always)]
fn near_use(site: Option<Site>) -> bool
    ensures { result ≡ list_any is_near (cons_option site []) }
{
    match site {
        Some(site) => near_label(site).is_some(),
        None => false,
    }
}

/// Whether one of these uses needs its label near. No entry of a table does.
#[inline(always)]
fn near_in(uses: Uses) -> bool
    ensures { (cells : _) → uses_of 0 cells ≡ listed_uses uses.entry
        → result ≡ list_any is_near (sites_of cells) }
{
    near_use(uses.first) | near_use(uses.second)
}

/// How many of two words are uses.
#[inline(always)]
fn count_of(first: Option<Site>, second: Option<Site>) -> usize
    ensures { result ≡ length (cons_option first (cons_option second [])) }
{
    usize::from(first.is_some()) + usize::from(second.is_some())
}

/// How many uses these may be, each entry of a table counted.
fn use_count(uses: Uses) -> usize {
    match uses.table {
        Some(table) => table.targets.len() + 1,
        None => 2,
    }
}

/// What is found of the code that items are.
#[derive(Clone, Copy)]
pub struct Found {
    /// How many bytes it may have: below 2^31.
    pub size: u32,
    /// The shortest forward range, in bytes, of its uses that may want veneers.
    pub shortest: Option<u32>,
    /// Whether some use needs its label near.
    pub near: bool,
    /// How many uses they may have, each entry of a table counted. Memory for these is taken at once, so no
    /// clause tells it.
    pub users: usize,
    /// How many bytes the next words need behind any item at most, or more than that: the greatest number
    /// where some item is a place for an island.
    pub widest: u32,
}

/// How many bytes most items add to code at most: two words, a jump over an island, and 28 bytes for each
/// of two uses.
const USUAL_WIDTH: u64 = 68;

/// The greater of two widths in bytes, of which the first is at least the usual one.
#[inline(always)]
fn wider(widest: u64, width: u64) -> u64
    requires { 68 ≤ widest }
    ensures { result ≡ max widest width }
{
    if width <= USUAL_WIDTH {
        return widest;
    }
    widest.max(width)
}

/// How many bytes the words of an item with this extent may need behind the item before them, and a jump
/// over an island more: its size and its charge, or the greatest number of 64 bits where that is less. Of a
/// place for an island, which adds to what the words behind it need, it is the greatest number of 32 bits.
fn width_of(extent: Extent) -> u64
    ensures { IsWidth extent result }
{
    if extent.size == 0 && extent.charge != 0 {
        u64::from(u32::MAX)
    } else {
        extent.size.saturating_add(extent.charge)
    }
}

/// What the uses of items come to, one item after another.
#[derive(Clone, Copy)]
pub struct Totals {
    /// The shortest forward range, in bytes, of the uses that may want veneers.
    pub shortest: Option<u32>,
    /// Whether some use needs its label near.
    pub near: bool,
    /// How many uses there may be, each entry of a table counted.
    pub users: usize,
    /// How many bytes the next words need behind any item at most, or more than that: at least the usual width.
    pub widest: u64,
    /// The first label that a use leads to and that is not bound, where it is known which are.
    pub missing: Option<MachLabel>,
}

/// What no uses come to.
#[inline(always)]
fn no_totals() -> Totals
    ensures { result ≡ record {
      shortest = None;
      near = false;
      users = 0;
      widest = 68;
      missing = None;
    } }
{
    Totals {
        shortest: None,
        near: false,
        users: 0,
        widest: USUAL_WIDTH,
        missing: None,
    }
}

/// The label that was missing before, or else the first that one of two uses leads to and that is not bound.
#[inline(always)]
fn missing_behind(
    before: Option<MachLabel>,
    light: Light,
    bound: Option<&LabelMap<()>>,
) -> Option<MachLabel>
    ensures { IfSome bound.entry (λ map. (labels : _) → HasLabels map.now labels
        → (cells : _) → uses_of 0 cells ≡ two_uses light.first light.second
        → result ≡ option_or before (first_missing labels
        (filter_map used_label (sites_of cells)))) }
{
    let Some(bound) = bound else {
        return before;
    };
    match missing_in_two(light.first, light.second, bound) {
        None => before,
        missing => before.or(missing),
    }
}

/// The label that was missing before, or else the first that one of these uses leads to and that is not bound.
#[inline(always)]
fn missing_behind_all(
    before: Option<MachLabel>,
    uses: Uses,
    bound: Option<&LabelMap<()>>,
) -> Option<MachLabel>
    ensures { IfSome bound.entry (λ map. (labels : _) → HasLabels map.now labels
        → (cells : _) → uses_of 0 cells ≡ listed_uses uses.entry
        → result ≡ option_or before (first_missing labels
        (filter_map used_label (sites_of cells)))) }
{
    match (before, bound) {
        (None, Some(bound)) => missing_in(uses, bound),
        _ => before,
    }
}

/// Adds an item that is light.
#[inline(always)]
fn add_light(totals: &mut Totals, light: Light, bound: Option<&LabelMap<()>>)
    requires { 68 ≤ totals.old.widest }
    ensures shortest { totals.new.shortest ≡ bounds.lesser totals.old.shortest light.range }
    ensures near { totals.new.near ≡ totals.old.near }
    ensures widest { totals.new.widest ≡ max totals.old.widest light.growth }
    ensures missing { IfSome bound.entry (λ map. (labels : _) → HasLabels map.now labels
        → (cells : _) → uses_of 0 cells ≡ two_uses light.first light.second
        → totals.new.missing ≡ option_or totals.old.missing
        (first_missing labels (filter_map used_label (sites_of cells)))) }
{
    totals.shortest = lesser(totals.shortest, light.range);
    totals.users = totals
        .users
        .wrapping_add(count_of(light.first, light.second));
    totals.widest = wider(totals.widest, light.growth);
    totals.missing = missing_behind(totals.missing, light, bound);
}

/// How much an item may add to code, and its uses. Stands out of line, since few items are not light, so that the
/// loop over the items keeps more in registers.
#[inline(never)]
fn burden_apart<'a>(item: &'a Item, frame: &FrameLayout, info: &EmitInfo) -> Burden<'a>
    ensures extent { IsExtent frame.now info.now item.now
        result.extent.size result.extent.charge result.extent.range }
    ensures uses { uses_of 0 (cells_of frame.now info.now item.now) ≡ listed_uses result.uses }
{
    burden_of(item, frame, info)
}

/// Adds any item.
#[inline(always)]
fn add_burden(totals: &mut Totals, burden: Burden, bound: Option<&LabelMap<()>>)
    requires { 68 ≤ totals.old.widest }
    ensures shortest { totals.new.shortest
        ≡ bounds.lesser totals.old.shortest burden.entry.extent.range }
    ensures near { (cells : _) → uses_of 0 cells ≡ listed_uses burden.entry.uses
        → totals.new.near ≡ (totals.old.near || list_any is_near (sites_of cells)) }
    ensures widest { (width : ℕ) × IsWidth burden.entry.extent width
        × (totals.new.widest ≡ max totals.old.widest width) }
    ensures missing { IfSome bound.entry (λ map. (labels : _) → HasLabels map.now labels
        → (cells : _) → uses_of 0 cells ≡ listed_uses burden.entry.uses
        → totals.new.missing ≡ option_or totals.old.missing
        (first_missing labels (filter_map used_label (sites_of cells)))) }
{
    let Burden { extent, uses } = burden;
    totals.shortest = lesser(totals.shortest, extent.range);
    totals.near |= near_in(uses);
    totals.users = totals.users.wrapping_add(use_count(uses));
    totals.widest = wider(totals.widest, width_of(extent));
    totals.missing = missing_behind_all(totals.missing, uses, bound);
}

/// What is found of code that may have so many bytes, whose uses come to these totals.
///
/// # Errors
///
/// The label that is missing, or else that the code may be too large.
fn found_of(size: u64, totals: Totals) -> Result<Found, EmitError>
    ensures ok { IfOk result (λ found. (totals.missing ≡ None) × (size < 2 ^ 31)
        × (found.size ≡ size) × (found.shortest ≡ totals.shortest)
        × (found.near ≡ totals.near) × (found.widest ≡ min totals.widest (2 ^ 32 - 1))) }
    ensures err { IfErr result (λ error. (option_map UnboundLabel totals.missing ≡ Some error)
        ⊎ ((totals.missing ≡ None) × (2 ^ 31 ≤ size) × (error ≡ TooLarge))) }
{
    if let Some(label) = totals.missing {
        return Err(EmitError::UnboundLabel(label));
    }
    if size >= 1 << 31 {
        return Err(EmitError::TooLarge);
    }
    Ok(Found {
        size: size as u32,
        shortest: totals.shortest,
        near: totals.near,
        users: totals.users,
        widest: totals.widest.min(u64::from(u32::MAX)) as u32,
    })
}

/// Whether each item is right by itself, and what is found of their code where that is so: how many bytes it may
/// have, the shortest range of its uses that may want veneers, whether some use of it needs its label near, and a
/// bound on what the next words need behind any item, where each label that they use is `bound`, and the code can
/// be addressed. Where it is not known which are bound, nothing is told of what is found. It takes no memory.
///
/// One look-up of an instruction's group serves its faults and its size: three passes take some 28 machine
/// instructions more for an item without a use. Labels that are bound are gathered before, which takes memory; so
/// want of it is told only where no item is wrong by itself. Sums saturate at 2^64 - 1: what they are compared
/// with is below 2^33, so no number of items has to be bounded first.
///
/// # Errors
///
/// The fault of the first item that is not right by itself. Inside: the first label that is not bound, or else
/// that the code may be too large.
// A function of its own, so that its loop keeps its counts in registers.
#[inline(never)]
pub fn check_items(
    items: &[Item],
    bound: Option<&LabelMap<()>>,
    constants: &Constants,
    info: &EmitInfo,
    frame: &FrameLayout,
) -> Result<Result<Found, EmitError>, EmitError>
    requires { IfSome bound (λ map. HasLabels map.now (bindings items.now)) }
    ensures fault { MatchResult result
        (λ _. own_fault frame.now info.now constants.now items.now ≡ None)
        (λ error. own_fault frame.now info.now constants.now items.now ≡ Some error) }
    ensures halfwords { OnOk result (All HoldsHalfword items.now) }
    ensures found { IfOk result (λ found. IfSome bound.entry (λ _. MatchResult found
        (IsFound frame.now info.now items.now)
        (λ error. or_else (unbound_use frame.now info.now items.now)
        (too_large frame.now info.now items.now) ≡ Some error))) }
{
    let restorable = frame.is_restorable(info, VirtualRegisters::Refused);
    let mut size: u64 = 0;
    let mut totals = no_totals();
    for (i, item) in items.iter().enumerate() {
        holds_halfword(item);
        match look_at(item, constants, info, frame, restorable) {
            Look::Fault(fault) => return Err(own_error(i, fault)),
            Look::Binding => {}
            Look::Bare(growth) => {
                size = size.saturating_add(growth);
                totals.widest = wider(totals.widest, growth);
            }
            Look::Light(light) => {
                size = size.saturating_add(light.growth);
                add_light(&mut totals, light, bound);
            }
            Look::Right => {
                let burden = burden_apart(item, frame, info);
                size = size
                    .saturating_add(burden.extent.size)
                    .saturating_add(burden.extent.charge);
                add_burden(&mut totals, burden, bound);
            }
        }
    }
    Ok(found_of(size, totals))
}
