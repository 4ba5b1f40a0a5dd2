//! How much an item adds to code.

ghost use Rattle.std.specs.Prelude.{◌≡◌, ◌+◌, [], ◌∷◌, true, None, Option, length, option_and_then, IfSome};
ghost use Rattle.std.specs.List.{cons_option};
ghost use Rattle.a64_base.specs.declared.entity.UserStackMap.{UserStackMap};
ghost use Rattle.a64_inst.specs.declared.group.Group.TheVariants.{Control, Sequence};
ghost use Rattle.a64_inst.specs.declared.item.Item.TheVariants.{Emit};
ghost use Rattle.a64_inst.specs.Groups.{group_of};
ghost use Rattle.a64_emit.specs.Bounds as bounds;
ghost use Rattle.a64_emit.specs.Bounds.{asked, IsExtent, AreExtent, ranges_in, least, saturated, charge_of, growth_of, size_of, asked_of};
ghost use Rattle.a64_rows.specs.Forms.{Form};
ghost use Rattle.a64_label_use.specs.declared.label_use.LabelUse.TheVariants as uses;
ghost use Rattle.a64_cells.specs.Shapes.{branch, branches};
ghost use Rattle.a64_cells.specs.Cells.{cells_of, inst_cells, inst_uses, listed_uses, two_uses, uses_of};
ghost use Rattle.a64_label_use.specs.LabelUses.{has_veneer};
ghost use Rattle.a64_emit.specs.Lights.{IsLight, IsModeLight};
ghost use Rattle.a64_emit.specs.Rooms as rooms;

use crate::call_extent::call_count;
use crate::uses::{call_uses, control_uses, memory_uses, only_use, sequence_uses, table_start};
use crate::where_quiet;
use a64_base::BranchTarget;
use a64_buffer::{MachInstLabelUse, Target};
use a64_cells::word::control::authenticated_ret_count;
use a64_cells::word::exclusive::operator_count;
use a64_cells::word::memory::memory_count;
use a64_cells::{Site, Uses};
use a64_inst::{AMode, EmitInfo, FrameLayout, Group, Inst, Item};
use a64_label_use::LabelUse;

/// The bytes of a word.
const WORD_BYTES: u64 = 4;

/// What islands may add because of an item with words, or of a place for an island, in bytes: a jump around an
/// island.
const JUMP_CHARGE: u64 = 4;

/// What islands may add because of a use that may want a veneer, in bytes. A constant takes the most: 16 bytes,
/// and up to 12 before it that align it. A branch takes at most a jump of 4 bytes, and for this a far veneer of
/// 20, and a trap takes 4.
const USE_CHARGE: u64 = 28;

/// What an item adds of one word that wants nothing of an island, in bytes.
const QUIET_WORD_GROWTH: u64 = WORD_BYTES + JUMP_CHARGE;

/// What an item adds of one word with a use that may want a veneer, in bytes.
const USE_GROWTH: u64 = WORD_BYTES + USE_CHARGE + JUMP_CHARGE;

/// What an item adds of two words, each with a use that may want a veneer, in bytes.
const TWO_USES_GROWTH: u64 = 2 * (WORD_BYTES + USE_CHARGE) + JUMP_CHARGE;

/// How much an item may add to code, in bytes. Numbers past those of 64 bits stand at the greatest.
#[derive(Clone, Copy, Debug)]
pub struct Extent {
    /// Its own words.
    pub size: u64,
    /// What islands may add because of it, with the space that it asks for.
    pub charge: u64,
    /// The shortest forward range of its uses that may want veneers.
    pub range: Option<u32>,
}

/// How much an item may add to code, and the uses of its words.
#[derive(Clone, Copy)]
pub struct Burden<'a> {
    /// How much it may add.
    pub extent: Extent,
    /// The uses.
    pub uses: Uses<'a>,
}

/// The uses of an instruction that may want veneers.
#[derive(Clone, Copy)]
struct Wanting {
    /// How many they are.
    count: u64,
    /// The shortest of their forward ranges, in bytes.
    range: Option<u32>,
}

/// The lesser of two numbers, of which either may be missing.
#[inline(always)]
pub fn lesser(a: Option<u32>, b: Option<u32>) -> Option<u32>
    ensures { result ≡ bounds.lesser a b }
{
    match (a, b) {
        (Some(a), Some(b)) => Some(a.min(b)),
        (None, other) => other,
        (other, None) => other,
    }
}

/// The forward range of a use in bytes, where it may want a veneer.
#[inline(always)]
fn veneer_range(site: Site) -> Option<u32>
    ensures { result ≡ bounds.veneer_range site }
{
    match site.target {
        Target::Label(_) if site.kind.supports_veneer() => Some(site.kind.max_pos_range()),
        Target::Constant(_) | Target::Trap(_) => Some(site.kind.max_pos_range()),
        Target::Label(_) | Target::IslandEnd => None,
    }
}

/// The forward range of a use in bytes, where there is one that may want a veneer.
#[inline(always)]
fn range_of(site: Option<Site>) -> Option<u32>
    ensures { result ≡ option_and_then bounds.veneer_range site }
{
    veneer_range(site?)
}

/// How many of two there are.
#[inline(always)]
fn count_of(first: Option<u32>, second: Option<u32>) -> u64
    ensures { result ≡ length (cons_option first (cons_option second [])) }
{
    match (first, second) {
        (None, None) => 0,
        (Some(_), None) | (None, Some(_)) => 1,
        (Some(_), Some(_)) => 2,
    }
}

/// Which of these uses may want veneers.
#[inline(always)]
fn wanting_in(uses: Uses) -> Wanting
    ensures count { (cells : _) → uses_of 0 cells ≡ listed_uses uses.entry
        → result.count ≡ length (ranges_in cells) }
    ensures range { (cells : _) → uses_of 0 cells ≡ listed_uses uses.entry
        → result.range ≡ least (ranges_in cells) }
{
    let first = range_of(uses.first);
    let second = range_of(uses.second);
    Wanting {
        count: count_of(first, second),
        range: lesser(first, second),
    }
}

/// The space that an instruction asks for, where it is a place for an island.
#[inline(always)]
pub fn asked_space(inst: &Inst) -> Option<u32>
    ensures { result ≡ bounds.asked_of inst.now }
{
    match inst {
        Inst::EmitIsland { needed_space } => Some(*needed_space),
        _ => None,
    }
}

/// How many words a branch, an address or data has.
fn control_count(inst: &Inst, _frame: &FrameLayout, _info: &EmitInfo) -> u64
    requires { group_of inst.now ≡ Control }
    ensures { result ≡ length (inst_cells _frame.now _info.now inst.now) }
{
    match inst {
        Inst::Nop0 | Inst::EmitIsland { .. } => 0,
        Inst::CondBr { .. } | Inst::TestBitAndBranch { .. } | Inst::Word8 { .. } => 2,
        Inst::AuthenticatedRet { key, is_hint } => authenticated_ret_count(*key, *is_hint),
        _ => 1,
    }
}

/// How many words a sequence has.
#[tactic(auto, using(a64_cells::proofs::Loops::loop_length))]
fn sequence_count(inst: &Inst, _frame: &FrameLayout, info: &EmitInfo) -> u64
    requires { group_of inst.now ≡ Sequence }
    ensures { result ≡ length (inst_cells _frame.now info.now inst.now) }
{
    match inst {
        Inst::JTSequence { targets, .. } => {
            let targets = targets.as_slice().len();
            table_start(targets, info) as u64 + targets as u64 + 1
        }
        Inst::LoadExtNameGot { .. } | Inst::LoadExtNameNear { .. } => 2,
        Inst::LoadExtNameFar { .. } | Inst::VecCSel { .. } => 4,
        Inst::StackProbeLoop { .. } => 5,
        Inst::AtomicRMWLoop { ty, op, .. } => operator_count(*ty, *op) as u64 + 3,
        Inst::AtomicCASLoop { .. } => 5,
        _ => 0,
    }
}

/// How much an instruction of so many words may add to code, beside these.
#[inline(always)]
fn charge(words: u64, wanting: u64) -> u64
    ensures { (cells : _) → words ≡ length cells → wanting ≡ length (ranges_in cells)
        → result ≡ saturated (charge_of cells) }
{
    if words == 0 {
        0
    } else {
        wanting
            .saturating_mul(USE_CHARGE)
            .saturating_add(JUMP_CHARGE)
    }
}

/// How much an instruction of so many words may add to code, whose uses want no veneers.
#[inline(always)]
fn quiet_extent(words: u64) -> Extent
    ensures { (cells : _) → words ≡ length cells → ranges_in cells ≡ []
        → AreExtent cells result.size result.charge result.range }
{
    Extent {
        size: words.saturating_mul(WORD_BYTES),
        charge: charge(words, 0),
        range: None,
    }
}

/// How much an instruction of so many words may add to code, which have these uses.
#[inline(always)]
fn using_extent(words: u64, uses: Uses) -> Extent
    ensures { (cells : _) → words ≡ length cells → uses_of 0 cells ≡ listed_uses uses.entry
        → AreExtent cells result.size result.charge result.range }
{
    let wanting = wanting_in(uses);
    Extent {
        size: words.saturating_mul(WORD_BYTES),
        charge: charge(words, wanting.count),
        range: wanting.range,
    }
}

/// How much the words of an instruction may add to code, and their uses.
#[inline(always)]
fn words_burden<'a>(inst: &'a Inst, frame: &FrameLayout, info: &EmitInfo) -> Burden<'a>
    ensures extent { AreExtent
        (inst_cells frame.now info.now inst.now) result.extent.size result.extent.charge
        result.extent.range }
    ensures uses { inst_uses frame.now info.now inst.now ≡ listed_uses result.uses }
{
    match inst.group() {
        Group::Plain(_) => Burden {
            extent: quiet_extent(1),
            uses: only_use(None),
        },
        Group::Control => {
            let uses = control_uses(inst, frame, info);
            Burden {
                extent: using_extent(control_count(inst, frame, info), uses),
                uses,
            }
        }
        Group::Sequence => {
            let uses = sequence_uses(inst, frame, info);
            Burden {
                extent: using_extent(sequence_count(inst, frame, info), uses),
                uses,
            }
        }
        Group::Call => Burden {
            extent: quiet_extent(call_count(inst, frame, info)),
            uses: call_uses(inst, frame, info),
        },
        Group::Memory => {
            let uses = memory_uses(inst, frame, info);
            Burden {
                extent: using_extent(memory_count(inst, frame, info), uses),
                uses,
            }
        }
    }
}

/// The most bytes that an instruction adds to code, beside the space that it asks for: its words, and what
/// islands may add because of it. Numbers past those of 64 bits stand at the greatest.
pub fn most_added(inst: &Inst, frame: &FrameLayout, info: &EmitInfo) -> u64
    ensures { result ≡ saturated (rooms.most_added frame.now info.now inst.now) }
{
    match asked_space(inst) {
        Some(_) => JUMP_CHARGE,
        None => {
            let extent = words_burden(inst, frame, info).extent;
            extent.size.saturating_add(extent.charge)
        }
    }
}

/// How much an instruction may add to code, and its uses.
#[inline(always)]
fn inst_burden<'a>(inst: &'a Inst, frame: &FrameLayout, info: &EmitInfo) -> Burden<'a>
    ensures extent { (kept : _) → IsExtent frame.now info.now
        (Emit inst.now kept) result.extent.size result.extent.charge result.extent.range }
    ensures uses { inst_uses frame.now info.now inst.now ≡ listed_uses result.uses }
{
    match asked_space(inst) {
        Some(space) => Burden {
            extent: Extent {
                size: 0,
                charge: JUMP_CHARGE + u64::from(space),
                range: None,
            },
            uses: only_use(None),
        },
        None => words_burden(inst, frame, info),
    }
}

/// What an item adds to code that is no place for an island, and needs no label near.
#[derive(Clone, Copy, Debug)]
pub struct Light {
    /// How many bytes it may add to code: nothing where it has no words, else four more than its words and
    /// what their uses may want.
    pub growth: u64,
    /// The use that the first word is, where it is one.
    pub first: Option<Site>,
    /// The use that the second word is, where it is one. No other word is one.
    pub second: Option<Site>,
    /// The shortest forward range of the uses that may want veneers, in bytes.
    pub range: Option<u32>,
}

/// What an item adds that has no use.
#[inline(always)]
fn without_use(growth: u64) -> Light
    ensures { result ≡ record { growth = growth; first = None; second = None; range = None } }
{
    Light {
        growth,
        first: None,
        second: None,
        range: None,
    }
}

/// What a jump adds: its word, and what an island may give it where it goes to a label.
#[inline(always)]
fn jump_light(dest: BranchTarget) -> Light
    ensures { (form : Form) → IsLight (branch form uses.Branch26 dest
        ∷ []) (size_of (branch form uses.Branch26 dest ∷ [])
        + charge_of (branch form uses.Branch26 dest ∷ [])) result }
{
    match dest {
        BranchTarget::Label(label) => Light {
            growth: USE_GROWTH,
            first: Some(Site {
                kind: LabelUse::Branch26,
                target: Target::Label(label),
            }),
            second: None,
            range: Some(LabelUse::Branch26.max_pos_range()),
        },
        BranchTarget::ResolvedOffset(_) => without_use(QUIET_WORD_GROWTH),
    }
}

/// What a conditional branch with a jump behind it adds, where both go to labels.
#[inline(always)]
fn branches_light(kind: LabelUse, taken: BranchTarget, not_taken: BranchTarget) -> Option<Light>
    requires { has_veneer kind ≡ true }
    ensures { IfSome result (λ light. (form : Form)
        → IsLight (branches form kind taken not_taken)
        (size_of (branches form kind taken not_taken)
        + charge_of (branches form kind taken not_taken)) light) }
{
    match (taken, not_taken) {
        (BranchTarget::Label(near), BranchTarget::Label(far)) => Some(Light {
            growth: TWO_USES_GROWTH,
            first: Some(Site {
                kind,
                target: Target::Label(near),
            }),
            second: Some(Site {
                kind: LabelUse::Branch26,
                target: Target::Label(far),
            }),
            range: Some(kind.max_pos_range().min(LabelUse::Branch26.max_pos_range())),
        }),
        _ => None,
    }
}

/// What an instruction adds that is a branch, or one word and no use.
#[inline(always)]
fn control_light(inst: &Inst, _frame: &FrameLayout, _info: &EmitInfo) -> Option<Light>
    requires { group_of inst.now ≡ Control }
    ensures { IfSome result (λ light. (asked_of inst.now ≡ None)
        × IsLight (inst_cells _frame.now _info.now inst.now)
        (size_of (inst_cells _frame.now _info.now inst.now)
        + charge_of (inst_cells _frame.now _info.now inst.now)) light) }
{
    where_quiet!(inst, Some(without_use(QUIET_WORD_GROWTH));
        Inst::Jump { dest } => Some(jump_light(*dest)),
        Inst::CondBr { taken, not_taken, .. } => {
            branches_light(LabelUse::Branch19, *taken, *not_taken)
        }
        Inst::TestBitAndBranch { taken, not_taken, .. } => {
            branches_light(LabelUse::Branch14, *taken, *not_taken)
        }
        _ => None,
    )
}

/// What an access adds in a mode that an instruction holds, where its word is no use of a label.
#[inline(always)]
fn mode_light(mem: &AMode) -> Option<Light>
    ensures { IfSome result (IsModeLight mem.now) }
{
    match *mem {
        AMode::RegReg { .. }
        | AMode::RegScaled { .. }
        | AMode::RegScaledExtended { .. }
        | AMode::RegExtended { .. }
        | AMode::Unscaled { .. }
        | AMode::UnsignedOffset { .. }
        | AMode::SPPreIndexed { .. }
        | AMode::SPPostIndexed { .. } => Some(without_use(QUIET_WORD_GROWTH)),
        AMode::Const { addr } => Some(Light {
            growth: USE_GROWTH,
            first: Some(Site {
                kind: LabelUse::Ldr19,
                target: Target::Constant(addr),
            }),
            second: None,
            range: Some(LabelUse::Ldr19.max_pos_range()),
        }),
        _ => None,
    }
}

/// What a load or a store of one register adds, in a mode that an instruction holds.
#[inline(always)]
fn memory_light(inst: &Inst, _frame: &FrameLayout, _info: &EmitInfo) -> Option<Light>
    ensures { IfSome result (λ light. (asked_of inst.now ≡ None)
        × IsLight (inst_cells _frame.now _info.now inst.now)
        (size_of (inst_cells _frame.now _info.now inst.now)
        + charge_of (inst_cells _frame.now _info.now inst.now)) light) }
{
    match inst.access_ref() {
        Some(access) => mode_light(access.mem),
        None => None,
    }
}

/// What an instruction of this group adds, whatever map of the stack it has, where a look at it says that it is
/// no place for an island and needs no label near. Code that names the group at the call has what that group
/// needs alone.
///
/// One look tells all of an instruction of one word without a use, a branch to labels, or an access in a mode
/// that an instruction holds. For others the words are counted and the uses told first: by that way a jump
/// takes some 110 machine instructions more, since the machine code joins the answers of all arms.
#[inline(always)]
pub fn inst_light(inst: &Inst, group: Group, frame: &FrameLayout, info: &EmitInfo) -> Option<Light>
    requires { group ≡ group_of inst.now }
    ensures light { IfSome result (λ light. (map : Option UserStackMap)
        → IsLight (cells_of frame.now info.now (Emit inst.now map))
        (growth_of frame.now info.now (Emit inst.now map)) light) }
    ensures place { IfSome result (λ _. asked_of inst.now ≡ None) }
{
    match group {
        Group::Plain(_) => Some(without_use(QUIET_WORD_GROWTH)),
        Group::Control => control_light(inst, frame, info),
        Group::Sequence | Group::Call => None,
        Group::Memory => memory_light(inst, frame, info),
    }
}

/// What an item adds, where a look at it says that it is no place for an island and needs no label near.
#[inline(always)]
pub fn light_of(item: &Item, frame: &FrameLayout, info: &EmitInfo) -> Option<Light>
    ensures light { IfSome result (IsLight (cells_of frame.now info.now item.now)
        (growth_of frame.now info.now item.now)) }
    ensures place { IfSome result (λ _. asked item.now ≡ None) }
{
    match item {
        Item::Bind(_) => Some(without_use(0)),
        Item::Emit { inst, map: _ } => inst_light(inst, inst.group(), frame, info),
    }
}

/// How much an item may add to code, and its uses.
#[inline(always)]
pub fn burden_of<'a>(item: &'a Item, frame: &FrameLayout, info: &EmitInfo) -> Burden<'a>
    ensures extent { IsExtent frame.now info.now item.now result.extent.size result.extent.charge
        result.extent.range }
    ensures uses { uses_of 0 (cells_of frame.now info.now item.now) ≡ listed_uses result.uses }
{
    match item {
        Item::Bind(_) => Burden {
            extent: Extent {
                size: 0,
                charge: 0,
                range: None,
            },
            uses: only_use(None),
        },
        Item::Emit { inst, map: _ } => inst_burden(inst, frame, info),
    }
}
