//! The uses of the words of instructions.

ghost use Rattle.std.specs.Prelude.{◌≡◌, ◌≤◌, None, length};
ghost use Rattle.a64_base.specs.declared.reg.Reg.{Reg};
ghost use Rattle.a64_inst.specs.declared.group.Group.TheVariants.{Call, Control, Memory, Sequence};
ghost use Rattle.a64_inst.specs.Groups.{group_of};
ghost use Rattle.a64_rows.specs.Forms.{Form};
ghost use Rattle.a64_cells.specs.Cells as cells;
ghost use Rattle.a64_cells.specs.Shapes as shapes;
ghost use Rattle.a64_cells.specs.Shapes.{branches, table_forms};
ghost use Rattle.a64_cells.specs.Cells.{uses_of, listed_uses, inst_uses};

use crate::access_sites;
use a64_base::{BranchTarget, TrapCode};
use a64_buffer::Target;
use a64_cells::word::sequence::has_barrier;
use a64_cells::{Site, Table, Uses, mode_site};
use a64_inst::{EmitInfo, FrameLayout, Group, Inst, const_plan};
use a64_label_use::LabelUse;

/// The use that a branch is: none where it has its offset already.
#[inline(always)]
pub fn branch_site(kind: LabelUse, dest: BranchTarget) -> Option<Site>
    ensures { result ≡ shapes.branch_site kind dest }
{
    match dest {
        BranchTarget::Label(label) => Some(Site {
            kind,
            target: Target::Label(label),
        }),
        BranchTarget::ResolvedOffset(_) => None,
    }
}

/// The use that a branch to a trap word is.
#[inline(always)]
pub fn trap_site(code: TrapCode) -> Site
    ensures { result ≡ shapes.trap_site code }
{
    Site {
        kind: LabelUse::Branch19,
        target: Target::Trap(code),
    }
}

/// The uses of words of which only the first may be one.
#[inline(always)]
pub fn only_use<'a>(first: Option<Site>) -> Uses<'a>
    ensures { result ≡ record { first = first; second = None; table = None } }
{
    Uses {
        first,
        second: None,
        table: None,
    }
}

/// The uses of a conditional branch with a jump behind it.
#[inline(always)]
fn branches_uses<'a>(kind: LabelUse, taken: BranchTarget, not_taken: BranchTarget) -> Uses<'a>
    ensures { (form : Form) → uses_of 0 (branches form kind taken not_taken)
        ≡ listed_uses result }
{
    Uses {
        first: branch_site(kind, taken),
        second: branch_site(LabelUse::Branch26, not_taken),
        table: None,
    }
}

/// The uses of the words of a branch, an address or data.
#[tactic(auto, using(a64_cells::proofs::Loops::return_uses))]
#[inline(always)]
pub fn control_uses<'a>(inst: &'a Inst, _frame: &FrameLayout, _info: &EmitInfo) -> Uses<'a>
    requires { group_of inst.now ≡ Control }
    ensures { inst_uses _frame.now _info.now inst.now ≡ listed_uses result }
{
    match inst {
        Inst::Jump { dest } => only_use(branch_site(LabelUse::Branch26, *dest)),
        Inst::CondBr {
            taken,
            not_taken,
            ..
        } => branches_uses(LabelUse::Branch19, *taken, *not_taken),
        Inst::TestBitAndBranch {
            taken,
            not_taken,
            ..
        } => branches_uses(LabelUse::Branch14, *taken, *not_taken),
        Inst::TrapIf { kind: _, trap_code } => only_use(Some(trap_site(*trap_code))),
        Inst::LabelAddress { dst: _, label } => only_use(branch_site(
            LabelUse::Adr21,
            BranchTarget::Label(*label),
        )),
        _ => only_use(None),
    }
}

/// The use that a load or a store is, where it is one.
#[inline(always)]
fn memory_site(inst: &Inst) -> Option<Site>
    ensures { result ≡ cells.memory_site inst.now }
{
    access_sites!(inst)
}

/// The uses of the words of a load or a store, or of an address.
#[inline(always)]
pub fn memory_uses<'a>(inst: &'a Inst, _frame: &FrameLayout, _info: &EmitInfo) -> Uses<'a>
    requires { group_of inst.now ≡ Memory }
    ensures { inst_uses _frame.now _info.now inst.now ≡ listed_uses result }
{
    only_use(memory_site(inst))
}

/// How many words stand before the table of a jump through so many targets: the steps of their number, the
/// choice of an index, a barrier where the settings ask for one, and the jump to the entry.
pub fn table_start(targets: usize, info: &EmitInfo) -> usize
    ensures start { (ridx rtmp1 rtmp2 : Reg)
        → result ≡ length (table_forms info.now targets ridx rtmp1 rtmp2) }
    ensures few { result ≤ 10 }
{
    const_plan(targets as u64).len() + 5 + usize::from(has_barrier(info))
}

/// The uses of the words of a sequence: the entries of the table behind a jump through one.
#[tactic(auto, using(a64_cells::proofs::Loops::loop_uses))]
pub fn sequence_uses<'a>(inst: &'a Inst, _frame: &FrameLayout, info: &EmitInfo) -> Uses<'a>
    requires { group_of inst.now ≡ Sequence }
    ensures { inst_uses _frame.now info.now inst.now ≡ listed_uses result }
{
    match inst {
        Inst::JTSequence {
            default,
            targets,
            ..
        } => Uses {
            first: None,
            second: None,
            table: Some(Table {
                first: table_start(targets.len(), info),
                targets: targets.as_slice(),
                default: *default,
            }),
        },
        _ => only_use(None),
    }
}

/// The uses of the words of a call, or of a return that calls: none is one.
#[inline(always)]
pub fn call_uses<'a>(_inst: &'a Inst, _frame: &FrameLayout, _info: &EmitInfo) -> Uses<'a>
    requires { group_of _inst.now ≡ Call }
    ensures { inst_uses _frame.now _info.now _inst.now ≡ listed_uses result }
{
    only_use(None)
}

/// The uses of the words of an instruction.
#[inline(always)]
pub fn uses_in<'a>(inst: &'a Inst, frame: &FrameLayout, info: &EmitInfo) -> Uses<'a>
    ensures { inst_uses frame.now info.now inst.now ≡ listed_uses result }
{
    match inst.group() {
        Group::Plain(_) => only_use(None),
        Group::Control => control_uses(inst, frame, info),
        Group::Sequence => sequence_uses(inst, frame, info),
        Group::Call => call_uses(inst, frame, info),
        Group::Memory => memory_uses(inst, frame, info),
    }
}
