//! What a look at an item finds.

ghost use Rattle.std.specs.Prelude.{◌≡◌, None, Option, Some};
ghost use Rattle.a64_base.specs.declared.entity.UserStackMap.{UserStackMap};
ghost use Rattle.a64_operand.specs.declared.virtuals.VirtualRegisters.TheVariants.{Refused};
ghost use Rattle.a64_inst.specs.Faults as inst_faults;
ghost use Rattle.a64_inst.specs.Faults.{inst_fault};
ghost use Rattle.a64_inst.specs.declared.group.Group.TheVariants.{Control};
ghost use Rattle.a64_inst.specs.declared.item.Item.TheVariants.{Emit};
ghost use Rattle.a64_inst.specs.Groups.{group_of};
ghost use Rattle.a64_assemble.specs.Looks.{IsLook, IsBareOrLight};

use a64_base::BranchTarget;
use a64_buffer::Constants;
use a64_emit::{Light, inst_light};
use a64_inst::{EmitInfo, FrameLayout, Group, Inst, Item, OwnFault, VirtualRegisters};

/// What a look at an item finds.
#[derive(Clone, Copy)]
pub enum Look {
    /// What is wrong with it by itself.
    Fault(OwnFault),
    /// It binds a label: nothing is wrong with it, and it adds nothing to code.
    Binding,
    /// Nothing is wrong with it, it is no place for an island, and it has no use. How many bytes it may add
    /// to code.
    Bare(u64),
    /// Nothing is wrong with it, it is no place for an island, and none of its uses needs its label near.
    Light(Light),
    /// Nothing is wrong with it.
    Right,
}

/// How many bytes the constant has that an instruction of this group loads; `None` where it loads none, or
/// that is not there.
#[inline(always)]
#[tactic(auto, using(crate::proofs::Constants::no_constant))]
fn constant_size(inst: &Inst, group: Group, constants: &Constants) -> Option<u32>
    requires { group ≡ group_of inst.now }
    ensures { result ≡ inst_faults.constant_size constants.now inst.now }
{
    match group {
        Group::Memory => constants.size_of(inst.constant()?),
        Group::Plain(_) | Group::Control | Group::Sequence | Group::Call => None,
    }
}

/// What a look finds of an item that is light: it is bare where it has no use.
#[inline(always)]
fn look_of(light: Light) -> Look
    ensures { IsBareOrLight light result }
{
    match light {
        Light {
            growth,
            first: None,
            second: None,
            range: None,
        } => Look::Bare(growth),
        _ => Look::Light(light),
    }
}

/// What a look at an instruction of this group finds, with which nothing is wrong.
#[inline(always)]
fn look_right(
    inst: &Inst,
    group: Group,
    _constants: &Constants,
    info: &EmitInfo,
    frame: &FrameLayout,
) -> Look
    requires group { group ≡ group_of inst.now }
    requires right { inst_fault frame.now info.now _constants.now Refused inst.now ≡ None }
    ensures { (map : Option UserStackMap)
        → IsLook frame.now info.now _constants.now (Emit inst.now map) result }
{
    match inst_light(inst, group, frame, info) {
        Some(light) => look_of(light),
        None => Look::Right,
    }
}

/// What a look at an instruction of this group finds. Code that names the group at the call has the tests and
/// the uses of that group alone.
#[inline(always)]
fn look_in(
    inst: &Inst,
    group: Group,
    constants: &Constants,
    info: &EmitInfo,
    frame: &FrameLayout,
    restorable: bool,
) -> Look
    requires group { group ≡ group_of inst.now }
    requires restorable { restorable ≡ inst_faults.is_restorable frame.now info.now Refused }
    ensures { (map : Option UserStackMap)
        → IsLook frame.now info.now constants.now (Emit inst.now map) result }
{
    let size = constant_size(inst, group, constants);
    let virtuals = VirtualRegisters::Refused;
    match inst.fault_of(group, frame, info, size, virtuals, restorable) {
        Some(fault) => Look::Fault(fault),
        None => look_right(inst, group, constants, info, frame),
    }
}

/// What a look at a branch, a `nop`, an access to the flags, data or an address finds. Nothing can be wrong with
/// a `nop`, nor with a jump to a label, so that no test of these is made.
#[tactic(auto, unfolding(a64_inst::specs::ControlOperands::are_jump_operands))]
#[inline(always)]
fn look_control(
    inst: &Inst,
    constants: &Constants,
    info: &EmitInfo,
    frame: &FrameLayout,
    restorable: bool,
) -> Look
    requires group { group_of inst.now ≡ Control }
    requires restorable { restorable ≡ inst_faults.is_restorable frame.now info.now Refused }
    ensures { (map : Option UserStackMap)
        → IsLook frame.now info.now constants.now (Emit inst.now map) result }
{
    match inst {
        Inst::Nop4 => look_right(inst, Group::Control, constants, info, frame),
        Inst::Jump {
            dest: BranchTarget::Label(_),
        } => look_right(inst, Group::Control, constants, info, frame),
        _ => look_in(inst, Group::Control, constants, info, frame, restorable),
    }
}

/// What a look at an item finds. What the frame restores is judged already. The group is looked up once, and
/// each group has its own tests.
#[inline(always)]
pub fn look_at(
    item: &Item,
    constants: &Constants,
    info: &EmitInfo,
    frame: &FrameLayout,
    restorable: bool,
) -> Look
    requires { restorable ≡ inst_faults.is_restorable frame.now info.now Refused }
    ensures { IsLook frame.now info.now constants.now item.now result }
{
    let inst = match item {
        Item::Bind(_) => return Look::Binding,
        Item::Emit { inst, map: _ } => inst,
    };
    match inst.group() {
        Group::Plain(plain) => {
            look_in(
                inst,
                Group::Plain(plain),
                constants,
                info,
                frame,
                restorable,
            )
        }
        Group::Control => look_control(inst, constants, info, frame, restorable),
        Group::Sequence => look_in(inst, Group::Sequence, constants, info, frame, restorable),
        Group::Call => look_in(inst, Group::Call, constants, info, frame, restorable),
        Group::Memory => look_in(inst, Group::Memory, constants, info, frame, restorable),
    }
}
