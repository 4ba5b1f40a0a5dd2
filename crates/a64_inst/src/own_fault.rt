//! What is wrong with an instruction by itself.

ghost use Rattle.std.specs.Prelude.{◌≡◌, [], ◌∷◌, None, Some, OnOk, IfErr};
ghost use Rattle.a64_operand.specs.declared.virtuals.VirtualRegisters.TheVariants.{Refused};
ghost use Rattle.a64_inst.specs.declared.fault.OwnFault.TheVariants as own;
ghost use Rattle.a64_inst.specs.Faults as faults;
ghost use Rattle.a64_inst.specs.Faults.{fault_with, first_of};
ghost use Rattle.a64_inst.specs.Groups.{group_of};

use crate::emission::EmitInfo;
use crate::fault::OwnFault;
use crate::fault::call::call_fault;
use crate::fault::control::has_control_operands;
use crate::fault::lone::is_lone;
use crate::fault::memory::memory_fault;
use crate::fault::plain::has_plain_operands;
use crate::fault::sequence::has_sequence_operands;
use crate::frame::FrameLayout;
use crate::group::Group;
use crate::inst::Inst;
use a64_operand::VirtualRegisters;

/// What is wrong with an instruction of which only the operands can be wrong.
fn operand_fault(is_good: bool) -> Option<OwnFault>
    ensures { result ≡ first_of ((is_good, own.BadOperand) ∷ []) }
{
    if is_good {
        None
    } else {
        Some(OwnFault::BadOperand)
    }
}

/// Whether a frame can restore an instruction: it is one word that is no use, and nothing is wrong with it
/// by itself.
#[tactic(auto, using(crate::proofs::Restored::restored_memory))]
fn can_restore(
    inst: &Inst,
    frame: &FrameLayout,
    info: &EmitInfo,
    virtuals: VirtualRegisters,
) -> bool
    ensures { result ≡ faults.can_restore frame.now info.now virtuals inst.now }
{
    if !is_lone(inst, frame) {
        return false;
    }
    match inst.group() {
        Group::Plain(group) => has_plain_operands(inst, frame, info, virtuals, group),
        Group::Control => has_control_operands(inst, frame, info, virtuals),
        Group::Memory => memory_fault(inst, frame, info, None, virtuals).is_none(),
        Group::Sequence | Group::Call => false,
    }
}

impl FrameLayout {
    /// Whether nothing is wrong with the instructions that the frame restores: each is one word that is no
    /// use of a label or of a constant, is right by itself, and is no call.
    pub fn is_restorable(&self, info: &EmitInfo, virtuals: VirtualRegisters) -> bool
        ensures { result ≡ faults.is_restorable self.now info.now virtuals }
    {
        self.restore
            .as_slice()
            .iter()
            .all(|inst| can_restore(inst, self, info, virtuals))
    }
}

impl Inst {
    /// What is wrong with the instruction by itself, under a frame and settings. It takes no memory.
    ///
    /// `constant` is the size in bytes of the constant that the instruction loads, where it loads
    /// one and that is there, and `virtuals` says whether its registers may be virtual. `restorable`
    /// says what [`FrameLayout::is_restorable`] does, and counts at returns that call.
    pub fn own_fault(
        &self,
        frame: &FrameLayout,
        info: &EmitInfo,
        constant: Option<u32>,
        virtuals: VirtualRegisters,
        restorable: bool,
    ) -> Option<OwnFault>
        requires { restorable ≡ faults.is_restorable frame.now info.now virtuals }
        ensures { result ≡ fault_with frame.now info.now constant virtuals self.now }
    {
        self.fault_of(self.group(), frame, info, constant, virtuals, restorable)
    }

    /// The same, where the group of the instruction was looked up. Code that names the group at the call has
    /// the tests of that group alone.
    #[tactic(auto, using(crate::proofs::Groups::one_test))]
    #[inline(always)]
    pub fn fault_of(
        &self,
        group: Group,
        frame: &FrameLayout,
        info: &EmitInfo,
        constant: Option<u32>,
        virtuals: VirtualRegisters,
        restorable: bool,
    ) -> Option<OwnFault>
        requires group { group ≡ group_of self.now }
        requires restorable { restorable ≡ faults.is_restorable frame.now info.now virtuals }
        ensures { result ≡ fault_with frame.now info.now constant virtuals self.now }
    {
        match group {
            Group::Plain(plain) => {
                operand_fault(has_plain_operands(self, frame, info, virtuals, plain))
            }
            Group::Control => operand_fault(has_control_operands(self, frame, info, virtuals)),
            Group::Sequence => operand_fault(has_sequence_operands(self, frame, info, virtuals)),
            Group::Call => call_fault(self, frame, info, virtuals, restorable),
            Group::Memory => memory_fault(self, frame, info, constant, virtuals),
        }
    }

    /// Whether nothing is wrong with the instruction by itself, where it is to be emitted under a frame and settings.
    /// It takes no memory.
    ///
    /// `constant` is the size in bytes of the constant that the instruction loads, where it loads
    /// one and that is there.
    ///
    /// # Errors
    ///
    /// What is wrong with it.
    pub fn check(
        &self,
        frame: &FrameLayout,
        info: &EmitInfo,
        constant: Option<u32>,
    ) -> Result<(), OwnFault>
        ensures ok { OnOk result (fault_with frame.now info.now constant Refused self.now
            ≡ None) }
        ensures err { IfErr result (λ fault.
            fault_with frame.now info.now constant Refused self.now ≡ Some fault) }
    {
        let virtuals = VirtualRegisters::Refused;
        let restorable = frame.is_restorable(info, virtuals);
        match self.own_fault(frame, info, constant, virtuals, restorable) {
            None => Ok(()),
            Some(fault) => Err(fault),
        }
    }
}
