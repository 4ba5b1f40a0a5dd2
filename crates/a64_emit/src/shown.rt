//! What is wrong with instructions that are only shown.

ghost use Rattle.std.specs.Prelude.{◌≡◌, ◌≢◌, IfSome};
ghost use Rattle.a64_operand.specs.declared.virtuals.VirtualRegisters.TheVariants.{Allowed};
ghost use Rattle.a64_inst.specs.Faults as inst_faults;
ghost use Rattle.a64_emit.specs.declared.error.EmitError.TheVariants.{OutOfMemory};
ghost use Rattle.a64_emit.specs.ShownFaults as shown_faults;

use crate::error::EmitError;
use a64_buffer::Constants;
use a64_inst::{EmitInfo, FrameLayout, Inst, Item, OwnFault, VirtualRegisters};

/// What is wrong with an instruction that is only shown: the first of these that applies.
#[derive(Clone, Copy, Debug, PartialEq, Eq)]
pub enum ShownFault {
    /// An operand is outside of its set, or more is loaded than the constant has.
    BadOperand,
    /// The addressing mode does not exist.
    BadMode,
}

/// How many bytes the constant has that an instruction loads; `None` where it loads none, or that is not
/// there.
pub fn constant_size(inst: &Inst, constants: &Constants) -> Option<u32>
    ensures { result ≡ inst_faults.constant_size constants.now inst.now }
{
    constants.size_of(inst.constant()?)
}

/// A fault of an instruction by itself, where it counts for one that is only shown.
fn shown_of(fault: Option<OwnFault>) -> Option<ShownFault>
    ensures { result ≡ shown_faults.shown_of fault }
{
    match fault? {
        OwnFault::BadOperand => Some(ShownFault::BadOperand),
        OwnFault::BadMode => Some(ShownFault::BadMode),
        OwnFault::ScratchConflict | OwnFault::UnknownConstant => None,
    }
}

/// What is wrong with an instruction that is only shown: with its operands, or else with its addressing
/// mode. Its registers may be virtual, and a constant that it loads need not be there. It takes no memory.
///
/// It looks at what the frame restores. [`shown_fault_with`] does not, where there are many instructions.
pub fn shown_fault(
    inst: &Inst,
    constants: &Constants,
    info: &EmitInfo,
    frame: &FrameLayout,
) -> Option<ShownFault>
    ensures { result ≡ shown_faults.shown_fault frame.now info.now constants.now inst.now }
{
    let restorable = frame.is_restorable(info, VirtualRegisters::Allowed);
    shown_fault_with(inst, constants, info, frame, restorable)
}

/// The same. `restorable` says what [`FrameLayout::is_restorable`] does where registers may be virtual, and
/// counts at returns that call.
#[tactic(auto, using(crate::proofs::ShownFaults::shown_first))]
pub fn shown_fault_with(
    inst: &Inst,
    constants: &Constants,
    info: &EmitInfo,
    frame: &FrameLayout,
    restorable: bool,
) -> Option<ShownFault>
    requires { restorable ≡ inst_faults.is_restorable frame.now info.now Allowed }
    ensures { result ≡ shown_faults.shown_fault frame.now info.now constants.now inst.now }
{
    let size = constant_size(inst, constants);
    shown_of(inst.own_fault(frame, info, size, VirtualRegisters::Allowed, restorable))
}

/// What is wrong with an item that is only shown.
fn shown_item(
    item: &Item,
    constants: &Constants,
    info: &EmitInfo,
    frame: &FrameLayout,
    restorable: bool,
) -> Option<ShownFault>
    requires { restorable ≡ inst_faults.is_restorable frame.now info.now Allowed }
    ensures { result ≡ shown_faults.shown_item frame.now info.now constants.now item.now }
{
    match item {
        Item::Bind(_) => None,
        Item::Emit { inst, .. } => shown_fault_with(inst, constants, info, frame, restorable),
    }
}

/// The refusal because of such a fault of the item with this number.
fn shown_error(i: usize, fault: ShownFault) -> EmitError
    ensures error { result ≡ shown_faults.shown_error i fault }
    ensures no_memory { result ≢ OutOfMemory }
{
    match fault {
        ShownFault::BadOperand => EmitError::BadOperand(i),
        ShownFault::BadMode => EmitError::BadMode(i),
    }
}

/// Why items are not listed: the first that cannot be shown, by its number. It takes no memory.
pub fn first_shown_fault(
    items: &[Item],
    constants: &Constants,
    info: &EmitInfo,
    frame: &FrameLayout,
) -> Option<EmitError>
    ensures first { result
        ≡ shown_faults.first_shown_fault frame.now info.now constants.now items.now }
    ensures no_memory { IfSome result (λ error. error ≢ OutOfMemory) }
{
    let restorable = frame.is_restorable(info, VirtualRegisters::Allowed);
    for (i, item) in items.iter().enumerate() {
        if let Some(fault) = shown_item(item, constants, info, frame, restorable) {
            return Some(shown_error(i, fault));
        }
    }
    None
}
