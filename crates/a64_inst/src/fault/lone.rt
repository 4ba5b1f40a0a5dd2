//! Whether an instruction is one word that is no use.

ghost use Rattle.std.specs.Prelude.{◌≡◌};
ghost use Rattle.a64_base.specs.declared.ir_type.IrType.TheVariants.{I8};
ghost use Rattle.a64_inst.specs.declared.group.Group.TheVariants.{Control, Memory};
ghost use Rattle.a64_inst.specs.FinalModes.{placed_mode};
ghost use Rattle.a64_inst.specs.Groups.{group_of};
ghost use Rattle.a64_inst.specs.Lone as lone;
ghost use Rattle.a64_inst.specs.Modes.{is_far};

use crate::access::AccessRef;
use crate::fault::memory::scratch::is_addend;
use crate::frame::FrameLayout;
use crate::group::Group;
use crate::inst::Inst;
use crate::mode::{AMode, MemLabel};
use crate::place::{Place, is_far, needs_x16, place_of};
use crate::{control_alone, memory_alone};
use a64_base::{APIKey, BranchTarget, IrType, Reg};
use a64_operand::is_other_register;

/// Whether the word of an access in a mode is no use of a label or of a constant.
fn is_no_use(mem: &AMode) -> bool
    ensures { result ≡ lone.is_no_use mem.now }
{
    !matches!(
        mem,
        AMode::Label {
            label: MemLabel::Mach(_) | MemLabel::Pool(_),
        } | AMode::Const { .. }
    )
}

/// Whether an access is one word that is no use.
fn is_lone_access(access: &AccessRef<'_>, frame: &FrameLayout) -> bool
    ensures { result ≡ lone.is_lone_access frame.now access.now }
{
    is_no_use(access.mem) && !needs_x16(frame, access.ty(), access.mem)
}

/// Whether the sum of a base and an offset is one word.
fn is_lone_sum(rd: &Reg, rn: &Reg, offset: i32) -> bool
    ensures { result ≡ lone.is_lone_sum rd.now rn.now offset }
{
    if offset == 0 {
        is_other_register(rd, rn)
    } else {
        is_addend(offset.unsigned_abs())
    }
}

/// Whether the sum of the base and the offset of a mode that no instruction holds is one word: where an
/// access of one byte holds the offset, an addition does.
fn is_lone_place(rd: &Reg, place: &Place) -> bool
    ensures { result ≡ lone.is_lone_address rd.now (is_far I8 place.now.offset)
        (placed_mode I8 (record {
          base = place.now.base;
          offset = place.now.offset;
        })) }
{
    if place.offset == 0 {
        is_other_register(rd, &place.base)
    } else {
        !is_far(IrType::I8, place.offset)
    }
}

/// Whether the address of a mode is one word.
fn is_lone_mode(rd: &Reg, frame: &FrameLayout, mem: &AMode) -> bool
    ensures { result ≡ lone.is_lone_mode rd.now frame.now mem.now }
{
    match *mem {
        AMode::Unscaled { rn, simm9 } => is_lone_sum(rd, &rn, i32::from(simm9.value)),
        AMode::UnsignedOffset { rn, uimm12 } => is_lone_sum(rd, &rn, uimm12.value() as i32),
        AMode::RegExtended { .. } => true,
        _ => match place_of(frame, mem) {
            Some(place) => is_lone_place(rd, &place),
            None => false,
        },
    }
}

/// Whether a branch has its offset already.
fn is_resolved(dest: BranchTarget) -> bool
    ensures { result ≡ lone.is_resolved dest }
{
    matches!(dest, BranchTarget::ResolvedOffset(_))
}

/// Whether a return authenticates its address in the same word.
fn is_lone_return(key: APIKey, is_hint: bool) -> bool
    ensures { result ≡ lone.is_lone_return key is_hint }
{
    matches!(key, APIKey::ASP | APIKey::BSP) && !is_hint
}

/// Whether a branch, a `nop`, data or the like is one word that is no use.
fn is_lone_control(inst: &Inst, _frame: &FrameLayout) -> bool
    requires { group_of inst.now ≡ Control }
    ensures { result ≡ lone.is_lone _frame.now inst.now }
{
    control_alone!(inst)
}

/// Whether a load or a store, or an address, is one word that is no use.
fn is_lone_memory(inst: &Inst, frame: &FrameLayout) -> bool
    requires { group_of inst.now ≡ Memory }
    ensures { result ≡ lone.is_lone frame.now inst.now }
{
    if let Some(access) = inst.access_ref() {
        return is_lone_access(&access, frame);
    }
    memory_alone!(inst, frame)
}

/// Whether an instruction is one word that is no use.
pub fn is_lone(inst: &Inst, frame: &FrameLayout) -> bool
    ensures { result ≡ lone.is_lone frame.now inst.now }
{
    match inst.group() {
        Group::Plain(_) => true,
        Group::Control => is_lone_control(inst, frame),
        Group::Sequence | Group::Call => false,
        Group::Memory => is_lone_memory(inst, frame),
    }
}
