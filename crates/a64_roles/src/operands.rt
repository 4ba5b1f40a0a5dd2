//! The roles of the registers of an instruction.

ghost use Rattle.std.specs.Prelude.{◌≡◌};
ghost use Rattle.a64_roles.specs.Roles.{roles_of};
ghost use Rattle.a64_role.specs.Visits.{Tells};

use crate::call::hand_calling;
use crate::control::hand_control;
use crate::memory::hand_memory;
use crate::plain::hand_plain;
use crate::sequence::hand_sequence;
use a64_inst::{Group, Inst};
use a64_role::OperandVisitor;
use std::alloc::AllocError;

/// Tells a visitor the roles of an instruction.
///
/// # Errors
///
/// The visitor refused one; it was told those before.
pub fn hand_operands<V: OperandVisitor>(visitor: &mut V, inst: &Inst) -> Result<(), AllocError>
    ensures { Tells V.told V.refusals visitor.old visitor.new (roles_of inst.now) result }
{
    match inst.group() {
        Group::Plain(group) => hand_plain(visitor, inst, group),
        Group::Control => hand_control(visitor, inst),
        Group::Sequence => hand_sequence(visitor, inst),
        Group::Call => hand_calling(visitor, inst),
        Group::Memory => hand_memory(visitor, inst),
    }
}
