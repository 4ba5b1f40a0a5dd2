//! The roles of calls, and of returns that call.

ghost use Rattle.std.specs.Prelude.{◌≡◌};
ghost use Rattle.a64_inst.specs.declared.group.Group.TheVariants.{Call};
ghost use Rattle.a64_inst.specs.Groups.{group_of};
ghost use Rattle.a64_roles.specs.Roles.{roles_of};
ghost use Rattle.a64_role.specs.Visits.{Tells};

use crate::call_roles;
use a64_base::xreg;
use a64_inst::Inst;
use a64_role::Role::{RegFixedUse, RegUse};
use a64_role::{OperandVisitor, hand_call, hand_return_call};
use std::alloc::AllocError;

/// Tells a visitor the roles of a call, or of a return that calls.
///
/// # Errors
///
/// The visitor refused one; it was told those before.
pub fn hand_calling<V: OperandVisitor>(visitor: &mut V, inst: &Inst) -> Result<(), AllocError>
    requires { group_of inst.now ≡ Call }
    ensures { Tells V.told V.refusals visitor.old visitor.new (roles_of inst.now) result }
{
    call_roles!(visitor, inst)
}
