//! The roles of control flow, of data and of places for islands.

ghost use Rattle.std.specs.Prelude.{◌≡◌};
ghost use Rattle.a64_inst.specs.declared.group.Group.TheVariants.{Control};
ghost use Rattle.a64_inst.specs.Groups.{group_of};
ghost use Rattle.a64_roles.specs.Roles.{roles_of};
ghost use Rattle.a64_role.specs.Lists.{kind_roles};
ghost use Rattle.a64_role.specs.Visits.{Tells};

use crate::control_roles;
use a64_base::CondBrKind;
use a64_inst::Inst;
use a64_role::Role::{RegDef, RegUse};
use a64_role::{OperandVisitor, hand};
use std::alloc::AllocError;

/// Tells a visitor the register that a condition tests, where it tests one.
///
/// # Errors
///
/// The visitor refused it.
fn hand_kind<V: OperandVisitor>(visitor: &mut V, kind: CondBrKind) -> Result<(), AllocError>
    ensures { Tells V.told V.refusals visitor.old visitor.new (kind_roles kind) result }
{
    match kind {
        CondBrKind::Zero(reg, _) | CondBrKind::NotZero(reg, _) => hand(visitor, &[RegUse(reg)]),
        CondBrKind::Cond(_) => hand(visitor, &[]),
    }
}

/// Tells a visitor the roles of control flow, of data and of a place for an island.
///
/// # Errors
///
/// The visitor refused one; it was told those before.
pub fn hand_control<V: OperandVisitor>(visitor: &mut V, inst: &Inst) -> Result<(), AllocError>
    requires { group_of inst.now ≡ Control }
    ensures { Tells V.told V.refusals visitor.old visitor.new (roles_of inst.now) result }
{
    control_roles!(visitor, inst)
}
