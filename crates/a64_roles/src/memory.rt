//! The roles of loads and stores, of addresses and of atomic operations.

ghost use Rattle.std.specs.Prelude.{◌≡◌};
ghost use Rattle.a64_inst.specs.declared.group.Group.TheVariants.{Memory};
ghost use Rattle.a64_inst.specs.Groups.{group_of};
ghost use Rattle.a64_roles.specs.Roles.{roles_of};
ghost use Rattle.a64_role.specs.Lists as lists;
ghost use Rattle.a64_ops.specs.Accesses.{loads};
ghost use Rattle.a64_role.specs.Visits.{Tells};

use crate::{memory_roles, moved_role_of};
use a64_base::{Reg, xreg};
use a64_inst::{AccessOp, AccessRef, AtomicCAS128Args, Inst};
use a64_role::Role::{RegDef, RegFixedDef, RegFixedUse, RegReuseDef, RegUse};
use a64_role::{OperandVisitor, Role, hand, hand_mode, hand_pair_mode};
use std::alloc::AllocError;

/// The role of the register of a load or a store.
fn moved_role(op: AccessOp, reg: Reg) -> Role
    ensures { result ≡ lists.moved_role (loads op) reg }
{
    moved_role_of!(op, reg)
}

/// Tells a visitor the roles of a compare and swap of 128 bits.
///
/// # Errors
///
/// The visitor refused one; it was told those before.
fn hand_pair_swap<V: OperandVisitor>(
    visitor: &mut V,
    args: &AtomicCAS128Args,
) -> Result<(), AllocError>
    ensures { Tells V.told V.refusals visitor.old visitor.new
        (lists.pair_swap_roles args.now) result }
{
    hand(
        visitor,
        &[
            RegFixedUse(args.rs_lo, xreg(24)),
            RegFixedUse(args.rs_hi, xreg(25)),
            RegFixedDef(args.rd_lo.to_reg(), xreg(24)),
            RegFixedDef(args.rd_hi.to_reg(), xreg(25)),
            RegFixedUse(args.rt_lo, xreg(26)),
            RegFixedUse(args.rt_hi, xreg(27)),
            RegFixedUse(args.rn, xreg(28)),
        ],
    )
}

/// Tells a visitor the roles of a load or a store of one register.
///
/// # Errors
///
/// The visitor refused one; it was told those before.
fn hand_access<V: OperandVisitor>(visitor: &mut V, access: &AccessRef<'_>) -> Result<(), AllocError>
    ensures { Tells V.told V.refusals visitor.old visitor.new
        (lists.access_roles access.now) result }
{
    hand_mode(visitor, &[moved_role(access.op, access.reg)], access.mem)
}

/// Tells a visitor the roles of a load, a store, an address or an atomic operation.
///
/// # Errors
///
/// The visitor refused one; it was told those before.
pub fn hand_memory<V: OperandVisitor>(visitor: &mut V, inst: &Inst) -> Result<(), AllocError>
    requires { group_of inst.now ≡ Memory }
    ensures { Tells V.told V.refusals visitor.old visitor.new (roles_of inst.now) result }
{
    memory_roles!(visitor, inst)
}
