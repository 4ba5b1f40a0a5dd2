//! The roles of sequences, and of what only says something of registers.

ghost use Rattle.std.specs.Prelude.{◌≡◌};
ghost use Rattle.a64_inst.specs.declared.group.Group.TheVariants.{Sequence};
ghost use Rattle.a64_inst.specs.Groups.{group_of};
ghost use Rattle.a64_roles.specs.Roles.{roles_of};
ghost use Rattle.a64_roles.specs.Sequences.{args_roles, rets_roles, rmw_loop_roles};
ghost use Rattle.a64_role.specs.Visits.{Tells};

use crate::sequence_roles;
use a64_base::{Reg, xreg};
use a64_inst::{ArgPair, AtomicRMWLoopOp, Inst, RetPair};
use a64_role::Role::{RegDef, RegEarlyDef, RegFixedDef, RegFixedUse, RegUse};
use a64_role::{OperandVisitor, hand, hand_each};
use std::alloc::AllocError;

/// Tells a visitor the roles of what enters a function.
///
/// # Errors
///
/// The visitor refused one; it was told those before.
fn hand_args<V: OperandVisitor>(visitor: &mut V, args: &[ArgPair]) -> Result<(), AllocError>
    ensures { Tells V.told V.refusals visitor.old visitor.new (args_roles args.now) result }
{
    hand_each(visitor, args)
}

/// Tells a visitor the roles of what leaves a function.
///
/// # Errors
///
/// The visitor refused one; it was told those before.
fn hand_rets<V: OperandVisitor>(visitor: &mut V, rets: &[RetPair]) -> Result<(), AllocError>
    ensures { Tells V.told V.refusals visitor.old visitor.new (rets_roles rets.now) result }
{
    hand_each(visitor, rets)
}

/// Tells a visitor the roles of a loop that updates memory by an operation, each in the register in which
/// the loop has it. An exchange leaves the second scratch register alone.
///
/// # Errors
///
/// The visitor refused one; it was told those before.
fn hand_rmw_loop<V: OperandVisitor>(
    visitor: &mut V,
    op: AtomicRMWLoopOp,
    addr: Reg,
    operand: Reg,
    oldval: Reg,
    scratch1: Reg,
    scratch2: Reg,
) -> Result<(), AllocError>
    ensures { Tells V.told V.refusals visitor.old visitor.new
        (rmw_loop_roles op addr operand oldval scratch1 scratch2) result }
{
    let (addr, operand) = (RegFixedUse(addr, xreg(25)), RegFixedUse(operand, xreg(26)));
    let (oldval, scratch1) = (
        RegFixedDef(oldval, xreg(27)),
        RegFixedDef(scratch1, xreg(24)),
    );
    match op {
        AtomicRMWLoopOp::Xchg => hand(visitor, &[addr, operand, oldval, scratch1]),
        _ => {
            let scratch2 = RegFixedDef(scratch2, xreg(28));
            hand(visitor, &[addr, operand, oldval, scratch1, scratch2])
        }
    }
}

/// Tells a visitor the roles of a sequence.
///
/// # Errors
///
/// The visitor refused one; it was told those before.
pub fn hand_sequence<V: OperandVisitor>(visitor: &mut V, inst: &Inst) -> Result<(), AllocError>
    requires { group_of inst.now ≡ Sequence }
    ensures { Tells V.told V.refusals visitor.old visitor.new (roles_of inst.now) result }
{
    sequence_roles!(visitor, inst)
}
