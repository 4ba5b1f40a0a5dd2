//! Roles that are told to a visitor one after the other.

ghost use Rattle.std.specs.Prelude.{◌≡◌, ◌++◌, map};
ghost use Rattle.a64_role.specs.declared.role.Role.{Role};
ghost use Rattle.a64_role.specs.Lists as lists;
ghost use Rattle.a64_role.specs.Lists.{call_roles, mode_roles, pair_mode_roles, return_call_roles};
ghost use Rattle.a64_role.specs.Visits.{Tells, TellsOne};

use crate::role::Role;
use crate::visitor::OperandVisitor;
use a64_base::PRegSet;
use a64_inst::{AMode, ArgPair, CallArgPair, CallRetPair, PairAMode, RetLocation, RetPair};
use std::alloc::AllocError;

/// What has one role.
pub trait HasRole {
    /// The role.
    ghost role: { Self → Role };

    /// The role.
    fn role(&self) -> Role
        ensures { result ≡ role self.now };
}

impl HasRole for ArgPair {
    ghost role = { lists.arg_role };

    fn role(&self) -> Role {
        Role::RegFixedDef(self.vreg.to_reg(), self.preg)
    }
}

impl HasRole for RetPair {
    ghost role = { lists.ret_role };

    fn role(&self) -> Role {
        Role::RegFixedUse(self.vreg, self.preg)
    }
}

impl HasRole for CallArgPair {
    ghost role = { lists.call_arg_role };

    fn role(&self) -> Role {
        Role::RegFixedUse(self.vreg, self.preg)
    }
}

impl HasRole for CallRetPair {
    ghost role = { lists.call_ret_role };

    fn role(&self) -> Role {
        match self.location {
            RetLocation::Reg(preg, _) => Role::RegFixedDef(self.vreg.to_reg(), preg),
            RetLocation::Stack(_, _) => Role::AnyDef(self.vreg.to_reg()),
        }
    }
}

/// Tells a visitor one role.
fn hand_one<V: OperandVisitor>(visitor: &mut V, role: Role) -> Result<(), AllocError>
    ensures { TellsOne V.told V.refusals visitor.old visitor.new role result }
{
    match role {
        Role::RegUse(reg) => visitor.reg_use(reg),
        Role::RegDef(reg) => visitor.reg_def(reg),
        Role::RegEarlyDef(reg) => visitor.reg_early_def(reg),
        Role::AnyDef(reg) => visitor.any_def(reg),
        Role::RegReuseDef(reg, index) => visitor.reg_reuse_def(reg, index),
        Role::RegFixedUse(reg, preg) => visitor.reg_fixed_use(reg, preg),
        Role::RegFixedDef(reg, preg) => visitor.reg_fixed_def(reg, preg),
        Role::RegFixedNonallocatable(preg) => visitor.reg_fixed_nonallocatable(preg),
        Role::RegClobbers(set) => visitor.reg_clobbers(set),
    }
}

/// Tells a visitor these roles, in their order.
///
/// # Errors
///
/// The visitor refused one; it was told those before.
pub fn hand<V: OperandVisitor>(visitor: &mut V, roles: &[Role]) -> Result<(), AllocError>
    ensures { Tells V.told V.refusals visitor.old visitor.new roles.now result }
{
    for role in roles {
        hand_one(visitor, *role)?;
    }
    Ok(())
}

/// Tells a visitor the role of each of these, in their order.
///
/// # Errors
///
/// The visitor refused one; it was told those before.
#[tactic(auto, using(crate::proofs::Parts::each_more, crate::proofs::Parts::each_all, crate::proofs::Parts::each_part))]
pub fn hand_each<V: OperandVisitor, P: HasRole>(
    visitor: &mut V,
    pairs: &[P],
) -> Result<(), AllocError>
    ensures { Tells V.told V.refusals visitor.old visitor.new (map P.role pairs.now) result }
{
    for pair in pairs {
        hand_one(visitor, pair.role())?;
    }
    Ok(())
}

/// Tells a visitor some roles, and then some more.
///
/// # Errors
///
/// The visitor refused one; it was told those before.
#[tactic(auto, using(crate::proofs::Parts::then_part, crate::proofs::Parts::part_then))]
fn hand_two<V: OperandVisitor>(
    visitor: &mut V,
    first: &[Role],
    last: &[Role],
) -> Result<(), AllocError>
    ensures { Tells V.told V.refusals visitor.old visitor.new (first.now ++ last.now) result }
{
    hand(visitor, first)?;
    hand(visitor, last)
}

/// Tells a visitor some roles, and then those of an addressing mode.
///
/// # Errors
///
/// The visitor refused one; it was told those before.
pub fn hand_mode<V: OperandVisitor>(
    visitor: &mut V,
    first: &[Role],
    mode: &AMode,
) -> Result<(), AllocError>
    ensures { Tells V.told V.refusals visitor.old visitor.new
        (first.now ++ mode_roles mode.now) result }
{
    match mode {
        AMode::RegReg { rn, rm }
        | AMode::RegScaled { rn, rm }
        | AMode::RegScaledExtended { rn, rm, .. }
        | AMode::RegExtended { rn, rm, .. } => {
            hand_two(visitor, first, &[Role::RegUse(*rn), Role::RegUse(*rm)])
        }
        AMode::Unscaled { rn, .. }
        | AMode::UnsignedOffset { rn, .. }
        | AMode::RegOffset { rn, .. } => hand_two(visitor, first, &[Role::RegUse(*rn)]),
        AMode::Label { .. }
        | AMode::SPPreIndexed { .. }
        | AMode::SPPostIndexed { .. }
        | AMode::FPOffset { .. }
        | AMode::SPOffset { .. }
        | AMode::IncomingArg { .. }
        | AMode::SlotOffset { .. }
        | AMode::Const { .. } => hand_two(visitor, first, &[]),
    }
}

/// Tells a visitor some roles, and then those of the addressing mode of a pair.
///
/// # Errors
///
/// The visitor refused one; it was told those before.
pub fn hand_pair_mode<V: OperandVisitor>(
    visitor: &mut V,
    first: &[Role],
    mode: &PairAMode,
) -> Result<(), AllocError>
    ensures { Tells V.told V.refusals visitor.old visitor.new
        (first.now ++ pair_mode_roles mode.now) result }
{
    match mode {
        PairAMode::SignedOffset { reg, .. } => hand_two(visitor, first, &[Role::RegUse(*reg)]),
        PairAMode::SPPreIndexed { .. } | PairAMode::SPPostIndexed { .. } => {
            hand_two(visitor, first, &[])
        }
    }
}

/// Tells a visitor the roles of a call: some, those of what is passed and of what comes back, and what is
/// changed beside.
///
/// # Errors
///
/// The visitor refused one; it was told those before.
#[tactic(auto, using(crate::proofs::Parts::then_part, crate::proofs::Parts::part_then))]
pub fn hand_call<V: OperandVisitor>(
    visitor: &mut V,
    first: &[Role],
    uses: &[CallArgPair],
    defs: &[CallRetPair],
    clobbers: PRegSet,
) -> Result<(), AllocError>
    ensures { Tells V.told V.refusals visitor.old visitor.new
        (first.now ++ call_roles uses.now defs.now clobbers) result }
{
    hand(visitor, first)?;
    hand_each(visitor, uses)?;
    hand_each(visitor, defs)?;
    hand(visitor, &[Role::RegClobbers(clobbers)])
}

/// Tells a visitor the roles of a return that calls: some, and those of what is passed.
///
/// # Errors
///
/// The visitor refused one; it was told those before.
#[tactic(auto, using(crate::proofs::Parts::then_part, crate::proofs::Parts::part_then))]
pub fn hand_return_call<V: OperandVisitor>(
    visitor: &mut V,
    first: &[Role],
    uses: &[CallArgPair],
) -> Result<(), AllocError>
    ensures { Tells V.told V.refusals visitor.old visitor.new
        (first.now ++ return_call_roles uses.now) result }
{
    hand(visitor, first)?;
    hand_each(visitor, uses)
}
