//! The roles of instructions that are one plain word.

ghost use Rattle.std.specs.Prelude.{◌≡◌};
ghost use Rattle.a64_inst.specs.declared.group.Group.TheVariants.{Plain};
ghost use Rattle.a64_inst.specs.declared.group.PlainGroup.TheVariants.{Float, Immediate, Register, System, Vector, VectorMove};
ghost use Rattle.a64_inst.specs.Groups.{group_of};
ghost use Rattle.a64_roles.specs.OwnRoles as own;
ghost use Rattle.a64_roles.specs.Roles.{roles_of};
ghost use Rattle.a64_role.specs.Visits.{Tells};

use crate::{
    float_roles, immediate_roles, register_roles, system_roles, tied_mark, vector_move_roles,
    vector_roles,
};
use a64_base::vreg;
use a64_inst::{
    Inst, PlainGroup, float_list, immediate_list, register_list, system_list, vector_list,
    vector_move_list,
};
use a64_role::Role::{RegDef, RegFixedNonallocatable, RegFixedUse, RegReuseDef, RegUse};
use a64_role::{OperandVisitor, hand, result_role};
use std::alloc::AllocError;

/// The roles of the fields, which are registers that are written or read, or are no registers.
macro_rules! hand_fields {
    ($visitor:expr, $tied:expr; [$($role:expr,)*];) => {
        hand($visitor, &[$($role),*])
    };
    ($visitor:expr, $tied:expr; [$($role:expr,)*]; $field:ident Def $class:tt, $($more:tt)*) => {
        hand_fields!($visitor, $tied; [$($role,)* result_role($tied, $field.to_reg()),]; $($more)*)
    };
    ($visitor:expr, $tied:expr; [$($role:expr,)*]; $field:ident Use $class:tt, $($more:tt)*) => {
        hand_fields!($visitor, $tied; [$($role,)* RegUse(*$field),]; $($more)*)
    };
    ($visitor:expr, $tied:expr; [$($role:expr,)*]; $field:ident Is PReg, $($more:tt)*) => {
        hand_fields!($visitor, $tied; [$($role,)* RegFixedNonallocatable(*$field),]; $($more)*)
    };
    ($visitor:expr, $tied:expr; [$($role:expr,)*]; $field:ident Is $kind:tt, $($more:tt)*) => {
        hand_fields!($visitor, $tied; [$($role,)*]; $($more)*)
    };
}

/// The roles of an instruction of a list, in the order of its fields.
macro_rules! role_arms {
    ($visitor:ident, $inst:expr; $($name:ident { $($field:ident: $way:ident $what:tt),* } if $rest:expr;)+) => {
        match $inst {
            $(Inst::$name { $($field),* } => {
                hand_fields!($visitor, is_tied($inst); []; $($field $way $what,)*)
            })+
            _ => unreachable!(),
        }
    };
}

/// Whether the result is the register of the operand that is read behind it.
fn is_tied(inst: &Inst) -> bool
    ensures { result ≡ own.is_tied inst.now }
{
    tied_mark!(inst)
}

/// Tells a visitor the roles of an integer operation with an immediate.
///
/// # Errors
///
/// The visitor refused one; it was told those before.
fn hand_immediate<V: OperandVisitor>(visitor: &mut V, inst: &Inst) -> Result<(), AllocError>
    requires { group_of inst.now ≡ Plain Immediate }
    ensures { Tells V.told V.refusals visitor.old visitor.new (roles_of inst.now) result }
{
    immediate_roles!(visitor, inst)
}

/// Tells a visitor the roles of an integer operation on registers.
///
/// # Errors
///
/// The visitor refused one; it was told those before.
fn hand_register<V: OperandVisitor>(visitor: &mut V, inst: &Inst) -> Result<(), AllocError>
    requires { group_of inst.now ≡ Plain Register }
    ensures { Tells V.told V.refusals visitor.old visitor.new (roles_of inst.now) result }
{
    register_roles!(visitor, inst)
}

/// Tells a visitor the roles of an operation on scalar floats.
///
/// # Errors
///
/// The visitor refused one; it was told those before.
fn hand_float<V: OperandVisitor>(visitor: &mut V, inst: &Inst) -> Result<(), AllocError>
    requires { group_of inst.now ≡ Plain Float }
    ensures { Tells V.told V.refusals visitor.old visitor.new (roles_of inst.now) result }
{
    float_roles!(visitor, inst)
}

/// Tells a visitor the roles of an operation on vectors.
///
/// # Errors
///
/// The visitor refused one; it was told those before.
fn hand_vector<V: OperandVisitor>(visitor: &mut V, inst: &Inst) -> Result<(), AllocError>
    requires { group_of inst.now ≡ Plain Vector }
    ensures { Tells V.told V.refusals visitor.old visitor.new (roles_of inst.now) result }
{
    vector_roles!(visitor, inst)
}

/// Tells a visitor the roles of a move of lanes or a table of bytes.
///
/// # Errors
///
/// The visitor refused one; it was told those before.
fn hand_vector_move<V: OperandVisitor>(visitor: &mut V, inst: &Inst) -> Result<(), AllocError>
    requires { group_of inst.now ≡ Plain VectorMove }
    ensures { Tells V.told V.refusals visitor.old visitor.new (roles_of inst.now) result }
{
    vector_move_roles!(visitor, inst)
}

/// Tells a visitor the roles of a hint or a barrier.
///
/// # Errors
///
/// The visitor refused one; it was told those before.
fn hand_system<V: OperandVisitor>(visitor: &mut V, inst: &Inst) -> Result<(), AllocError>
    requires { group_of inst.now ≡ Plain System }
    ensures { Tells V.told V.refusals visitor.old visitor.new (roles_of inst.now) result }
{
    system_roles!(visitor, inst)
}

/// Tells a visitor the roles of an instruction that is one plain word.
///
/// # Errors
///
/// The visitor refused one; it was told those before.
pub fn hand_plain<V: OperandVisitor>(
    visitor: &mut V,
    inst: &Inst,
    group: PlainGroup,
) -> Result<(), AllocError>
    requires { group_of inst.now ≡ Plain group }
    ensures { Tells V.told V.refusals visitor.old visitor.new (roles_of inst.now) result }
{
    match group {
        PlainGroup::Immediate => hand_immediate(visitor, inst),
        PlainGroup::Register => hand_register(visitor, inst),
        PlainGroup::Float => hand_float(visitor, inst),
        PlainGroup::Vector => hand_vector(visitor, inst),
        PlainGroup::VectorMove => hand_vector_move(visitor, inst),
        PlainGroup::System => hand_system(visitor, inst),
    }
}
