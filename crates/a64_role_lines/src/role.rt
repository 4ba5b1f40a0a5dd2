//! The words of roles.

ghost use Rattle.std.specs.Prelude.{◌≡◌, ◌++◌, codes, OnOk};
ghost use Rattle.std.specs.Fmt.{decimal};
ghost use Rattle.std.specs.List.{flat_map};
ghost use Rattle.std.specs.String.{string_bytes};
ghost use Rattle.a64_read.specs.Clobbers.{clobbers_text};
ghost use Rattle.a64_tokens.specs.Fields.{preg_text, reg_text};
ghost use Rattle.a64_role_lines.specs.RoleLines.{role_text};
ghost use Rattle.a64_role_lines.specs.Words.{behind};

use crate::register::{push_clobbers, push_preg, push_reg};
use a64_base::{PReg, PRegSet, Reg, push_numbered};
use a64_roles::Role;
use std::alloc::AllocError;

/// Appends a name with its parenthesis, and a register: `use(x5)`.
fn push_one(out: &mut String, name: &str, reg: Reg) -> Result<(), AllocError>
    ensures { OnOk result (string_bytes out.new
        ≡ string_bytes out.old ++ (name.now ++ reg_text reg ++ codes ")")) }
{
    out.push_str(name)?;
    push_reg(out, reg)?;
    out.push_str(")")
}

/// Appends a name with its parenthesis, a register, and the one that it stands in:
/// `fixed_use(x5,x0)`.
fn push_fixed(out: &mut String, name: &str, reg: Reg, preg: Reg) -> Result<(), AllocError>
    ensures { OnOk result (string_bytes out.new ≡ string_bytes out.old
        ++ (name.now ++ reg_text reg ++ codes "," ++ reg_text preg ++ codes ")")) }
{
    out.push_str(name)?;
    push_reg(out, reg)?;
    out.push_str(",")?;
    push_reg(out, preg)?;
    out.push_str(")")
}

/// Appends a register that is the one of an operand: `reuse(x5,1)`.
fn push_reuse(out: &mut String, reg: Reg, index: usize) -> Result<(), AllocError>
    ensures { OnOk result (string_bytes out.new ≡ string_bytes out.old
        ++ (codes "reuse(" ++ reg_text reg ++ codes "," ++ decimal index ++ codes ")")) }
{
    out.push_str("reuse(")?;
    push_reg(out, reg)?;
    push_numbered(out, ",", index)?;
    out.push_str(")")
}

/// Appends a register that is never given out: `fixed(x18)`.
fn push_nonallocatable(out: &mut String, preg: PReg) -> Result<(), AllocError>
    ensures { OnOk result (string_bytes out.new
        ≡ string_bytes out.old ++ (codes "fixed(" ++ preg_text preg ++ codes ")")) }
{
    out.push_str("fixed(")?;
    push_preg(out, preg)?;
    out.push_str(")")
}

/// Appends the registers that may change: `clobbers(x0,v1)`.
fn push_changed(out: &mut String, set: &PRegSet) -> Result<(), AllocError>
    ensures { OnOk result (string_bytes out.new
        ≡ string_bytes out.old ++ (codes "clobbers(" ++ clobbers_text set.now ++ codes ")")) }
{
    out.push_str("clobbers(")?;
    push_clobbers(out, set)?;
    out.push_str(")")
}

/// Appends a role.
fn push_role(out: &mut String, role: Role) -> Result<(), AllocError>
    ensures { OnOk result (string_bytes out.new ≡ string_bytes out.old ++ role_text role) }
{
    match role {
        Role::RegUse(reg) => push_one(out, "use(", reg),
        Role::RegDef(reg) => push_one(out, "def(", reg),
        Role::RegEarlyDef(reg) => push_one(out, "early(", reg),
        Role::AnyDef(reg) => push_one(out, "any(", reg),
        Role::RegReuseDef(reg, index) => push_reuse(out, reg, index),
        Role::RegFixedUse(reg, preg) => push_fixed(out, "fixed_use(", reg, preg),
        Role::RegFixedDef(reg, preg) => push_fixed(out, "fixed_def(", reg, preg),
        Role::RegFixedNonallocatable(preg) => push_nonallocatable(out, preg),
        Role::RegClobbers(set) => push_changed(out, &set),
    }
}

/// Appends a role behind another word.
fn push_behind(out: &mut String, role: Role) -> Result<(), AllocError>
    ensures { OnOk result
        (string_bytes out.new ≡ string_bytes out.old ++ behind (role_text role)) }
{
    out.push_str(" ")?;
    push_role(out, role)
}

/// Appends roles, each behind another word.
///
/// # Errors
///
/// Want of memory.
pub fn push_roles(out: &mut String, roles: &[Role]) -> Result<(), AllocError>
    ensures { OnOk result (string_bytes out.new
        ≡ string_bytes out.old ++ flat_map (λ role. behind (role_text role)) roles.now) }
{
    for role in roles {
        push_behind(out, *role)?;
    }
    Ok(())
}
