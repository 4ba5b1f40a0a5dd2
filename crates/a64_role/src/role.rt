//! What an instruction does with a register.

ghost use Rattle.std.specs.Prelude.{◌≡◌};
ghost use Rattle.a64_role.specs.Lists as lists;

use a64_base::{PReg, PRegSet, Reg};

/// One call of an [`OperandVisitor`](crate::OperandVisitor), as data.
#[derive(Clone, Copy, Debug)]
pub enum Role {
    /// The instruction reads a register.
    RegUse(Reg),
    /// It writes a register, behind all that it reads.
    RegDef(Reg),
    /// It writes a register, perhaps before it has read the others.
    RegEarlyDef(Reg),
    /// It writes a register, or a place of the stack that stands for it.
    AnyDef(Reg),
    /// It writes a register that is the one of an operand: of that with this index among the instruction's roles.
    RegReuseDef(Reg, usize),
    /// It reads a register, in the second one.
    RegFixedUse(Reg, Reg),
    /// It writes a register, in the second one.
    RegFixedDef(Reg, Reg),
    /// It names a register that is never given out.
    RegFixedNonallocatable(PReg),
    /// It may change any of these.
    RegClobbers(PRegSet),
}

/// The role of a register that is written: the register of the operand behind it, or any.
pub fn result_role(tied: bool, reg: Reg) -> Role
    ensures { result ≡ lists.result_role tied reg }
{
    if tied {
        Role::RegReuseDef(reg, 1)
    } else {
        Role::RegDef(reg)
    }
}
