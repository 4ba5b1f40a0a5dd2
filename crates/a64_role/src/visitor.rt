//! Visitors of roles.

ghost use Rattle.std.specs.Prelude.{ℕ, List};
ghost use Rattle.a64_role.specs.declared.role.Role.{Role};
ghost use Rattle.a64_role.specs.declared.role.Role.TheVariants as role;
ghost use Rattle.a64_role.specs.Visits.{TellsOne};

use a64_base::{PReg, PRegSet, Reg};
use std::alloc::AllocError;

/// What is told the roles of an instruction, one call a role (Cranelift's `OperandVisitor`).
pub trait OperandVisitor {
    /// The roles that it was told, the first first.
    ghost told: { Self → List Role };

    /// How many calls it has refused. The count never falls.
    ghost refusals: { Self → ℕ };

    /// The instruction reads a register.
    ///
    /// # Errors
    ///
    /// Want of memory; the role was not told.
    fn reg_use(&mut self, reg: Reg) -> Result<(), AllocError>
        ensures { TellsOne told refusals self.old self.new (role.RegUse reg) result };

    /// It writes a register.
    ///
    /// # Errors
    ///
    /// Want of memory; the role was not told.
    fn reg_def(&mut self, reg: Reg) -> Result<(), AllocError>
        ensures { TellsOne told refusals self.old self.new (role.RegDef reg) result };

    /// It writes a register before it has read all others.
    ///
    /// # Errors
    ///
    /// Want of memory; the role was not told.
    fn reg_early_def(&mut self, reg: Reg) -> Result<(), AllocError>
        ensures { TellsOne told refusals self.old self.new (role.RegEarlyDef reg) result };

    /// It writes a register, which may be a place on the stack.
    ///
    /// # Errors
    ///
    /// Want of memory; the role was not told.
    fn any_def(&mut self, reg: Reg) -> Result<(), AllocError>
        ensures { TellsOne told refusals self.old self.new (role.AnyDef reg) result };

    /// It writes a register, which is that of the role with this index: roles of the instruction are counted
    /// from 0, whatever they are.
    ///
    /// # Errors
    ///
    /// Want of memory; the role was not told.
    fn reg_reuse_def(&mut self, reg: Reg, index: usize) -> Result<(), AllocError>
        ensures { TellsOne told refusals self.old self.new (role.RegReuseDef reg index) result };

    /// It reads a register, in the second one.
    ///
    /// # Errors
    ///
    /// Want of memory; the role was not told.
    fn reg_fixed_use(&mut self, reg: Reg, preg: Reg) -> Result<(), AllocError>
        ensures { TellsOne told refusals self.old self.new (role.RegFixedUse reg preg) result };

    /// It writes a register, in the second one.
    ///
    /// # Errors
    ///
    /// Want of memory; the role was not told.
    fn reg_fixed_def(&mut self, reg: Reg, preg: Reg) -> Result<(), AllocError>
        ensures { TellsOne told refusals self.old self.new (role.RegFixedDef reg preg) result };

    /// It names a register that is never given out.
    ///
    /// # Errors
    ///
    /// Want of memory; the role was not told.
    fn reg_fixed_nonallocatable(&mut self, preg: PReg) -> Result<(), AllocError>
        ensures { TellsOne told refusals self.old self.new
            (role.RegFixedNonallocatable preg) result };

    /// It may change any of these.
    ///
    /// # Errors
    ///
    /// Want of memory; the role was not told.
    fn reg_clobbers(&mut self, set: PRegSet) -> Result<(), AllocError>
        ensures { TellsOne told refusals self.old self.new (role.RegClobbers set) result };
}
