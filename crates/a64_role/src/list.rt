//! A list of roles.

ghost use Rattle.std.specs.Prelude.{◌≡◌, [], ◌∷◌, ◌++◌, ◌≤◌, OnOk, OnErr};
ghost use Rattle.a64_role.specs.Visits.{HasRefused};

use crate::role::Role;
use crate::visitor::OperandVisitor;
use a64_base::{PReg, PRegSet, Reg};
use std::alloc::{AllocError, Global};

/// A visitor that keeps the roles.
#[derive(Drop)]
pub struct RoleList {
    /// The roles, in the order in which they came.
    roles: Vec<Role>,
    /// How many roles were not kept, for want of memory: that many, or the greatest number of 64 bits.
    refusals: u64,
}

impl RoleList {
    /// No roles yet.
    pub fn new(alloc: Global) -> RoleList
        ensures roles { result.roles.items ≡ [] }
        ensures refusals { result.refusals ≡ 0 }
    {
        RoleList {
            roles: Vec::new(alloc),
            refusals: 0,
        }
    }

    /// The roles.
    pub fn roles(&self) -> &[Role]
        ensures { result.now ≡ self.now.roles.items }
    {
        self.roles.as_slice()
    }

    /// Forgets the roles. Their memory stays for others.
    pub fn clear(&mut self)
        ensures roles { self.new.roles.items ≡ [] }
        ensures refusals { self.new.refusals ≡ self.old.refusals }
    {
        self.roles.clear();
    }

    /// Counts a refusal.
    fn refuse(&mut self)
        ensures roles { self.new.roles.items ≡ self.old.roles.items }
        ensures rises { self.old.refusals ≤ self.new.refusals }
        ensures cause { HasRefused self.old.refusals self.new.refusals }
    {
        self.refusals = self.refusals.saturating_add(1);
    }

    /// Keeps a role.
    ///
    /// # Errors
    ///
    /// Want of memory; the roles are as before, and the refusal is counted.
    fn keep(&mut self, role: Role) -> Result<(), AllocError>
        ensures ok { OnOk result (self.new.roles.items ≡ self.old.roles.items ++ role ∷ []) }
        ensures err { OnErr result (self.new.roles.items ≡ self.old.roles.items) }
        ensures rises { self.old.refusals ≤ self.new.refusals }
        ensures cause { OnErr result (HasRefused self.old.refusals self.new.refusals) }
    {
        let pushed = self.roles.extend_from_slice(&[role]);
        if pushed.is_err() {
            self.refuse();
        }
        pushed
    }
}

impl OperandVisitor for RoleList {
    ghost told = { λ l. l.roles.items };

    ghost refusals = { λ l. l.refusals };

    fn reg_use(&mut self, reg: Reg) -> Result<(), AllocError> {
        self.keep(Role::RegUse(reg))
    }

    fn reg_def(&mut self, reg: Reg) -> Result<(), AllocError> {
        self.keep(Role::RegDef(reg))
    }

    fn reg_early_def(&mut self, reg: Reg) -> Result<(), AllocError> {
        self.keep(Role::RegEarlyDef(reg))
    }

    fn any_def(&mut self, reg: Reg) -> Result<(), AllocError> {
        self.keep(Role::AnyDef(reg))
    }

    fn reg_reuse_def(&mut self, reg: Reg, index: usize) -> Result<(), AllocError> {
        self.keep(Role::RegReuseDef(reg, index))
    }

    fn reg_fixed_use(&mut self, reg: Reg, preg: Reg) -> Result<(), AllocError> {
        self.keep(Role::RegFixedUse(reg, preg))
    }

    fn reg_fixed_def(&mut self, reg: Reg, preg: Reg) -> Result<(), AllocError> {
        self.keep(Role::RegFixedDef(reg, preg))
    }

    fn reg_fixed_nonallocatable(&mut self, preg: PReg) -> Result<(), AllocError> {
        self.keep(Role::RegFixedNonallocatable(preg))
    }

    fn reg_clobbers(&mut self, set: PRegSet) -> Result<(), AllocError> {
        self.keep(Role::RegClobbers(set))
    }
}
