//! A visitor that refuses, and what queries give.

ghost use Rattle.std.specs.Prelude.{ℕ, ◌≡◌, ◌≤◌, ◌<◌, ◌⊎◌, ◌^◌, ◌-◌, List, [], ◌∷◌, ◌++◌, OnOk, OnErr};
ghost use Rattle.a64_role.specs.declared.role.Role.TheVariants as role;
ghost use Rattle.a64_role.specs.Visits.{HasRefused};

use a64_base::{IrType, OperandSize, PReg, PRegSet, Reg, RegClass, writable_xreg, xreg};
use a64_imms::MoveWideConst;
use a64_inst::Inst;
use a64_roles::{MachInst, OperandVisitor, Role, RoleList};
use std::alloc::{AllocError, Global};
use std::test::Fail;

/// A visitor that takes so many roles, and refuses the others.
#[derive(Drop)]
struct Refusing {
    /// Those that it took.
    taken: Vec<Role>,
    /// How many it takes.
    at_most: usize,
    /// How many it refused.
    refusals: u64,
}

impl Refusing {
    /// Takes a role, or refuses it.
    fn take(&mut self, role: Role) -> Result<(), AllocError>
        ensures ok { OnOk result (self.new.taken.items ≡ self.old.taken.items ++ role ∷ []) }
        ensures err { OnErr result (self.new.taken.items ≡ self.old.taken.items) }
        ensures rises { self.old.refusals ≤ self.new.refusals }
        ensures cause { OnErr result (HasRefused self.old.refusals self.new.refusals) }
    {
        if self.taken.len() < self.at_most && self.taken.extend_from_slice(&[role]).is_ok() {
            return Ok(());
        }
        self.refusals = self.refusals.saturating_add(1);
        Err(AllocError)
    }
}

impl OperandVisitor for Refusing {
    ghost told = { λ v. v.taken.items };

    ghost refusals = { λ v. v.refusals };

    fn reg_use(&mut self, reg: Reg) -> Result<(), AllocError> {
        self.take(Role::RegUse(reg))
    }

    fn reg_def(&mut self, reg: Reg) -> Result<(), AllocError> {
        self.take(Role::RegDef(reg))
    }

    fn reg_early_def(&mut self, reg: Reg) -> Result<(), AllocError> {
        self.take(Role::RegEarlyDef(reg))
    }

    fn any_def(&mut self, reg: Reg) -> Result<(), AllocError> {
        self.take(Role::AnyDef(reg))
    }

    fn reg_reuse_def(&mut self, reg: Reg, index: usize) -> Result<(), AllocError> {
        self.take(Role::RegReuseDef(reg, index))
    }

    fn reg_fixed_use(&mut self, reg: Reg, preg: Reg) -> Result<(), AllocError> {
        self.take(Role::RegFixedUse(reg, preg))
    }

    fn reg_fixed_def(&mut self, reg: Reg, preg: Reg) -> Result<(), AllocError> {
        self.take(Role::RegFixedDef(reg, preg))
    }

    fn reg_fixed_nonallocatable(&mut self, preg: PReg) -> Result<(), AllocError> {
        self.take(Role::RegFixedNonallocatable(preg))
    }

    fn reg_clobbers(&mut self, set: PRegSet) -> Result<(), AllocError> {
        self.take(Role::RegClobbers(set))
    }
}

/// An instruction with two roles.
fn two_roles() -> Inst {
    Inst::MovK {
        rd: writable_xreg(1),
        rn: xreg(1),
        imm: MoveWideConst { bits: 7, shift: 2 },
        size: OperandSize::Size64,
    }
}

/// How many of the two roles a visitor has that takes so many, and whether it was told all.
fn told(alloc: Global, at_most: usize) -> (usize, bool) {
    let mut visitor = Refusing {
        taken: Vec::new(alloc),
        at_most,
        refusals: 0,
    };
    let all = two_roles().get_operands(&mut visitor).is_ok();
    (visitor.taken.len(), all)
}

#[test]
fn a_refusal_leaves_the_roles_before_it(rt: HostRuntime) -> Result<(), Fail> {
    assert_eq!(rt; told(rt.alloc(), 0), (0, false));
    assert_eq!(rt; told(rt.alloc(), 1), (1, false));
    assert_eq!(rt; told(rt.alloc(), 2), (2, true));
    Ok(())
}

#[test]
fn a_list_keeps_roles_and_forgets_them(rt: HostRuntime) -> Result<(), Fail> {
    let mut list = RoleList::new(rt.alloc());
    two_roles().get_operands(&mut list)?;
    assert!(rt; matches!(list.roles(), [Role::RegUse(_), Role::RegReuseDef(_, 0)]));
    list.clear();
    assert_eq!(rt; list.roles().len(), 0);
    Ok(())
}

/// The bytes of an instruction that traps.
fn trap_opcode() -> &'static [u8]
    ensures { result.now ≡ 31 ∷ 193 ∷ 0 ∷ 0 ∷ [] }
{
    Inst::TRAP_OPCODE
}

#[test]
fn types_have_registers(rt: HostRuntime) -> Result<(), Fail> {
    assert!(rt; Inst::rc_for_type(&IrType::I8X32).is_err());
    assert!(rt;
        matches!(
            Inst::rc_for_type(&IrType::I16X4),
            Ok(([RegClass::Float], [IrType::I8X8]))
        )
    );
    assert_eq!(rt; trap_opcode(), [0x1f, 0xc1, 0x00, 0x00].as_slice());
    let units = Inst::gen_nop_units(rt.alloc())?;
    assert_eq!(rt; units.len(), 1);
    assert_eq!(rt; units[0].as_slice(), [0x1f, 0x20, 0x03, 0xd5].as_slice());
    Ok(())
}
