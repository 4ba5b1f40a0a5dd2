//! Which items read and write each register, by the roles of their operands.

use crate::register::Register;
use a64_base::{PRegSet, Reg, RegKind};
use a64_inst::Item;
use a64_roles::{MachInst, Role, RoleList};
use std::alloc::{AllocError, Global};
use std::collections::{BTreeMap, BTreeSet};

/// The items that read or write a register.
#[derive(Drop)]
pub struct Mentions {
    /// The register, as operands name it.
    reg: Reg,
    /// The numbers of the items that read it.
    pub reads: Vec<usize>,
    /// The numbers of the items that write it.
    pub writes: BTreeSet<usize>,
}

impl Mentions {
    /// No items yet.
    fn new(alloc: Global, reg: Reg) -> Mentions {
        Mentions {
            reg,
            reads: Vec::new(alloc),
            writes: BTreeSet::new(alloc),
        }
    }

    /// Counts among the items that write the register those that change it beside what their roles name.
    fn add_changes(&mut self, changes: &[PRegSet]) -> Result<(), AllocError> {
        if self.reg.is_virtual() {
            return Ok(());
        }
        for (item, changed) in changes.iter().enumerate() {
            if is_in(changed, self.reg) {
                self.writes.insert(item)?;
            }
        }
        Ok(())
    }
}

/// The registers that items read or define, each with these items.
#[derive(Drop)]
pub struct Registers {
    alloc: Global,
    /// The registers, in their order.
    pub mentions: BTreeMap<Register, Mentions>,
    /// For each item the registers that it changes beside those that its roles name by themselves.
    changes: Vec<PRegSet>,
}

/// Whether a register is one of a set.
fn is_in(set: &PRegSet, reg: Reg) -> bool {
    match reg.kind() {
        RegKind::Real(real) => set.contains(real),
        RegKind::Virtual { .. } => false,
    }
}

/// Puts a register into a set, where it is one of the machine.
fn add_real(set: &mut PRegSet, reg: Reg) {
    if let RegKind::Real(real) = reg.kind() {
        set.add(real);
    }
}

impl Registers {
    /// The registers of a file.
    ///
    /// # Errors
    ///
    /// Want of memory.
    pub fn of_items(alloc: Global, items: &[Item]) -> Result<Registers, AllocError> {
        let mut registers = Registers {
            alloc,
            mentions: BTreeMap::new(alloc),
            changes: Vec::new(alloc),
        };
        let mut roles = RoleList::new(alloc);
        for (number, item) in items.iter().enumerate() {
            roles.clear();
            if let Item::Emit { inst, .. } = item {
                inst.get_operands(&mut roles)?;
            }
            registers.take_item(number, roles.roles())?;
        }
        registers.add_changes()?;
        Ok(registers)
    }

    /// Takes the roles of the item behind those before it.
    fn take_item(&mut self, item: usize, roles: &[Role]) -> Result<(), AllocError> {
        let mut changed = PRegSet::empty();
        for role in roles {
            self.take_role(item, *role, &mut changed)?;
        }
        self.changes.push(changed)?;
        Ok(())
    }

    /// Takes one role of an item, and puts what the item changes beside into the set.
    fn take_role(
        &mut self,
        item: usize,
        role: Role,
        changed: &mut PRegSet,
    ) -> Result<(), AllocError> {
        match role {
            Role::RegUse(reg) => self.read(item, reg),
            Role::RegDef(reg)
            | Role::RegEarlyDef(reg)
            | Role::AnyDef(reg)
            | Role::RegReuseDef(reg, _) => self.write(item, reg),
            Role::RegFixedUse(reg, place) => {
                add_real(changed, place);
                self.read(item, reg)
            }
            Role::RegFixedDef(reg, place) => {
                add_real(changed, place);
                self.write(item, reg)
            }
            Role::RegClobbers(set) => {
                changed.union_from(set);
                Ok(())
            }
            Role::RegFixedNonallocatable(_) => Ok(()),
        }
    }

    /// Counts an item among those that read a register.
    fn read(&mut self, item: usize, reg: Reg) -> Result<(), AllocError> {
        if let Some(register) = Register::of(reg) {
            let none = Mentions::new(self.alloc, reg);
            let mentions = self.mentions.entry(register)?.or_insert(none);
            mentions.reads.push(item)?;
        }
        Ok(())
    }

    /// Counts an item among those that write a register.
    fn write(&mut self, item: usize, reg: Reg) -> Result<(), AllocError> {
        if let Some(register) = Register::of(reg) {
            let none = Mentions::new(self.alloc, reg);
            let mentions = self.mentions.entry(register)?.or_insert(none);
            mentions.writes.insert(item)?;
        }
        Ok(())
    }

    /// Counts what the items change beside among what they write.
    fn add_changes(&mut self) -> Result<(), AllocError> {
        for mentions in self.mentions.values_mut() {
            mentions.add_changes(&self.changes)?;
        }
        Ok(())
    }
}
