//! Which items may be executed behind which.

use crate::fault::Fault;
use a64_base::{BranchTarget, MachLabel};
use a64_inst::{Inst, Item};
use a64_roles::{MachInst, MachTerminator};
use std::alloc::Global;
use std::collections::BTreeMap;

/// A step from an item to one that may be executed next. Steps are ordered by where they lead.
#[derive(Clone, Copy, Debug, PartialEq, Eq, PartialOrd, Ord)]
pub struct Step {
    /// The number of the item to which it leads.
    pub to: usize,
    /// The number of the item from which it leads.
    pub from: usize,
}

/// The steps between the items of a file.
#[derive(Drop)]
pub struct Flow {
    /// How many items there are.
    pub items: usize,
    /// The number of the item that binds each label.
    labels: BTreeMap<u32, usize>,
    /// The steps: in order, and each once, although a branch may name a label more than once.
    steps: Vec<Step>,
}

/// The number of the item that binds each label.
fn labels_of(alloc: Global, items: &[Item]) -> Result<BTreeMap<u32, usize>, Fault> {
    let mut labels = BTreeMap::new(alloc);
    for (number, item) in items.iter().enumerate() {
        if let Item::Bind(label) = item
            && labels.insert(label.0, number)?.is_some()
        {
            return Err(Fault::BoundTwice(label.0));
        }
    }
    Ok(labels)
}

/// Whether execution goes on with the next item.
fn falls(item: &Item) -> bool {
    match item {
        Item::Bind(_) => true,
        Item::Emit { inst, .. } => match inst {
            Inst::Ret | Inst::AuthenticatedRet { .. } => false,
            other => other.is_term() == MachTerminator::None && !other.is_trap(),
        },
    }
}

impl Flow {
    /// The steps between items.
    ///
    /// # Errors
    ///
    /// A label that is bound twice, or not at all where a branch names it; a branch by bytes; want of memory.
    pub fn of_items(alloc: Global, items: &[Item]) -> Result<Flow, Fault> {
        let mut flow = Flow {
            items: items.len(),
            labels: labels_of(alloc, items)?,
            steps: Vec::new(alloc),
        };
        for (number, item) in items.iter().enumerate() {
            if falls(item) {
                let to = number + 1;
                flow.steps.push(Step { to, from: number })?;
            }
            if let Item::Emit { inst, .. } = item {
                flow.add_branches(number, inst)?;
            }
        }
        flow.steps.sort_unstable();
        flow.steps.dedup();
        Ok(flow)
    }

    /// The steps that lead to an item.
    pub fn steps_to(&self, item: usize) -> &[Step] {
        let first = self.steps.partition_point(|step| step.to < item);
        let rest = &self.steps[first..];
        let count = rest.partition_point(|step| step.to == item);
        &rest[..count]
    }

    /// Adds the steps from a branch to the labels that it names.
    fn add_branches(&mut self, from: usize, inst: &Inst) -> Result<(), Fault> {
        match inst {
            Inst::Jump { dest } => self.add_target(from, *dest),
            Inst::CondBr {
                taken,
                not_taken,
                ..
            }
            | Inst::TestBitAndBranch {
                taken,
                not_taken,
                ..
            } => {
                self.add_target(from, *taken)?;
                self.add_target(from, *not_taken)
            }
            Inst::IndirectBr { targets, .. } => self.add_labels(from, targets.as_slice()),
            Inst::JTSequence {
                default,
                targets,
                ..
            } => {
                self.add_label(from, *default)?;
                self.add_labels(from, targets.as_slice())
            }
            _ => Ok(()),
        }
    }

    /// Adds the step from a branch to where it goes.
    fn add_target(&mut self, from: usize, target: BranchTarget) -> Result<(), Fault> {
        match target {
            BranchTarget::Label(label) => self.add_label(from, label),
            BranchTarget::ResolvedOffset(_) => Err(Fault::ByBytes(from)),
        }
    }

    /// Adds a step to each of these labels.
    fn add_labels(&mut self, from: usize, labels: &[MachLabel]) -> Result<(), Fault> {
        for label in labels {
            self.add_label(from, *label)?;
        }
        Ok(())
    }

    /// Adds the step to a label.
    fn add_label(&mut self, from: usize, label: MachLabel) -> Result<(), Fault> {
        let Some(to) = self.labels.get(&label.0).copied() else {
            return Err(Fault::NotBound(label.0));
        };
        self.steps.push(Step { to, from })?;
        Ok(())
    }
}
