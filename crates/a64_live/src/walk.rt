//! Before which items a register is live.

use crate::flow::Flow;
use crate::mentions::Mentions;
use std::alloc::{AllocError, Global};
use std::collections::BTreeSet;

/// The items that a walk has found.
#[derive(Drop)]
struct Found {
    /// Their numbers.
    items: BTreeSet<usize>,
    /// The same, each once, as they were found.
    in_turn: Vec<usize>,
}

impl Found {
    /// Adds an item, unless it was found before.
    fn add(&mut self, item: usize) -> Result<(), AllocError> {
        if self.items.insert(item)? {
            self.in_turn.push(item)?;
        }
        Ok(())
    }

    /// Adds the items that read the register.
    fn add_reads(&mut self, mentions: &Mentions) -> Result<(), AllocError> {
        for item in &mentions.reads {
            self.add(*item)?;
        }
        Ok(())
    }

    /// Adds the items that come just before one and do not write the register.
    fn add_before(
        &mut self,
        flow: &Flow,
        mentions: &Mentions,
        item: usize,
    ) -> Result<(), AllocError> {
        for step in flow.steps_to(item) {
            if !mentions.writes.contains(&step.from) {
                self.add(step.from)?;
            }
        }
        Ok(())
    }
}

/// The numbers of the items before which a register is live: those that read it, and each one that does not
/// write it and leads to one of them.
///
/// # Errors
///
/// Want of memory.
pub fn live_before(
    alloc: Global,
    flow: &Flow,
    mentions: &Mentions,
) -> Result<BTreeSet<usize>, AllocError> {
    let mut found = Found {
        items: BTreeSet::new(alloc),
        in_turn: Vec::new(alloc),
    };
    found.add_reads(mentions)?;
    // Each item is found at most once, so there are no more turns than items.
    for turn in 0..flow.items {
        let Some(item) = found.in_turn.get(turn).copied() else {
            break;
        };
        found.add_before(flow, mentions, item)?;
    }
    let Found { items, in_turn: _ } = found;
    Ok(items)
}
