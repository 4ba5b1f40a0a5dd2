//! The addressing modes that stand in instructions, for those with an offset that no instruction holds.
#![tactic(auto)]

mod finalize;
mod placed;

pub use finalize::mem_finalize;
pub use placed::{final_mode, final_steps, shown_mode};
