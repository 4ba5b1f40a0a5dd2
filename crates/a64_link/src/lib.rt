//! Links several units into one: each stands at a multiple of 16 bytes behind the one before it,
//! calls lead to the symbols that units define, and, where a branch might not reach that far,
//! through a thunk behind the unit that calls. [`link`] does it; what it gives, [`Linked`], is
//! stated whole in `specs/Linked.antt`, and what it refuses, [`LinkError`], in `specs/Faults.antt`.
#![tactic(auto)]

mod checking;
mod error;
mod layout;
mod linker;
mod linking;
mod lists;
mod refusals;
mod sites;
mod symbols;
mod unit;

pub use error::LinkError;
pub use linker::link;
pub use unit::{Linked, Unit};
