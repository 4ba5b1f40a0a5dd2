//! The cells of instructions, and the words that they are.
#![tactic(auto)]

mod arms;
mod callee;
mod halfword;
mod site;
pub mod word;

pub use callee::Callee;
pub use halfword::{has_halfword, restores_halfwords};
pub use site::{CellUse, Site, Table, Uses, mode_site, mode_target};
