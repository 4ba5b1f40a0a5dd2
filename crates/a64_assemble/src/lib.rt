//! The assembly of lists of items into code, with islands where they are needed or forced.
#![tactic(auto)]

mod ahead;
mod asking;
mod assembly;
mod checks;
mod look;
mod loose;
mod marks;
mod putting;
mod reach;
mod tally;

pub use assembly::assemble;
