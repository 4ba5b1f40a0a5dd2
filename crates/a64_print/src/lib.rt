//! The texts of instructions, and listings.
#![tactic(auto)]

mod call;
mod control;
mod float;
mod immediate;
mod items;
mod memory;
mod print;
mod register;
mod sequence;
mod system;
mod texts;
mod vector;
mod vector_move;

pub use items::listing;
pub use print::{PrintInst, push_inst};
