//! The words of instructions.

pub mod call;
pub mod control;
pub mod exclusive;
pub mod memory;
pub mod plain;
pub mod sequence;
pub mod system;
