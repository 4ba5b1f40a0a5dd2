//! What register allocation asks of AArch64 instructions: the roles of their registers, and queries.
#![tactic(auto)]

mod call;
mod control;
mod mach_inst;
mod marks;
mod memory;
mod operands;
mod own_roles;
mod plain;
mod sequence;

pub use a64_role::{
    CallType, ClobberTable, FunctionAlignment, MachTerminator, OperandVisitor, Role, RoleList,
    Unsupported,
};
pub use mach_inst::MachInst;
