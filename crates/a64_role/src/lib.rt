//! The roles of registers, visitors that are told them, and what queries of instructions answer.
#![tactic(auto)]

mod clobbers;
mod handing;
mod list;
mod query;
mod role;
mod visitor;

pub use clobbers::{ClobberTable, has_more};
pub use handing::{
    HasRole, hand, hand_call, hand_each, hand_mode, hand_pair_mode, hand_return_call,
};
pub use list::RoleList;
pub use query::{CallType, FunctionAlignment, MachTerminator, Unsupported, move_of};
pub use role::{Role, result_role};
pub use visitor::OperandVisitor;
