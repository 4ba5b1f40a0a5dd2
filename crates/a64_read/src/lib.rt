//! Reads what stands in lines: fields by their kinds, and names with the fields behind them.
#![tactic(auto)]

pub mod at;
mod branch_name;
mod call;
mod call_pair;
pub mod clobbers;
mod fields;
mod float_shift;
mod label;
pub mod line;
pub mod list;
mod location_name;
mod mode;
mod mode_name;
mod mov_imm;
mod parts;
mod read_value;
mod read_vec_op;
mod register_pair;
mod schema;
mod shift;
mod wide;
