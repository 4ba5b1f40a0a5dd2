//! Reads tokens: numbers, names, registers, and what fields are.
#![tactic(auto)]

pub mod convention;
pub mod decimal;
pub mod emit_flag;
pub mod flags;
pub mod float_operator;
pub mod frame_field;
pub mod hex;
pub mod immediate;
pub mod label_name;
pub mod list_text;
pub mod map;
pub mod modifier;
pub mod named;
pub mod offset;
pub mod operator;
pub mod pair_mode;
pub mod register;
pub mod size;
pub mod split;
mod type_name;
pub mod value;
pub mod vec_op;
pub mod vector_operator;
