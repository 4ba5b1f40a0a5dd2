//! The texts of operands, of a name with its operands, and of the steps of constants and sums; and the
//! definitions of the texts of all instructions.
#![tactic(auto)]

mod lanes;
mod line;
mod number;
mod operand;
mod step;

pub use lanes::{
    added_product_lane, alu_lanes, alu_mod_lanes, long_lane, misc_lanes, narrower, pair_long_lane,
    product_lane, vector_of, wider,
};
pub use line::{line1, line2, line3, line4, line5};
pub use number::{imm12_value, operand_of_bits, scalar_operand};
pub use operand::{Operand, push_line, push_operand, push_two_lines};
pub use step::{push_step, push_steps, push_sum};
