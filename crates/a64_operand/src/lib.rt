//! The operands of instructions: the classes of registers, and which registers, immediates, lanes, operators and
//! sizes go together.
#![tactic(auto)]

mod atomic;
mod atomic_access;
mod class;
mod float;
mod fpu_op;
mod immediate;
mod lane;
mod lanes;
mod operand;
mod register;
mod vector;
mod virtuals;

pub use atomic::AtomicCAS128Args;
pub use atomic_access::{
    are_cas_operands, are_cas128_operands, are_loop_operands, are_ordered_operands,
    are_rmw_operands, is_loop_result,
};
pub use class::{Class, is_of};
pub use float::{
    is_float_imm_of, is_float_lane, is_float_size, is_fpu_op1_at, is_kept_shift, is_right_shift,
};
pub use fpu_op::{FPUOpRI, FPUOpRIMod};
pub use immediate::{
    is_add_sub_imm12, is_bitfield, is_extended, is_kept, is_kept_bitfield, is_logic_imm,
    is_shift_by, logic_class,
};
pub use lane::{
    are_kept_lanes, is_float_imm_in, is_kept_lane, is_kept_table, is_mov_imm_in, is_next_vector,
    is_scalar_lane, is_signed_lane,
};
pub use lanes::Lanes;
pub use operand::{
    is_any_register, is_bit_of, is_fixed_register, is_imm12, is_lane, is_logic_of, is_near,
    is_offset, is_other_register, is_register, is_register_or_stack, is_register_or_zero,
    is_same_register, is_stack_pointer, is_vector_register, is_wide_in,
};
pub use register::{
    add_sub_class, is_add_sub, is_bit_op_at, is_long_product_at, is_move, is_move_from, is_move_to,
    is_product_at, is_shifted,
};
pub use vector::{
    is_across, is_alu_at, is_amount, is_elem_at, is_kept_amount, is_kept_narrow, is_misc_at,
    is_mod_at, is_narrow_at,
};
pub use virtuals::VirtualRegisters;
