//! Reads a field by its kind.

ghost use Rattle.a64_read.specs.ReadsParts.{ReadsPart};
ghost use Rattle.a64_read.specs.Values.{ReadsKind};

use crate::branch_name::{CondBrName, read_test_bit};
use crate::call::read_made;
use crate::float_shift::{read_fpu_op_ri, read_fpu_op_ri_mod};
use crate::label::{read_label, read_target};
use crate::mode_name::{ModeName, PairModeName};
use crate::mov_imm::read_mov_imm;
use crate::read_vec_op::read_vec_op;
use crate::shift::read_shift;
use crate::wide::read_wide;
use a64_base::{APIKey, CallConv, Cond, ExtendOp, IrType};
use a64_ops::{ALUOp, ALUOp3, AtomicRMWLoopOp, BitOp};
use a64_tokens::convention::read_api_key;
use a64_tokens::decimal::{read_u8, read_u32, read_u64};
use a64_tokens::emit_flag::EmitFlag;
use a64_tokens::flags::read_flags;
use a64_tokens::float_operator::{
    read_fpu_op1, read_fpu_op2, read_fpu_op3, read_fpu_round_mode, read_fpu_to_int_op,
    read_int_to_fpu_op,
};
use a64_tokens::frame_field::FrameField;
use a64_tokens::immediate::{read_imm_shift, read_imm12, read_nzcv, read_uimm5, read_uimm6};
use a64_tokens::label_name::MemLabelName;
use a64_tokens::list_text::read_list_text;
use a64_tokens::map::read_map;
use a64_tokens::modifier::read_bool;
use a64_tokens::named::read_named;
use a64_tokens::offset::{read_i32, read_i64, read_offset9};
use a64_tokens::operator::{
    read_atomic_rmw_op, read_bfm_op, read_branch_target_type, read_move_wide_op,
};
use a64_tokens::register::{read_preg, read_reg};
use a64_tokens::size::{read_scalar_size, read_size, read_vector_size};
use a64_tokens::value::{Kind, Value};

/// Reads an integer operator.
#[tactic(auto, unfolding(crate::specs::Values::ReadsKind))]
#[inline(always)]
pub fn alu_op(token: &[u8]) -> Option<Value<'_>>
    ensures { ReadsKind Kind.AluOp token.now result }
{
    Some(Value::AluOp(read_named::<ALUOp>(token)?))
}

/// Reads an integer operator with three operands.
#[tactic(auto, unfolding(crate::specs::Values::ReadsKind))]
fn alu_op3(token: &[u8]) -> Option<Value<'_>>
    ensures { ReadsKind Kind.AluOp3 token.now result }
{
    Some(Value::AluOp3(read_named::<ALUOp3>(token)?))
}

/// Reads an operation on bits.
#[tactic(auto, unfolding(crate::specs::Values::ReadsKind))]
fn bit_op(token: &[u8]) -> Option<Value<'_>>
    ensures { ReadsKind Kind.BitOp token.now result }
{
    Some(Value::BitOp(read_named::<BitOp>(token)?))
}

/// Reads a move of a bitfield.
#[tactic(auto, unfolding(crate::specs::Values::ReadsKind))]
fn bfm_op(token: &[u8]) -> Option<Value<'_>>
    ensures { ReadsKind Kind.BfmOp token.now result }
{
    Some(Value::BfmOp(read_bfm_op(token)?))
}

/// Reads a wide move.
#[tactic(auto, unfolding(crate::specs::Values::ReadsKind))]
fn move_wide_op(token: &[u8]) -> Option<Value<'_>>
    ensures { ReadsKind Kind.MoveWideOp token.now result }
{
    Some(Value::MoveWideOp(read_move_wide_op(token)?))
}

/// Reads an atomic operation.
#[tactic(auto, unfolding(crate::specs::Values::ReadsKind))]
fn atomic_rmw_op(token: &[u8]) -> Option<Value<'_>>
    ensures { ReadsKind Kind.AtomicRmwOp token.now result }
{
    Some(Value::AtomicRmwOp(read_atomic_rmw_op(token)?))
}

/// Reads an atomic operation that is a loop.
#[tactic(auto, unfolding(crate::specs::Values::ReadsKind))]
fn atomic_rmw_loop_op(token: &[u8]) -> Option<Value<'_>>
    ensures { ReadsKind Kind.AtomicRmwLoopOp token.now result }
{
    Some(Value::AtomicRmwLoopOp(read_named::<AtomicRMWLoopOp>(token)?))
}

/// Reads an operator with one float.
#[tactic(auto, unfolding(crate::specs::Values::ReadsKind))]
fn fpu_op1(token: &[u8]) -> Option<Value<'_>>
    ensures { ReadsKind Kind.FpuOp1 token.now result }
{
    Some(Value::FpuOp1(read_fpu_op1(token)?))
}

/// Reads an operator with two floats.
#[tactic(auto, unfolding(crate::specs::Values::ReadsKind))]
fn fpu_op2(token: &[u8]) -> Option<Value<'_>>
    ensures { ReadsKind Kind.FpuOp2 token.now result }
{
    Some(Value::FpuOp2(read_fpu_op2(token)?))
}

/// Reads an operator with three floats.
#[tactic(auto, unfolding(crate::specs::Values::ReadsKind))]
fn fpu_op3(token: &[u8]) -> Option<Value<'_>>
    ensures { ReadsKind Kind.FpuOp3 token.now result }
{
    Some(Value::FpuOp3(read_fpu_op3(token)?))
}

/// Reads a shift to the right of the lanes in the low 64 bits of a vector register.
#[tactic(auto, unfolding(crate::specs::Values::ReadsKind))]
fn fpu_op_ri(token: &[u8]) -> Option<Value<'_>>
    ensures { ReadsKind Kind.FpuOpRI token.now result }
{
    Some(Value::FpuOpRI(read_fpu_op_ri(token)?))
}

/// Reads a shift of these lanes to the left, which keeps what stood below.
#[tactic(auto, unfolding(crate::specs::Values::ReadsKind))]
fn fpu_op_ri_mod(token: &[u8]) -> Option<Value<'_>>
    ensures { ReadsKind Kind.FpuOpRIMod token.now result }
{
    Some(Value::FpuOpRIMod(read_fpu_op_ri_mod(token)?))
}

/// Reads a conversion of a float to an integer.
#[tactic(auto, unfolding(crate::specs::Values::ReadsKind))]
fn fpu_to_int_op(token: &[u8]) -> Option<Value<'_>>
    ensures { ReadsKind Kind.FpuToIntOp token.now result }
{
    Some(Value::FpuToIntOp(read_fpu_to_int_op(token)?))
}

/// Reads a conversion of an integer to a float.
#[tactic(auto, unfolding(crate::specs::Values::ReadsKind))]
fn int_to_fpu_op(token: &[u8]) -> Option<Value<'_>>
    ensures { ReadsKind Kind.IntToFpuOp token.now result }
{
    Some(Value::IntToFpuOp(read_int_to_fpu_op(token)?))
}

/// Reads a rounding of a float to an integral value.
#[tactic(auto, unfolding(crate::specs::Values::ReadsKind))]
fn fpu_round_mode(token: &[u8]) -> Option<Value<'_>>
    ensures { ReadsKind Kind.FpuRoundMode token.now result }
{
    Some(Value::FpuRoundMode(read_fpu_round_mode(token)?))
}

/// Reads the size of operands.
#[tactic(auto, unfolding(crate::specs::Values::ReadsKind))]
#[inline(always)]
pub fn size(token: &[u8]) -> Option<Value<'_>>
    ensures { ReadsKind Kind.Size token.now result }
{
    Some(Value::Size(read_size(token)?))
}

/// Reads the size of a scalar in a vector register.
#[tactic(auto, unfolding(crate::specs::Values::ReadsKind))]
fn scalar_size(token: &[u8]) -> Option<Value<'_>>
    ensures { ReadsKind Kind.ScalarSize token.now result }
{
    Some(Value::ScalarSize(read_scalar_size(token)?))
}

/// Reads the lanes of a vector register.
#[tactic(auto, unfolding(crate::specs::Values::ReadsKind))]
fn vector_size(token: &[u8]) -> Option<Value<'_>>
    ensures { ReadsKind Kind.VectorSize token.now result }
{
    Some(Value::VectorSize(read_vector_size(token)?))
}

/// Reads a register.
#[tactic(auto, unfolding(crate::specs::Values::ReadsKind))]
#[inline(always)]
pub fn reg(token: &[u8]) -> Option<Value<'_>>
    ensures { ReadsKind Kind.Reg token.now result }
{
    Some(Value::Reg(read_reg(token)?))
}

/// Reads a register of the machine.
#[tactic(auto, unfolding(crate::specs::Values::ReadsKind))]
fn preg(token: &[u8]) -> Option<Value<'_>>
    ensures { ReadsKind Kind.PReg token.now result }
{
    Some(Value::PReg(read_preg(token)?))
}

/// Reads an immediate of 12 bits, shifted or not.
#[tactic(auto, unfolding(crate::specs::Values::ReadsKind))]
fn imm12(token: &[u8]) -> Option<Value<'_>>
    ensures { ReadsKind Kind.Imm12 token.now result }
{
    Some(Value::Imm12(read_imm12(token)?))
}

/// Reads a halfword and its place.
#[tactic(auto, unfolding(crate::specs::Values::ReadsKind))]
fn wide(token: &[u8]) -> Option<Value<'_>>
    ensures { ReadsKind Kind.Wide token.now result }
{
    Some(Value::Wide(read_wide(token)?))
}

/// Reads the bits of an immediate of a vector move, their shift, and whether ones are shifted in.
#[tactic(auto, unfolding(crate::specs::Values::ReadsKind))]
fn mov_imm(token: &[u8]) -> Option<Value<'_>>
    ensures { ReadsKind Kind.MovImm token.now result }
{
    Some(Value::MovImm(read_mov_imm(token)?))
}

/// Reads the amount of a shift.
#[tactic(auto, unfolding(crate::specs::Values::ReadsKind))]
fn imm_shift(token: &[u8]) -> Option<Value<'_>>
    ensures { ReadsKind Kind.ImmShift token.now result }
{
    Some(Value::ImmShift(read_imm_shift(token)?))
}

/// Reads an immediate of 5 bits.
#[tactic(auto, unfolding(crate::specs::Values::ReadsKind))]
fn uimm5(token: &[u8]) -> Option<Value<'_>>
    ensures { ReadsKind Kind.UImm5 token.now result }
{
    Some(Value::UImm5(read_uimm5(token)?))
}

/// Reads an immediate of 6 bits.
#[tactic(auto, unfolding(crate::specs::Values::ReadsKind))]
fn uimm6(token: &[u8]) -> Option<Value<'_>>
    ensures { ReadsKind Kind.UImm6 token.now result }
{
    Some(Value::UImm6(read_uimm6(token)?))
}

/// Reads a shift and its amount.
#[tactic(auto, unfolding(crate::specs::Values::ReadsKind))]
fn shift(token: &[u8]) -> Option<Value<'_>>
    ensures { ReadsKind Kind.Shift token.now result }
{
    Some(Value::Shift(read_shift(token)?))
}

/// Reads an extension.
#[tactic(auto, unfolding(crate::specs::Values::ReadsKind))]
fn extend(token: &[u8]) -> Option<Value<'_>>
    ensures { ReadsKind Kind.Extend token.now result }
{
    Some(Value::Extend(read_named::<ExtendOp>(token)?))
}

/// Reads a condition.
#[tactic(auto, unfolding(crate::specs::Values::ReadsKind))]
fn cond(token: &[u8]) -> Option<Value<'_>>
    ensures { ReadsKind Kind.Cond token.now result }
{
    Some(Value::Cond(read_named::<Cond>(token)?))
}

/// Reads the flags.
#[tactic(auto, unfolding(crate::specs::Values::ReadsKind))]
fn nzcv(token: &[u8]) -> Option<Value<'_>>
    ensures { ReadsKind Kind.Nzcv token.now result }
{
    Some(Value::Nzcv(read_nzcv(token)?))
}

/// Reads whether something is so.
#[tactic(auto, unfolding(crate::specs::Values::ReadsKind))]
fn truth(token: &[u8]) -> Option<Value<'_>>
    ensures { ReadsKind Kind.Bool token.now result }
{
    Some(Value::Bool(read_bool(token)?))
}

/// Reads a number below 2^8.
#[tactic(auto, unfolding(crate::specs::Values::ReadsKind))]
fn u8(token: &[u8]) -> Option<Value<'_>>
    ensures { ReadsKind Kind.U8 token.now result }
{
    Some(Value::U8(read_u8(token)?))
}

/// Reads a number below 2^32.
#[tactic(auto, unfolding(crate::specs::Values::ReadsKind))]
fn u32(token: &[u8]) -> Option<Value<'_>>
    ensures { ReadsKind Kind.U32 token.now result }
{
    Some(Value::U32(read_u32(token)?))
}

/// Reads a number below 2^64.
#[tactic(auto, unfolding(crate::specs::Values::ReadsKind))]
fn u64(token: &[u8]) -> Option<Value<'_>>
    ensures { ReadsKind Kind.U64 token.now result }
{
    Some(Value::U64(read_u64(token)?))
}

/// Reads a number of 32 bits, which may be below zero.
#[tactic(auto, unfolding(crate::specs::Values::ReadsKind))]
fn i32(token: &[u8]) -> Option<Value<'_>>
    ensures { ReadsKind Kind.I32 token.now result }
{
    Some(Value::I32(read_i32(token)?))
}

/// Reads where a branch goes.
#[tactic(auto, unfolding(crate::specs::Values::ReadsKind))]
#[inline(always)]
pub fn target(token: &[u8]) -> Option<Value<'_>>
    ensures { ReadsKind Kind.Target token.now result }
{
    Some(Value::Target(read_target(token)?))
}

/// Reads a label.
#[tactic(auto, unfolding(crate::specs::Values::ReadsKind))]
#[inline(always)]
pub fn label(token: &[u8]) -> Option<Value<'_>>
    ensures { ReadsKind Kind.Label token.now result }
{
    Some(Value::Label(read_label(token)?))
}

/// Reads the size of an area of a frame.
#[tactic(auto, unfolding(crate::specs::Values::ReadsKind))]
fn frame_field(token: &[u8]) -> Option<Value<'_>>
    ensures { ReadsKind Kind.FrameField token.now result }
{
    Some(Value::FrameField(read_named::<FrameField>(token)?))
}

/// Reads a setting.
#[tactic(auto, unfolding(crate::specs::Values::ReadsKind))]
fn emit_flag(token: &[u8]) -> Option<Value<'_>>
    ensures { ReadsKind Kind.EmitFlag token.now result }
{
    Some(Value::EmitFlag(read_named::<EmitFlag>(token)?))
}

/// Reads a number of 64 bits, which may be below zero.
#[tactic(auto, unfolding(crate::specs::Values::ReadsKind))]
fn i64(token: &[u8]) -> Option<Value<'_>>
    ensures { ReadsKind Kind.I64 token.now result }
{
    Some(Value::I64(read_i64(token)?))
}

/// Reads a signed offset of 9 bits.
#[tactic(auto, unfolding(crate::specs::Values::ReadsKind))]
fn offset9(token: &[u8]) -> Option<Value<'_>>
    ensures { ReadsKind Kind.Offset9 token.now result }
{
    Some(Value::Offset9(read_offset9(token)?))
}

/// Reads a type.
#[tactic(auto, unfolding(crate::specs::Values::ReadsKind))]
fn ir_type(token: &[u8]) -> Option<Value<'_>>
    ensures { ReadsKind Kind.Type token.now result }
{
    Some(Value::Type(read_named::<IrType>(token)?))
}

/// Reads the name of an address in the code.
#[tactic(auto, unfolding(crate::specs::Values::ReadsKind))]
fn mem_label_name(token: &[u8]) -> Option<Value<'_>>
    ensures { ReadsKind Kind.MemLabelName token.now result }
{
    Some(Value::MemLabelName(read_named::<MemLabelName>(token)?))
}

/// Reads an addressing mode.
#[tactic(auto, unfolding(crate::specs::Values::ReadsKind))]
fn mode(token: &[u8]) -> Option<Value<'_>>
    ensures { ReadsKind Kind.Mode token.now result }
{
    Some(Value::Mode(read_made::<ModeName>(token)?))
}

/// Reads an addressing mode of a pair.
#[tactic(auto, unfolding(crate::specs::Values::ReadsKind))]
fn pair_mode(token: &[u8]) -> Option<Value<'_>>
    ensures { ReadsKind Kind.PairMode token.now result }
{
    Some(Value::PairMode(read_made::<PairModeName>(token)?))
}

/// Reads what is known of a memory access.
#[tactic(auto, unfolding(crate::specs::Values::ReadsKind))]
fn flags(token: &[u8]) -> Option<Value<'_>>
    ensures { ReadsKind Kind.Flags token.now result }
{
    Some(Value::Flags(read_flags(token)?))
}

/// Reads what a conditional branch tests.
#[tactic(auto, unfolding(crate::specs::Values::ReadsKind))]
fn cond_br_kind(token: &[u8]) -> Option<Value<'_>>
    ensures { ReadsKind Kind.CondBrKind token.now result }
{
    Some(Value::CondBrKind(read_made::<CondBrName>(token)?))
}

/// Reads what a branch on one bit tests.
#[tactic(auto, unfolding(crate::specs::Values::ReadsKind))]
fn test_bit_kind(token: &[u8]) -> Option<Value<'_>>
    ensures { ReadsKind Kind.TestBitAndBranchKind token.now result }
{
    Some(Value::TestBitAndBranchKind(read_test_bit(token)?))
}

/// Reads which branches may go to a place.
#[tactic(auto, unfolding(crate::specs::Values::ReadsKind))]
fn branch_target_type(token: &[u8]) -> Option<Value<'_>>
    ensures { ReadsKind Kind.BranchTargetType token.now result }
{
    Some(Value::BranchTargetType(read_branch_target_type(token)?))
}

/// Reads a list as it is written.
#[tactic(auto, unfolding(crate::specs::Values::ReadsKind))]
fn list(token: &[u8]) -> Option<Value<'_>>
    ensures { ReadsKind Kind.List token.now result }
{
    Some(Value::List(read_list_text(token)?))
}

/// Reads a calling convention.
#[tactic(auto, unfolding(crate::specs::Values::ReadsKind))]
fn convention(token: &[u8]) -> Option<Value<'_>>
    ensures { ReadsKind Kind.Convention token.now result }
{
    Some(Value::Convention(read_named::<CallConv>(token)?))
}

/// Reads the key that authenticates a return address, where one does.
#[tactic(auto, unfolding(crate::specs::Values::ReadsKind))]
fn key(token: &[u8]) -> Option<Value<'_>>
    ensures { ReadsKind Kind.Key token.now result }
{
    Some(Value::Key(read_named::<Option<APIKey>>(token)?))
}

/// Reads a key of pointer authentication.
#[tactic(auto, unfolding(crate::specs::Values::ReadsKind))]
fn api_key(token: &[u8]) -> Option<Value<'_>>
    ensures { ReadsKind Kind.ApiKey token.now result }
{
    Some(Value::ApiKey(read_api_key(token)?))
}

/// Reads the map of the stack at a call, where there is one.
#[tactic(auto, unfolding(crate::specs::Values::ReadsKind))]
fn map(token: &[u8]) -> Option<Value<'_>>
    ensures { ReadsKind Kind.Map token.now result }
{
    Some(Value::Map(read_map(token)?))
}

/// The field of the kind that the token is, where such a field may stand with commas between.
pub fn read_part(kind: Kind, token: &[u8]) -> Option<Value<'_>>
    ensures { ReadsPart kind token.now result }
{
    match kind {
        Kind::Reg => reg(token),
        Kind::Extend => extend(token),
        Kind::U32 => u32(token),
        Kind::I64 => i64(token),
        Kind::Offset9 => offset9(token),
        Kind::Type => ir_type(token),
        Kind::MemLabelName => mem_label_name(token),
        Kind::Size => size(token),
        Kind::Cond => cond(token),
        Kind::Bool => truth(token),
        Kind::U8 => u8(token),
        _ => None,
    }
}

/// The field of the kind that the token is.
pub fn read_value(kind: Kind, token: &[u8]) -> Option<Value<'_>>
    ensures { ReadsKind kind token.now result }
{
    match kind {
        Kind::AluOp => alu_op(token),
        Kind::AluOp3 => alu_op3(token),
        Kind::BitOp => bit_op(token),
        Kind::BfmOp => bfm_op(token),
        Kind::MoveWideOp => move_wide_op(token),
        Kind::AtomicRmwOp => atomic_rmw_op(token),
        Kind::AtomicRmwLoopOp => atomic_rmw_loop_op(token),
        Kind::FpuOp1 => fpu_op1(token),
        Kind::FpuOp2 => fpu_op2(token),
        Kind::FpuOp3 => fpu_op3(token),
        Kind::FpuOpRI => fpu_op_ri(token),
        Kind::FpuOpRIMod => fpu_op_ri_mod(token),
        Kind::FpuToIntOp => fpu_to_int_op(token),
        Kind::IntToFpuOp => int_to_fpu_op(token),
        Kind::FpuRoundMode => fpu_round_mode(token),
        Kind::VecOp(kind) => read_vec_op(kind, token),
        Kind::Size => size(token),
        Kind::ScalarSize => scalar_size(token),
        Kind::VectorSize => vector_size(token),
        Kind::Reg => reg(token),
        Kind::PReg => preg(token),
        Kind::Imm12 => imm12(token),
        Kind::Wide => wide(token),
        Kind::MovImm => mov_imm(token),
        Kind::ImmShift => imm_shift(token),
        Kind::UImm5 => uimm5(token),
        Kind::UImm6 => uimm6(token),
        Kind::Shift => shift(token),
        Kind::Extend => extend(token),
        Kind::Cond => cond(token),
        Kind::Nzcv => nzcv(token),
        Kind::Bool => truth(token),
        Kind::U8 => u8(token),
        Kind::U32 => u32(token),
        Kind::U64 => u64(token),
        Kind::I32 => i32(token),
        Kind::Target => target(token),
        Kind::Label => label(token),
        Kind::FrameField => frame_field(token),
        Kind::EmitFlag => emit_flag(token),
        Kind::I64 => i64(token),
        Kind::Offset9 => offset9(token),
        Kind::Type => ir_type(token),
        Kind::MemLabelName => mem_label_name(token),
        Kind::Mode => mode(token),
        Kind::PairMode => pair_mode(token),
        Kind::Flags => flags(token),
        Kind::CondBrKind => cond_br_kind(token),
        Kind::TestBitAndBranchKind => test_bit_kind(token),
        Kind::BranchTargetType => branch_target_type(token),
        Kind::List => list(token),
        Kind::Convention => convention(token),
        Kind::Key => key(token),
        Kind::ApiKey => api_key(token),
        Kind::Map => map(token),
    }
}
