//! The fields of an entry, each at its place. At another place, or where a field of another kind stands, the
//! answer is some value of the type: no caller looks there.

ghost use Rattle.std.specs.Prelude.{◌≡◌, Option, Some, None, slice_get, refl};
ghost use Rattle.a64_tokens.specs.declared.value.Value.{Value};
ghost use Rattle.a64_tokens.specs.declared.value.Value.TheVariants as values;
ghost use Rattle.a64_read.specs.At.{alu_op3_of, alu_op_of, atomic_rmw_loop_op_of, atomic_rmw_op_of, api_key_of, bfm_op_of, bit_op_of, branch_target_type_of, cond_br_kind_of, cond_of, convention_of, emit_flag_of, extend_of, flags_of, frame_field_of, i32_of, i64_of, imm12_of, imm_shift_of, key_of, label_of, map_of, mem_label_name_of, mode_of, mov_imm_of, move_wide_op_of, nzcv_of, offset9_of, pair_mode_of, preg_of, reg_of, shift_of, size_of, target_of, test_bit_kind_of, truth_of, type_of, u32_of, u64_of, u8_of, uimm5_of, uimm6_of, wide_of, list_at};

mod float;
mod vector;

use a64_base::{
    APIKey, BranchTarget, CallConv, Cond, CondBrKind, ExtendOp, IrType, MachLabel, MemFlagsData,
    OperandSize, PReg, Reg, RegClass, ShiftOp, ShiftOpAndAmt, ShiftOpShiftImm,
    TestBitAndBranchKind, UserStackMap,
};
use a64_imms::{Imm12, ImmShift, MoveWideConst, NZCV, SImm9, UImm5, UImm6};
use a64_inst::AMode;
use a64_ops::{
    ALUOp, ALUOp3, AtomicRMWLoopOp, AtomicRMWOp, BfmOp, BitOp, BranchTargetType, MoveWideOp,
};
use a64_tokens::emit_flag::EmitFlag;
use a64_tokens::frame_field::FrameField;
use a64_tokens::label_name::MemLabelName;
use a64_tokens::pair_mode::WrittenPairMode;
use a64_tokens::value::{Value, WrittenMovImm};

/// What a field can hold.
pub trait Field: Copy {
    /// What a field holds. Where there is none, or one of another kind, it is some value of the type.
    ghost of: { Option Value → Self };

    /// What the field holds.
    fn of(value: &Value) -> Self
        ensures { result ≡ of (Some value.now) };

    /// Where no field stands it is as where the number 0 stands.
    ghost missing: { of None ≡ of (Some (values.U64 0)) };
}

/// What the field at a place holds.
#[inline(always)]
pub fn get<T: Field>(values: &[Value], i: usize) -> T
    ensures { result ≡ T.of (slice_get values.now i) }
{
    T::of(values.get(i).unwrap_or(&Value::U64(0)))
}

/// A list, as it is written.
pub fn list<'t>(values: &[Value<'t>], i: usize) -> &'t [u8]
    ensures { result.now ≡ list_at values.now i }
{
    match values.get(i) {
        Some(Value::List(text)) => text.as_bytes(),
        _ => b"",
    }
}

impl Field for ALUOp {
    ghost of = { alu_op_of };

    #[inline(always)]
    fn of(value: &Value) -> ALUOp {
        match value {
            Value::AluOp(x) => *x,
            _ => ALUOp::Add,
        }
    }

    ghost missing = { refl };
}

impl Field for ALUOp3 {
    ghost of = { alu_op3_of };

    fn of(value: &Value) -> ALUOp3 {
        match value {
            Value::AluOp3(x) => *x,
            _ => ALUOp3::MAdd,
        }
    }

    ghost missing = { refl };
}

impl Field for BitOp {
    ghost of = { bit_op_of };

    fn of(value: &Value) -> BitOp {
        match value {
            Value::BitOp(x) => *x,
            _ => BitOp::RBit,
        }
    }

    ghost missing = { refl };
}

impl Field for AtomicRMWOp {
    ghost of = { atomic_rmw_op_of };

    fn of(value: &Value) -> AtomicRMWOp {
        match value {
            Value::AtomicRmwOp(x) => *x,
            _ => AtomicRMWOp::Add,
        }
    }

    ghost missing = { refl };
}

impl Field for AtomicRMWLoopOp {
    ghost of = { atomic_rmw_loop_op_of };

    fn of(value: &Value) -> AtomicRMWLoopOp {
        match value {
            Value::AtomicRmwLoopOp(x) => *x,
            _ => AtomicRMWLoopOp::Add,
        }
    }

    ghost missing = { refl };
}

impl Field for BfmOp {
    ghost of = { bfm_op_of };

    fn of(value: &Value) -> BfmOp {
        match value {
            Value::BfmOp(x) => *x,
            _ => BfmOp::UBfm,
        }
    }

    ghost missing = { refl };
}

impl Field for MoveWideOp {
    ghost of = { move_wide_op_of };

    fn of(value: &Value) -> MoveWideOp {
        match value {
            Value::MoveWideOp(x) => *x,
            _ => MoveWideOp::MovZ,
        }
    }

    ghost missing = { refl };
}

impl Field for OperandSize {
    ghost of = { size_of };

    #[inline(always)]
    fn of(value: &Value) -> OperandSize {
        match value {
            Value::Size(x) => *x,
            _ => OperandSize::Size32,
        }
    }

    ghost missing = { refl };
}

impl Field for Reg {
    ghost of = { reg_of };

    #[inline(always)]
    fn of(value: &Value) -> Reg {
        match value {
            Value::Reg(x) => *x,
            _ => Reg::virtual_reg(0, RegClass::Int),
        }
    }

    ghost missing = { refl };
}

impl Field for PReg {
    ghost of = { preg_of };

    fn of(value: &Value) -> PReg {
        match value {
            Value::PReg(x) => *x,
            _ => PReg::new(0, RegClass::Int),
        }
    }

    ghost missing = { refl };
}

impl Field for Imm12 {
    ghost of = { imm12_of };

    fn of(value: &Value) -> Imm12 {
        match value {
            Value::Imm12(x) => *x,
            _ => Imm12 {
                bits: 0,
                shift12: false,
            },
        }
    }

    ghost missing = { refl };
}

impl Field for MoveWideConst {
    ghost of = { wide_of };

    fn of(value: &Value) -> MoveWideConst {
        match value {
            Value::Wide(x) => *x,
            _ => MoveWideConst { bits: 0, shift: 0 },
        }
    }

    ghost missing = { refl };
}

impl Field for WrittenMovImm {
    ghost of = { mov_imm_of };

    fn of(value: &Value) -> WrittenMovImm {
        match value {
            Value::MovImm(x) => *x,
            _ => WrittenMovImm {
                imm: 0,
                shift: 0,
                ones: false,
            },
        }
    }

    ghost missing = { refl };
}

impl Field for ImmShift {
    ghost of = { imm_shift_of };

    fn of(value: &Value) -> ImmShift {
        match value {
            Value::ImmShift(x) => *x,
            _ => ImmShift { imm: 0 },
        }
    }

    ghost missing = { refl };
}

/// The least immediate.
fn least_uimm5() -> UImm5
    ensures { result ≡ uimm5_of None }
{
    match UImm5::maybe_from_u8(0) {
        Some(imm) => imm,
        None => unreachable!(),
    }
}

impl Field for UImm5 {
    ghost of = { uimm5_of };

    fn of(value: &Value) -> UImm5 {
        match value {
            Value::UImm5(x) => *x,
            _ => least_uimm5(),
        }
    }

    ghost missing = { refl };
}

impl Field for UImm6 {
    ghost of = { uimm6_of };

    fn of(value: &Value) -> UImm6 {
        match value {
            Value::UImm6(x) => *x,
            _ => UImm6 { imm: 0 },
        }
    }

    ghost missing = { refl };
}

/// The shift to the left by nothing.
fn no_shift() -> ShiftOpAndAmt
    ensures { result ≡ shift_of None }
{
    match ShiftOpShiftImm::maybe_from_shift(0) {
        Some(amount) => ShiftOpAndAmt::new(ShiftOp::LSL, amount),
        None => unreachable!(),
    }
}

impl Field for ShiftOpAndAmt {
    ghost of = { shift_of };

    fn of(value: &Value) -> ShiftOpAndAmt {
        match value {
            Value::Shift(x) => *x,
            _ => no_shift(),
        }
    }

    ghost missing = { refl };
}

impl Field for ExtendOp {
    ghost of = { extend_of };

    fn of(value: &Value) -> ExtendOp {
        match value {
            Value::Extend(x) => *x,
            _ => ExtendOp::UXTB,
        }
    }

    ghost missing = { refl };
}

impl Field for Cond {
    ghost of = { cond_of };

    fn of(value: &Value) -> Cond {
        match value {
            Value::Cond(x) => *x,
            _ => Cond::Eq,
        }
    }

    ghost missing = { refl };
}

impl Field for NZCV {
    ghost of = { nzcv_of };

    fn of(value: &Value) -> NZCV {
        match value {
            Value::Nzcv(x) => *x,
            _ => NZCV::new(false, false, false, false),
        }
    }

    ghost missing = { refl };
}

impl Field for bool {
    ghost of = { truth_of };

    fn of(value: &Value) -> bool {
        match value {
            Value::Bool(x) => *x,
            _ => false,
        }
    }

    ghost missing = { refl };
}

impl Field for u8 {
    ghost of = { u8_of };

    fn of(value: &Value) -> u8 {
        match value {
            Value::U8(x) => *x,
            _ => 0,
        }
    }

    ghost missing = { refl };
}

impl Field for u32 {
    ghost of = { u32_of };

    fn of(value: &Value) -> u32 {
        match value {
            Value::U32(x) => *x,
            _ => 0,
        }
    }

    ghost missing = { refl };
}

impl Field for u64 {
    ghost of = { u64_of };

    fn of(value: &Value) -> u64 {
        match value {
            Value::U64(x) => *x,
            _ => 0,
        }
    }

    ghost missing = { refl };
}

impl Field for i32 {
    ghost of = { i32_of };

    fn of(value: &Value) -> i32 {
        match value {
            Value::I32(x) => *x,
            _ => 0,
        }
    }

    ghost missing = { refl };
}

impl Field for BranchTarget {
    ghost of = { target_of };

    #[inline(always)]
    fn of(value: &Value) -> BranchTarget {
        match value {
            Value::Target(x) => *x,
            _ => BranchTarget::ResolvedOffset(0),
        }
    }

    ghost missing = { refl };
}

impl Field for MachLabel {
    ghost of = { label_of };

    #[inline(always)]
    fn of(value: &Value) -> MachLabel {
        match value {
            Value::Label(x) => *x,
            _ => MachLabel(0),
        }
    }

    ghost missing = { refl };
}

impl Field for FrameField {
    ghost of = { frame_field_of };

    fn of(value: &Value) -> FrameField {
        match value {
            Value::FrameField(x) => *x,
            _ => FrameField::SetupAreaSize,
        }
    }

    ghost missing = { refl };
}

impl Field for EmitFlag {
    ghost of = { emit_flag_of };

    fn of(value: &Value) -> EmitFlag {
        match value {
            Value::EmitFlag(x) => *x,
            _ => EmitFlag::EnableProbestack,
        }
    }

    ghost missing = { refl };
}

impl Field for i64 {
    ghost of = { i64_of };

    fn of(value: &Value) -> i64 {
        match value {
            Value::I64(x) => *x,
            _ => 0,
        }
    }

    ghost missing = { refl };
}

impl Field for SImm9 {
    ghost of = { offset9_of };

    fn of(value: &Value) -> SImm9 {
        match value {
            Value::Offset9(x) => *x,
            _ => SImm9 { value: 0 },
        }
    }

    ghost missing = { refl };
}

impl Field for IrType {
    ghost of = { type_of };

    fn of(value: &Value) -> IrType {
        match value {
            Value::Type(x) => *x,
            _ => IrType::I64,
        }
    }

    ghost missing = { refl };
}

impl Field for MemLabelName {
    ghost of = { mem_label_name_of };

    fn of(value: &Value) -> MemLabelName {
        match value {
            Value::MemLabelName(x) => *x,
            _ => MemLabelName::PCRel,
        }
    }

    ghost missing = { refl };
}

impl Field for AMode {
    ghost of = { mode_of };

    fn of(value: &Value) -> AMode {
        match value {
            Value::Mode(x) => *x,
            _ => AMode::SPOffset { off: 0 },
        }
    }

    ghost missing = { refl };
}

impl Field for WrittenPairMode {
    ghost of = { pair_mode_of };

    fn of(value: &Value) -> WrittenPairMode {
        match value {
            Value::PairMode(x) => *x,
            _ => WrittenPairMode::SPPreIndexed { offset: 0 },
        }
    }

    ghost missing = { refl };
}

impl Field for MemFlagsData {
    ghost of = { flags_of };

    fn of(value: &Value) -> MemFlagsData {
        match value {
            Value::Flags(x) => *x,
            _ => MemFlagsData::trusted(),
        }
    }

    ghost missing = { refl };
}

impl Field for CondBrKind {
    ghost of = { cond_br_kind_of };

    fn of(value: &Value) -> CondBrKind {
        match value {
            Value::CondBrKind(x) => *x,
            _ => CondBrKind::Cond(Cond::Eq),
        }
    }

    ghost missing = { refl };
}

impl Field for TestBitAndBranchKind {
    ghost of = { test_bit_kind_of };

    fn of(value: &Value) -> TestBitAndBranchKind {
        match value {
            Value::TestBitAndBranchKind(x) => *x,
            _ => TestBitAndBranchKind::Z,
        }
    }

    ghost missing = { refl };
}

impl Field for CallConv {
    ghost of = { convention_of };

    fn of(value: &Value) -> CallConv {
        match value {
            Value::Convention(x) => *x,
            _ => CallConv::SystemV,
        }
    }

    ghost missing = { refl };
}

impl Field for Option<APIKey> {
    ghost of = { key_of };

    fn of(value: &Value) -> Option<APIKey> {
        match value {
            Value::Key(x) => *x,
            _ => None,
        }
    }

    ghost missing = { refl };
}

impl Field for Option<UserStackMap> {
    ghost of = { map_of };

    fn of(value: &Value) -> Option<UserStackMap> {
        match value {
            Value::Map(x) => *x,
            _ => None,
        }
    }

    ghost missing = { refl };
}

impl Field for BranchTargetType {
    ghost of = { branch_target_type_of };

    fn of(value: &Value) -> BranchTargetType {
        match value {
            Value::BranchTargetType(x) => *x,
            _ => BranchTargetType::None,
        }
    }

    ghost missing = { refl };
}

impl Field for APIKey {
    ghost of = { api_key_of };

    fn of(value: &Value) -> APIKey {
        match value {
            Value::ApiKey(x) => *x,
            _ => APIKey::AZ,
        }
    }

    ghost missing = { refl };
}
