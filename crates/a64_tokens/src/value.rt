//! The fields of entries.

use crate::emit_flag::EmitFlag;
use crate::frame_field::FrameField;
use crate::label_name::MemLabelName;
use crate::list_text::ListText;
use crate::pair_mode::WrittenPairMode;
use crate::vec_op::{VecOp, VecOpKind};
use a64_base::{
    APIKey, BranchTarget, CallConv, Cond, CondBrKind, ExtendOp, IrType, MachLabel, MemFlagsData,
    OperandSize, PReg, Reg, ScalarSize, ShiftOpAndAmt, TestBitAndBranchKind, UserStackMap,
    VectorSize,
};
use a64_imms::{Imm12, ImmShift, MoveWideConst, NZCV, SImm9, UImm5, UImm6};
use a64_inst::{AMode, FPUOpRI, FPUOpRIMod};
use a64_ops::{
    ALUOp, ALUOp3, AtomicRMWLoopOp, AtomicRMWOp, BfmOp, BitOp, BranchTargetType, FPUOp1, FPUOp2,
    FPUOp3, FpuRoundMode, FpuToIntOp, IntToFpuOp, MoveWideOp,
};

/// An immediate of a vector move as a line has it. What it stands for is known once its lanes are.
#[derive(Clone, Copy)]
pub struct WrittenMovImm {
    /// The eight bits.
    pub imm: u8,
    /// By how many places the bits are shifted left.
    pub shift: u8,
    /// Whether ones are shifted in.
    pub ones: bool,
}

/// What a field is.
#[derive(Clone, Copy)]
pub enum Kind {
    /// An integer operator.
    AluOp,
    /// An integer operator with three operands.
    AluOp3,
    /// An operation on bits.
    BitOp,
    /// A move of a bitfield.
    BfmOp,
    /// A wide move.
    MoveWideOp,
    /// An atomic operation.
    AtomicRmwOp,
    /// An atomic operation that is a loop.
    AtomicRmwLoopOp,
    /// An operator with one float.
    FpuOp1,
    /// An operator with two floats.
    FpuOp2,
    /// An operator with three floats.
    FpuOp3,
    /// A shift to the right of the lanes of 32 or 64 bits in the low 64 bits of a vector register.
    FpuOpRI,
    /// A shift of these lanes to the left, which keeps what stood below.
    FpuOpRIMod,
    /// A conversion of a float to an integer.
    FpuToIntOp,
    /// A conversion of an integer to a float.
    IntToFpuOp,
    /// A rounding of a float to an integral value.
    FpuRoundMode,
    /// An operator of a vector instruction.
    VecOp(VecOpKind),
    /// The size of operands.
    Size,
    /// The size of a scalar in a vector register.
    ScalarSize,
    /// The lanes of a vector register.
    VectorSize,
    /// A register.
    Reg,
    /// A register of the machine.
    PReg,
    /// An immediate of 12 bits, shifted or not.
    Imm12,
    /// A halfword and its place.
    Wide,
    /// The bits of an immediate of a vector move, their shift, and whether ones are shifted in.
    MovImm,
    /// The amount of a shift.
    ImmShift,
    /// An immediate of 5 bits.
    UImm5,
    /// An immediate of 6 bits.
    UImm6,
    /// A shift and its amount.
    Shift,
    /// An extension.
    Extend,
    /// A condition.
    Cond,
    /// The flags.
    Nzcv,
    /// Whether something is so.
    Bool,
    /// A number below 2^8.
    U8,
    /// A number below 2^32.
    U32,
    /// A number below 2^64.
    U64,
    /// A number of 32 bits, which may be below zero.
    I32,
    /// Where a branch goes.
    Target,
    /// A label.
    Label,
    /// The size of an area of a frame.
    FrameField,
    /// A setting.
    EmitFlag,
    /// A number of 64 bits, which may be below zero.
    I64,
    /// A signed offset of 9 bits.
    Offset9,
    /// A type.
    Type,
    /// The name of an address in the code.
    MemLabelName,
    /// An addressing mode.
    Mode,
    /// An addressing mode of a pair.
    PairMode,
    /// What is known of a memory access.
    Flags,
    /// What a conditional branch tests.
    CondBrKind,
    /// What a branch on one bit tests.
    TestBitAndBranchKind,
    /// The branches that may go to a place.
    BranchTargetType,
    /// A list, which takes memory: it is read where the item is made.
    List,
    /// A calling convention.
    Convention,
    /// The key that authenticates a return address, where one does.
    Key,
    /// A key of pointer authentication.
    ApiKey,
    /// The map of the stack at a call, where there is one.
    Map,
}

/// A field.
#[derive(Drop)]
pub enum Value<'t> {
    /// An integer operator.
    AluOp(ALUOp),
    /// An integer operator with three operands.
    AluOp3(ALUOp3),
    /// An operation on bits.
    BitOp(BitOp),
    /// A move of a bitfield.
    BfmOp(BfmOp),
    /// A wide move.
    MoveWideOp(MoveWideOp),
    /// An atomic operation.
    AtomicRmwOp(AtomicRMWOp),
    /// An atomic operation that is a loop.
    AtomicRmwLoopOp(AtomicRMWLoopOp),
    /// An operator with one float.
    FpuOp1(FPUOp1),
    /// An operator with two floats.
    FpuOp2(FPUOp2),
    /// An operator with three floats.
    FpuOp3(FPUOp3),
    /// A shift to the right of the lanes of 32 or 64 bits in the low 64 bits of a vector register.
    FpuOpRI(FPUOpRI),
    /// A shift of these lanes to the left, which keeps what stood below.
    FpuOpRIMod(FPUOpRIMod),
    /// A conversion of a float to an integer.
    FpuToIntOp(FpuToIntOp),
    /// A conversion of an integer to a float.
    IntToFpuOp(IntToFpuOp),
    /// A rounding of a float to an integral value.
    FpuRoundMode(FpuRoundMode),
    /// An operator of a vector instruction.
    VecOp(VecOp),
    /// The size of operands.
    Size(OperandSize),
    /// The size of a scalar in a vector register.
    ScalarSize(ScalarSize),
    /// The lanes of a vector register.
    VectorSize(VectorSize),
    /// A register.
    Reg(Reg),
    /// A register of the machine.
    PReg(PReg),
    /// An immediate of 12 bits, shifted or not.
    Imm12(Imm12),
    /// A halfword and its place.
    Wide(MoveWideConst),
    /// The bits of an immediate of a vector move, their shift, and whether ones are shifted in.
    MovImm(WrittenMovImm),
    /// The amount of a shift.
    ImmShift(ImmShift),
    /// An immediate of 5 bits.
    UImm5(UImm5),
    /// An immediate of 6 bits.
    UImm6(UImm6),
    /// A shift and its amount.
    Shift(ShiftOpAndAmt),
    /// An extension.
    Extend(ExtendOp),
    /// A condition.
    Cond(Cond),
    /// The flags.
    Nzcv(NZCV),
    /// Whether something is so.
    Bool(bool),
    /// A number below 2^8.
    U8(u8),
    /// A number below 2^32.
    U32(u32),
    /// A number below 2^64.
    U64(u64),
    /// A number of 32 bits, which may be below zero.
    I32(i32),
    /// Where a branch goes.
    Target(BranchTarget),
    /// A label.
    Label(MachLabel),
    /// The size of an area of a frame.
    FrameField(FrameField),
    /// A setting.
    EmitFlag(EmitFlag),
    /// A number of 64 bits, which may be below zero.
    I64(i64),
    /// A signed offset of 9 bits.
    Offset9(SImm9),
    /// A type.
    Type(IrType),
    /// The name of an address in the code.
    MemLabelName(MemLabelName),
    /// An addressing mode.
    Mode(AMode),
    /// An addressing mode of a pair.
    PairMode(WrittenPairMode),
    /// What is known of a memory access.
    Flags(MemFlagsData),
    /// What a conditional branch tests.
    CondBrKind(CondBrKind),
    /// What a branch on one bit tests.
    TestBitAndBranchKind(TestBitAndBranchKind),
    /// The branches that may go to a place.
    BranchTargetType(BranchTargetType),
    /// A list, as it is written.
    List(ListText<'t>),
    /// A calling convention.
    Convention(CallConv),
    /// The key that authenticates a return address, where one does.
    Key(Option<APIKey>),
    /// A key of pointer authentication.
    ApiKey(APIKey),
    /// The map of the stack at a call, where there is one.
    Map(Option<UserStackMap>),
}

impl<'t> Default for Value<'t> {
    fn default() -> Value<'t> {
        Value::U64(0)
    }
}
