// Written by `python3 tools/instructions.py` from tables/instructions.txt.
//! The instructions.

use crate::call::{CallInfo, ReturnCallInfo};
use crate::mode::{AMode, PairAMode};
use crate::pair::{ArgPair, RetPair};
use a64_base::{
    APIKey, BranchTarget, Cond, CondBrKind, ExtendOp, ExternalName, IrType, MachLabel,
    MemFlagsData, OperandSize, PReg, Reg, ScalarSize, ShiftOpAndAmt, TestBitAndBranchKind,
    TrapCode, VectorSize, Writable,
};
use a64_imms::{
    ASIMDFPModImm, ASIMDMovModImm, Imm12, ImmLogic, ImmShift, MoveWideConst, NZCV, UImm5, UImm6,
};
use a64_list::ListVec;
use a64_operand::{AtomicCAS128Args, FPUOpRI, FPUOpRIMod};
use a64_ops::{
    ALUOp, ALUOp3, AtomicRMWLoopOp, AtomicRMWOp, BfmOp, BitOp, BranchTargetType, FPUOp1, FPUOp2,
    FPUOp3, FpuRoundMode, FpuToIntOp, IntToFpuOp, MoveWideOp, VecALUModOp, VecALUOp, VecExtendOp,
    VecLanesOp, VecMisc2, VecPairOp, VecRRLongOp, VecRRNarrowOp, VecRRPairLongOp, VecRRRLongModOp,
    VecRRRLongOp, VecShiftImmModOp, VecShiftImmOp,
};

/// An AArch64 instruction, or a short sequence of instructions (Cranelift's `Inst`).
#[derive(Drop)]
pub enum Inst {
    /// `adr`: an address near the code.
    Adr {
        /// The result.
        rd: Writable<Reg>,
        /// The distance in bytes, above -2^20 and below 2^20.
        off: i32,
    },
    /// `adrp`: the address of a page near the code.
    Adrp {
        /// The result.
        rd: Writable<Reg>,
        /// The distance in pages of 4096 bytes, above -2^20 and below 2^20.
        off: i32,
    },
    /// An addition or subtraction of an immediate.
    AluRRImm12 {
        /// The operator.
        alu_op: ALUOp,
        /// The size of the operands.
        size: OperandSize,
        /// The result.
        rd: Writable<Reg>,
        /// The first operand.
        rn: Reg,
        /// The immediate.
        imm12: Imm12,
    },
    /// A logical operation with a bitmask immediate.
    AluRRImmLogic {
        /// The operator.
        alu_op: ALUOp,
        /// The size of the operands.
        size: OperandSize,
        /// The result.
        rd: Writable<Reg>,
        /// The first operand.
        rn: Reg,
        /// The immediate, which is one of the size.
        imml: ImmLogic,
    },
    /// `movz` or `movn`: sets a register to a halfword at one of its places.
    MovWide {
        /// The operator.
        op: MoveWideOp,
        /// The result.
        rd: Writable<Reg>,
        /// The halfword and its place.
        imm: MoveWideConst,
        /// The size of the register.
        size: OperandSize,
    },
    /// `movk`: replaces a halfword of a register.
    MovK {
        /// The result.
        rd: Writable<Reg>,
        /// The register of which the other halfwords stay, which is the result's.
        rn: Reg,
        /// The halfword and its place.
        imm: MoveWideConst,
        /// The size of the register.
        size: OperandSize,
    },
    /// A shift or a rotation by an amount.
    AluRRImmShift {
        /// The operator: a shift, or `Extr` for the rotation.
        alu_op: ALUOp,
        /// The size of the operands.
        size: OperandSize,
        /// The result.
        rd: Writable<Reg>,
        /// What is shifted.
        rn: Reg,
        /// The amount in bits, below the size.
        immshift: ImmShift,
    },
    /// An extension of the lowest bits of a register.
    Extend {
        /// The result.
        rd: Writable<Reg>,
        /// What is extended.
        rn: Reg,
        /// Whether the bits are a signed number.
        signed: bool,
        /// How many bits are extended, from 1.
        from_bits: u8,
        /// To how many bits, at most 64; above them stand zeros.
        to_bits: u8,
    },
    /// `ubfm` or `sbfm`: moves a bitfield, and sets the other bits.
    BitfieldMove {
        /// The size of the operands.
        size: OperandSize,
        /// The operator.
        bfm_op: BfmOp,
        /// The result.
        rd: Writable<Reg>,
        /// The operand.
        rn: Reg,
        /// By how many bits the operand is rotated to the right.
        immr: UImm6,
        /// The highest bit of the field.
        imms: UImm6,
    },
    /// `bfm`: moves a bitfield, and keeps the other bits.
    BitfieldMoveMod {
        /// The size of the operands.
        size: OperandSize,
        /// The result.
        rd: Writable<Reg>,
        /// The register of which the other bits stay, which is the result's.
        ri: Reg,
        /// The operand.
        rn: Reg,
        /// By how many bits the operand is rotated to the right.
        immr: UImm6,
        /// The highest bit of the field.
        imms: UImm6,
    },
    /// An integer operation on two registers.
    AluRRR {
        /// The operator.
        alu_op: ALUOp,
        /// The size of the operands.
        size: OperandSize,
        /// The result.
        rd: Writable<Reg>,
        /// The first operand.
        rn: Reg,
        /// The second operand.
        rm: Reg,
    },
    /// An operation on the bits of one register.
    BitRR {
        /// The operator.
        op: BitOp,
        /// The size of the operands.
        size: OperandSize,
        /// The result.
        rd: Writable<Reg>,
        /// The operand.
        rn: Reg,
    },
    /// An operation on a register and a shifted register, or an extraction from two.
    AluRRRShift {
        /// The operator.
        alu_op: ALUOp,
        /// The size of the operands.
        size: OperandSize,
        /// The result.
        rd: Writable<Reg>,
        /// The first operand.
        rn: Reg,
        /// The second operand, before it is shifted.
        rm: Reg,
        /// The shift, by less than the size.
        shiftop: ShiftOpAndAmt,
    },
    /// `mov` of a register.
    Mov {
        /// The size of the registers.
        size: OperandSize,
        /// The result.
        rd: Writable<Reg>,
        /// What is moved.
        rm: Reg,
    },
    /// `mov` at 64 bits out of one of x21, x29, x30 and the stack pointer.
    MovFromPReg {
        /// The result.
        rd: Writable<Reg>,
        /// What is moved.
        rm: PReg,
    },
    /// `mov` at 64 bits into one of x21, x29 and x30.
    MovToPReg {
        /// The result.
        rd: PReg,
        /// What is moved.
        rm: Reg,
    },
    /// An addition or subtraction of an extended register.
    AluRRRExtend {
        /// The operator.
        alu_op: ALUOp,
        /// The size of the operands.
        size: OperandSize,
        /// The result.
        rd: Writable<Reg>,
        /// The first operand.
        rn: Reg,
        /// The second operand, before it is extended.
        rm: Reg,
        /// How it is extended.
        extendop: ExtendOp,
    },
    /// `ccmp` of two registers: a comparison where a condition holds, else these flags.
    CCmp {
        /// The size of the operands.
        size: OperandSize,
        /// The first operand.
        rn: Reg,
        /// The second operand.
        rm: Reg,
        /// The flags where the condition fails.
        nzcv: NZCV,
        /// The condition.
        cond: Cond,
    },
    /// `ccmp` of a register and an immediate.
    CCmpImm {
        /// The size of the operands.
        size: OperandSize,
        /// The first operand.
        rn: Reg,
        /// The second operand.
        imm: UImm5,
        /// The flags where the condition fails.
        nzcv: NZCV,
        /// The condition.
        cond: Cond,
    },
    /// `csel` at 64 bits: one of two registers, by a condition.
    CSel {
        /// The result.
        rd: Writable<Reg>,
        /// What it is where the condition holds.
        rn: Reg,
        /// What it is where the condition fails.
        rm: Reg,
        /// The condition.
        cond: Cond,
    },
    /// `cset` at 64 bits: 1 where a condition holds, else 0.
    CSet {
        /// The result.
        rd: Writable<Reg>,
        /// The condition.
        cond: Cond,
    },
    /// `csetm` at 64 bits: all ones where a condition holds, else 0.
    CSetm {
        /// The result.
        rd: Writable<Reg>,
        /// The condition.
        cond: Cond,
    },
    /// `csneg` at 64 bits: a register, or the negative of another, by a condition.
    CSNeg {
        /// The result.
        rd: Writable<Reg>,
        /// What it is where the condition holds.
        rn: Reg,
        /// What it is the negative of where the condition fails.
        rm: Reg,
        /// The condition.
        cond: Cond,
    },
    /// An integer operation on three registers.
    AluRRRR {
        /// The operator.
        alu_op: ALUOp3,
        /// The size of the operands.
        size: OperandSize,
        /// The result.
        rd: Writable<Reg>,
        /// The first factor.
        rn: Reg,
        /// The second factor.
        rm: Reg,
        /// What the product is added to, or subtracted from.
        ra: Reg,
    },
    /// `mov` of one lane of a vector register, with zeros above it.
    FpuMoveFromVec {
        /// The result.
        rd: Writable<Reg>,
        /// The vector.
        rn: Reg,
        /// The lane's number, below 4 for lanes of 32 bits and below 2 for those of 64.
        idx: u8,
        /// The lanes, of 32 or 64 bits.
        size: VectorSize,
    },
    /// `ushr` of the lowest 64 bits of a vector register, in one lane or in two, with zeros above the result.
    FpuRRI {
        /// The operator, with the amount.
        fpu_op: FPUOpRI,
        /// The result.
        rd: Writable<Reg>,
        /// What is shifted.
        rn: Reg,
    },
    /// `sli` of the lowest 64 bits of a vector register, in one lane or in two, with zeros above the result. In each lane
    /// the result keeps its own lowest bits, as many as the amount.
    FpuRRIMod {
        /// The operator, with the amount.
        fpu_op: FPUOpRIMod,
        /// The result.
        rd: Writable<Reg>,
        /// The register of which each lane's lowest bits stay, which is the result's.
        ri: Reg,
        /// What is shifted.
        rn: Reg,
    },
    /// `mov` of a whole vector register.
    FpuMove128 {
        /// The result.
        rd: Writable<Reg>,
        /// What is moved.
        rn: Reg,
    },
    /// A conversion of a float to an integer, towards zero.
    FpuToInt {
        /// The operator.
        op: FpuToIntOp,
        /// The result, a general register.
        rd: Writable<Reg>,
        /// The float.
        rn: Reg,
    },
    /// A conversion of an integer to a float.
    IntToFpu {
        /// The operator.
        op: IntToFpuOp,
        /// The result.
        rd: Writable<Reg>,
        /// The integer, in a general register.
        rn: Reg,
    },
    /// `fmov` of the bits of a general register, with zeros above them.
    MovToFpu {
        /// The result.
        rd: Writable<Reg>,
        /// What is moved, a general register.
        rn: Reg,
        /// How many bits: 16, 32 or 64.
        size: ScalarSize,
    },
    /// `fmov` at 32 bits: a float out of another register, with zeros above it.
    FpuMove32 {
        /// The result.
        rd: Writable<Reg>,
        /// What is moved.
        rn: Reg,
    },
    /// `fmov` at 64 bits: a float out of another register, with zeros above it.
    FpuMove64 {
        /// The result.
        rd: Writable<Reg>,
        /// What is moved.
        rn: Reg,
    },
    /// `fmov` of a float of 16, 32 or 64 bits, with zeros above it.
    FpuExtend {
        /// The result.
        rd: Writable<Reg>,
        /// What is moved.
        rn: Reg,
        /// The size of the float.
        size: ScalarSize,
    },
    /// An operation on one float.
    FpuRR {
        /// The operator.
        fpu_op: FPUOp1,
        /// The size of the operand: 32 bits for `Cvt32To64`, 64 for `Cvt64To32`, else 16, 32 or 64.
        size: ScalarSize,
        /// The result.
        rd: Writable<Reg>,
        /// The operand.
        rn: Reg,
    },
    /// A rounding of a float to an integral value.
    FpuRound {
        /// The direction, and the size of the float.
        op: FpuRoundMode,
        /// The result.
        rd: Writable<Reg>,
        /// The operand.
        rn: Reg,
    },
    /// `fcmp` of two floats of 16, 32 or 64 bits, which sets the flags.
    FpuCmp {
        /// The size of the operands.
        size: ScalarSize,
        /// The first operand.
        rn: Reg,
        /// The second operand.
        rm: Reg,
    },
    /// `fmov` of an immediate float of 16, 32 or 64 bits.
    FpuMoveFPImm {
        /// The result.
        rd: Writable<Reg>,
        /// The float, which is one of the size.
        imm: ASIMDFPModImm,
        /// The size of the float.
        size: ScalarSize,
    },
    /// An operation on two floats of 16, 32 or 64 bits.
    FpuRRR {
        /// The operator.
        fpu_op: FPUOp2,
        /// The size of the operands.
        size: ScalarSize,
        /// The result.
        rd: Writable<Reg>,
        /// The first operand.
        rn: Reg,
        /// The second operand.
        rm: Reg,
    },
    /// `fcsel` at 16 bits: one of two floats, by a condition.
    FpuCSel16 {
        /// The result.
        rd: Writable<Reg>,
        /// What it is where the condition holds.
        rn: Reg,
        /// What it is where the condition fails.
        rm: Reg,
        /// The condition.
        cond: Cond,
    },
    /// `fcsel` at 32 bits: one of two floats, by a condition.
    FpuCSel32 {
        /// The result.
        rd: Writable<Reg>,
        /// What it is where the condition holds.
        rn: Reg,
        /// What it is where the condition fails.
        rm: Reg,
        /// The condition.
        cond: Cond,
    },
    /// `fcsel` at 64 bits: one of two floats, by a condition.
    FpuCSel64 {
        /// The result.
        rd: Writable<Reg>,
        /// What it is where the condition holds.
        rn: Reg,
        /// What it is where the condition fails.
        rm: Reg,
        /// The condition.
        cond: Cond,
    },
    /// An operation on three floats of 16, 32 or 64 bits.
    FpuRRRR {
        /// The operator.
        fpu_op: FPUOp3,
        /// The size of the operands.
        size: ScalarSize,
        /// The result.
        rd: Writable<Reg>,
        /// The first factor.
        rn: Reg,
        /// The second factor.
        rm: Reg,
        /// The addend, which some operators negate.
        ra: Reg,
    },
    /// An operation on the two lanes of 64 bits, with zeros above the result.
    VecRRPair {
        /// The operator.
        op: VecPairOp,
        /// The result.
        rd: Writable<Reg>,
        /// The operand.
        rn: Reg,
    },
    /// An operation on one vector.
    VecMisc {
        /// The operator.
        op: VecMisc2,
        /// The result.
        rd: Writable<Reg>,
        /// The operand.
        rn: Reg,
        /// The lanes, which the operator has.
        size: VectorSize,
    },
    /// An operation on half of the lanes, whose results have twice the bits.
    VecRRLong {
        /// The operator.
        op: VecRRLongOp,
        /// The result.
        rd: Writable<Reg>,
        /// The operand.
        rn: Reg,
        /// Whether the upper half of the lanes is read.
        high_half: bool,
    },
    /// An operation whose results have half the bits: they fill the lower half, with zeros above it.
    VecRRNarrowLow {
        /// The operator.
        op: VecRRNarrowOp,
        /// The result.
        rd: Writable<Reg>,
        /// The operand.
        rn: Reg,
        /// The size of a lane of the result: 8, 16 or 32 bits; 16 or 32 for floats.
        lane_size: ScalarSize,
    },
    /// An operation whose results have half the bits: they fill the upper half, and the lower one stays.
    VecRRNarrowHigh {
        /// The operator.
        op: VecRRNarrowOp,
        /// The result.
        rd: Writable<Reg>,
        /// The register of which the lower half stays, which is the result's.
        ri: Reg,
        /// The operand.
        rn: Reg,
        /// The size of a lane of the result: 8, 16 or 32 bits; 16 or 32 for floats.
        lane_size: ScalarSize,
    },
    /// An operation on each two neighbouring lanes, whose results have twice the bits.
    VecRRPairLong {
        /// The operator.
        op: VecRRPairLongOp,
        /// The result.
        rd: Writable<Reg>,
        /// The operand.
        rn: Reg,
    },
    /// An operation over the lanes of one vector, with zeros above the result.
    VecLanes {
        /// The operator.
        op: VecLanesOp,
        /// The result.
        rd: Writable<Reg>,
        /// The operand.
        rn: Reg,
        /// The lanes: at least four of them.
        size: VectorSize,
    },
    /// An operation on half of the lanes of two vectors, whose results have twice the bits.
    VecRRRLong {
        /// The operator.
        alu_op: VecRRRLongOp,
        /// The result.
        rd: Writable<Reg>,
        /// The first operand.
        rn: Reg,
        /// The second operand.
        rm: Reg,
        /// Whether the upper halves of the lanes are read.
        high_half: bool,
    },
    /// An operation on half of the lanes of two vectors, which adds to the lanes of its result.
    VecRRRLongMod {
        /// The operator.
        alu_op: VecRRRLongModOp,
        /// The result.
        rd: Writable<Reg>,
        /// The register with the addends, which is the result's.
        ri: Reg,
        /// The first operand.
        rn: Reg,
        /// The second operand.
        rm: Reg,
        /// Whether the upper halves of the lanes are read.
        high_half: bool,
    },
    /// An operation on two vectors.
    VecRRR {
        /// The operator.
        alu_op: VecALUOp,
        /// The result.
        rd: Writable<Reg>,
        /// The first operand.
        rn: Reg,
        /// The second operand.
        rm: Reg,
        /// The lanes, which the operator has.
        size: VectorSize,
    },
    /// An operation on two vectors and the register of its result.
    VecRRRMod {
        /// The operator.
        alu_op: VecALUModOp,
        /// The result.
        rd: Writable<Reg>,
        /// The third operand, which is the result's register.
        ri: Reg,
        /// The first operand.
        rn: Reg,
        /// The second operand.
        rm: Reg,
        /// The lanes, of 32 or 64 bits for `Fmla` and `Fmls`. Of the others only their width counts.
        size: VectorSize,
    },
    /// `sxtl`, `sxtl2`, `uxtl` or `uxtl2`: half of the lanes, each extended to twice its bits.
    VecExtend {
        /// The operator.
        t: VecExtendOp,
        /// The result.
        rd: Writable<Reg>,
        /// The operand.
        rn: Reg,
        /// Whether the upper half of the lanes is read.
        high_half: bool,
        /// The size of a lane of the result: 16, 32 or 64 bits.
        lane_size: ScalarSize,
    },
    /// A shift of each lane by a number.
    VecShiftImm {
        /// The operator.
        op: VecShiftImmOp,
        /// The result.
        rd: Writable<Reg>,
        /// The operand.
        rn: Reg,
        /// The lanes.
        size: VectorSize,
        /// The amount in bits: below a lane's bits to the left, and from 1 to a lane's bits to the right.
        imm: u8,
    },
    /// A shift of each lane by a number, which keeps bits of its result.
    VecShiftImmMod {
        /// The operator.
        op: VecShiftImmModOp,
        /// The result.
        rd: Writable<Reg>,
        /// The register of which bits stay, in each lane those below the amount, which is the result's.
        ri: Reg,
        /// The operand.
        rn: Reg,
        /// The lanes.
        size: VectorSize,
        /// The amount in bits, below a lane's bits.
        imm: u8,
    },
    /// `fmla` or `fmls` of a vector and one lane of another.
    VecFmlaElem {
        /// The operator: `Fmla` or `Fmls`.
        alu_op: VecALUModOp,
        /// The result.
        rd: Writable<Reg>,
        /// The register with the addends, which is the result's.
        ri: Reg,
        /// The first operand.
        rn: Reg,
        /// The vector with the lane.
        rm: Reg,
        /// The lanes: 4 of 32 bits, or 2 of 64.
        size: VectorSize,
        /// The lane's number, below how many lanes the size has.
        idx: u8,
    },
    /// `tbl` with one vector: bytes of a table by their numbers, or 0 where a number is too large.
    VecTbl {
        /// The result.
        rd: Writable<Reg>,
        /// The table of 16 bytes.
        rn: Reg,
        /// The numbers.
        rm: Reg,
    },
    /// `tbx` with one vector: bytes of a table by their numbers; where a number is too large, a byte stays.
    VecTblExt {
        /// The result.
        rd: Writable<Reg>,
        /// The register of which bytes stay, which is the result's.
        ri: Reg,
        /// The table of 16 bytes.
        rn: Reg,
        /// The numbers.
        rm: Reg,
    },
    /// `tbl` with two vectors: bytes of a table by their numbers, or 0 where a number is too large.
    VecTbl2 {
        /// The result.
        rd: Writable<Reg>,
        /// The lower half of the table of 32 bytes.
        rn: Reg,
        /// Its upper half: the register behind `rn`, which is v0 behind v31.
        rn2: Reg,
        /// The numbers.
        rm: Reg,
    },
    /// `tbx` with two vectors: bytes of a table by their numbers; where a number is too large, a byte stays.
    VecTbl2Ext {
        /// The result.
        rd: Writable<Reg>,
        /// The register of which bytes stay, which is the result's.
        ri: Reg,
        /// The lower half of the table of 32 bytes.
        rn: Reg,
        /// Its upper half: the register behind `rn`, which is v0 behind v31.
        rn2: Reg,
        /// The numbers.
        rm: Reg,
    },
    /// `ext`: 16 bytes out of two vectors one behind the other.
    VecExtract {
        /// The result.
        rd: Writable<Reg>,
        /// The lower vector.
        rn: Reg,
        /// The upper vector.
        rm: Reg,
        /// How many bytes stand below those that are taken, less than 16.
        imm4: u8,
    },
    /// `dup` of one lane to all lanes.
    VecDupFromFpu {
        /// The result.
        rd: Writable<Reg>,
        /// The vector with the lane.
        rn: Reg,
        /// The lanes.
        size: VectorSize,
        /// The lane's number, below 16, 8, 4 or 2 for lanes of 8, 16, 32 or 64 bits.
        lane: u8,
    },
    /// `dup` of a general register to all lanes.
    VecDup {
        /// The result.
        rd: Writable<Reg>,
        /// What is copied, a general register.
        rn: Reg,
        /// The lanes.
        size: VectorSize,
    },
    /// `smov` of one lane to a general register, with its sign above it.
    MovFromVecSigned {
        /// The result, a general register.
        rd: Writable<Reg>,
        /// The vector.
        rn: Reg,
        /// The lane's number, below how many lanes the size has.
        idx: u8,
        /// The lanes, of 8, 16 or 32 bits.
        size: VectorSize,
        /// The size of the result: 64 bits where lanes have 32.
        scalar_size: OperandSize,
    },
    /// `umov` of one lane to a general register, with zeros above it.
    MovFromVec {
        /// The result, a general register.
        rd: Writable<Reg>,
        /// The vector.
        rn: Reg,
        /// The lane's number, below 16, 8, 4 or 2 for lanes of 8, 16, 32 or 64 bits.
        idx: u8,
        /// The size of the lane: 8, 16, 32 or 64 bits.
        size: ScalarSize,
    },
    /// `mov` of a general register to one lane, of which the others stay.
    MovToVec {
        /// The result.
        rd: Writable<Reg>,
        /// The register of which the other lanes stay, which is the result's.
        ri: Reg,
        /// What is moved, a general register.
        rn: Reg,
        /// The lane's number, below 16, 8, 4 or 2 for lanes of 8, 16, 32 or 64 bits.
        idx: u8,
        /// The lanes.
        size: VectorSize,
    },
    /// `mov` of one lane to another, of which the others stay.
    VecMovElement {
        /// The result.
        rd: Writable<Reg>,
        /// The register of which the other lanes stay, which is the result's.
        ri: Reg,
        /// The vector with the lane that is moved.
        rn: Reg,
        /// The number of the lane that is written, below 16, 8, 4 or 2 for lanes of 8, 16, 32 or 64 bits.
        dest_idx: u8,
        /// The number of the lane that is read, in the same range.
        src_idx: u8,
        /// The lanes.
        size: VectorSize,
    },
    /// `fmov` of an immediate float to all lanes.
    VecDupFPImm {
        /// The result.
        rd: Writable<Reg>,
        /// The float, which is one of a lane's size.
        imm: ASIMDFPModImm,
        /// The lanes, of 32 or 64 bits.
        size: VectorSize,
    },
    /// `movi` or `mvni` of an immediate to all lanes.
    VecDupImm {
        /// The result.
        rd: Writable<Reg>,
        /// The immediate, which is of 64 bits exactly where lanes are. Its shift is 0 for lanes of 8 and 64 | bits, 0 or 8 for those of 16, and 0, 8, 16 or 24 for those of 32, or 8 or 16 where ones are shifted | in, as they are for lanes of 32 bits alone.
        imm: ASIMDMovModImm,
        /// Whether the complement is copied: for lanes of 16 and 32 bits alone.
        invert: bool,
        /// The lanes.
        size: VectorSize,
    },
    /// `xpaclri`: strips the signature off the return address in x30.
    Xpaclri,
    /// `csdb`: no result of a guess that is not settled yet is used behind it.
    Csdb,
    /// `paciaz`, `paciasp`, `pacibz` or `pacibsp`: signs the return address in x30.
    Paci {
        /// The key and the modifier.
        key: APIKey,
    },
    /// `bti`: a place to which branches may go, where memory is guarded.
    Bti {
        /// Which branches may go there.
        targets: BranchTargetType,
    },
    /// `dmb ish`: a barrier between the memory accesses before it and those behind it.
    Fence,
    /// A word that is no instruction, which traps.
    Udf {
        /// Why it traps.
        trap_code: TrapCode,
    },
    /// A conditional branch, and behind it an unconditional one.
    CondBr {
        /// Where it goes if the test succeeds: less than 2^20 bytes forward, at most so many back.
        taken: BranchTarget,
        /// Where it goes otherwise.
        not_taken: BranchTarget,
        /// The test.
        kind: CondBrKind,
    },
    /// A trap if a test succeeds: a conditional branch to a word that traps, which stands in an
    /// island or behind the code.
    TrapIf {
        /// The test.
        kind: CondBrKind,
        /// Why it traps.
        trap_code: TrapCode,
    },
    /// `brk`: stops in a debugger.
    Brk,
    /// `nop`: one word that does nothing.
    Nop4,
    /// `msr nzcv`: sets the flags.
    MovToNZCV {
        /// The flags, in bits 31 to 28.
        rn: Reg,
    },
    /// `mrs` of `nzcv`: reads the flags.
    MovFromNZCV {
        /// The result.
        rd: Writable<Reg>,
    },
    /// `br`: a branch to the address in a register.
    IndirectBr {
        /// The address.
        rn: Reg,
        /// The labels to which it may go, which the word does not tell.
        targets: ListVec<MachLabel>,
    },
    /// `ret`: a return to the address in x30.
    Ret,
    /// A return to the address in x30, which is authenticated before: `retaa` or `retab` where the modifier is the
    /// stack pointer and no hint is asked for, else a hint (`autiasp` and its like), and behind it `ret`.
    AuthenticatedRet {
        /// The key and the modifier.
        key: APIKey,
        /// Whether a hint is asked for, which older processors pass over. With the modifier zero it is a hint in any case.
        is_hint: bool,
    },
    /// `b`: an unconditional branch.
    Jump {
        /// Where it goes.
        dest: BranchTarget,
    },
    /// A branch on one bit of a register, and behind it an unconditional one.
    TestBitAndBranch {
        /// The test of the bit.
        kind: TestBitAndBranchKind,
        /// Where it goes if the test succeeds: less than 2^15 bytes forward, at most so many back.
        taken: BranchTarget,
        /// Where it goes otherwise.
        not_taken: BranchTarget,
        /// The register.
        rn: Reg,
        /// The bit's number, below 64.
        bit: u8,
    },
    /// `adr` of a label: an address near the code.
    LabelAddress {
        /// The result.
        dst: Writable<Reg>,
        /// The label, whose address it is.
        label: MachLabel,
    },
    /// No word at all.
    Nop0,
    /// A word of data.
    Word4 {
        /// The word.
        value: u32,
    },
    /// Two words of data.
    Word8 {
        /// The words, the low one first.
        value: u64,
    },
    /// A place for an island, which has no words of its own.
    EmitIsland {
        /// How many bytes behind it must not need an island of their own.
        needed_space: u32,
    },
    /// The arguments with which a function is entered. It has no word.
    Args {
        /// The arguments.
        args: ListVec<ArgPair>,
    },
    /// The results with which a function is left. It has no word, and stands before a `Ret`.
    Rets {
        /// The results.
        rets: ListVec<RetPair>,
    },
    /// A use of a register that keeps its value. It has no word.
    DummyUse {
        /// The register, of either class.
        reg: Reg,
    },
    /// A point that code is not moved across. It has no word.
    SequencePoint,
    /// A jump through a table of labels, and behind it the table: four bytes for each target, and then for
    /// the default.
    ///
    /// The condition flags are to be those of a comparison of the index with the number of targets: where
    /// `lo` holds, the index chooses among the targets, and else the default is taken.
    JTSequence {
        /// Where it goes unless `lo` holds.
        default: MachLabel,
        /// The targets, from index 0 on.
        targets: ListVec<MachLabel>,
        /// The index, x0 to x30 or the zero register, of which the low 32 bits count.
        ridx: Reg,
        /// A register that the jump changes, x0 to x30.
        rtmp1: Writable<Reg>,
        /// Another one, x0 to x30, which is not the index either.
        rtmp2: Writable<Reg>,
    },
    /// The address of a symbol, from the global offset table: `adrp` and `ldr`.
    LoadExtNameGot {
        /// The result, x0 to x30.
        rd: Writable<Reg>,
        /// The symbol.
        name: ExternalName,
    },
    /// The address of a symbol within 4 GiB of the code: `adrp` and `add`.
    LoadExtNameNear {
        /// The result, x0 to x30.
        rd: Writable<Reg>,
        /// The symbol.
        name: ExternalName,
        /// How many bytes behind the symbol.
        offset: i64,
    },
    /// The address of a symbol anywhere: a load of the eight bytes that stand behind it, and a branch over
    /// these.
    LoadExtNameFar {
        /// The result, x0 to x30.
        rd: Writable<Reg>,
        /// The symbol.
        name: ExternalName,
        /// How many bytes behind the symbol.
        offset: i64,
    },
    /// A loop that stores to the stack at each step down to an offset, so that a guard page is met.
    /// It may stand only where the settings have `enable_probestack`.
    StackProbeLoop {
        /// The offset from the stack pointer of the last store, which the loop counts down; x0 to x30.
        start: Writable<Reg>,
        /// The amount below the stack pointer at which the loop ends.
        end: Reg,
        /// How many bytes each step goes down.
        step: Imm12,
    },
    /// An atomic operation on a register and memory as a loop, with acquire and release: `ldaxr`, the operation,
    /// `stlxr`, and `cbnz` back to the first where the store failed. Where the operator is a minimum or a maximum,
    /// it changes the flags.
    AtomicRMWLoop {
        /// The type of the value: 8, 16, 32 or 64 bits.
        ty: IrType,
        /// The operator.
        op: AtomicRMWLoopOp,
        /// What is known of the two accesses.
        flags: MemFlagsData,
        /// The address: x25.
        addr: Reg,
        /// The operand: x26.
        operand: Reg,
        /// What was there before, with zeros above it; `Smax` and `Smin` extend 8 and 16 bits with their sign to | 32: x27.
        oldval: Writable<Reg>,
        /// Whether the store failed: x24.
        scratch1: Writable<Reg>,
        /// What is stored: x28. `Xchg` stores its operand and leaves this register alone, which is x0 to x30 or the zero | register.
        scratch2: Writable<Reg>,
    },
    /// A compare and swap as a loop, with acquire and release: `ldaxr`, a comparison that changes the flags, `b.ne`
    /// out of the loop, `stlxr`, and `cbnz` back to the first where the store failed.
    AtomicCASLoop {
        /// The type of the value: 8, 16, 32 or 64 bits.
        ty: IrType,
        /// What is known of the two accesses.
        flags: MemFlagsData,
        /// The address: x25.
        addr: Reg,
        /// The value that is awaited: x26.
        expected: Reg,
        /// The new value, which is stored where the awaited one was there: x28.
        replacement: Reg,
        /// What was there before, with zeros above it: x27.
        oldval: Writable<Reg>,
        /// Whether the store failed: x24.
        scratch: Writable<Reg>,
    },
    /// A select of one of two vectors by a condition: two branches and two moves.
    VecCSel {
        /// The result.
        rd: Writable<Reg>,
        /// What the result is where the condition holds.
        rn: Reg,
        /// What it is where the condition fails.
        rm: Reg,
        /// The condition.
        cond: Cond,
    },
    /// `bl`: a call of a symbol. Behind it the stack pointer comes back, and then results that stand on
    /// the stack are loaded, which may change x16.
    Call {
        /// What is known of the call.
        info: CallInfo<ExternalName>,
    },
    /// `blr`: a call of the address in a register, as `Call`.
    CallInd {
        /// What is known of the call.
        info: CallInfo<Reg>,
    },
    /// A return that calls a symbol: what the frame has saved is restored, the stack pointer is moved to
    /// the new arguments, the return address is authenticated where a key says so, and `b` goes there.
    ReturnCall {
        /// What is known of the call.
        info: ReturnCallInfo<ExternalName>,
    },
    /// A return that calls the address in a register by `br`, as `ReturnCall`.
    ReturnCallInd {
        /// What is known of the call.
        info: ReturnCallInfo<Reg>,
    },
    /// `caspal`: a compare and swap of 128 bits with acquire and release.
    AtomicCAS128 {
        /// The registers, and what is known of the access.
        args: AtomicCAS128Args,
    },
    /// `ld1r`: a load of one value to all lanes.
    VecLoadReplicate {
        /// The result.
        rd: Writable<Reg>,
        /// The address: x0 to x30, or the stack pointer.
        rn: Reg,
        /// The lanes.
        size: VectorSize,
        /// What is known of the access.
        flags: MemFlagsData,
    },
    /// A store with release: `stlrb`, `stlrh` or `stlr`.
    StoreRelease {
        /// The type of the value: 8, 16, 32 or 64 bits.
        access_ty: IrType,
        /// What is stored.
        rt: Reg,
        /// The address: x0 to x30, or the stack pointer.
        rn: Reg,
        /// What is known of the access.
        flags: MemFlagsData,
    },
    /// A load with acquire: `ldarb`, `ldarh` or `ldar`.
    LoadAcquire {
        /// The type of the value: 8, 16, 32 or 64 bits.
        access_ty: IrType,
        /// The result.
        rt: Writable<Reg>,
        /// The address: x0 to x30, or the stack pointer.
        rn: Reg,
        /// What is known of the access.
        flags: MemFlagsData,
    },
    /// `casal`: a compare and swap with acquire and release.
    AtomicCAS {
        /// What was there before: the register of `rs`.
        rd: Writable<Reg>,
        /// The value that is awaited.
        rs: Reg,
        /// The new value, which is stored where the awaited one was there.
        rt: Reg,
        /// The address: x0 to x30, or the stack pointer.
        rn: Reg,
        /// The type of the value: 8, 16, 32 or 64 bits.
        ty: IrType,
        /// What is known of the access.
        flags: MemFlagsData,
    },
    /// `stp` of two 64-bit registers.
    StoreP64 {
        /// What is stored at the address.
        rt: Reg,
        /// What is stored 8 bytes behind it.
        rt2: Reg,
        /// The address.
        mem: PairAMode,
        /// What is known of the access.
        flags: MemFlagsData,
    },
    /// `ldp` of two 64-bit registers.
    LoadP64 {
        /// What is loaded from the address.
        rt: Writable<Reg>,
        /// What is loaded from 8 bytes behind it.
        rt2: Writable<Reg>,
        /// The address.
        mem: PairAMode,
        /// What is known of the access.
        flags: MemFlagsData,
    },
    /// `stp` of the lower 64 bits of two vector registers.
    FpuStoreP64 {
        /// What is stored at the address.
        rt: Reg,
        /// What is stored 8 bytes behind it.
        rt2: Reg,
        /// The address, with an offset in units of `F64`.
        mem: PairAMode,
        /// What is known of the access.
        flags: MemFlagsData,
    },
    /// `ldp` of the lower 64 bits of two vector registers, with zeros above them.
    FpuLoadP64 {
        /// What is loaded from the address.
        rt: Writable<Reg>,
        /// What is loaded from 8 bytes behind it.
        rt2: Writable<Reg>,
        /// The address, with an offset in units of `F64`.
        mem: PairAMode,
        /// What is known of the access.
        flags: MemFlagsData,
    },
    /// `stp` of two whole vector registers.
    FpuStoreP128 {
        /// What is stored at the address.
        rt: Reg,
        /// What is stored 16 bytes behind it.
        rt2: Reg,
        /// The address, with an offset in units of `I8X16`.
        mem: PairAMode,
        /// What is known of the access.
        flags: MemFlagsData,
    },
    /// `ldp` of two whole vector registers.
    FpuLoadP128 {
        /// What is loaded from the address.
        rt: Writable<Reg>,
        /// What is loaded from 16 bytes behind it.
        rt2: Writable<Reg>,
        /// The address, with an offset in units of `I8X16`.
        mem: PairAMode,
        /// What is known of the access.
        flags: MemFlagsData,
    },
    /// An atomic operation on a register and memory, with acquire and release: `ldaddal` and its like, and
    /// `swpal`.
    AtomicRMW {
        /// The type of the value: 8, 16, 32 or 64 bits.
        ty: IrType,
        /// The operator.
        op: AtomicRMWOp,
        /// The operand.
        rs: Reg,
        /// What was there before, x0 to x30.
        rt: Writable<Reg>,
        /// The address: x0 to x30, or the stack pointer.
        rn: Reg,
        /// What is known of the access.
        flags: MemFlagsData,
    },
    /// The address of an addressing mode, of which nothing is loaded.
    LoadAddr {
        /// The result, x0 to x30.
        rd: Writable<Reg>,
        /// The addressing mode.
        mem: AMode,
    },
    /// Load of an unsigned byte, with zeros above it.
    ULoad8 {
        /// The result.
        rd: Writable<Reg>,
        /// The address.
        mem: AMode,
        /// What is known of the access.
        flags: MemFlagsData,
    },
    /// Load of a signed byte, extended to 64 bits.
    SLoad8 {
        /// The result.
        rd: Writable<Reg>,
        /// The address.
        mem: AMode,
        /// What is known of the access.
        flags: MemFlagsData,
    },
    /// Load of an unsigned halfword, with zeros above it.
    ULoad16 {
        /// The result.
        rd: Writable<Reg>,
        /// The address.
        mem: AMode,
        /// What is known of the access.
        flags: MemFlagsData,
    },
    /// Load of a signed halfword, extended to 64 bits.
    SLoad16 {
        /// The result.
        rd: Writable<Reg>,
        /// The address.
        mem: AMode,
        /// What is known of the access.
        flags: MemFlagsData,
    },
    /// Load of an unsigned word, with zeros above it.
    ULoad32 {
        /// The result.
        rd: Writable<Reg>,
        /// The address.
        mem: AMode,
        /// What is known of the access.
        flags: MemFlagsData,
    },
    /// Load of a signed word, extended to 64 bits.
    SLoad32 {
        /// The result.
        rd: Writable<Reg>,
        /// The address.
        mem: AMode,
        /// What is known of the access.
        flags: MemFlagsData,
    },
    /// Load of a doubleword.
    ULoad64 {
        /// The result.
        rd: Writable<Reg>,
        /// The address.
        mem: AMode,
        /// What is known of the access.
        flags: MemFlagsData,
    },
    /// Load of 16 bits of a vector register, with zeros above them.
    FpuLoad16 {
        /// The result.
        rd: Writable<Reg>,
        /// The address.
        mem: AMode,
        /// What is known of the access.
        flags: MemFlagsData,
    },
    /// Load of 32 bits of a vector register, with zeros above them.
    FpuLoad32 {
        /// The result.
        rd: Writable<Reg>,
        /// The address.
        mem: AMode,
        /// What is known of the access.
        flags: MemFlagsData,
    },
    /// Load of 64 bits of a vector register, with zeros above them.
    FpuLoad64 {
        /// The result.
        rd: Writable<Reg>,
        /// The address.
        mem: AMode,
        /// What is known of the access.
        flags: MemFlagsData,
    },
    /// Load of a whole vector register.
    FpuLoad128 {
        /// The result.
        rd: Writable<Reg>,
        /// The address.
        mem: AMode,
        /// What is known of the access.
        flags: MemFlagsData,
    },
    /// Store of the lowest byte of a register.
    Store8 {
        /// What is stored.
        rd: Reg,
        /// The address.
        mem: AMode,
        /// What is known of the access.
        flags: MemFlagsData,
    },
    /// Store of the lowest halfword of a register.
    Store16 {
        /// What is stored.
        rd: Reg,
        /// The address.
        mem: AMode,
        /// What is known of the access.
        flags: MemFlagsData,
    },
    /// Store of the lowest word of a register.
    Store32 {
        /// What is stored.
        rd: Reg,
        /// The address.
        mem: AMode,
        /// What is known of the access.
        flags: MemFlagsData,
    },
    /// Store of a whole register.
    Store64 {
        /// What is stored.
        rd: Reg,
        /// The address.
        mem: AMode,
        /// What is known of the access.
        flags: MemFlagsData,
    },
    /// Store of the lowest 16 bits of a vector register.
    FpuStore16 {
        /// What is stored.
        rd: Reg,
        /// The address.
        mem: AMode,
        /// What is known of the access.
        flags: MemFlagsData,
    },
    /// Store of the lowest 32 bits of a vector register.
    FpuStore32 {
        /// What is stored.
        rd: Reg,
        /// The address.
        mem: AMode,
        /// What is known of the access.
        flags: MemFlagsData,
    },
    /// Store of the lowest 64 bits of a vector register.
    FpuStore64 {
        /// What is stored.
        rd: Reg,
        /// The address.
        mem: AMode,
        /// What is known of the access.
        flags: MemFlagsData,
    },
    /// Store of a whole vector register.
    FpuStore128 {
        /// What is stored.
        rd: Reg,
        /// The address.
        mem: AMode,
        /// What is known of the access.
        flags: MemFlagsData,
    },
}
