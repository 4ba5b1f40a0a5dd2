// Written by `python3 tools/instructions.py` from tables/instructions.txt.
//! The names with which lines begin, each with the kinds of the fields behind it.

ghost use Rattle.std.specs.Prelude.{map};
ghost use Rattle.a64_tokens.specs.Hash.{AreRows};
ghost use Rattle.a64_text.specs.declared.name_table.TheConstants.{INTEGER_NAMES, FLOAT_NAMES, VECTOR_NAMES, VECTOR_MOVE_NAMES, CONTROL_NAMES, SEQUENCE_NAMES, ACCESS_NAMES, OTHER_NAMES};
ghost use Rattle.a64_text.specs.Names.{name_text, kinds_of};

use crate::name::{
    CallName, ControlName, FloatName, ImmediateName, MemoryName, Name, PairName, RegisterName,
    SequenceName, SystemName, VectorMoveName, VectorName,
};
use a64_inst::AccessOp;
use a64_tokens::named::Row;
use a64_tokens::value::Kind;
use a64_tokens::vec_op::VecOpKind;

/// For each remainder of a hash, the home of the name that has it: 32 times the number of its class, plus
/// the number of its row there.
pub static NAME_HOMES: [u8; 2048] = [
    0, 0, 0, 0, 0, 165, 0, 0, 0, 0, 0, 0, 0, 0, 0, 0, 0, 0, 163, 0, 0, 0, 0, 0, 0, 0, 0, 0, 0, 0,
    0, 0, 0, 20, 0, 0, 0, 0, 0, 0, 0, 0, 0, 0, 0, 0, 0, 0, 0, 0, 0, 0, 0, 0, 0, 0, 0, 0, 0, 0, 0,
    0, 0, 0, 0, 0, 47, 197, 208, 0, 0, 0, 0, 0, 0, 0, 0, 0, 0, 0, 0, 0, 41, 0, 0, 0, 0, 203, 224,
    0, 0, 0, 0, 0, 0, 0, 0, 0, 9, 0, 0, 0, 0, 0, 0, 97, 143, 0, 0, 194, 0, 0, 0, 0, 239, 0, 0, 0,
    0, 0, 0, 0, 0, 0, 0, 0, 0, 0, 0, 0, 0, 0, 0, 0, 0, 0, 0, 0, 0, 0, 0, 0, 0, 0, 0, 0, 0, 0, 0, 0,
    0, 0, 0, 206, 201, 0, 0, 0, 0, 0, 0, 0, 0, 0, 0, 0, 0, 0, 0, 0, 0, 0, 0, 0, 145, 0, 0, 0, 192,
    0, 0, 0, 0, 37, 0, 0, 0, 0, 0, 0, 0, 0, 162, 0, 0, 0, 0, 0, 0, 0, 0, 3, 102, 39, 0, 0, 0, 0, 0,
    0, 0, 0, 0, 0, 0, 0, 0, 0, 0, 0, 161, 0, 0, 0, 0, 0, 0, 0, 0, 0, 0, 0, 0, 0, 0, 6, 0, 0, 0, 0,
    0, 0, 0, 0, 0, 0, 0, 0, 0, 0, 0, 0, 0, 0, 0, 0, 0, 0, 0, 0, 0, 0, 0, 0, 0, 0, 0, 0, 0, 0, 148,
    0, 0, 0, 0, 0, 0, 0, 0, 0, 0, 0, 0, 0, 0, 0, 46, 0, 0, 0, 0, 0, 0, 0, 0, 0, 0, 0, 0, 0, 0, 0,
    0, 0, 0, 0, 0, 0, 0, 0, 0, 0, 0, 0, 0, 0, 0, 0, 0, 0, 0, 0, 0, 0, 0, 0, 0, 0, 0, 0, 0, 0, 0, 0,
    0, 0, 0, 0, 0, 0, 0, 0, 0, 0, 0, 0, 0, 0, 0, 0, 1, 0, 0, 0, 0, 0, 0, 0, 0, 0, 0, 100, 0, 0, 0,
    0, 0, 0, 0, 0, 0, 0, 0, 0, 0, 0, 0, 0, 0, 0, 0, 0, 0, 0, 132, 0, 0, 0, 0, 0, 0, 36, 0, 0, 0, 0,
    0, 0, 0, 0, 0, 0, 0, 0, 72, 0, 0, 0, 0, 0, 0, 0, 0, 0, 0, 0, 202, 0, 0, 0, 0, 0, 205, 200, 0,
    0, 0, 0, 64, 169, 0, 0, 0, 0, 144, 0, 0, 0, 0, 0, 0, 0, 0, 0, 0, 106, 0, 0, 0, 0, 0, 42, 0, 0,
    0, 0, 0, 0, 0, 0, 0, 240, 0, 0, 0, 0, 0, 0, 0, 0, 0, 0, 0, 0, 0, 0, 0, 0, 0, 0, 0, 0, 0, 0, 0,
    0, 0, 0, 0, 0, 0, 0, 0, 0, 0, 0, 0, 0, 0, 0, 0, 0, 0, 0, 0, 0, 0, 0, 0, 0, 0, 0, 0, 99, 0, 0,
    0, 0, 0, 0, 0, 0, 0, 0, 0, 66, 0, 14, 0, 0, 0, 0, 0, 0, 33, 0, 0, 0, 0, 0, 0, 0, 0, 23, 0, 0,
    0, 0, 0, 147, 0, 0, 0, 0, 0, 0, 0, 0, 0, 0, 0, 0, 0, 0, 0, 0, 0, 0, 0, 0, 0, 0, 0, 0, 0, 0, 0,
    0, 0, 0, 0, 0, 0, 0, 0, 0, 0, 0, 0, 0, 0, 0, 0, 0, 0, 0, 0, 0, 49, 0, 0, 0, 0, 0, 0, 0, 0, 0,
    0, 0, 0, 0, 0, 0, 0, 0, 0, 0, 0, 0, 0, 0, 0, 0, 0, 0, 0, 0, 0, 0, 0, 0, 0, 0, 0, 0, 69, 0, 0,
    0, 0, 198, 0, 0, 0, 0, 0, 0, 0, 0, 0, 0, 0, 172, 0, 0, 0, 0, 0, 0, 12, 0, 0, 0, 0, 0, 0, 0, 0,
    0, 0, 0, 0, 43, 0, 0, 0, 0, 0, 0, 0, 0, 0, 0, 0, 0, 0, 0, 0, 0, 0, 0, 0, 0, 0, 0, 0, 0, 235, 0,
    0, 0, 0, 0, 0, 0, 0, 0, 35, 0, 0, 0, 0, 0, 0, 0, 0, 0, 0, 65, 135, 0, 0, 0, 0, 0, 0, 0, 0, 0,
    0, 0, 77, 0, 0, 0, 0, 0, 0, 0, 0, 0, 0, 0, 0, 0, 0, 0, 0, 0, 0, 0, 0, 0, 0, 0, 0, 0, 0, 0, 0,
    0, 0, 0, 0, 0, 146, 0, 0, 0, 0, 0, 0, 0, 0, 0, 0, 0, 0, 0, 0, 0, 0, 0, 0, 0, 0, 0, 0, 0, 0, 96,
    0, 0, 138, 0, 0, 0, 0, 0, 0, 0, 0, 0, 0, 0, 0, 0, 0, 0, 0, 0, 0, 0, 0, 0, 0, 0, 0, 0, 0, 0, 0,
    0, 0, 234, 0, 0, 0, 0, 0, 0, 0, 0, 0, 0, 0, 0, 0, 0, 0, 0, 0, 141, 0, 0, 0, 0, 0, 0, 0, 0, 0,
    0, 0, 0, 0, 0, 74, 0, 0, 0, 0, 0, 0, 0, 0, 0, 48, 0, 0, 0, 0, 0, 0, 0, 0, 0, 0, 0, 0, 0, 0, 0,
    0, 0, 0, 0, 0, 17, 0, 0, 0, 0, 0, 0, 0, 0, 0, 0, 5, 0, 0, 0, 0, 45, 0, 0, 0, 0, 196, 0, 0, 0,
    0, 0, 0, 0, 0, 0, 0, 0, 0, 0, 0, 0, 0, 0, 0, 0, 0, 0, 0, 0, 0, 0, 0, 0, 0, 0, 0, 0, 0, 0, 0, 0,
    0, 0, 0, 0, 0, 0, 0, 0, 0, 0, 0, 0, 0, 0, 0, 0, 0, 0, 0, 0, 0, 0, 0, 0, 0, 0, 0, 0, 0, 0, 0, 0,
    0, 0, 0, 0, 0, 0, 0, 0, 0, 0, 0, 0, 0, 0, 0, 0, 0, 0, 0, 0, 0, 0, 0, 0, 0, 0, 0, 142, 0, 0, 0,
    0, 0, 0, 0, 0, 0, 0, 0, 0, 0, 0, 0, 0, 0, 0, 0, 0, 0, 0, 0, 0, 0, 0, 0, 0, 0, 0, 0, 0, 0, 0,
    21, 0, 0, 0, 0, 0, 0, 0, 0, 0, 0, 0, 0, 0, 0, 0, 0, 0, 0, 0, 0, 0, 0, 0, 0, 0, 0, 0, 0, 0, 0,
    0, 0, 0, 0, 0, 0, 0, 0, 0, 0, 0, 0, 0, 0, 0, 0, 0, 227, 0, 129, 0, 0, 0, 0, 0, 0, 0, 0, 0, 0,
    0, 0, 0, 0, 0, 0, 0, 0, 0, 0, 0, 0, 11, 0, 0, 0, 0, 0, 0, 0, 0, 0, 0, 0, 0, 0, 0, 0, 0, 0, 0,
    0, 0, 0, 137, 0, 0, 0, 0, 166, 0, 0, 0, 0, 0, 0, 0, 0, 0, 0, 0, 0, 0, 0, 238, 0, 0, 0, 0, 0, 0,
    0, 0, 0, 0, 0, 0, 0, 0, 0, 0, 0, 0, 0, 0, 0, 0, 0, 0, 0, 0, 0, 0, 0, 0, 0, 232, 0, 0, 0, 0, 0,
    0, 0, 0, 0, 0, 0, 0, 0, 171, 0, 0, 0, 0, 0, 0, 0, 0, 0, 0, 0, 0, 0, 0, 0, 0, 0, 0, 0, 0, 0, 0,
    7, 0, 0, 13, 0, 0, 0, 0, 0, 0, 0, 0, 0, 0, 0, 0, 241, 0, 0, 0, 0, 0, 0, 0, 0, 0, 0, 0, 0, 18,
    0, 0, 0, 0, 0, 0, 0, 0, 0, 0, 0, 0, 0, 0, 0, 0, 0, 0, 0, 0, 0, 78, 0, 0, 0, 0, 0, 0, 0, 0, 0,
    0, 0, 134, 0, 0, 210, 0, 67, 0, 0, 0, 0, 0, 0, 0, 0, 0, 0, 0, 0, 0, 0, 0, 228, 104, 0, 0, 0, 0,
    195, 207, 0, 0, 0, 0, 0, 128, 0, 0, 0, 0, 0, 0, 0, 0, 0, 0, 0, 0, 0, 0, 0, 0, 0, 0, 0, 0, 0, 0,
    0, 0, 0, 0, 0, 0, 0, 0, 0, 0, 0, 0, 0, 0, 0, 0, 0, 0, 0, 0, 0, 0, 0, 0, 0, 0, 0, 0, 0, 0, 0, 0,
    0, 0, 0, 0, 0, 0, 0, 193, 0, 0, 4, 0, 0, 0, 0, 0, 0, 0, 0, 0, 0, 0, 0, 10, 0, 0, 0, 0, 0, 0, 0,
    0, 0, 0, 0, 0, 0, 0, 0, 0, 0, 16, 0, 0, 0, 0, 0, 0, 0, 0, 2, 38, 0, 0, 0, 0, 0, 0, 0, 0, 0, 0,
    0, 170, 0, 0, 0, 0, 0, 0, 0, 0, 0, 0, 242, 0, 0, 0, 0, 0, 0, 0, 0, 0, 0, 0, 0, 0, 0, 0, 0, 0,
    76, 0, 0, 0, 0, 0, 0, 0, 0, 0, 50, 0, 0, 0, 0, 0, 0, 0, 0, 0, 0, 0, 0, 0, 0, 0, 0, 0, 8, 0, 0,
    0, 0, 0, 0, 0, 0, 0, 0, 0, 0, 0, 0, 0, 0, 0, 0, 0, 0, 0, 32, 0, 0, 0, 0, 0, 0, 0, 0, 0, 0, 0,
    107, 0, 0, 0, 0, 0, 0, 0, 0, 0, 0, 0, 0, 0, 140, 0, 0, 0, 105, 0, 0, 0, 0, 0, 0, 0, 0, 0, 0, 0,
    0, 0, 0, 0, 0, 0, 0, 0, 0, 0, 0, 0, 0, 0, 0, 0, 237, 70, 0, 0, 0, 0, 0, 0, 0, 0, 0, 0, 0, 0, 0,
    0, 0, 0, 139, 0, 0, 0, 0, 0, 0, 0, 0, 0, 0, 0, 0, 0, 0, 0, 101, 0, 0, 0, 0, 0, 0, 0, 0, 0, 0,
    0, 0, 0, 0, 0, 0, 0, 0, 0, 0, 0, 0, 0, 0, 0, 0, 0, 0, 0, 0, 0, 0, 0, 0, 0, 0, 0, 0, 0, 108, 0,
    0, 0, 0, 0, 0, 0, 0, 0, 0, 0, 0, 0, 230, 0, 0, 0, 0, 204, 199, 0, 0, 0, 0, 0, 0, 0, 0, 0, 0, 0,
    0, 0, 0, 0, 0, 0, 0, 0, 0, 231, 0, 0, 0, 0, 0, 168, 0, 0, 0, 0, 103, 0, 0, 0, 0, 0, 0, 0, 0, 0,
    0, 0, 0, 0, 236, 0, 0, 0, 0, 0, 133, 0, 0, 0, 0, 0, 0, 0, 0, 0, 98, 0, 0, 0, 0, 0, 0, 0, 0, 0,
    0, 0, 0, 0, 0, 0, 0, 0, 233, 0, 0, 0, 0, 0, 0, 0, 149, 0, 0, 0, 0, 0, 0, 0, 0, 0, 0, 0, 0, 0,
    0, 0, 0, 0, 0, 0, 0, 0, 0, 0, 0, 0, 0, 0, 0, 0, 0, 0, 0, 0, 73, 0, 0, 167, 44, 0, 0, 0, 0, 0,
    0, 0, 0, 0, 0, 0, 0, 0, 0, 0, 0, 0, 0, 0, 0, 0, 0, 0, 0, 0, 0, 0, 0, 0, 0, 0, 0, 0, 0, 0, 0, 0,
    0, 0, 0, 0, 22, 0, 0, 225, 0, 0, 0, 136, 0, 209, 0, 0, 0, 0, 75, 0, 0, 0, 0, 0, 0, 0, 0, 0, 0,
    0, 0, 0, 0, 0, 0, 0, 0, 0, 0, 0, 164, 0, 0, 0, 0, 0, 68, 0, 0, 0, 0, 0, 0, 34, 0, 0, 0, 0, 0,
    0, 0, 0, 0, 0, 0, 0, 0, 0, 0, 0, 0, 0, 0, 0, 0, 0, 15, 0, 0, 0, 0, 0, 0, 0, 0, 0, 0, 0, 0, 0,
    0, 0, 0, 0, 0, 0, 0, 0, 131, 0, 0, 0, 0, 0, 0, 0, 0, 0, 0, 0, 0, 0, 0, 0, 0, 0, 0, 0, 0, 0, 0,
    0, 173, 0, 0, 0, 0, 0, 226, 0, 0, 0, 0, 0, 0, 0, 0, 0, 0, 0, 0, 229, 0, 0, 0, 0, 0, 40, 0, 0,
    71, 0, 0, 0, 0, 0, 0, 0, 0, 0, 0, 0, 0, 0, 0, 0, 0, 0, 0, 0, 0, 0, 0, 0, 0, 160, 0, 0, 0, 0, 0,
    0, 130, 19, 0, 0, 0, 0, 0, 0, 0, 0, 0, 0, 0, 0, 0, 0, 0, 0, 0, 0, 0, 0, 0, 0, 0, 0, 0, 0, 0, 0,
    0, 0,
];

/// A row of the table: a name, what it names, and the kinds of the fields behind it.
macro_rules! row {
    ($text:expr, $name:expr $(, $($kind:ident $(($op:ident))?)+)?) => {
        ($text, &[$($(Kind::$kind $((VecOpKind::$op))?),+)?], $name)
    };
}

/// The names of integer operations.
pub static INTEGER_NAMES: [Row<Name>; 24] = [
    row!(b"Adr", Name::Immediate(ImmediateName::Adr), Reg I32),
    row!(b"Adrp", Name::Immediate(ImmediateName::Adrp), Reg I32),
    row!(b"AluRRImm12", Name::Immediate(ImmediateName::AluRRImm12), AluOp Size Reg Reg Imm12),
    row!(b"AluRRImmLogic", Name::Immediate(ImmediateName::AluRRImmLogic), AluOp Size Reg Reg U64),
    row!(b"MovWide", Name::Immediate(ImmediateName::MovWide), MoveWideOp Reg Wide Size),
    row!(b"MovK", Name::Immediate(ImmediateName::MovK), Reg Reg Wide Size),
    row!(b"AluRRImmShift", Name::Immediate(ImmediateName::AluRRImmShift), AluOp Size Reg Reg ImmShift),
    row!(b"Extend", Name::Immediate(ImmediateName::Extend), Reg Reg Bool U8 U8),
    row!(b"BitfieldMove", Name::Immediate(ImmediateName::BitfieldMove), Size BfmOp Reg Reg UImm6 UImm6),
    row!(b"BitfieldMoveMod", Name::Immediate(ImmediateName::BitfieldMoveMod), Size Reg Reg Reg UImm6 UImm6),
    row!(b"AluRRR", Name::Register(RegisterName::AluRRR), AluOp Size Reg Reg Reg),
    row!(b"BitRR", Name::Register(RegisterName::BitRR), BitOp Size Reg Reg),
    row!(b"AluRRRShift", Name::Register(RegisterName::AluRRRShift), AluOp Size Reg Reg Reg Shift),
    row!(b"Mov", Name::Register(RegisterName::Mov), Size Reg Reg),
    row!(b"MovFromPReg", Name::Register(RegisterName::MovFromPReg), Reg PReg),
    row!(b"MovToPReg", Name::Register(RegisterName::MovToPReg), PReg Reg),
    row!(b"AluRRRExtend", Name::Register(RegisterName::AluRRRExtend), AluOp Size Reg Reg Reg Extend),
    row!(b"CCmp", Name::Register(RegisterName::CCmp), Size Reg Reg Nzcv Cond),
    row!(b"CCmpImm", Name::Register(RegisterName::CCmpImm), Size Reg UImm5 Nzcv Cond),
    row!(b"CSel", Name::Register(RegisterName::CSel), Reg Reg Reg Cond),
    row!(b"CSet", Name::Register(RegisterName::CSet), Reg Cond),
    row!(b"CSetm", Name::Register(RegisterName::CSetm), Reg Cond),
    row!(b"CSNeg", Name::Register(RegisterName::CSNeg), Reg Reg Reg Cond),
    row!(b"AluRRRR", Name::Register(RegisterName::AluRRRR), AluOp3 Size Reg Reg Reg Reg),
];

/// Their rows.
#[inline(always)]
pub fn integer_rows() -> &'static [Row<Name>]
    ensures { AreRows name_text kinds_of (map (λ row. row.2) INTEGER_NAMES) result.now }
{
    &INTEGER_NAMES
}

/// The names of operations on scalar floats.
pub static FLOAT_NAMES: [Row<Name>; 19] = [
    row!(b"FpuMoveFromVec", Name::Float(FloatName::FpuMoveFromVec), Reg Reg U8 VectorSize),
    row!(b"FpuRRI", Name::Float(FloatName::FpuRRI), FpuOpRI Reg Reg),
    row!(b"FpuRRIMod", Name::Float(FloatName::FpuRRIMod), FpuOpRIMod Reg Reg Reg),
    row!(b"FpuMove128", Name::Float(FloatName::FpuMove128), Reg Reg),
    row!(b"FpuToInt", Name::Float(FloatName::FpuToInt), FpuToIntOp Reg Reg),
    row!(b"IntToFpu", Name::Float(FloatName::IntToFpu), IntToFpuOp Reg Reg),
    row!(b"MovToFpu", Name::Float(FloatName::MovToFpu), Reg Reg ScalarSize),
    row!(b"FpuMove32", Name::Float(FloatName::FpuMove32), Reg Reg),
    row!(b"FpuMove64", Name::Float(FloatName::FpuMove64), Reg Reg),
    row!(b"FpuExtend", Name::Float(FloatName::FpuExtend), Reg Reg ScalarSize),
    row!(b"FpuRR", Name::Float(FloatName::FpuRR), FpuOp1 ScalarSize Reg Reg),
    row!(b"FpuRound", Name::Float(FloatName::FpuRound), FpuRoundMode Reg Reg),
    row!(b"FpuCmp", Name::Float(FloatName::FpuCmp), ScalarSize Reg Reg),
    row!(b"FpuMoveFPImm", Name::Float(FloatName::FpuMoveFPImm), Reg U8 ScalarSize),
    row!(b"FpuRRR", Name::Float(FloatName::FpuRRR), FpuOp2 ScalarSize Reg Reg Reg),
    row!(b"FpuCSel16", Name::Float(FloatName::FpuCSel16), Reg Reg Reg Cond),
    row!(b"FpuCSel32", Name::Float(FloatName::FpuCSel32), Reg Reg Reg Cond),
    row!(b"FpuCSel64", Name::Float(FloatName::FpuCSel64), Reg Reg Reg Cond),
    row!(b"FpuRRRR", Name::Float(FloatName::FpuRRRR), FpuOp3 ScalarSize Reg Reg Reg Reg),
];

/// Their rows.
#[inline(always)]
pub fn float_rows() -> &'static [Row<Name>]
    ensures { AreRows name_text kinds_of (map (λ row. row.2) FLOAT_NAMES) result.now }
{
    &FLOAT_NAMES
}

/// The names of operations on vectors.
pub static VECTOR_NAMES: [Row<Name>; 15] = [
    row!(b"VecRRPair", Name::Vector(VectorName::VecRRPair), VecOp(Pair) Reg Reg),
    row!(b"VecMisc", Name::Vector(VectorName::VecMisc), VecOp(Misc2) Reg Reg VectorSize),
    row!(b"VecRRLong", Name::Vector(VectorName::VecRRLong), VecOp(RRLong) Reg Reg Bool),
    row!(b"VecRRNarrowLow", Name::Vector(VectorName::VecRRNarrowLow), VecOp(RRNarrow) Reg Reg ScalarSize),
    row!(b"VecRRNarrowHigh", Name::Vector(VectorName::VecRRNarrowHigh), VecOp(RRNarrow) Reg Reg Reg ScalarSize),
    row!(b"VecRRPairLong", Name::Vector(VectorName::VecRRPairLong), VecOp(RRPairLong) Reg Reg),
    row!(b"VecLanes", Name::Vector(VectorName::VecLanes), VecOp(Lanes) Reg Reg VectorSize),
    row!(b"VecRRRLong", Name::Vector(VectorName::VecRRRLong), VecOp(RRRLong) Reg Reg Reg Bool),
    row!(b"VecRRRLongMod", Name::Vector(VectorName::VecRRRLongMod), VecOp(RRRLongMod) Reg Reg Reg Reg Bool),
    row!(b"VecRRR", Name::Vector(VectorName::VecRRR), VecOp(Alu) Reg Reg Reg VectorSize),
    row!(b"VecRRRMod", Name::Vector(VectorName::VecRRRMod), VecOp(AluMod) Reg Reg Reg Reg VectorSize),
    row!(b"VecExtend", Name::Vector(VectorName::VecExtend), VecOp(Extend) Reg Reg Bool ScalarSize),
    row!(b"VecShiftImm", Name::Vector(VectorName::VecShiftImm), VecOp(ShiftImm) Reg Reg VectorSize U8),
    row!(b"VecShiftImmMod", Name::Vector(VectorName::VecShiftImmMod), VecOp(ShiftImmMod) Reg Reg Reg VectorSize U8),
    row!(b"VecFmlaElem", Name::Vector(VectorName::VecFmlaElem), VecOp(AluMod) Reg Reg Reg Reg VectorSize U8),
];

/// Their rows.
#[inline(always)]
pub fn vector_rows() -> &'static [Row<Name>]
    ensures { AreRows name_text kinds_of (map (λ row. row.2) VECTOR_NAMES) result.now }
{
    &VECTOR_NAMES
}

/// The names of moves of lanes and of tables of bytes.
pub static VECTOR_MOVE_NAMES: [Row<Name>; 13] = [
    row!(b"VecTbl", Name::VectorMove(VectorMoveName::VecTbl), Reg Reg Reg),
    row!(b"VecTblExt", Name::VectorMove(VectorMoveName::VecTblExt), Reg Reg Reg Reg),
    row!(b"VecTbl2", Name::VectorMove(VectorMoveName::VecTbl2), Reg Reg Reg Reg),
    row!(b"VecTbl2Ext", Name::VectorMove(VectorMoveName::VecTbl2Ext), Reg Reg Reg Reg Reg),
    row!(b"VecExtract", Name::VectorMove(VectorMoveName::VecExtract), Reg Reg Reg U8),
    row!(b"VecDupFromFpu", Name::VectorMove(VectorMoveName::VecDupFromFpu), Reg Reg VectorSize U8),
    row!(b"VecDup", Name::VectorMove(VectorMoveName::VecDup), Reg Reg VectorSize),
    row!(b"MovFromVecSigned", Name::VectorMove(VectorMoveName::MovFromVecSigned), Reg Reg U8 VectorSize Size),
    row!(b"MovFromVec", Name::VectorMove(VectorMoveName::MovFromVec), Reg Reg U8 ScalarSize),
    row!(b"MovToVec", Name::VectorMove(VectorMoveName::MovToVec), Reg Reg Reg U8 VectorSize),
    row!(b"VecMovElement", Name::VectorMove(VectorMoveName::VecMovElement), Reg Reg Reg U8 U8 VectorSize),
    row!(b"VecDupFPImm", Name::VectorMove(VectorMoveName::VecDupFPImm), Reg U8 VectorSize),
    row!(b"VecDupImm", Name::VectorMove(VectorMoveName::VecDupImm), Reg MovImm Bool VectorSize),
];

/// Their rows.
#[inline(always)]
pub fn vector_move_rows() -> &'static [Row<Name>]
    ensures { AreRows name_text kinds_of (map (λ row. row.2) VECTOR_MOVE_NAMES) result.now }
{
    &VECTOR_MOVE_NAMES
}

/// The names of instructions of control, of hints, of barriers and of accesses to the flags.
pub static CONTROL_NAMES: [Row<Name>; 22] = [
    row!(b"Udf", Name::Control(ControlName::Udf), U8),
    row!(b"CondBr", Name::Control(ControlName::CondBr), Target Target CondBrKind),
    row!(b"TrapIf", Name::Control(ControlName::TrapIf), CondBrKind U8),
    row!(b"Brk", Name::Control(ControlName::Brk)),
    row!(b"IndirectBr", Name::Control(ControlName::IndirectBr), Reg List),
    row!(b"Ret", Name::Control(ControlName::Ret)),
    row!(b"AuthenticatedRet", Name::Control(ControlName::AuthenticatedRet), ApiKey Bool),
    row!(b"Jump", Name::Control(ControlName::Jump), Target),
    row!(b"TestBitAndBranch", Name::Control(ControlName::TestBitAndBranch), TestBitAndBranchKind Target Target Reg U8),
    row!(b"LabelAddress", Name::Control(ControlName::LabelAddress), Reg Label),
    row!(b"Word4", Name::Control(ControlName::Word4), U32),
    row!(b"Word8", Name::Control(ControlName::Word8), U64),
    row!(b"EmitIsland", Name::Control(ControlName::EmitIsland), U32),
    row!(b"Xpaclri", Name::System(SystemName::Xpaclri)),
    row!(b"Csdb", Name::System(SystemName::Csdb)),
    row!(b"Paci", Name::System(SystemName::Paci), ApiKey),
    row!(b"Bti", Name::System(SystemName::Bti), BranchTargetType),
    row!(b"Fence", Name::System(SystemName::Fence)),
    row!(b"Nop4", Name::System(SystemName::Nop4)),
    row!(b"MovToNZCV", Name::System(SystemName::MovToNZCV), Reg),
    row!(b"MovFromNZCV", Name::System(SystemName::MovFromNZCV), Reg),
    row!(b"Nop0", Name::System(SystemName::Nop0)),
];

/// Their rows.
#[inline(always)]
pub fn control_rows() -> &'static [Row<Name>]
    ensures { AreRows name_text kinds_of (map (λ row. row.2) CONTROL_NAMES) result.now }
{
    &CONTROL_NAMES
}

/// The names of sequences and of calls.
pub static SEQUENCE_NAMES: [Row<Name>; 14] = [
    row!(b"Args", Name::Sequence(SequenceName::Args), List),
    row!(b"Rets", Name::Sequence(SequenceName::Rets), List),
    row!(b"DummyUse", Name::Sequence(SequenceName::DummyUse), Reg),
    row!(
        b"SequencePoint",
        Name::Sequence(SequenceName::SequencePoint)
    ),
    row!(b"JTSequence", Name::Sequence(SequenceName::JTSequence), Label List Reg Reg Reg),
    row!(b"LoadExtNameGot", Name::Sequence(SequenceName::LoadExtNameGot), Reg U32),
    row!(b"LoadExtNameNear", Name::Sequence(SequenceName::LoadExtNameNear), Reg U32 I64),
    row!(b"LoadExtNameFar", Name::Sequence(SequenceName::LoadExtNameFar), Reg U32 I64),
    row!(b"StackProbeLoop", Name::Sequence(SequenceName::StackProbeLoop), Reg Reg Imm12),
    row!(b"VecCSel", Name::Sequence(SequenceName::VecCSel), Reg Reg Reg Cond),
    row!(b"Call", Name::Call(CallName::Call), U32 List List List Convention Convention U32 Bool Map),
    row!(b"CallInd", Name::Call(CallName::CallInd), Reg List List List Convention Convention U32 Bool Map),
    row!(b"ReturnCall", Name::Call(CallName::ReturnCall), U32 List U32 Key Bool),
    row!(b"ReturnCallInd", Name::Call(CallName::ReturnCallInd), Reg List U32 Key Bool),
];

/// Their rows.
#[inline(always)]
pub fn sequence_rows() -> &'static [Row<Name>]
    ensures { AreRows name_text kinds_of (map (λ row. row.2) SEQUENCE_NAMES) result.now }
{
    &SEQUENCE_NAMES
}

/// The names of loads and stores of one register.
pub static ACCESS_NAMES: [Row<Name>; 19] = [
    row!(b"ULoad8", Name::Access(AccessOp::ULoad8), Reg Mode Flags),
    row!(b"SLoad8", Name::Access(AccessOp::SLoad8), Reg Mode Flags),
    row!(b"ULoad16", Name::Access(AccessOp::ULoad16), Reg Mode Flags),
    row!(b"SLoad16", Name::Access(AccessOp::SLoad16), Reg Mode Flags),
    row!(b"ULoad32", Name::Access(AccessOp::ULoad32), Reg Mode Flags),
    row!(b"SLoad32", Name::Access(AccessOp::SLoad32), Reg Mode Flags),
    row!(b"ULoad64", Name::Access(AccessOp::ULoad64), Reg Mode Flags),
    row!(b"FpuLoad16", Name::Access(AccessOp::FpuLoad16), Reg Mode Flags),
    row!(b"FpuLoad32", Name::Access(AccessOp::FpuLoad32), Reg Mode Flags),
    row!(b"FpuLoad64", Name::Access(AccessOp::FpuLoad64), Reg Mode Flags),
    row!(b"FpuLoad128", Name::Access(AccessOp::FpuLoad128), Reg Mode Flags),
    row!(b"Store8", Name::Access(AccessOp::Store8), Reg Mode Flags),
    row!(b"Store16", Name::Access(AccessOp::Store16), Reg Mode Flags),
    row!(b"Store32", Name::Access(AccessOp::Store32), Reg Mode Flags),
    row!(b"Store64", Name::Access(AccessOp::Store64), Reg Mode Flags),
    row!(b"FpuStore16", Name::Access(AccessOp::FpuStore16), Reg Mode Flags),
    row!(b"FpuStore32", Name::Access(AccessOp::FpuStore32), Reg Mode Flags),
    row!(b"FpuStore64", Name::Access(AccessOp::FpuStore64), Reg Mode Flags),
    row!(b"FpuStore128", Name::Access(AccessOp::FpuStore128), Reg Mode Flags),
];

/// Their rows.
#[inline(always)]
pub fn access_rows() -> &'static [Row<Name>]
    ensures { AreRows name_text kinds_of (map (λ row. row.2) ACCESS_NAMES) result.now }
{
    &ACCESS_NAMES
}

/// The names of other instructions of memory, and of entries that are no instruction.
pub static OTHER_NAMES: [Row<Name>; 19] = [
    row!(b"StoreP64", Name::Pair(PairName::StoreP64), Reg Reg PairMode Flags),
    row!(b"LoadP64", Name::Pair(PairName::LoadP64), Reg Reg PairMode Flags),
    row!(b"FpuStoreP64", Name::Pair(PairName::FpuStoreP64), Reg Reg PairMode Flags),
    row!(b"FpuLoadP64", Name::Pair(PairName::FpuLoadP64), Reg Reg PairMode Flags),
    row!(b"FpuStoreP128", Name::Pair(PairName::FpuStoreP128), Reg Reg PairMode Flags),
    row!(b"FpuLoadP128", Name::Pair(PairName::FpuLoadP128), Reg Reg PairMode Flags),
    row!(b"AtomicRMWLoop", Name::Memory(MemoryName::AtomicRMWLoop), Type AtomicRmwLoopOp Flags Reg Reg Reg Reg Reg),
    row!(b"AtomicCASLoop", Name::Memory(MemoryName::AtomicCASLoop), Type Flags Reg Reg Reg Reg Reg),
    row!(b"AtomicCAS128", Name::Memory(MemoryName::AtomicCAS128), Reg Reg Reg Reg Reg Reg Reg Flags),
    row!(b"VecLoadReplicate", Name::Memory(MemoryName::VecLoadReplicate), Reg Reg VectorSize Flags),
    row!(b"StoreRelease", Name::Memory(MemoryName::StoreRelease), Type Reg Reg Flags),
    row!(b"LoadAcquire", Name::Memory(MemoryName::LoadAcquire), Type Reg Reg Flags),
    row!(b"AtomicCAS", Name::Memory(MemoryName::AtomicCAS), Reg Reg Reg Reg Type Flags),
    row!(b"AtomicRMW", Name::Memory(MemoryName::AtomicRMW), Type AtomicRmwOp Reg Reg Reg Flags),
    row!(b"LoadAddr", Name::Memory(MemoryName::LoadAddr), Reg Mode),
    row!(b"bind", Name::Bind, Label),
    row!(b"const", Name::Const, U32 List),
    row!(b"frame", Name::Frame, FrameField U32),
    row!(b"flag", Name::Flag, EmitFlag),
];

/// Their rows.
#[inline(always)]
pub fn other_rows() -> &'static [Row<Name>]
    ensures { AreRows name_text kinds_of (map (λ row. row.2) OTHER_NAMES) result.now }
{
    &OTHER_NAMES
}
