//! The texts of operations on scalar floats, and of moves of them.

ghost use Rattle.std.specs.Prelude.{◌≡◌, ◌++◌, OnOk};
ghost use Rattle.std.specs.String.{string_bytes};
ghost use Rattle.a64_inst.specs.Groups.{group_of};
ghost use Rattle.a64_inst.specs.declared.group.Group.TheVariants as groups;
ghost use Rattle.a64_inst.specs.declared.group.PlainGroup.TheVariants as plain;
ghost use Rattle.a64_operand_text.specs.FloatTexts as texts;
ghost use Rattle.a64_operand_text.specs.Texts.{own_text};

use crate::float_texts;
use a64_base::{OperandSize, Reg, ScalarSize, VectorSize};
use a64_inst::{FPUOpRI, FPUOpRIMod, Inst};
use a64_operand_text::Operand::{
    Bytes, Condition, Element, FloatImm, Number, Scalar, Sized, Vector,
};
use a64_operand_text::{line2, line3, line4, scalar_operand};
use a64_ops::{FPUOp1, FpuRoundMode, FpuToIntOp, IntToFpuOp};
use std::alloc::AllocError;

/// The size of what an operation on a float of some size gives.
fn fpu_rr_size(op: FPUOp1, size: ScalarSize) -> ScalarSize
    ensures { result ≡ texts.fpu_rr_size op size }
{
    match op {
        FPUOp1::Cvt32To64 => ScalarSize::Size64,
        FPUOp1::Cvt64To32 => ScalarSize::Size32,
        _ => size,
    }
}

/// The size of the integer that a conversion of a float gives.
fn to_int_size(op: FpuToIntOp) -> OperandSize
    ensures { result ≡ texts.to_int_size op }
{
    match op {
        FpuToIntOp::F32ToU32 | FpuToIntOp::F32ToI32 | FpuToIntOp::F64ToU32 | FpuToIntOp::F64ToI32 =>
            OperandSize::Size32,
        FpuToIntOp::F32ToU64 | FpuToIntOp::F32ToI64 | FpuToIntOp::F64ToU64 | FpuToIntOp::F64ToI64 =>
            OperandSize::Size64,
    }
}

/// The size of the float that a conversion takes.
fn from_float_size(op: FpuToIntOp) -> ScalarSize
    ensures { result ≡ texts.from_float_size op }
{
    match op {
        FpuToIntOp::F32ToU32 | FpuToIntOp::F32ToI32 | FpuToIntOp::F32ToU64 | FpuToIntOp::F32ToI64 =>
            ScalarSize::Size32,
        FpuToIntOp::F64ToU32 | FpuToIntOp::F64ToI32 | FpuToIntOp::F64ToU64 | FpuToIntOp::F64ToI64 =>
            ScalarSize::Size64,
    }
}

/// The size of the float that a conversion of an integer gives.
fn to_float_size(op: IntToFpuOp) -> ScalarSize
    ensures { result ≡ texts.to_float_size op }
{
    match op {
        IntToFpuOp::U32ToF32 | IntToFpuOp::I32ToF32 | IntToFpuOp::U64ToF32 | IntToFpuOp::I64ToF32 =>
            ScalarSize::Size32,
        IntToFpuOp::U32ToF64 | IntToFpuOp::I32ToF64 | IntToFpuOp::U64ToF64 | IntToFpuOp::I64ToF64 =>
            ScalarSize::Size64,
    }
}

/// The size of the integer that a conversion takes.
fn from_int_size(op: IntToFpuOp) -> OperandSize
    ensures { result ≡ texts.from_int_size op }
{
    match op {
        IntToFpuOp::U32ToF32 | IntToFpuOp::I32ToF32 | IntToFpuOp::U32ToF64 | IntToFpuOp::I32ToF64 =>
            OperandSize::Size32,
        IntToFpuOp::U64ToF32 | IntToFpuOp::I64ToF32 | IntToFpuOp::U64ToF64 | IntToFpuOp::I64ToF64 =>
            OperandSize::Size64,
    }
}

/// The size of what a rounding rounds.
fn round_size(op: FpuRoundMode) -> ScalarSize
    ensures { result ≡ texts.round_size op }
{
    match op {
        FpuRoundMode::Minus32
        | FpuRoundMode::Plus32
        | FpuRoundMode::Zero32
        | FpuRoundMode::Nearest32 => ScalarSize::Size32,
        FpuRoundMode::Minus64
        | FpuRoundMode::Plus64
        | FpuRoundMode::Zero64
        | FpuRoundMode::Nearest64 => ScalarSize::Size64,
    }
}

/// Appends the text of a shift to the right.
fn push_fpu_rri(out: &mut String, op: FPUOpRI, rd: Reg, rn: Reg) -> Result<(), AllocError>
    ensures { OnOk result
        (string_bytes out.new ≡ string_bytes out.old ++ texts.fpu_rri_text op rd rn) }
{
    match op {
        FPUOpRI::UShr32(imm) => line3(
            out,
            "ushr",
            Vector(VectorSize::Size32x2, rd),
            Vector(VectorSize::Size32x2, rn),
            Number(u64::from(imm.amount)),
        ),
        FPUOpRI::UShr64(imm) => line3(
            out,
            "ushr",
            Scalar(ScalarSize::Size64, rd),
            Scalar(ScalarSize::Size64, rn),
            Number(u64::from(imm.amount)),
        ),
    }
}

/// Appends the text of a shift to the left that keeps the bits below.
fn push_fpu_rri_mod(
    out: &mut String,
    op: FPUOpRIMod,
    rd: Reg,
    ri: Reg,
    rn: Reg,
) -> Result<(), AllocError>
    ensures { OnOk result
        (string_bytes out.new ≡ string_bytes out.old ++ texts.fpu_rri_mod_text op rd ri rn) }
{
    match op {
        FPUOpRIMod::Sli32(imm) => line4(
            out,
            "sli",
            Vector(VectorSize::Size32x2, rd),
            Vector(VectorSize::Size32x2, ri),
            Vector(VectorSize::Size32x2, rn),
            Number(u64::from(imm.amount)),
        ),
        FPUOpRIMod::Sli64(imm) => line4(
            out,
            "sli",
            Scalar(ScalarSize::Size64, rd),
            Scalar(ScalarSize::Size64, ri),
            Scalar(ScalarSize::Size64, rn),
            Number(u64::from(imm.amount)),
        ),
    }
}

/// Appends the text of an instruction of the group.
///
/// # Errors
///
/// Want of memory.
pub fn push_float(out: &mut String, inst: &Inst) -> Result<(), AllocError>
    requires { group_of inst.now ≡ groups.Plain plain.Float }
    ensures { OnOk result (string_bytes out.new ≡ string_bytes out.old ++ own_text inst.now) }
{
    float_texts!(out, inst)
}
