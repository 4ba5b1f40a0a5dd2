//! The names of operators on scalar floats.

ghost use Rattle.a64_tokens.specs.FloatOperators.{fpu_op1_text, fpu_op2_text, fpu_op3_text, fpu_round_mode_text, fpu_to_int_op_text, int_to_fpu_op_text};
ghost use Rattle.a64_tokens.specs.Reads.{Reads, Always};

use a64_ops::{FPUOp1, FPUOp2, FPUOp3, FpuRoundMode, FpuToIntOp, IntToFpuOp};

/// The operator with one float that the token names.
#[tactic(auto, using(std::proofs::lemmas::Slice::Eq::text_from_reads))]
pub fn read_fpu_op1(token: &[u8]) -> Option<FPUOp1>
    ensures { Reads Always fpu_op1_text token.now result }
{
    match token {
        b"Abs" => Some(FPUOp1::Abs),
        b"Neg" => Some(FPUOp1::Neg),
        b"Sqrt" => Some(FPUOp1::Sqrt),
        b"Cvt32To64" => Some(FPUOp1::Cvt32To64),
        b"Cvt64To32" => Some(FPUOp1::Cvt64To32),
        _ => None,
    }
}

/// The operator with two floats that the token names.
#[tactic(auto, using(std::proofs::lemmas::Slice::Eq::text_from_reads))]
pub fn read_fpu_op2(token: &[u8]) -> Option<FPUOp2>
    ensures { Reads Always fpu_op2_text token.now result }
{
    match token {
        b"Add" => Some(FPUOp2::Add),
        b"Sub" => Some(FPUOp2::Sub),
        b"Mul" => Some(FPUOp2::Mul),
        b"Div" => Some(FPUOp2::Div),
        b"Max" => Some(FPUOp2::Max),
        b"Min" => Some(FPUOp2::Min),
        _ => None,
    }
}

/// The operator with three floats that the token names.
#[tactic(auto, using(std::proofs::lemmas::Slice::Eq::text_from_reads))]
pub fn read_fpu_op3(token: &[u8]) -> Option<FPUOp3>
    ensures { Reads Always fpu_op3_text token.now result }
{
    match token {
        b"MAdd" => Some(FPUOp3::MAdd),
        b"MSub" => Some(FPUOp3::MSub),
        b"NMAdd" => Some(FPUOp3::NMAdd),
        b"NMSub" => Some(FPUOp3::NMSub),
        _ => None,
    }
}

/// The conversion of a float to an integer that the token names.
#[tactic(auto, using(std::proofs::lemmas::Slice::Eq::text_from_reads))]
pub fn read_fpu_to_int_op(token: &[u8]) -> Option<FpuToIntOp>
    ensures { Reads Always fpu_to_int_op_text token.now result }
{
    match token {
        b"F32ToU32" => Some(FpuToIntOp::F32ToU32),
        b"F32ToI32" => Some(FpuToIntOp::F32ToI32),
        b"F32ToU64" => Some(FpuToIntOp::F32ToU64),
        b"F32ToI64" => Some(FpuToIntOp::F32ToI64),
        b"F64ToU32" => Some(FpuToIntOp::F64ToU32),
        b"F64ToI32" => Some(FpuToIntOp::F64ToI32),
        b"F64ToU64" => Some(FpuToIntOp::F64ToU64),
        b"F64ToI64" => Some(FpuToIntOp::F64ToI64),
        _ => None,
    }
}

/// The conversion of an integer to a float that the token names.
#[tactic(auto, using(std::proofs::lemmas::Slice::Eq::text_from_reads))]
pub fn read_int_to_fpu_op(token: &[u8]) -> Option<IntToFpuOp>
    ensures { Reads Always int_to_fpu_op_text token.now result }
{
    match token {
        b"U32ToF32" => Some(IntToFpuOp::U32ToF32),
        b"I32ToF32" => Some(IntToFpuOp::I32ToF32),
        b"U32ToF64" => Some(IntToFpuOp::U32ToF64),
        b"I32ToF64" => Some(IntToFpuOp::I32ToF64),
        b"U64ToF32" => Some(IntToFpuOp::U64ToF32),
        b"I64ToF32" => Some(IntToFpuOp::I64ToF32),
        b"U64ToF64" => Some(IntToFpuOp::U64ToF64),
        b"I64ToF64" => Some(IntToFpuOp::I64ToF64),
        _ => None,
    }
}

/// The rounding of a float that the token names.
#[tactic(auto, using(std::proofs::lemmas::Slice::Eq::text_from_reads))]
pub fn read_fpu_round_mode(token: &[u8]) -> Option<FpuRoundMode>
    ensures { Reads Always fpu_round_mode_text token.now result }
{
    match token {
        b"Minus32" => Some(FpuRoundMode::Minus32),
        b"Minus64" => Some(FpuRoundMode::Minus64),
        b"Plus32" => Some(FpuRoundMode::Plus32),
        b"Plus64" => Some(FpuRoundMode::Plus64),
        b"Zero32" => Some(FpuRoundMode::Zero32),
        b"Zero64" => Some(FpuRoundMode::Zero64),
        b"Nearest32" => Some(FpuRoundMode::Nearest32),
        b"Nearest64" => Some(FpuRoundMode::Nearest64),
        _ => None,
    }
}
