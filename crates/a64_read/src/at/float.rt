//! The fields of instructions on scalar floats.

ghost use Rattle.std.specs.Prelude.{refl};
ghost use Rattle.a64_read.specs.At.{fpu_op1_of, fpu_op2_of, fpu_op3_of, fpu_op_ri_mod_of, fpu_op_ri_of, fpu_round_mode_of, fpu_to_int_op_of, int_to_fpu_op_of, scalar_size_of, vector_size_of};

use crate::at::Field;
use a64_base::{ScalarSize, VectorSize};
use a64_imms::{FPULeftShiftImm, FPURightShiftImm};
use a64_inst::{FPUOpRI, FPUOpRIMod};
use a64_ops::{FPUOp1, FPUOp2, FPUOp3, FpuRoundMode, FpuToIntOp, IntToFpuOp};
use a64_tokens::value::Value;

impl Field for FPUOp1 {
    ghost of = { fpu_op1_of };

    fn of(value: &Value) -> FPUOp1 {
        match value {
            Value::FpuOp1(x) => *x,
            _ => FPUOp1::Abs,
        }
    }

    ghost missing = { refl };
}

impl Field for FPUOp2 {
    ghost of = { fpu_op2_of };

    fn of(value: &Value) -> FPUOp2 {
        match value {
            Value::FpuOp2(x) => *x,
            _ => FPUOp2::Add,
        }
    }

    ghost missing = { refl };
}

impl Field for FPUOp3 {
    ghost of = { fpu_op3_of };

    fn of(value: &Value) -> FPUOp3 {
        match value {
            Value::FpuOp3(x) => *x,
            _ => FPUOp3::MAdd,
        }
    }

    ghost missing = { refl };
}

impl Field for FpuToIntOp {
    ghost of = { fpu_to_int_op_of };

    fn of(value: &Value) -> FpuToIntOp {
        match value {
            Value::FpuToIntOp(x) => *x,
            _ => FpuToIntOp::F32ToU32,
        }
    }

    ghost missing = { refl };
}

impl Field for IntToFpuOp {
    ghost of = { int_to_fpu_op_of };

    fn of(value: &Value) -> IntToFpuOp {
        match value {
            Value::IntToFpuOp(x) => *x,
            _ => IntToFpuOp::U32ToF32,
        }
    }

    ghost missing = { refl };
}

impl Field for FpuRoundMode {
    ghost of = { fpu_round_mode_of };

    fn of(value: &Value) -> FpuRoundMode {
        match value {
            Value::FpuRoundMode(x) => *x,
            _ => FpuRoundMode::Minus32,
        }
    }

    ghost missing = { refl };
}

impl Field for ScalarSize {
    ghost of = { scalar_size_of };

    fn of(value: &Value) -> ScalarSize {
        match value {
            Value::ScalarSize(x) => *x,
            _ => ScalarSize::Size8,
        }
    }

    ghost missing = { refl };
}

impl Field for VectorSize {
    ghost of = { vector_size_of };

    fn of(value: &Value) -> VectorSize {
        match value {
            Value::VectorSize(x) => *x,
            _ => VectorSize::Size8x8,
        }
    }

    ghost missing = { refl };
}

impl Field for FPUOpRI {
    ghost of = { fpu_op_ri_of };

    fn of(value: &Value) -> FPUOpRI {
        match value {
            Value::FpuOpRI(x) => *x,
            _ => FPUOpRI::UShr32(FPURightShiftImm {
                amount: 1,
                lane_size_in_bits: 32,
            }),
        }
    }

    ghost missing = { refl };
}

impl Field for FPUOpRIMod {
    ghost of = { fpu_op_ri_mod_of };

    fn of(value: &Value) -> FPUOpRIMod {
        match value {
            Value::FpuOpRIMod(x) => *x,
            _ => FPUOpRIMod::Sli32(FPULeftShiftImm {
                amount: 0,
                lane_size_in_bits: 32,
            }),
        }
    }

    ghost missing = { refl };
}
