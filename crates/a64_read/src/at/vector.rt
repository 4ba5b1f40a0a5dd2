//! Operators of vector instructions, at their places.

ghost use Rattle.std.specs.Prelude.{◌≡◌, Option, Some, None, refl};
ghost use Rattle.a64_tokens.specs.declared.value.Value.{Value};
ghost use Rattle.a64_tokens.specs.declared.value.Value.TheVariants as values;
ghost use Rattle.a64_read.specs.At.{vec_op_of};
ghost use Rattle.a64_read.specs.VecOps.{vec_alu_mod_op_in, vec_alu_op_in, vec_extend_op_in, vec_lanes_op_in, vec_misc2_in, vec_pair_op_in, vec_rr_long_op_in, vec_rr_narrow_op_in, vec_rr_pair_long_op_in, vec_rrr_long_mod_op_in, vec_rrr_long_op_in, vec_shift_imm_mod_op_in, vec_shift_imm_op_in};

use super::Field;
use a64_ops::{
    VecALUModOp, VecALUOp, VecExtendOp, VecLanesOp, VecMisc2, VecPairOp, VecRRLongOp,
    VecRRNarrowOp, VecRRPairLongOp, VecRRRLongModOp, VecRRRLongOp, VecShiftImmModOp, VecShiftImmOp,
};
use a64_tokens::value::Value;
use a64_tokens::vec_op::VecOp;

impl Field for VecOp {
    ghost of = { vec_op_of };

    fn of(value: &Value) -> VecOp {
        match value {
            Value::VecOp(x) => *x,
            _ => VecOp::Pair(VecPairOp::Addp),
        }
    }

    ghost missing = { refl };
}

impl Field for VecALUOp {
    ghost of = { λ v. vec_alu_op_in (vec_op_of v) };

    fn of(value: &Value) -> VecALUOp {
        match VecOp::of(value) {
            VecOp::Alu(x) => x,
            _ => VecALUOp::Sqadd,
        }
    }

    ghost missing = { refl };
}

impl Field for VecALUModOp {
    ghost of = { λ v. vec_alu_mod_op_in (vec_op_of v) };

    fn of(value: &Value) -> VecALUModOp {
        match VecOp::of(value) {
            VecOp::AluMod(x) => x,
            _ => VecALUModOp::Bsl,
        }
    }

    ghost missing = { refl };
}

impl Field for VecMisc2 {
    ghost of = { λ v. vec_misc2_in (vec_op_of v) };

    fn of(value: &Value) -> VecMisc2 {
        match VecOp::of(value) {
            VecOp::Misc2(x) => x,
            _ => VecMisc2::Not,
        }
    }

    ghost missing = { refl };
}

impl Field for VecLanesOp {
    ghost of = { λ v. vec_lanes_op_in (vec_op_of v) };

    fn of(value: &Value) -> VecLanesOp {
        match VecOp::of(value) {
            VecOp::Lanes(x) => x,
            _ => VecLanesOp::Addv,
        }
    }

    ghost missing = { refl };
}

impl Field for VecExtendOp {
    ghost of = { λ v. vec_extend_op_in (vec_op_of v) };

    fn of(value: &Value) -> VecExtendOp {
        match VecOp::of(value) {
            VecOp::Extend(x) => x,
            _ => VecExtendOp::Sxtl,
        }
    }

    ghost missing = { refl };
}

impl Field for VecRRLongOp {
    ghost of = { λ v. vec_rr_long_op_in (vec_op_of v) };

    fn of(value: &Value) -> VecRRLongOp {
        match VecOp::of(value) {
            VecOp::RRLong(x) => x,
            _ => VecRRLongOp::Fcvtl16,
        }
    }

    ghost missing = { refl };
}

impl Field for VecRRNarrowOp {
    ghost of = { λ v. vec_rr_narrow_op_in (vec_op_of v) };

    fn of(value: &Value) -> VecRRNarrowOp {
        match VecOp::of(value) {
            VecOp::RRNarrow(x) => x,
            _ => VecRRNarrowOp::Xtn,
        }
    }

    ghost missing = { refl };
}

impl Field for VecPairOp {
    ghost of = { λ v. vec_pair_op_in (vec_op_of v) };

    fn of(value: &Value) -> VecPairOp {
        match VecOp::of(value) {
            VecOp::Pair(x) => x,
            _ => VecPairOp::Addp,
        }
    }

    ghost missing = { refl };
}

impl Field for VecRRPairLongOp {
    ghost of = { λ v. vec_rr_pair_long_op_in (vec_op_of v) };

    fn of(value: &Value) -> VecRRPairLongOp {
        match VecOp::of(value) {
            VecOp::RRPairLong(x) => x,
            _ => VecRRPairLongOp::Saddlp8,
        }
    }

    ghost missing = { refl };
}

impl Field for VecRRRLongOp {
    ghost of = { λ v. vec_rrr_long_op_in (vec_op_of v) };

    fn of(value: &Value) -> VecRRRLongOp {
        match VecOp::of(value) {
            VecOp::RRRLong(x) => x,
            _ => VecRRRLongOp::Smull8,
        }
    }

    ghost missing = { refl };
}

impl Field for VecRRRLongModOp {
    ghost of = { λ v. vec_rrr_long_mod_op_in (vec_op_of v) };

    fn of(value: &Value) -> VecRRRLongModOp {
        match VecOp::of(value) {
            VecOp::RRRLongMod(x) => x,
            _ => VecRRRLongModOp::Umlal8,
        }
    }

    ghost missing = { refl };
}

impl Field for VecShiftImmOp {
    ghost of = { λ v. vec_shift_imm_op_in (vec_op_of v) };

    fn of(value: &Value) -> VecShiftImmOp {
        match VecOp::of(value) {
            VecOp::ShiftImm(x) => x,
            _ => VecShiftImmOp::Shl,
        }
    }

    ghost missing = { refl };
}

impl Field for VecShiftImmModOp {
    ghost of = { λ v. vec_shift_imm_mod_op_in (vec_op_of v) };

    fn of(value: &Value) -> VecShiftImmModOp {
        match VecOp::of(value) {
            VecOp::ShiftImmMod(x) => x,
            _ => VecShiftImmModOp::Sli,
        }
    }

    ghost missing = { refl };
}
