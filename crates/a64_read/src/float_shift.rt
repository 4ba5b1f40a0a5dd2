//! Reads shifts of scalar floats.

ghost use Rattle.a64_imms.specs.FpuShifts.{IsLane};
ghost use Rattle.a64_read.specs.FloatShifts.{fpu_op_ri_mod_parts, fpu_op_ri_mod_text, fpu_op_ri_parts, fpu_op_ri_text, left_amount_text, right_amount_text, IsFpuOpRI, IsFpuOpRIMod, IsLeftAt, IsRightAt};
ghost use Rattle.a64_tokens.specs.Reads.{Reads};

use crate::call::read_call;
use a64_imms::{FPULeftShiftImm, FPURightShiftImm};
use a64_inst::{FPUOpRI, FPUOpRIMod};
use a64_tokens::decimal::read_u8;

/// The amount of a shift to the right of a lane, of 32 or 64 bits.
fn read_right_amount(token: &[u8], lane: u8) -> Option<FPURightShiftImm>
    requires { IsLane lane }
    ensures { Reads (IsRightAt lane) right_amount_text token.now result }
{
    FPURightShiftImm::maybe_from_u8(read_u8(token)?, lane)
}

/// The shift to the right of this name, by this amount.
#[tactic(auto, using(std::proofs::lemmas::Slice::Eq::text_from_reads))]
fn fpu_op_ri_of(name: &[u8], amount: &[u8]) -> Option<FPUOpRI>
    ensures { Reads IsFpuOpRI fpu_op_ri_parts (name.now, amount.now) result }
{
    match name {
        b"UShr32" => Some(FPUOpRI::UShr32(read_right_amount(amount, 32)?)),
        b"UShr64" => Some(FPUOpRI::UShr64(read_right_amount(amount, 64)?)),
        _ => None,
    }
}

/// The shift to the right that the token is: as `UShr32(5)`.
pub fn read_fpu_op_ri(token: &[u8]) -> Option<FPUOpRI>
    ensures { Reads IsFpuOpRI fpu_op_ri_text token.now result }
{
    let (name, amount) = read_call(token)?;
    fpu_op_ri_of(name, amount)
}

/// The amount of a shift to the left of a lane, of 32 or 64 bits.
fn read_left_amount(token: &[u8], lane: u8) -> Option<FPULeftShiftImm>
    requires { IsLane lane }
    ensures { Reads (IsLeftAt lane) left_amount_text token.now result }
{
    FPULeftShiftImm::maybe_from_u8(read_u8(token)?, lane)
}

/// The shift to the left of this name, by this amount.
#[tactic(auto, using(std::proofs::lemmas::Slice::Eq::text_from_reads))]
fn fpu_op_ri_mod_of(name: &[u8], amount: &[u8]) -> Option<FPUOpRIMod>
    ensures { Reads IsFpuOpRIMod fpu_op_ri_mod_parts (name.now, amount.now) result }
{
    match name {
        b"Sli32" => Some(FPUOpRIMod::Sli32(read_left_amount(amount, 32)?)),
        b"Sli64" => Some(FPUOpRIMod::Sli64(read_left_amount(amount, 64)?)),
        _ => None,
    }
}

/// The shift to the left that the token is: as `Sli64(63)`.
pub fn read_fpu_op_ri_mod(token: &[u8]) -> Option<FPUOpRIMod>
    ensures { Reads IsFpuOpRIMod fpu_op_ri_mod_text token.now result }
{
    let (name, amount) = read_call(token)?;
    fpu_op_ri_mod_of(name, amount)
}
