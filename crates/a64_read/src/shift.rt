//! Reads shifts.

ghost use Rattle.a64_tokens.specs.Reads.{Reads};
ghost use Rattle.a64_tokens.specs.Fields.{IsShift, shift_text};

use crate::call::read_call;
use a64_base::{ShiftOp, ShiftOpAndAmt, ShiftOpShiftImm};
use a64_tokens::decimal::read_u64;
use a64_tokens::named::read_named;

/// The shift and its amount that the token is: as `LSL(3)`.
pub fn read_shift(token: &[u8]) -> Option<ShiftOpAndAmt>
    ensures { Reads IsShift shift_text token.now result }
{
    let (name, amount) = read_call(token)?;
    let op = read_named::<ShiftOp>(name)?;
    let amount = ShiftOpShiftImm::maybe_from_shift(read_u64(amount)?)?;
    Some(ShiftOpAndAmt::new(op, amount))
}
