//! Reads immediates.

ghost use Rattle.a64_imms.specs.Imm12s.{imm12_value};
ghost use Rattle.a64_tokens.specs.Reads.{Reads, Always};
ghost use Rattle.a64_tokens.specs.Fields.{IsImm12, imm12_text, IsImmShift, imm_shift_text, uimm5_text, IsUImm6, uimm6_text, nzcv_text};

use crate::decimal::{read_u8, read_u64};
use a64_imms::{Imm12, ImmShift, NZCV, UImm5, UImm6};

/// The immediate of 12 bits that the constructor gives for the value.
fn imm12_of(value: u64) -> Option<Imm12>
    ensures { Reads IsImm12 imm12_value value result }
{
    Imm12::maybe_from_u64(value)
}

/// The immediate of 12 bits, shifted or not, whose value the token is.
pub fn read_imm12(token: &[u8]) -> Option<Imm12>
    ensures { Reads IsImm12 imm12_text token.now result }
{
    imm12_of(read_u64(token)?)
}

/// The amount of a shift, below 64.
pub fn read_imm_shift(token: &[u8]) -> Option<ImmShift>
    ensures { Reads IsImmShift imm_shift_text token.now result }
{
    ImmShift::maybe_from_u64(read_u64(token)?)
}

/// The immediate of 5 bits whose value the token is.
pub fn read_uimm5(token: &[u8]) -> Option<UImm5>
    ensures { Reads Always uimm5_text token.now result }
{
    UImm5::maybe_from_u8(read_u8(token)?)
}

/// The immediate of 6 bits whose value the token is.
pub fn read_uimm6(token: &[u8]) -> Option<UImm6>
    ensures { Reads IsUImm6 uimm6_text token.now result }
{
    UImm6::maybe_from_u8(read_u8(token)?)
}

/// The flags whose four bits the token is, as a number: N is 8, Z 4, C 2 and V 1.
pub fn read_nzcv(token: &[u8]) -> Option<NZCV>
    ensures { Reads Always nzcv_text token.now result }
{
    let bits = read_u8(token)?;
    if bits > 15 {
        return None;
    }
    Some(NZCV::new(
        bits / 8 == 1,
        bits / 4 % 2 == 1,
        bits / 2 % 2 == 1,
        bits % 2 == 1,
    ))
}
