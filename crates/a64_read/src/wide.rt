//! Reads wide immediates.

ghost use Rattle.a64_tokens.specs.Reads.{Reads};
ghost use Rattle.a64_tokens.specs.Fields.{IsWide, wide_text};

use crate::at;
use crate::fields::read_fields;
use crate::parts::Parts;
use a64_imms::MoveWideConst;
use a64_tokens::value::{Kind, Value};
use arrayvec::ArrayVec;

/// The halfword and its shift in bits that the token is.
pub fn read_wide(token: &[u8]) -> Option<MoveWideConst>
    ensures { Reads IsWide wide_text token.now result }
{
    let mut values: ArrayVec<Value, 2> = ArrayVec::new();
    let _ = read_fields::<Parts, 2>(&[Kind::U32, Kind::U32], Some(token), None, &mut values)?;
    let (bits, shift) = (
        at::get::<u32>(values.as_slice(), 0),
        at::get::<u32>(values.as_slice(), 1),
    );
    if bits > 0xffff || shift > 48 || shift % 16 != 0 {
        return None;
    }
    Some(MoveWideConst {
        bits: bits as u16,
        shift: (shift / 16) as u8,
    })
}
