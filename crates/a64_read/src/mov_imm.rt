//! Reads immediates of vector moves.

ghost use Rattle.a64_read.specs.MovImms.{mov_imm_text, IsWrittenMovImm};
ghost use Rattle.a64_tokens.specs.Reads.{Reads};

use crate::at;
use crate::fields::read_fields;
use crate::parts::Parts;
use a64_tokens::value::{Kind, Value, WrittenMovImm};
use arrayvec::ArrayVec;

/// The bits, their shift, and whether ones are shifted in, with commas between: as `255,8,true`.
pub fn read_mov_imm(token: &[u8]) -> Option<WrittenMovImm>
    ensures { Reads IsWrittenMovImm mov_imm_text token.now result }
{
    let mut fields: ArrayVec<Value, 3> = ArrayVec::new();
    let kinds = [Kind::U8, Kind::U8, Kind::Bool];
    let _ = read_fields::<Parts, 3>(&kinds, Some(token), None, &mut fields)?;
    let values = fields.as_slice();
    let imm = at::get(values, 0);
    let shift = at::get(values, 1);
    let ones = at::get(values, 2);
    Some(WrittenMovImm { imm, shift, ones })
}
