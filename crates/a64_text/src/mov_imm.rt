//! Makes immediates of moves to lanes of what lines have.

ghost use Rattle.std.specs.Prelude.{◌≡◌};
ghost use Rattle.a64_imms.specs.MovImms as imms;
ghost use Rattle.a64_tokens.specs.Reads.{Reads};
ghost use Rattle.a64_text.specs.MovImms as movs;

use a64_base::ScalarSize;
use a64_imms::ASIMDMovModImm;
use a64_tokens::value::WrittenMovImm;

/// Whether the constructor gives the immediate for some value of 64 bits, or for one of fewer.
fn is_given(is_64bit: bool, written: WrittenMovImm) -> bool
    ensures { result ≡ movs.is_given is_64bit written }
{
    let (imm, shift, ones) = (written.imm, written.shift, written.ones);
    match (is_64bit, ones) {
        (true, _) => shift == 0 && !ones,
        (false, true) => shift == 16 || shift == 8 && imm != 255,
        (false, false) => shift == 0 || imm != 0 && matches!(shift, 8 | 16 | 24),
    }
}

/// Whether lanes of this size have 64 bits.
fn is_64(lane: ScalarSize) -> bool
    ensures { result ≡ imms.is_64 lane }
{
    matches!(lane, ScalarSize::Size64)
}

/// The immediate for lanes of this size, where the constructor gives it for some value.
pub fn mov_imm_of(lane: ScalarSize, written: WrittenMovImm) -> Option<ASIMDMovModImm>
    ensures { Reads (movs.IsMovAt lane) movs.written_mov written result }
{
    let is_64bit = is_64(lane);
    if !is_given(is_64bit, written) {
        return None;
    }
    Some(ASIMDMovModImm {
        imm: written.imm,
        shift: written.shift,
        is_64bit,
        shift_ones: written.ones,
    })
}
