//! Loads and stores of vector registers.

ghost use Rattle.std.specs.Prelude.{◌≡◌, ◌<◌};
ghost use Rattle.a64_imms.specs.Offsets.{IsPairOffset};
ghost use Rattle.a64_rows.specs.Forms.{form_word, IsFormOf};
ghost use Rattle.a64_enc_int.specs.Registers.{IsGeneral};
ghost use Rattle.a64_enc_vec.specs.Operands.{replicate_form, vector_pair_form};
ghost use Rattle.a64_enc_vec.specs.Registers.{IsVector};

use crate::register::vector_field;
use a64_base::{Reg, Writable};
use a64_enc_int::{PairRegisters, ld_st_pair_word, register_field};
use a64_imms::SImm7Scaled;
use a64_rows::{Row, pack};

/// Encodes a load of one element into each lane: `q` is 1 for 128 bits, and `size` the logarithm of the element's bytes
/// (row `LdReplicate`).
pub fn enc_ldst_vec(q: u32, size: u32, rn: Reg, rt: Writable<Reg>) -> u32
    requires q { q < 2 }
    requires size { size < 4 }
    requires rn { IsGeneral rn }
    requires rt { IsVector rt }
    ensures form { IsFormOf (replicate_form q size rn rt) }
    ensures word { result ≡ form_word (replicate_form q size rn rt) }
{
    let (rn, rt) = (register_field(rn), vector_field(rt.to_reg()));
    pack(Row::LdReplicate, &[q, size, rn, rt])
}

/// Encodes a load or store of a pair of vector registers: `opc` is 1 for 64 and 2 for 128 bits, and `amode` says whether the
/// address register changes and when (row `LdStPair`).
pub fn enc_ldst_vec_pair(
    opc: u32,
    amode: u32,
    is_load: bool,
    simm7: SImm7Scaled,
    rn: Reg,
    rt: Reg,
    rt2: Reg,
) -> u32
    requires simm7 { IsPairOffset simm7.scale_ty simm7.value }
    requires rn { IsGeneral rn }
    requires rt { IsVector rt }
    requires rt2 { IsVector rt2 }
    requires form { IsFormOf (vector_pair_form opc amode is_load simm7 rn rt rt2) }
    ensures { result ≡ form_word (vector_pair_form opc amode is_load simm7 rn rt rt2) }
{
    let (load, imm7) = (u32::from(is_load), simm7.bits());
    let (rt2, rn, rt) = (vector_field(rt2), register_field(rn), vector_field(rt));
    ld_st_pair_word(opc, 1, amode, load, imm7, PairRegisters { rt2, rn, rt })
}
