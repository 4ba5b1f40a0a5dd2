//! The field that names a vector register.

ghost use Rattle.std.specs.Prelude.{◌≡◌, ◌<◌};
ghost use Rattle.a64_enc_int.specs.Registers.{register_field};
ghost use Rattle.a64_enc_vec.specs.Registers.{IsVector};

use a64_base::Reg;

/// The number by which a word names a vector register.
#[inline(always)]
pub(crate) fn vector_field(reg: Reg) -> u32
    requires { IsVector reg }
    ensures value { result ≡ register_field reg }
    ensures below { result < 32 }
{
    a64_enc_int::register_field(reg)
}
