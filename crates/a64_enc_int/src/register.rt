//! The field that names a register.

ghost use Rattle.std.specs.Prelude.{◌≡◌, ◌<◌};
ghost use Rattle.a64_enc_int.specs.Registers as registers;
ghost use Rattle.a64_enc_int.specs.Registers.{IsReal};

use a64_base::{Reg, RegKind};

/// The number by which a word names a register of the machine: 31 for the zero register and for the stack pointer.
#[inline(always)]
pub fn register_field(reg: Reg) -> u32
    requires { IsReal reg }
    ensures value { result ≡ registers.register_field reg }
    ensures below { result < 32 }
{
    match reg.kind() {
        RegKind::Real(p) => u32::from(p.hw_enc() % 32),
        RegKind::Virtual { .. } => unreachable!(),
    }
}

/// The same, of a general register.
#[inline(always)]
pub(crate) fn general_field(reg: Reg) -> u32
    requires { registers.IsGeneral reg }
    ensures value { result ≡ registers.register_field reg }
    ensures below { result < 32 }
{
    register_field(reg)
}
