//! Reads registers.

ghost use Rattle.a64_tokens.specs.Reads.{Reads};
ghost use Rattle.a64_tokens.specs.Fields.{reg_text, IsReg, preg_text, IsPReg};

use crate::decimal::{read_below_hundred, read_u32};
use a64_base::{PReg, Reg, RegClass, RegKind};

/// The register that the token is: `x0` to `x30`, `xzr`, `sp`, `v0` to `v31`, `%i` and a number, or
/// `%f` and a number.
#[tactic(auto, using(crate::proofs::Decimals::decimal_first))]
#[inline]
pub fn read_reg(token: &[u8]) -> Option<Reg>
    ensures { Reads IsReg reg_text token.now result }
{
    match token {
        [b'x', number @ ..] => match read_below_hundred(number) {
            Some(n) => {
                if n > 30 {
                    return None;
                }
                Some(Reg::from_real_reg(PReg::new(n, RegClass::Int)))
            }
            None => match number {
                [b'z', b'r'] => Some(Reg::from_real_reg(PReg::new(31, RegClass::Int))),
                _ => None,
            },
        },
        [b'v', number @ ..] => {
            let n = read_below_hundred(number)?;
            if n > 31 {
                return None;
            }
            Some(Reg::from_real_reg(PReg::new(n, RegClass::Float)))
        }
        [b's', b'p'] => Some(Reg::from_real_reg(PReg::new(63, RegClass::Int))),
        [b'%', b'i', number @ ..] => Some(Reg::virtual_reg(read_u32(number)?, RegClass::Int)),
        [b'%', b'f', number @ ..] => Some(Reg::virtual_reg(read_u32(number)?, RegClass::Float)),
        _ => None,
    }
}

/// The register of the machine that the token is.
pub fn read_preg(token: &[u8]) -> Option<PReg>
    ensures { Reads IsPReg preg_text token.now result }
{
    match read_reg(token)?.kind() {
        RegKind::Real(preg) => Some(preg),
        RegKind::Virtual { .. } => None,
    }
}
