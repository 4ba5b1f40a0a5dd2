//! The immediate of wide moves.

ghost use Rattle.std.specs.Prelude.{◌≡◌, ℕ, ◌<◌, ◌≤◌, ◌+◌, ◌/◌, ◌*◌, ◌^◌, MatchOption, ◌++◌, OnOk};
ghost use Rattle.std.specs.String.{string_bytes};
ghost use Rattle.a64_imms.specs.MoveWides.{wide_value, wide_field, wide_text, IsWideValue, IsWide, HasWide, wide_of};
ghost use Rattle.a64_imms.specs.Laws.{wide_within, one_wide};

use crate::class::ImmClass;
use a64_base::{PrettyPrint, Text, push_numbered};
use std::alloc::{AllocError, Global};

/// 16 bits at one of the four halfwords of a register.
#[derive(Clone, Copy, Debug)]
pub struct MoveWideConst {
    /// The halfword.
    pub bits: u16,
    /// Which halfword it is, from 0 to 3: it stands 16 times so many bits to the left.
    pub shift: u8,
}

/// The bits of a value of which only this halfword is not zero.
fn halfword(value: u64, shift: u8) -> Option<MoveWideConst>
    requires { shift ≤ 3 }
    ensures { MatchOption result ((bits : ℕ) → bits < 2 ^ 16
        → bits * 2 ^ (16 * shift) ≡ value → ⊥)
        (λ imm. (imm.shift ≡ shift) × (imm.bits < 2 ^ 16)
        × (imm.bits * 2 ^ (16 * shift) ≡ value)) }
{
    let bits = value >> (16 * shift);
    if bits < 1 << 16 && bits << (16 * shift) == value {
        Some(MoveWideConst {
            bits: bits as u16,
            shift,
        })
    } else {
        None
    }
}

impl MoveWideConst {
    /// The immediate of a value with at most one halfword that is not zero.
    ///
    /// The halfwords are tried from the lowest on, so that of 0 is halfword 0.
    pub fn maybe_from_u64(value: u64) -> Option<MoveWideConst>
        ensures set { MatchOption result (¬ IsWideValue value) (HasWide value) }
        ensures immediate { result ≡ wide_of value }
    {
        for shift in 0..4 {
            if let Some(imm) = halfword(value, shift) {
                return Some(imm);
            }
        }
        None
    }

    /// These bits, shifted left by so many places, of which only the whole halfwords count.
    pub fn maybe_with_shift(imm: u16, shift: u8) -> Option<MoveWideConst>
        ensures { MatchOption result (3 < shift / 16)
            (λ made. (shift / 16 ≤ 3) × (made.bits ≡ imm) × (made.shift ≡ shift / 16)) }
    {
        if shift / 16 > 3 {
            None
        } else {
            Some(MoveWideConst {
                bits: imm,
                shift: shift / 16,
            })
        }
    }

    /// The immediate 0.
    pub fn zero() -> MoveWideConst
        ensures bits { result.bits ≡ 0 }
        ensures shift { result.shift ≡ 0 }
    {
        MoveWideConst { bits: 0, shift: 0 }
    }

    /// Appends `#` and the bits, then `, LSL #` and 16 times the shift where that is not 0.
    ///
    /// # Errors
    ///
    /// Want of memory.
    pub fn push_text(&self, out: &mut String) -> Result<(), AllocError>
        ensures { OnOk result (string_bytes out.new
            ≡ string_bytes out.old ++ wide_text self.now) }
    {
        push_numbered(out, "#", self.bits)?;
        if self.shift == 0 {
            Ok(())
        } else {
            push_numbered(out, ", LSL #", 16 * u32::from(self.shift))
        }
    }
}

/// `#` and the bits, then `, LSL #` and 16 times the shift where that is not 0.
impl PrettyPrint for MoveWideConst {
    ghost text = { λ imm _. wide_text imm };

    ghost can_print = { λ imm _. imm.shift ≤ 3 };

    fn pretty_print(&self, alloc: Global, _size_bytes: u8) -> Text {
        let mut text = String::new(alloc);
        self.push_text(&mut text)?;
        Ok(text)
    }
}

impl ImmClass for MoveWideConst {
    type Parameter = ();

    type Value = u64;

    ghost set = { λ _. IsWideValue };

    ghost lawful = { λ _. IsWide };

    ghost value = { λ _. wide_value };

    ghost field = { λ _. wide_field };

    ghost within = { λ _. wide_within };

    ghost one_value = { λ _. one_wide };
}
