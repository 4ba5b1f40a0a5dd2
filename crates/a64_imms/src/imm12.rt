//! The immediate of additions and subtractions.

ghost use Rattle.std.specs.Prelude.{◌≡◌, ℕ, ◌<◌, ◌+◌, ◌*◌, ◌^◌, MatchOption, if◌then◌else◌};
ghost use Rattle.a64_imms.specs.Texts.{number_text};
ghost use Rattle.a64_imms.specs.Imm12s.{imm12_value, imm12_field, IsImm12Value, HasImm12};
ghost use Rattle.a64_imms.specs.Laws.{imm12_within, one_imm12};

use crate::class::ImmClass;
use crate::text::text_of_number;
use a64_base::{PrettyPrint, Text};
use std::alloc::Global;

/// An immediate of 12 bits, shifted left by 0 or 12 places.
#[derive(Clone, Copy, Debug)]
pub struct Imm12 {
    /// The bits before the shift, below 4096.
    pub bits: u16,
    /// Whether the bits are shifted left by 12 places.
    pub shift12: bool,
}

impl Imm12 {
    /// The immediate 0, without a shift.
    pub const ZERO: Imm12 = Imm12 {
        bits: 0,
        shift12: false,
    };

    /// The immediate of a value below 4096, without a shift, or of a multiple of 4096 below 2^24.
    pub fn maybe_from_u64(value: u64) -> Option<Imm12>
        ensures { MatchOption result (¬ IsImm12Value value) (HasImm12 value) }
    {
        if value < 4096 {
            Some(Imm12 {
                bits: value as u16,
                shift12: false,
            })
        } else if value < 1 << 24 && value % 4096 == 0 {
            Some(Imm12 {
                bits: (value / 4096) as u16,
                shift12: true,
            })
        } else {
            None
        }
    }

    /// The field that says whether the bits are shifted: 0 or 1.
    pub fn shift_bits(&self) -> u32
        requires { self.now.bits < 4096 }
        ensures { result ≡ (if self.now.shift12 then 1 else 0) }
    {
        u32::from(self.shift12)
    }

    /// The field's twelve bits.
    pub fn imm_bits(&self) -> u32
        requires { self.now.bits < 4096 }
        ensures { result ≡ self.now.bits }
    {
        u32::from(self.bits)
    }

    /// The value, below 2^24.
    pub fn value(&self) -> u32
        requires { self.now.bits < 4096 }
        ensures value { result ≡ imm12_value self.now }
        ensures below { result < 2 ^ 24 }
    {
        let bits = u32::from(self.bits);
        if self.shift12 { bits * 4096 } else { bits }
    }
}

/// `#` and the value.
impl PrettyPrint for Imm12 {
    ghost text = { λ imm _. number_text (imm12_value imm) };

    ghost can_print = { λ imm _. imm.bits < 4096 };

    fn pretty_print(&self, alloc: Global, _size_bytes: u8) -> Text {
        text_of_number(alloc, u64::from(self.value()))
    }
}

impl ImmClass for Imm12 {
    type Parameter = ();

    type Value = u32;

    ghost set = { λ _. IsImm12Value };

    ghost lawful = { λ _ imm. imm.bits < 4096 };

    ghost value = { λ _. imm12_value };

    ghost field = { λ _. imm12_field };

    ghost within = { λ _. imm12_within };

    ghost one_value = { λ _. one_imm12 };
}
