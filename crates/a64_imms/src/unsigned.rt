//! Small unsigned immediates.

ghost use Rattle.std.specs.Prelude.{◌≡◌, ℕ, ◌<◌, ◌≤◌, ◌^◌, MatchOption, ⊤};
ghost use Rattle.a64_imms.specs.Texts.{number_text};

use crate::class::ImmClass;
use crate::text::text_of_number;
use a64_base::{PrettyPrint, Text};
use std::alloc::Global;

/// An unsigned immediate of 5 bits.
#[derive(Clone, Copy, Debug)]
pub struct UImm5 {
    value: u8,
    pub ghost below: { value < 32 },
}

impl UImm5 {
    ghost use Rattle.a64_imms.specs.Unsigned.{uimm5_value};

    /// The immediate of a value below 32.
    pub fn maybe_from_u8(value: u8) -> Option<UImm5>
        ensures { MatchOption result (32 ≤ value) (λ imm. (value < 32)
            × (uimm5_value imm ≡ value)) }
    {
        if value < 32 {
            Some(UImm5 { value })
        } else {
            None
        }
    }

    /// The field's five bits.
    pub fn bits(&self) -> u32
        ensures value { result ≡ uimm5_value self.now }
        ensures below { result < 32 }
    {
        u32::from(self.value)
    }
}

/// `#` and the value.
impl PrettyPrint for UImm5 {
    ghost use Rattle.a64_imms.specs.Unsigned.{uimm5_value};

    ghost text = { λ imm _. number_text (uimm5_value imm) };

    ghost can_print = { λ _ _. ⊤ };

    fn pretty_print(&self, alloc: Global, _size_bytes: u8) -> Text {
        text_of_number(alloc, u64::from(self.value))
    }
}

impl ImmClass for UImm5 {
    type Parameter = ();

    type Value = u8;

    ghost set = { λ _ value. value < 32 };

    ghost lawful = { λ _ _. ⊤ };

    ghost value = { λ _ imm. imm.value };

    ghost field = { λ _ imm. imm.value };

    ghost within = { λ _ imm _. imm.below };

    ghost one_value = { λ _ _ _ _ _ same. same };
}

/// An unsigned immediate of 6 bits: the `immr` or `imms` of a bitfield move.
#[derive(Clone, Copy, Debug)]
pub struct UImm6 {
    /// The value, below 64.
    pub imm: u8,
}

impl UImm6 {
    /// The immediate of a value below 64.
    pub fn maybe_from_u8(value: u8) -> Option<UImm6>
        ensures { MatchOption result (64 ≤ value) (λ made. (value < 64)
            × (made.imm ≡ value)) }
    {
        if value < 64 {
            Some(UImm6 { imm: value })
        } else {
            None
        }
    }

    /// The value, which is also the field.
    pub fn value(&self) -> u8
        requires { self.now.imm < 64 }
        ensures { result ≡ self.now.imm }
    {
        self.imm
    }
}

/// `#` and the value.
impl PrettyPrint for UImm6 {
    ghost text = { λ made _. number_text made.imm };

    ghost can_print = { λ made _. made.imm < 64 };

    fn pretty_print(&self, alloc: Global, _size_bytes: u8) -> Text {
        text_of_number(alloc, u64::from(self.imm))
    }
}

impl ImmClass for UImm6 {
    type Parameter = ();

    type Value = u8;

    ghost set = { λ _ value. value < 64 };

    ghost lawful = { λ _ made. made.imm < 64 };

    ghost value = { λ _ made. made.imm };

    ghost field = { λ _ made. made.imm };

    ghost within = { λ _ _ lawful. lawful };

    ghost one_value = { λ _ _ _ _ _ same. same };
}

/// The amount of a shift.
#[derive(Clone, Copy, Debug)]
pub struct ImmShift {
    /// The amount in bits, below 64.
    pub imm: u8,
}

impl ImmShift {
    /// The shift by an amount below 64.
    pub fn maybe_from_u64(amount: u64) -> Option<ImmShift>
        ensures { MatchOption result (64 ≤ amount) (λ made. (amount < 64)
            × (made.imm ≡ amount)) }
    {
        if amount < 64 {
            Some(ImmShift { imm: amount as u8 })
        } else {
            None
        }
    }

    /// The amount in bits, which is also the field.
    pub fn value(&self) -> u8
        requires { self.now.imm < 64 }
        ensures { result ≡ self.now.imm }
    {
        self.imm
    }
}

/// `#` and the amount.
impl PrettyPrint for ImmShift {
    ghost text = { λ made _. number_text made.imm };

    ghost can_print = { λ made _. made.imm < 64 };

    fn pretty_print(&self, alloc: Global, _size_bytes: u8) -> Text {
        text_of_number(alloc, u64::from(self.imm))
    }
}

impl ImmClass for ImmShift {
    type Parameter = ();

    type Value = u8;

    ghost set = { λ _ amount. amount < 64 };

    ghost lawful = { λ _ made. made.imm < 64 };

    ghost value = { λ _ made. made.imm };

    ghost field = { λ _ made. made.imm };

    ghost within = { λ _ _ lawful. lawful };

    ghost one_value = { λ _ _ _ _ _ same. same };
}
