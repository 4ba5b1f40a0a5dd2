//! The condition flags as an immediate.

ghost use Rattle.std.specs.Prelude.{◌≡◌, ℕ, ◌<◌, true, ⊤, ◌++◌, OnOk};
ghost use Rattle.std.specs.String.{string_bytes};
ghost use Rattle.a64_imms.specs.Flags.{flags_of, nzcv_bits, nzcv_text, Flags};
ghost use Rattle.a64_imms.specs.Laws.{same_flags};

use crate::class::ImmClass;
use a64_base::{PrettyPrint, Text};
use std::alloc::{AllocError, Global};

/// The condition flags that a conditional compare sets where its condition does not hold.
#[derive(Clone, Copy, Debug)]
pub struct NZCV {
    n: bool,
    z: bool,
    c: bool,
    v: bool,
}

impl NZCV {
    /// These flags: negative, zero, carry, overflow.
    pub fn new(n: bool, z: bool, c: bool, v: bool) -> NZCV
        ensures { flags_of result ≡ record { n = n; z = z; c = c; v = v } }
    {
        NZCV { n, z, c, v }
    }

    /// The field's four bits: N is bit 3, Z bit 2, C bit 1 and V bit 0.
    pub fn bits(&self) -> u32
        ensures value { result ≡ nzcv_bits (flags_of self.now) }
        ensures below { result < 16 }
    {
        8 * u32::from(self.n) + 4 * u32::from(self.z) + 2 * u32::from(self.c) + u32::from(self.v)
    }

    /// Appends `#nzcv`, with a capital for each flag that is set.
    ///
    /// # Errors
    ///
    /// Want of memory.
    pub fn push_text(&self, out: &mut String) -> Result<(), AllocError>
        ensures { OnOk result (string_bytes out.new
            ≡ string_bytes out.old ++ nzcv_text (flags_of self.now)) }
    {
        out.push_str("#")?;
        out.push_str(if self.n { "N" } else { "n" })?;
        out.push_str(if self.z { "Z" } else { "z" })?;
        out.push_str(if self.c { "C" } else { "c" })?;
        out.push_str(if self.v { "V" } else { "v" })
    }
}

/// `#nzcv`, with a capital for each flag that is set.
impl PrettyPrint for NZCV {
    ghost text = { λ flags _. nzcv_text (flags_of flags) };

    ghost can_print = { λ _ _. ⊤ };

    fn pretty_print(&self, alloc: Global, _size_bytes: u8) -> Text {
        let mut text = String::new(alloc);
        self.push_text(&mut text)?;
        Ok(text)
    }
}

impl ImmClass for NZCV {
    type Parameter = ();

    type Value = NZCV;

    ghost set = { λ _ _. ⊤ };

    ghost lawful = { λ _ _. ⊤ };

    ghost value = { λ _ flags. flags };

    ghost field = { λ _ flags. nzcv_bits (flags_of flags) };

    ghost within = { λ _ _ _. tt };

    ghost one_value = { λ _ x y _ _ same. same_flags x y same };
}
