//! The immediate of vector moves of floats.

ghost use Rattle.std.specs.Prelude.{◌≡◌, ◌≢◌, ℕ, ◌<◌, ◌≤◌, ◌+◌, ◌*◌, ◌/◌, ◌%◌, ◌^◌, MatchOption, ◌++◌, OnOk};
ghost use Rattle.std.specs.String.{string_bytes};
ghost use Rattle.a64_imms.specs.Texts.{hex_digit, hex_text};
ghost use Rattle.a64_imms.specs.FloatImms.{float_pattern, float_text, pattern_at, IsFloatSize, IsFloatImm, IsFloatValue, IsFloatLawful};
ghost use Rattle.a64_imms.specs.FloatLaws.{float_within, one_float};

use crate::class::ImmClass;
use crate::text::push_pattern;
use a64_base::{PrettyPrint, ScalarSize, Text};
use std::alloc::{AllocError, Global};

/// The modified immediate of `fmov`: a float by its sign, three bits of its exponent and four of
/// its fraction, which are called a, b to d and e to h, the highest first.
#[derive(Clone, Copy, Debug, PartialEq, Eq)]
pub struct ASIMDFPModImm {
    /// The eight bits, a highest.
    pub imm: u8,
    /// The size of the float: 16, 32 or 64 bits.
    pub size: ScalarSize,
}

/// The float's bits, from the highest: a, the complement of b, b 2, 5 or 8 times, c to h, zeros.
fn pattern_of(size: ScalarSize, imm: u8) -> u64
    requires { IsFloatSize size }
    ensures { result ≡ float_pattern size imm }
{
    let sign = u64::from(imm / 128);
    let high = u64::from(imm / 64 % 2);
    let rest = u64::from(imm % 64);
    match size {
        ScalarSize::Size16 => (sign << 15) + ((1 - high) << 14) + (high * 0b11 << 12) + (rest << 6),
        ScalarSize::Size32 => (sign << 31)
            + ((1 - high) << 30)
            + (high * 0x1f << 25)
            + (rest << 19),
        _ => (sign << 63) + ((1 - high) << 62) + (high * 0xff << 54) + (rest << 48),
    }
}

/// The eight bits of which a float's bits can be: a, the lowest b, and c to h.
fn bits_in(size: ScalarSize, pattern: u64) -> u8
    requires size { IsFloatSize size }
    requires pattern { pattern_at size pattern ≡ pattern }
    ensures { (bits : ℕ) → bits < 256 → float_pattern size bits ≡ pattern
        → result ≡ bits }
{
    match size {
        ScalarSize::Size16 => (((pattern >> 15) << 7) + (pattern >> 6) % 128) as u8,
        ScalarSize::Size32 => (((pattern >> 31) << 7) + (pattern >> 19) % 128) as u8,
        _ => (((pattern >> 63) << 7) + (pattern >> 48) % 128) as u8,
    }
}

impl ASIMDFPModImm {
    /// The immediate of a float of this size with these bits; higher bits do not count.
    pub fn maybe_from_u64(value: u64, size: ScalarSize) -> Option<ASIMDFPModImm>
        ensures { MatchOption result (¬ IsFloatValue size (pattern_at size value))
            (IsFloatImm size value) }
    {
        let pattern = match size {
            ScalarSize::Size16 => value % (1 << 16),
            ScalarSize::Size32 => value % (1 << 32),
            ScalarSize::Size64 => value,
            ScalarSize::Size8 | ScalarSize::Size128 => return None,
        };
        let imm = bits_in(size, pattern);
        if pattern_of(size, imm) == pattern {
            Some(ASIMDFPModImm { imm, size })
        } else {
            None
        }
    }

    /// The field's eight bits.
    pub fn enc_bits(&self) -> u8
        requires { IsFloatSize self.now.size }
        ensures { result ≡ self.now.imm }
    {
        self.imm
    }

    /// Appends `#0x` and the float's bits in 4, 8 or 16 hexadecimal digits.
    ///
    /// # Errors
    ///
    /// Want of memory.
    pub fn push_text(&self, out: &mut String) -> Result<(), AllocError>
        requires { IsFloatSize self.now.size }
        ensures { OnOk result (string_bytes out.new
            ≡ string_bytes out.old ++ float_text self.now) }
    {
        let digits = match self.size {
            ScalarSize::Size16 => 4,
            ScalarSize::Size32 => 8,
            _ => 16,
        };
        push_pattern(out, pattern_of(self.size, self.imm), digits)
    }
}

/// `#0x` and the float's bits in 4, 8 or 16 hexadecimal digits.
impl PrettyPrint for ASIMDFPModImm {
    ghost text = { λ made _. float_text made };

    ghost can_print = { λ made _. IsFloatSize made.size };

    fn pretty_print(&self, alloc: Global, _size_bytes: u8) -> Text {
        let mut text = String::new(alloc);
        self.push_text(&mut text)?;
        Ok(text)
    }
}

impl ImmClass for ASIMDFPModImm {
    type Parameter = ScalarSize;

    type Value = u64;

    ghost set = { IsFloatValue };

    ghost lawful = { IsFloatLawful };

    ghost value = { λ size made. float_pattern size made.imm };

    ghost field = { λ _ made. made.imm };

    ghost within = { float_within };

    ghost one_value = { one_float };
}
