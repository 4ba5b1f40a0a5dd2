//! The immediate of vector moves.

ghost use Rattle.std.specs.Prelude.{◌≡◌, ◌≢◌, ℕ, ◌<◌, ◌≤◌, ◌+◌, ◌-◌, ◌*◌, ◌%◌, ◌^◌, if◌then◌else◌, false, MatchOption, IfSome, ◌++◌, OnOk};
ghost use Rattle.std.specs.String.{string_bytes};
ghost use Rattle.a64_base.specs.declared.size.ScalarSize.TheVariants.{Size16, Size32, Size64, Size128};
ghost use Rattle.a64_imms.specs.MovImms.{byte_of, spread, looked_at, is_64, mov_value, mov_field, mov_text, forms_of, HasForm, HoldsForm, IsFirst, IsMovImm, IsMovValue, IsMovLawful, HasMovFields};
ghost use Rattle.a64_imms.specs.MovLaws.{mov_within, one_mov};

use crate::class::ImmClass;
use a64_base::{PrettyPrint, ScalarSize, Text, push_numbered};
use std::alloc::{AllocError, Global};

/// The modified immediate of `movi` and `mvni`.
#[derive(Clone, Copy, Debug, PartialEq, Eq)]
pub struct ASIMDMovModImm {
    /// The eight bits.
    pub imm: u8,
    /// By how many places the bits are shifted left; 0 where the immediate is of 64 bits.
    pub shift: u8,
    /// Whether each of the bits stands for a byte of 64 bits.
    pub is_64bit: bool,
    /// Whether ones are shifted in.
    pub shift_ones: bool,
}

/// ff where this bit is set, and 00 elsewhere.
fn byte_at(bits: u8, place: u8) -> u8
    requires { place < 8 }
    ensures { result ≡ byte_of bits place }
{
    if (bits >> place) % 2 == 1 { 0xff } else { 0 }
}

/// The number whose byte i is ff where bit i is set, and 00 elsewhere.
fn spread_bits(bits: u8) -> u64
    ensures { result ≡ spread bits }
{
    u64::from_le_bytes([
        byte_at(bits, 0),
        byte_at(bits, 1),
        byte_at(bits, 2),
        byte_at(bits, 3),
        byte_at(bits, 4),
        byte_at(bits, 5),
        byte_at(bits, 6),
        byte_at(bits, 7),
    ])
}

/// The bits of which each is the lowest of a byte.
fn lowest_bits(value: u64) -> u8
    ensures { (bits : ℕ) → bits < 256 → spread bits ≡ value → result ≡ bits }
{
    // The product brings the lowest bit of byte i to place 56 + i.
    ((value & 0x0101_0101_0101_0101).wrapping_mul(0x0102_0408_1020_4080) >> 56) as u8
}

/// What stands behind bits that are shifted left: ones or zeros.
fn behind(shift: u8, ones: bool) -> u32
    requires { shift ≤ 24 }
    ensures { result ≡ (if ones then 2 ^ shift - 1 else 0) }
{
    if ones { (1 << shift) - 1 } else { 0 }
}

/// The immediate of a number of the form with this shift, and ones or zeros behind the bits.
fn shifted(number: u32, shift: u8, ones: bool) -> Option<ASIMDMovModImm>
    requires { shift ≤ 24 }
    ensures { MatchOption result (¬ HasForm (record { shift = shift; ones = ones }) number)
        (HoldsForm (record { shift = shift; ones = ones }) number) }
{
    let imm = number >> shift;
    if imm < 256 && number % (1 << shift) == behind(shift, ones) {
        Some(ASIMDMovModImm {
            imm: imm as u8,
            shift,
            is_64bit: false,
            shift_ones: ones,
        })
    } else {
        None
    }
}

/// The immediate of a lane of 16 bits.
fn of_halfword(number: u32) -> Option<ASIMDMovModImm>
    ensures { MatchOption result (¬ IsMovValue Size16 number) (IsFirst (forms_of Size16) number) }
{
    if let Some(imm) = shifted(number, 0, false) {
        return Some(imm);
    }
    shifted(number, 8, false)
}

/// The immediate of a lane of 32 bits.
fn of_word(number: u32) -> Option<ASIMDMovModImm>
    ensures { MatchOption result (¬ IsMovValue Size32 number) (IsFirst (forms_of Size32) number) }
{
    if let Some(imm) = shifted(number, 16, true) {
        return Some(imm);
    }
    if let Some(imm) = shifted(number, 8, true) {
        return Some(imm);
    }
    if let Some(imm) = shifted(number, 0, false) {
        return Some(imm);
    }
    if let Some(imm) = shifted(number, 8, false) {
        return Some(imm);
    }
    if let Some(imm) = shifted(number, 16, false) {
        return Some(imm);
    }
    shifted(number, 24, false)
}

/// The immediate of 64 bits of which each byte is 00 or ff.
fn of_bytes(value: u64) -> Option<ASIMDMovModImm>
    ensures { MatchOption result (¬ IsMovValue Size64 value) (IsMovImm Size64 value) }
{
    let imm = lowest_bits(value);
    if spread_bits(imm) == value {
        Some(ASIMDMovModImm {
            imm,
            shift: 0,
            is_64bit: true,
            shift_ones: false,
        })
    } else {
        None
    }
}

impl ASIMDMovModImm {
    /// The immediate of a value in lanes of this size, whose higher bits do not count.
    ///
    /// Of the forms that a value has, the first of this order is taken: for 32 bits, as eight hex
    /// digits in which MM are the bits, 00MMffff, 0000MMff, 000000MM, 0000MM00, 00MM0000 and
    /// MM000000; for 16 bits 00MM and MM00; for 64 bits each byte is 00 or ff.
    pub fn maybe_from_u64(value: u64, size: ScalarSize) -> Option<ASIMDMovModImm>
        ensures first { MatchOption result (¬ IsMovValue size (looked_at size value))
            (IsMovImm size value) }
        ensures lawful { IfSome result (λ imm. IsMovLawful size imm) }
        ensures fields { IfSome result HasMovFields }
        ensures value { IfSome result (λ imm. mov_value imm ≡ looked_at size value) }
    {
        match size {
            ScalarSize::Size8 => shifted((value % (1 << 8)) as u32, 0, false),
            ScalarSize::Size16 => of_halfword((value % (1 << 16)) as u32),
            ScalarSize::Size32 => of_word((value % (1 << 32)) as u32),
            ScalarSize::Size64 => of_bytes(value),
            ScalarSize::Size128 => None,
        }
    }

    /// The immediate 0 in lanes of this size.
    pub fn zero(size: ScalarSize) -> ASIMDMovModImm
        ensures value { result ≡ record {
          imm = 0;
          shift = 0;
          is_64bit = is_64 size;
          shift_ones = false;
        } }
        ensures lawful { size ≢ Size128 → IsMovLawful size result }
    {
        ASIMDMovModImm {
            imm: 0,
            shift: 0,
            is_64bit: size == ScalarSize::Size64,
            shift_ones: false,
        }
    }

    /// The bits, the shift in places, and whether ones are shifted in.
    pub fn value(&self) -> (u8, u32, bool)
        requires { HasMovFields self.now }
        ensures bits { result.0 ≡ self.now.imm }
        ensures shift { result.1 ≡ self.now.shift }
        ensures ones { result.2 ≡ self.now.shift_ones }
    {
        (self.imm, u32::from(self.shift), self.shift_ones)
    }

    /// Appends `#` and the value of 64 bits, or `#`, the bits, and `, MSL #` (with ones) or
    /// `, LSL #` and the shift where that is not 0.
    ///
    /// # Errors
    ///
    /// Want of memory.
    pub fn push_text(&self, out: &mut String) -> Result<(), AllocError>
        ensures { OnOk result (string_bytes out.new ≡ string_bytes out.old ++ mov_text self.now) }
    {
        if self.is_64bit {
            return push_numbered(out, "#", spread_bits(self.imm));
        }
        push_numbered(out, "#", self.imm)?;
        if self.shift == 0 {
            return Ok(());
        }
        let shifted = if self.shift_ones {
            ", MSL #"
        } else {
            ", LSL #"
        };
        push_numbered(out, shifted, self.shift)
    }
}

/// `#` and the number of 64 bits; else `#` and the bits, then `, MSL #` where ones are shifted
/// in, or `, LSL #`, and the shift, where that is not 0.
impl PrettyPrint for ASIMDMovModImm {
    ghost text = { λ imm _. mov_text imm };

    ghost can_print = { λ imm _. HasMovFields imm };

    fn pretty_print(&self, alloc: Global, _size_bytes: u8) -> Text {
        let mut text = String::new(alloc);
        self.push_text(&mut text)?;
        Ok(text)
    }
}

impl ImmClass for ASIMDMovModImm {
    type Parameter = ScalarSize;

    type Value = u64;

    ghost set = { IsMovValue };

    ghost lawful = { IsMovLawful };

    ghost value = { λ _. mov_value };

    ghost field = { λ _. mov_field };

    ghost within = { mov_within };

    ghost one_value = { one_mov };
}
