//! Reads signed numbers.

ghost use Rattle.std.specs.Prelude.{◌≡◌, ◌≢◌, ℕ, List, ◌∷◌, MatchOption};
ghost use Rattle.std.specs.Fmt.{signed_decimal};
ghost use Rattle.a64_tokens.specs.Reads.{Reads, IsI32, IsI64, IsBelowZero, IsFromZero};
ghost use Rattle.a64_tokens.specs.Fields.{offset9_text, IsSImm9};

use crate::decimal::read_u64;
use a64_imms::SImm9;

/// What comes after the byte at the front, where it stands there.
pub fn after(front: u8, token: &[u8]) -> Option<&[u8]>
    ensures { MatchOption result
        ((rest : List ℕ) → token.now ≢ front ∷ rest)
        (λ rest. token.now ≡ front ∷ rest.now) }
{
    let (first, rest) = token.split_first()?;
    if *first == front { Some(rest) } else { None }
}

/// The number with a minus.
fn below_zero(size: u64) -> Option<i64>
    ensures { IsBelowZero size result }
{
    if size == 0 || size > 0x8000_0000_0000_0000 {
        return None;
    }
    Some(-1 - (size - 1) as i64)
}

/// The same number.
fn from_zero(size: u64) -> Option<i64>
    ensures { IsFromZero size result }
{
    if size > 0x7fff_ffff_ffff_ffff {
        None
    } else {
        Some(size as i64)
    }
}

/// The number of 64 bits whose decimal text the token is. Those below zero have a `-` at the front.
pub fn read_i64(token: &[u8]) -> Option<i64>
    ensures { Reads IsI64 signed_decimal token.now result }
{
    match after(b'-', token) {
        Some(digits) => below_zero(read_u64(digits)?),
        None => from_zero(read_u64(token)?),
    }
}

/// The number of 32 bits whose decimal text the token is. Those below zero have a `-` at the front.
pub fn read_i32(token: &[u8]) -> Option<i32>
    ensures { Reads IsI32 signed_decimal token.now result }
{
    let value = read_i64(token)?;
    if value < i64::from(i32::MIN) || value > i64::from(i32::MAX) {
        return None;
    }
    Some(value as i32)
}

/// The offset of 9 bits that the constructor gives for the value.
fn offset9_of(value: i64) -> Option<SImm9>
    ensures { Reads IsSImm9 (λ imm. imm.value) value result }
{
    SImm9::maybe_from_i64(value)
}

/// The signed offset of 9 bits whose value the token is.
pub fn read_offset9(token: &[u8]) -> Option<SImm9>
    ensures { Reads IsSImm9 offset9_text token.now result }
{
    offset9_of(read_i64(token)?)
}
