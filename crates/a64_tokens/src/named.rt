//! Reads names.

ghost use Rattle.std.specs.Prelude.{◌≡◌, ◌↔◌, ◌+◌, ◌*◌, ◌^◌, ◌≤◌, slice_index, length, take, drop, true, ℕ, List, option_map, Option, Some, IfSome};
ghost use Rattle.a64_tokens.specs.declared.value.Kind.{Kind};
ghost use Rattle.a64_tokens.specs.Reads.{Reads, Always};
ghost use Rattle.a64_tokens.specs.Hash.{word_at, mixed, hash, look_up, AreRows};

use crate::value::Kind;
use std::simd::prelude::*;

/// A name, the kinds of the fields behind it, and what it names.
pub type Row<T> = (&'static [u8], &'static [Kind], T);

/// What names stand for. They are looked up in a table.
pub trait Named: Copy + Drop + 'static {
    /// The name of a value.
    ghost text: { Self → List ℕ };

    /// The kinds of the fields behind it.
    ghost kinds_of: { Self → List Kind };

    /// For each remainder of a hash, the home of a row: 32 times the number of its class, plus its number there.
    ghost homes: { List ℕ };

    /// The values of the rows of each class.
    ghost rows: { ℕ → List Self };

    /// The homes.
    fn home_table() -> &'static [u8]
        ensures { result.now ≡ homes };

    /// The rows of the class of this number. A type with few names has all of them in each class.
    fn row_table(class: u8) -> &'static [Row<Self>]
        ensures { AreRows text kinds_of (rows class) result.now };

    /// Each value stands in the row to which its name leads.
    ghost found: { (x : Self) → look_up homes rows (text x) ≡ Some x };
}

/// The number that two bytes of a text are from a place on, the least first.
#[inline(always)]
fn half_at(text: &[u8], place: usize) -> u16
    requires { place + 2 ≤ length text.now }
    ensures { result ≡ slice_index text.now place + 2 ^ 8 * slice_index text.now (place + 1) }
{
    u16::from(text[place]) + 0x100 * u16::from(text[place + 1])
}

/// The number that four bytes of a text are from a place on, the least first.
#[inline(always)]
fn word_at(text: &[u8], place: usize) -> u32
    requires { place + 4 ≤ length text.now }
    ensures { result ≡ word_at text.now place }
{
    u32::from(text[place])
        + 0x100 * u32::from(text[place + 1])
        + 0x1_0000 * u32::from(text[place + 2])
        + 0x100_0000 * u32::from(text[place + 3])
}

/// Three numbers mixed into one of 11 bits.
#[inline(always)]
fn mixed(first: u32, middle: u32, last: u32) -> usize
    ensures { result ≡ mixed first middle last }
{
    let sum = first
        .wrapping_mul(0xb4af_80c3)
        .wrapping_add(middle.wrapping_mul(0x8bdc_fbc5))
        .wrapping_add(last.wrapping_mul(0x6974_e419));
    (sum >> 21) as usize
}

/// A number that the token has, of its first, middle and last four bytes, or bytes where it has no four.
///
/// So it needs no second pass over the token. Each of the three has a factor of its own, and of the sum the
/// top 11 bits are kept. Two names of one table that agree in these would need other factors; none do.
#[inline(always)]
fn hash_of(token: &[u8]) -> usize
    ensures { result ≡ hash token.now }
{
    let len = token.len();
    if len >= 4 {
        let middle = word_at(token, (len - 4) / 2);
        return mixed(word_at(token, 0), middle, word_at(token, len - 4));
    }
    if len == 0 {
        return 0;
    }
    mixed(
        u32::from(token[0]),
        u32::from(token[len / 2]),
        u32::from(token[len - 1]),
    )
}

/// Whether two bytes of two texts, from a place on, are the same.
#[inline(always)]
fn has_same_two(a: &[u8], b: &[u8], place: usize) -> bool
    requires { (place + 2 ≤ length a.now) × (place + 2 ≤ length b.now) }
    ensures { (result ≡ true) ↔ (take 2 (drop place a.now) ≡ take 2 (drop place b.now)) }
{
    half_at(a, place) == half_at(b, place)
}

/// Whether four bytes of two texts, from a place on, are the same.
#[inline(always)]
fn has_same_four(a: &[u8], b: &[u8], place: usize) -> bool
    requires { (place + 4 ≤ length a.now) × (place + 4 ≤ length b.now) }
    ensures { (result ≡ true) ↔ (take 4 (drop place a.now) ≡ take 4 (drop place b.now)) }
{
    word_at(a, place) == word_at(b, place)
}

/// Whether eight bytes of two texts, from a place on, are the same.
#[inline(always)]
fn has_same_eight(a: &[u8], b: &[u8], place: usize) -> bool
    requires { (place + 8 ≤ length a.now) × (place + 8 ≤ length b.now) }
    ensures { (result ≡ true) ↔ (take 8 (drop place a.now) ≡ take 8 (drop place b.now)) }
{
    u8x8::from_slice(&a[place..])
        .simd_eq(u8x8::from_slice(&b[place..]))
        .to_bitmask()
        == 255
}

/// Whether two texts are the same, byte by byte.
#[inline(never)]
fn is_same_long(a: &[u8], b: &[u8]) -> bool
    ensures { (result ≡ true) ↔ (a.now ≡ b.now) }
{
    a == b
}

/// Whether two texts are the same. Those of 2 to 16 bytes, as names are, are compared by two looks at
/// as many bytes, which may overlap.
#[inline(always)]
fn is_same(a: &[u8], b: &[u8]) -> bool
    ensures { (result ≡ true) ↔ (a.now ≡ b.now) }
{
    let len = a.len();
    if len != b.len() {
        return false;
    }
    if len >= 4 {
        if len <= 8 {
            has_same_four(a, b, 0) && has_same_four(a, b, len - 4)
        } else if len <= 16 {
            has_same_eight(a, b, 0) && has_same_eight(a, b, len - 8)
        } else {
            is_same_long(a, b)
        }
    } else if len >= 2 {
        has_same_two(a, b, 0) && has_same_two(a, b, len - 2)
    } else {
        is_same_long(a, b)
    }
}

/// What the token names, and the kinds of the fields behind it.
#[inline(always)]
pub fn read_heading<T: Named>(token: &[u8]) -> Option<(&'static [Kind], T)>
    ensures read { Reads Always T.text token.now (option_map (λ r. r.1) result) }
    ensures kinds { IfSome result (λ r. r.0.now ≡ T.kinds_of r.1) }
{
    let homes = T::home_table();
    if homes.is_empty() {
        return None;
    }
    let home = homes[hash_of(token) % homes.len()];
    let (name, kinds, value) = T::row_table(home / 32).get((home % 32) as usize)?;
    if is_same(name, token) {
        Some((*kinds, *value))
    } else {
        None
    }
}

/// What the token names.
#[inline(always)]
pub fn read_named<T: Named>(token: &[u8]) -> Option<T>
    ensures { Reads Always T.text token.now result }
{
    let (_, value) = read_heading::<T>(token)?;
    Some(value)
}
