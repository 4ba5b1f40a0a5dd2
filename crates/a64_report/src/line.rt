//! The text of one line, composed without taking memory.
//!
//! A line is composed from its end to its front, which is the order in which division gives the
//! digits of a number. So each call is given where the text that is there begins, and answers where
//! it begins with what the call put before it.

ghost use Rattle.std.specs.Prelude.{◌≡◌, ◌+◌, ◌≤◌, ◌++◌, drop, take, length};
ghost use Rattle.std.specs.Fmt.{decimal, signed_decimal};
ghost use Rattle.a64_tokens.specs.Hex.{hex_pair, hex_word};

use itoa::write_digits;

/// The bytes of a line's buffer: more than the longest line has.
pub const SIZE: usize = 128;

/// A buffer in which a line is composed.
pub type LineBuffer = [u8; SIZE];

/// The two digits of each byte, in lower case.
static HEX_PAIRS: [u8; 512] =
    *b"000102030405060708090a0b0c0d0e0f101112131415161718191a1b1c1d1e1f202122232425262728292a2b2c2d2e2f303132333435363738393a3b3c3d3e3f404142434445464748494a4b4c4d4e4f505152535455565758595a5b5c5d5e5f606162636465666768696a6b6c6d6e6f707172737475767778797a7b7c7d7e7f808182838485868788898a8b8c8d8e8f909192939495969798999a9b9c9d9e9fa0a1a2a3a4a5a6a7a8a9aaabacadaeafb0b1b2b3b4b5b6b7b8b9babbbcbdbebfc0c1c2c3c4c5c6c7c8c9cacbcccdcecfd0d1d2d3d4d5d6d7d8d9dadbdcdddedfe0e1e2e3e4e5e6e7e8e9eaebecedeeeff0f1f2f3f4f5f6f7f8f9fafbfcfdfeff";

/// The text that begins at `start`.
#[inline(always)]
pub fn text_from(line: &LineBuffer, start: usize) -> &[u8]
    requires { start ≤ 128 }
    ensures { result.now ≡ drop start line.now }
{
    &line[start..]
}

/// Puts a text before what begins at `end`.
#[inline(always)]
pub fn put_text(line: &mut LineBuffer, end: usize, text: &[u8]) -> usize
    requires { (length text.now ≤ end) × (end ≤ 128) }
    ensures start { result + length text.now ≡ end }
    ensures front { take result line.new ≡ take result line.old }
    ensures written { drop result line.new ≡ text.now ++ drop end line.old }
{
    let start = end - text.len();
    line[start..end].copy_from_slice(text);
    start
}

/// Puts a number in decimal before what begins at `end`.
#[inline]
pub fn put_decimal(line: &mut LineBuffer, end: usize, number: u64) -> usize
    requires { (20 ≤ end) × (end ≤ 128) }
    ensures few { (result ≤ end) × (end ≤ result + 20) }
    ensures written { drop result line.new ≡ decimal number ++ drop end line.old }
{
    write_digits(number, line, end)
}

/// Puts a number in decimal before what begins at `end`, with its sign where it is negative.
pub fn put_signed(line: &mut LineBuffer, end: usize, number: i64) -> usize
    requires { (21 ≤ end) × (end ≤ 128) }
    ensures few { (result ≤ end) × (end ≤ result + 21) }
    ensures written { drop result line.new ≡ signed_decimal number ++ drop end line.old }
{
    let start = put_decimal(line, end, number.unsigned_abs());
    if number < 0 {
        put_text(line, start, b"-")
    } else {
        start
    }
}

/// Puts the two hexadecimal digits of a byte before what begins at `end`.
#[inline(always)]
fn put_hex_byte(line: &mut LineBuffer, end: usize, byte: u8) -> usize
    requires { (2 ≤ end) × (end ≤ 128) }
    ensures start { result + 2 ≡ end }
    ensures front { take result line.new ≡ take result line.old }
    ensures written { drop result line.new ≡ hex_pair byte ++ drop end line.old }
{
    let at = usize::from(byte) * 2;
    let (high, low) = (HEX_PAIRS[at], HEX_PAIRS[at + 1]);
    put_text(line, end, &[high, low])
}

/// Puts the eight hexadecimal digits of a word before what begins at `end`. It is not inlined, so that a
/// loop over words that seldom differ loads each word whole.
#[inline(never)]
pub fn put_hex(line: &mut LineBuffer, end: usize, word: u32) -> usize
    requires { (8 ≤ end) × (end ≤ 128) }
    ensures start { result + 8 ≡ end }
    ensures front { take result line.new ≡ take result line.old }
    ensures written { drop result line.new ≡ hex_word word ++ drop end line.old }
{
    let end = put_hex_byte(line, end, (word % 0x100) as u8);
    let end = put_hex_byte(line, end, (word / 0x100 % 0x100) as u8);
    let end = put_hex_byte(line, end, (word / 0x1_0000 % 0x100) as u8);
    put_hex_byte(line, end, (word / 0x100_0000) as u8)
}
