//! Fields of words.

ghost use Rattle.std.specs.Prelude.{◌≡◌, ◌+◌, ◌%◌, ◌^◌, ◌<◌, ◌≤◌, length};
ghost use Rattle.std.specs.Int.{w32, from_le_bytes};
ghost use Rattle.a64_words.specs.Word.{outside, field_bits, mask_of};

/// The word with a number in the field of so many bits from bit `low` up, and the rest as it was.
pub fn with_field(word: u32, low: u32, bits: u32, value: u32) -> u32
    requires some { 0 < bits }
    requires inside { low + bits ≤ 32 }
    ensures rest { outside (mask_of low bits) result ≡ outside (mask_of low bits) word }
    ensures field { field_bits low bits result ≡ value % 2 ^ bits }
{
    let ones = u32::MAX >> (32 - bits);
    (word & !(ones << low)) | ((value & ones) << low)
}

/// Puts a number into a field of the word that four bytes are, and keeps the rest.
#[inline(always)]
pub fn patch_field(buffer: &mut [u8], low: u32, bits: u32, value: u32)
    requires word { length buffer.old ≡ 4 }
    requires some { 0 < bits }
    requires inside { low + bits ≤ 32 }
    ensures rest { outside (mask_of low bits) (from_le_bytes w32 buffer.new)
        ≡ outside (mask_of low bits) (from_le_bytes w32 buffer.old) }
    ensures field { field_bits low bits (from_le_bytes w32 buffer.new) ≡ value % 2 ^ bits }
{
    let mut bytes = [0; 4];
    bytes.copy_from_slice(buffer);
    let word = u32::from_le_bytes(bytes);
    let patched = with_field(word, low, bits, value);
    buffer.copy_from_slice(&patched.to_le_bytes());
}
