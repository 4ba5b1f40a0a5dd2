//! A number that stands for code.

ghost use Rattle.std.specs.Prelude.{◌≡◌};
ghost use Rattle.a64_stream.specs.Streams.{word_sum};

/// The sum of the words of code, as 32 bits.
pub fn word_sum(bytes: &[u8]) -> u32
    ensures { result ≡ word_sum bytes.now }
{
    let mut sum: u32 = 0;
    for i in 0..bytes.len() / 4 {
        let word = [
            bytes[4 * i],
            bytes[4 * i + 1],
            bytes[4 * i + 2],
            bytes[4 * i + 3],
        ];
        sum = sum.wrapping_add(u32::from_le_bytes(word));
    }
    sum
}
