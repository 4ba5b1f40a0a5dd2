//! Reads bytes in hexadecimal digits.

ghost use Rattle.std.specs.Prelude.{IfOk};
ghost use Rattle.a64_tokens.specs.Hex.{hex_digit, hex_word, IsDigit, byte_digits, hex_text, AreBytes};
ghost use Rattle.a64_tokens.specs.Reads.{Reads, IsU8, IsU32};

use a64_list::ListVec;
use std::alloc::{AllocError, Global};

/// The number that the hexadecimal digit is.
fn digit_of(byte: u8) -> Option<u8>
    ensures { Reads IsDigit hex_digit byte result }
{
    match byte {
        b'0'..=b'9' => Some(byte - b'0'),
        b'a'..=b'f' => Some(byte - b'a' + 10),
        _ => None,
    }
}

/// The byte that the two digits are.
#[tactic(auto, using(crate::proofs::Bytes::both, crate::proofs::Bytes::no_high, crate::proofs::Bytes::no_low))]
fn byte_of(high: u8, low: u8) -> Option<u8>
    ensures { Reads IsU8 byte_digits (high, low) result }
{
    let Some(above) = digit_of(high) else {
        return None;
    };
    let Some(below) = digit_of(low) else {
        return None;
    };
    Some(above * 16 + below)
}

/// The word that the eight digits are, the highest first.
#[tactic(auto, using(crate::proofs::Words::no_length, crate::proofs::Words::no_first, crate::proofs::Words::no_second, crate::proofs::Words::no_third, crate::proofs::Words::no_fourth, crate::proofs::Words::all_four))]
pub fn read_word(token: &[u8]) -> Option<u32>
    ensures { Reads IsU32 hex_word token.now result }
{
    match token {
        [a, b, c, d, e, f, g, h] => {
            let Some(first) = byte_of(*a, *b) else {
                return None;
            };
            let Some(second) = byte_of(*c, *d) else {
                return None;
            };
            let Some(third) = byte_of(*e, *f) else {
                return None;
            };
            let Some(fourth) = byte_of(*g, *h) else {
                return None;
            };
            let upper = u32::from(first) * 0x100 + u32::from(second);
            let lower = u32::from(third) * 0x100 + u32::from(fourth);
            Some(upper * 0x1_0000 + lower)
        }
        _ => None,
    }
}

/// The bytes that the digits are.
///
/// # Errors
///
/// Want of memory.
pub fn read_bytes(alloc: Global, token: &[u8]) -> Result<Option<ListVec<u8>>, AllocError>
    ensures { IfOk result (Reads AreBytes hex_text token.now) }
{
    let mut bytes = ListVec::new(alloc);
    let mut rest = token;
    while let [high, low, more @ ..] = rest {
        let Some(byte) = byte_of(*high, *low) else {
            return Ok(None);
        };
        bytes.push(byte)?;
        rest = more;
    }
    if rest.is_empty() {
        Ok(Some(bytes))
    } else {
        Ok(None)
    }
}
