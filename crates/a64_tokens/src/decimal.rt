//! Reads decimal numbers.

ghost use Rattle.std.specs.Fmt.{decimal};
ghost use Rattle.a64_tokens.specs.Reads.{Reads, IsBelowHundred, IsU8, IsU32, IsU64};

/// The number below 2^64 whose decimal text the token is. No text has a sign, or a needless `0` at
/// its front.
pub fn read_u64(token: &[u8]) -> Option<u64>
    ensures { Reads IsU64 decimal token.now result }
{
    if token.is_empty() || token.len() > 20 || (token[0] == b'0' && token.len() > 1) {
        return None;
    }
    let mut value: u64 = 0;
    for byte in token {
        let byte = *byte;
        if byte < b'0' || byte > b'9' {
            return None;
        }
        let digit = u64::from(byte - b'0');
        value = value.checked_mul(10)?.checked_add(digit)?;
    }
    Some(value)
}

/// The number below 2^32 whose decimal text the token is.
#[inline(always)]
pub fn read_u32(token: &[u8]) -> Option<u32>
    ensures { Reads IsU32 decimal token.now result }
{
    let value = read_u64(token)?;
    if value > u32::MAX as u64 {
        return None;
    }
    Some(value as u32)
}

/// The number below 2^8 whose decimal text the token is.
pub fn read_u8(token: &[u8]) -> Option<u8>
    ensures { Reads IsU8 decimal token.now result }
{
    let value = read_u64(token)?;
    if value > u8::MAX as u64 {
        return None;
    }
    Some(value as u8)
}

/// The number below 100 whose decimal text the token is: one digit, or two of which the first is not `0`.
#[tactic(auto, using(crate::proofs::TwoDigits::has_digits))]
#[inline(always)]
pub fn read_below_hundred(token: &[u8]) -> Option<u8>
    ensures { Reads IsBelowHundred decimal token.now result }
{
    match token {
        [u @ b'0'..=b'9'] => Some(*u - b'0'),
        [t @ b'1'..=b'9', u @ b'0'..=b'9'] => Some((*t - b'0') * 10 + (*u - b'0')),
        _ => None,
    }
}
