//! Reads the bytes of constants.

ghost use Rattle.std.specs.Prelude.{◌≡◌, IfOk};
ghost use Rattle.a64_tokens.specs.Hex.{hex_text};
ghost use Rattle.a64_tokens.specs.Reads.{Reads};
ghost use Rattle.a64_text.specs.Constants.{has_digits, HasHex};

use a64_list::ListVec;
use a64_tokens::hex::read_bytes;
use std::alloc::{AllocError, Global};

/// Whether a constant is written in so many digits.
fn has_digits(count: usize) -> bool
    ensures { result ≡ has_digits count }
{
    matches!(count, 8 | 16 | 32)
}

/// The bytes of a constant: 4, 8 or 16 of them.
///
/// # Errors
///
/// Want of memory.
pub fn read_constant(alloc: Global, token: &[u8]) -> Result<Option<ListVec<u8>>, AllocError>
    ensures { IfOk result (Reads HasHex hex_text token.now) }
{
    if has_digits(token.len()) {
        read_bytes(alloc, token)
    } else {
        Ok(None)
    }
}
