//! Reads maps of the stack.

ghost use Rattle.a64_tokens.specs.Reads.{Reads};
ghost use Rattle.a64_tokens.specs.Fields.{map_text, IsMapNumber};

use crate::decimal::read_u32;
use a64_base::UserStackMap;

/// What the token says of the map of the stack at a call: `-` where there is none, else its number.
pub fn read_map(token: &[u8]) -> Option<Option<UserStackMap>>
    ensures { Reads IsMapNumber map_text token.now result }
{
    match token {
        b"-" => Some(None),
        _ => Some(Some(UserStackMap(read_u32(token)?))),
    }
}
