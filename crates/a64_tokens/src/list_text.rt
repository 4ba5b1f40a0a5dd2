//! Reads lists.

ghost use Rattle.std.specs.Prelude.{◌≡◌};
ghost use Rattle.a64_tokens.specs.Fields.{HasNo};
ghost use Rattle.a64_tokens.specs.Lists.{same_text};
ghost use Rattle.a64_tokens.specs.Reads.{Reads};

use crate::split::cut;
use std::marker::Model;

/// A list, as it is written.
#[derive(Drop)]
pub struct ListText<'t> {
    bytes: &'t [u8],
}

impl<'t> Model for ListText<'t> {
    ghost use Rattle.std.specs.Prelude.{List, ℕ};

    ghost Value = { List ℕ };

    ghost view = { λ text. text.bytes.now };
}

impl<'t> ListText<'t> {
    /// Its bytes.
    pub fn as_bytes(&self) -> &'t [u8]
        ensures { result.now ≡ self.now }
    {
        self.bytes
    }
}

/// The list that the token is, as it is written: anything without a space.
#[tactic(auto, using(crate::proofs::ListTexts::no_space))]
pub fn read_list_text(token: &[u8]) -> Option<ListText<'_>>
    ensures { Reads (HasNo 32) same_text token.now result }
{
    let (_, more) = cut(token, b' ');
    match more {
        None => Some(ListText { bytes: token }),
        Some(_) => None,
    }
}
