//! Reads labels and branch targets.

ghost use Rattle.std.specs.Prelude.{◌≡◌, ◌∷◌};
ghost use Rattle.a64_tokens.specs.Reads.{Reads};
ghost use Rattle.a64_tokens.specs.SplitLaws.{comma_joined};
ghost use Rattle.a64_tokens.specs.Splitting.{comma_tokens, of_text};
ghost use Rattle.a64_tokens.specs.TokenLaws.{some_token};
ghost use Rattle.a64_read.specs.ListLaws.{label_apart, label_no_dash};
ghost use Rattle.a64_tokens.specs.Fields.{label_text, IsLabel, target_text, IsTarget};

use crate::list::{Listed, cut_comma};
use a64_base::{BranchTarget, MachLabel};
use a64_tokens::decimal::read_u32;
use a64_tokens::offset::{after, read_i32};

/// The label whose text the token is: `L` and its number.
#[inline(always)]
pub fn read_label(token: &[u8]) -> Option<MachLabel>
    ensures { Reads IsLabel label_text token.now result }
{
    match token {
        [b'L', number @ ..] => Some(MachLabel(read_u32(number)?)),
        _ => None,
    }
}

impl Listed for MachLabel {
    ghost text = { label_text };

    ghost fits = { IsLabel };

    ghost tokens = { comma_tokens };

    fn cut(list: &[u8]) -> (&[u8], Option<&[u8]>) {
        cut_comma(list)
    }

    fn read(token: &[u8]) -> Option<MachLabel> {
        read_label(token)
    }

    ghost apart = { label_apart };

    ghost joined = { comma_joined };

    ghost some_token = { some_token 44 };

    ghost no_dash = { label_no_dash };
}

/// The branch target whose text the token is: its label, or its distance in bytes.
#[inline(always)]
pub fn read_target(token: &[u8]) -> Option<BranchTarget>
    ensures { Reads IsTarget target_text token.now result }
{
    match after(b'L', token) {
        Some(number) => Some(BranchTarget::Label(MachLabel(read_u32(number)?))),
        None => Some(BranchTarget::ResolvedOffset(read_i32(token)?)),
    }
}
