//! Reads fields of which a field is made, with commas between.

ghost use Rattle.std.specs.Prelude.{[]};
ghost use Rattle.a64_read.specs.Parts.{IsPart};
ghost use Rattle.a64_read.specs.PartLaws.{part_field};
ghost use Rattle.a64_tokens.specs.Splitting.{comma_tokens};
ghost use Rattle.a64_tokens.specs.TokenLaws.{some_token};

use crate::fields::{FieldRow, put_read};
use crate::read_value::read_part;
use a64_tokens::split::{CutToken, cut};
use a64_tokens::value::{Kind, Value};

/// Fields with commas between.
pub struct Parts;

impl FieldRow for Parts {
    ghost fits = { IsPart };

    ghost tokens = { comma_tokens };

    ghost behind = { λ _. [] };

    fn cut(text: &[u8]) -> CutToken<'_> {
        let (token, more) = cut(text, b',');
        CutToken {
            token,
            more,
            lines: None,
        }
    }

    fn put<'t>(kind: Kind, token: &'t [u8], slot: &mut Value<'t>) -> bool {
        put_read(slot, read_part(kind, token))
    }

    ghost some_token = { some_token 44 };

    ghost each_field = { part_field };
}
