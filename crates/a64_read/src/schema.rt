//! Reads what is a name and the fields behind it.

ghost use Rattle.std.specs.Prelude.{◌≡◌, ◌≤◌, List, ◌∷◌, length, option_map, IfSome};
ghost use Rattle.a64_tokens.specs.declared.value.Value.{Value};
ghost use Rattle.a64_tokens.specs.Reads.{Reads};
ghost use Rattle.a64_tokens.specs.Splitting.{lines_of, of_text, behind_text};
ghost use Rattle.a64_read.specs.Rows.{AreFields, texts};

use crate::fields::{FieldRow, read_fields};
use a64_tokens::named::{Named, read_heading};
use a64_tokens::value::Value;
use arrayvec::ArrayVec;

/// The name, and the lines behind the fields in the text behind it. The fields are left in `values`.
#[inline(always)]
pub fn read_schema<'t, N: Named, L: FieldRow, const M: usize>(
    name: &[u8],
    text: Option<&'t [u8]>,
    lines: Option<&'t [u8]>,
    values: &mut ArrayVec<Value<'t>, M>,
) -> Option<(N, Option<&'t [u8]>)>
    requires few { (name : N) → length (N.kinds_of name) ≤ M }
    ensures read { Reads {X = N × List Value} (λ p. AreFields L.fits (N.kinds_of p.0) p.1)
        (λ p. N.text p.0 ∷ texts p.1)
        (name.now ∷ of_text L.tokens text.entry)
        (option_map (λ r. (r.0, values.new.items)) result) }
    ensures lines { IfSome result (λ r. of_text lines_of r.1
        ≡ behind_text L.behind text.entry lines.entry) }
{
    let (kinds, name) = read_heading::<N>(name)?;
    let left = read_fields::<L, M>(kinds, text, lines, values)?;
    Some((name, left))
}
