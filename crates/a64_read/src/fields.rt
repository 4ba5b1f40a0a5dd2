//! Reads fields that stand in a row.

ghost use Rattle.std.specs.Prelude.{◌≡◌, ◌≤◌, ◌<◌, ℕ, true, false, List, length, take, option_map, IfSome, MatchOption};
ghost use Rattle.a64_tokens.specs.declared.value.Value.{Value};
ghost use Rattle.a64_tokens.specs.Reads.{Reads};
ghost use Rattle.a64_read.specs.Values.{kind_of, IsValue};
ghost use Rattle.a64_tokens.specs.Splitting.{lines_of, of_text, behind_text, IsCut};
ghost use Rattle.a64_read.specs.Rows.{AreFields, texts, IsPut};

use a64_tokens::split::CutToken;
use a64_tokens::value::{Kind, Value};
use arrayvec::ArrayVec;

/// A way in which fields stand in a row.
pub trait FieldRow {
    /// Which fields may stand there.
    ghost fits: { Value → Type 0 };

    /// The tokens of a text.
    ghost tokens: { List ℕ → List (List ℕ) };

    /// The lines behind them.
    ghost behind: { List ℕ → List (List ℕ) };

    /// The first token of a text, and what comes after it.
    fn cut(text: &[u8]) -> CutToken<'_>
        ensures { IsCut tokens behind text.now result.token.now result.more result.lines };

    /// Puts the field of the kind that the token is into `slot`.
    /// False: it is no such field, and the slot stays as it is.
    ///
    /// Given by value a field takes some 60 machine instructions more, and most lines have several.
    fn put<'t>(kind: Kind, token: &'t [u8], slot: &mut Value<'t>) -> bool
        ensures { IsPut (λ v. (kind_of v ≡ kind) × fits v) token.now slot.old slot.new result };

    /// A text has a token.
    ghost some_token: { (text : List ℕ) → 0 < length (tokens text) };

    /// What may stand there is a field.
    ghost each_field: { (v : Value) → fits v → IsValue v };
}

/// Adds a value at the place, where there is none: a line puts its fields where those of the line before stood.
/// To clear the list for each line takes some 80 machine instructions for a line of five fields.
#[inline(always)]
fn add_slot<const N: usize>(values: &mut ArrayVec<Value<'_>, N>, place: usize)
    requires { (place < N) × (place ≤ length values.old.items) }
    ensures front { take place values.new.items ≡ take place values.old.items }
    ensures some { place < length values.new.items }
{
    if place == values.len() {
        values.push(Value::default());
    }
}

/// Reads the fields of these kinds that the text is into `values`, and answers the lines behind them.
/// None: it is no such fields.
#[inline(always)]
pub fn read_fields<'t, L: FieldRow, const N: usize>(
    kinds: &[Kind],
    text: Option<&'t [u8]>,
    lines: Option<&'t [u8]>,
    values: &mut ArrayVec<Value<'t>, N>,
) -> Option<Option<&'t [u8]>>
    requires { length kinds.now ≤ N }
    ensures read { Reads (AreFields L.fits kinds.now) texts (of_text L.tokens text.entry)
        (option_map (λ _. values.new.items) result) }
    ensures lines { IfSome result (λ left. of_text lines_of left
        ≡ behind_text L.behind text.entry lines.entry) }
{
    let mut more = text;
    let mut left = lines;
    for (place, kind) in kinds.iter().enumerate() {
        let cut = L::cut(more?);
        add_slot(values, place);
        if !L::put(*kind, cut.token, &mut values[place]) {
            return None;
        }
        more = cut.more;
        left = cut.lines;
    }
    values.truncate(kinds.len());
    match more {
        None => Some(left),
        Some(_) => None,
    }
}

/// Puts the value, where there is one, into `slot`, and answers whether there is one.
#[inline(always)]
pub fn put_read<'t>(slot: &mut Value<'t>, value: Option<Value<'t>>) -> bool
    ensures { MatchOption value.entry ((result ≡ false)
        × (slot.new ≡ slot.old)) (λ v. (result ≡ true) × (slot.new ≡ v)) }
{
    match value {
        Some(value) => {
            *slot = value;
            true
        }
        None => false,
    }
}
