//! Reads names with something in parentheses behind them.

ghost use Rattle.std.specs.Prelude.{◌≡◌, ◌≤◌, ◌<◌, List, length, map, option_map, Option, Some, IfSome};
ghost use Rattle.std.specs.List.{AllByRecursion, join_with_byte};
ghost use Rattle.a64_tokens.specs.Fields.{HasNo, IsCall, call_text};
ghost use Rattle.a64_read.specs.Parts.{IsPart, part_texts};
ghost use Rattle.a64_tokens.specs.Reads.{Reads};
ghost use Rattle.a64_tokens.specs.declared.value.Value.{Value};
ghost use Rattle.a64_read.specs.Values.{kind_of, IsValue};

use crate::parts::Parts;
use crate::schema::read_schema;
use a64_tokens::named::Named;
use a64_tokens::split::cut;
use a64_tokens::value::Value;
use arrayvec::ArrayVec;

/// What stands before the parentheses at the end, and what stands in them.
pub fn read_call(token: &[u8]) -> Option<(&[u8], &[u8])>
    ensures { Reads IsCall call_text token.now (option_map (λ r. (r.0.now, r.1.now)) result) }
{
    let (name, rest) = cut(token, b'(');
    let (last, inside) = rest?.split_last()?;
    if *last == b')' {
        Some((name, inside))
    } else {
        None
    }
}

/// Names that make something of the fields in parentheses behind them, with commas between.
pub trait Call: Named {
    /// What is made.
    type Made: Drop;

    /// The name of what is made.
    ghost name_of: { Self.Made → Self };

    /// Its fields.
    ghost fields_of: { Self.Made → List Value };

    /// What it asks beside that its fields have texts.
    ghost own: { Self.Made → Type 0 };

    /// What a name makes of fields.
    ghost makes: { Self → List Value → Option Self.Made → Type 0 };

    /// What the name makes of fields.
    fn make(self, values: &[Value]) -> Option<Self::Made>
        ensures { makes self values.now result };

    /// A name has few fields.
    ghost few: { (name : Self) → length (Self.kinds_of name) ≤ 4 };

    /// No name has a parenthesis.
    ghost apart: { (name : Self) → HasNo 40 (Self.text name) };

    /// Behind a name stands a field at least.
    ghost some_field: { (made : Self.Made) → 0 < length (fields_of made) };

    /// What a name makes of fields has these and the name.
    ghost made_some: { (name : Self) (values : List Value) (r : Option Self.Made)
        → makes name values r → map kind_of values ≡ Self.kinds_of name
        → IfSome r (λ made. (name_of made ≡ name) × (fields_of made ≡ values) × own made) };

    /// Nothing else has them.
    ghost made_only: { (made : Self.Made) (values : List Value) (r : Option Self.Made)
        → makes (name_of made) values r → AllByRecursion IsValue (fields_of made)
        → own made → fields_of made ≡ values → r ≡ Some made };

    /// The fields are of the kinds behind the name.
    ghost fields_kinds: { (made : Self.Made)
        → map kind_of (fields_of made) ≡ Self.kinds_of (name_of made) };
}

/// What the name and the fields in parentheses are.
pub fn read_made<N: Call>(token: &[u8]) -> Option<N::Made>
    ensures { Reads (λ made. AllByRecursion IsPart (N.fields_of made) × N.own made)
        (λ made. call_text (
          N.text (N.name_of made),
          join_with_byte 44
              (part_texts (N.fields_of made)),
        ))
        token.now result }
{
    let (name, inside) = read_call(token)?;
    let mut values: ArrayVec<Value, 4> = ArrayVec::new();
    let (name, _) = read_schema::<N, Parts, 4>(name, Some(inside), None, &mut values)?;
    name.make(values.as_slice())
}
