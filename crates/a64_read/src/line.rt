//! Reads lines.

ghost use Rattle.std.specs.Prelude.{◌≡◌, ◌≤◌, ◌∷◌, List, length, option_map, IfSome};
ghost use Rattle.a64_tokens.specs.declared.value.Value.{Value};
ghost use Rattle.a64_tokens.specs.Reads.{Reads};
ghost use Rattle.a64_read.specs.Values.{IsOf, IsValue};
ghost use Rattle.a64_tokens.specs.Splitting.{first_line, lines_of, line_tokens, lines_behind, of_text};
ghost use Rattle.a64_tokens.specs.TokenLaws.{some_token};
ghost use Rattle.a64_read.specs.Rows.{AreFields, texts, IsPut};

use crate::fields::{FieldRow, put_read};
use crate::read_value::{alu_op, label, read_value, reg, size, target};
use crate::schema::read_schema;
use a64_tokens::named::Named;
use a64_tokens::split::{CutToken, cut_token};
use a64_tokens::value::{Kind, Value};
use arrayvec::ArrayVec;

/// The fields of a line, with spaces between.
struct LineFields;

impl FieldRow for LineFields {
    ghost fits = { IsValue };

    ghost tokens = { line_tokens };

    ghost behind = { lines_behind };

    #[inline(always)]
    fn cut(text: &[u8]) -> CutToken<'_> {
        cut_token(text)
    }

    #[inline(always)]
    fn put<'t>(kind: Kind, token: &'t [u8], slot: &mut Value<'t>) -> bool {
        match kind {
            Kind::Reg => put_reg(slot, token),
            Kind::Size => put_size(slot, token),
            Kind::AluOp => put_alu_op(slot, token),
            Kind::Target => put_target(slot, token),
            Kind::Label => put_label(slot, token),
            _ => put_other(slot, kind, token),
        }
    }

    ghost some_token = { λ text. some_token 32 (first_line text) };

    ghost each_field = { λ v fits. fits };
}

/// The name with which the first line begins, and the lines behind it. The fields are left in `values`.
#[inline(always)]
pub fn read_line<'t, N: Named, const M: usize>(
    text: &'t [u8],
    values: &mut ArrayVec<Value<'t>, M>,
) -> Option<(N, Option<&'t [u8]>)>
    requires few { (name : N) → length (N.kinds_of name) ≤ M }
    ensures read { Reads {X = N × List Value}
        (λ p. AreFields IsValue (N.kinds_of p.0) p.1) (λ p. N.text p.0 ∷ texts p.1)
        (line_tokens text.now) (option_map (λ r. (r.0, values.new.items)) result) }
    ensures lines { IfSome result (λ r. of_text lines_of r.1 ≡ lines_behind text.now) }
{
    let cut = cut_token(text);
    // A line without fields has code of its own, which knows that there are none.
    match cut.more {
        None => read_schema::<N, LineFields, M>(cut.token, None, cut.lines, values),
        Some(more) => read_schema::<N, LineFields, M>(cut.token, Some(more), cut.lines, values),
    }
}

/// Puts the register that the token is into `slot`.
/// False: it is none, and the slot stays as it is.
#[tactic(auto, using(crate::proofs::Putting::kind_put))]
#[inline(always)]
fn put_reg<'t>(slot: &mut Value<'t>, token: &'t [u8]) -> bool
    ensures { IsPut (IsOf Kind.Reg) token.now slot.old slot.new result }
{
    put_read(slot, reg(token))
}

/// Puts the size of operands that the token is into `slot`.
/// False: it is none, and the slot stays as it is.
#[tactic(auto, using(crate::proofs::Putting::kind_put))]
#[inline(always)]
fn put_size<'t>(slot: &mut Value<'t>, token: &'t [u8]) -> bool
    ensures { IsPut (IsOf Kind.Size) token.now slot.old slot.new result }
{
    put_read(slot, size(token))
}

/// Puts the integer operator that the token is into `slot`.
/// False: it is none, and the slot stays as it is.
#[tactic(auto, using(crate::proofs::Putting::kind_put))]
#[inline(always)]
fn put_alu_op<'t>(slot: &mut Value<'t>, token: &'t [u8]) -> bool
    ensures { IsPut (IsOf Kind.AluOp) token.now slot.old slot.new result }
{
    put_read(slot, alu_op(token))
}

/// Puts the target of a branch that the token is into `slot`.
/// False: it is none, and the slot stays as it is.
#[tactic(auto, using(crate::proofs::Putting::kind_put))]
#[inline(always)]
fn put_target<'t>(slot: &mut Value<'t>, token: &'t [u8]) -> bool
    ensures { IsPut (IsOf Kind.Target) token.now slot.old slot.new result }
{
    put_read(slot, target(token))
}

/// Puts the label that the token is into `slot`.
/// False: it is none, and the slot stays as it is.
#[tactic(auto, using(crate::proofs::Putting::kind_put))]
#[inline(always)]
fn put_label<'t>(slot: &mut Value<'t>, token: &'t [u8]) -> bool
    ensures { IsPut (IsOf Kind.Label) token.now slot.old slot.new result }
{
    put_read(slot, label(token))
}

/// Puts the field of the kind that the token is into `slot`.
/// False: it is no such field, and the slot stays as it is.
#[tactic(auto, using(crate::proofs::Putting::kind_put))]
#[inline(always)]
fn put_other<'t>(slot: &mut Value<'t>, kind: Kind, token: &'t [u8]) -> bool
    ensures { IsPut (IsOf kind) token.now slot.old slot.new result }
{
    put_read(slot, read_value(kind, token))
}
