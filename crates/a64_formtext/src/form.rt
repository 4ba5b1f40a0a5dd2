//! The texts of forms.

ghost use Rattle.std.specs.Prelude.{◌≡◌, ◌++◌, ◌<◌, ◌∷◌, option_map, IfOk, OnOk};
ghost use Rattle.std.specs.String.{string_bytes};
ghost use Rattle.a64_formtext.specs.Texts.{form_text, values_of};
ghost use Rattle.a64_formtext.specs.Tokens.{FitFields, HasBits, field_token, field_tokens, space_tokens};
ghost use Rattle.a64_tokens.specs.Reads.{Reads};
ghost use Rattle.a64_tokens.specs.Splitting.{of_text};
ghost use Rattle.a64_rows.specs.Forms.{IsForm, IsFormOf};
ghost use Rattle.a64_rows.specs.Rows.{fields_of};

use a64_rows::{Form, Row, meets};
use a64_tokens::decimal::read_u32;
use a64_tokens::split::cut;
use arrayvec::ArrayVec;
use itoa::Buffer;
use std::alloc::{AllocError, Global};

/// Appends a field: a space, its name, `=` and its number in decimal.
fn push_field(text: &mut String, name: &str, value: u32) -> Result<(), AllocError>
    ensures { OnOk result (string_bytes text.new
        ≡ string_bytes text.old ++ 32 ∷ field_token name.now value) }
{
    let mut buffer = Buffer::new();
    text.push_str(" ")?;
    text.push_str(name)?;
    text.push_str("=")?;
    text.push_str(buffer.format(value))
}

/// Appends the text of a form.
///
/// # Errors
///
/// Want of memory.
pub(crate) fn push_form(text: &mut String, form: &Form) -> Result<(), AllocError>
    requires { IsForm form.now.row form.now.fields.items }
    ensures { OnOk result (string_bytes text.new
        ≡ string_bytes text.old ++ form_text (values_of form.now)) }
{
    text.push_str(form.row.name())?;
    for (i, value) in form.fields.as_slice().iter().enumerate() {
        push_field(text, form.row.field_name(i), *value)?;
    }
    Ok(())
}

/// The text of a form: the name of its row, and behind it each field, as its name, `=` and its number
/// in decimal.
///
/// # Errors
///
/// Want of memory.
pub fn print_form(alloc: Global, form: &Form) -> Result<String, AllocError>
    requires { IsForm form.now.row form.now.fields.items }
    ensures { IfOk result (λ text. string_bytes text ≡ form_text (values_of form.now)) }
{
    let mut text = String::new(alloc);
    push_form(&mut text, form)?;
    Ok(text)
}

/// The value of a field with this name and this many bits, where the token is its name, `=` and its
/// number in decimal.
fn read_field(name: &[u8], width: u8, token: &[u8]) -> Option<u32>
    requires { width < 32 }
    ensures { Reads (HasBits width) (field_token name.now) token.now result }
{
    let Some(behind) = token.strip_prefix(name) else {
        return None;
    };
    let [b'=', digits @ ..] = behind else {
        return None;
    };
    let Some(value) = read_u32(digits) else {
        return None;
    };
    if value < 1 << width {
        Some(value)
    } else {
        None
    }
}

/// The values of the row's fields, where the text has a token for each, in order.
fn read_fields(row: Row, text: Option<&[u8]>) -> Option<ArrayVec<u32, 8>>
    ensures { Reads (FitFields (fields_of row)) (field_tokens (fields_of row))
        (of_text space_tokens text.entry) (option_map (λ values. values.items) result) }
{
    let mut values = ArrayVec::new();
    let mut rest = text;
    for i in 0..row.field_count() {
        let Some(text) = rest else {
            return None;
        };
        let (token, behind) = cut(text, b' ');
        let name = row.field_name(i).as_bytes();
        let Some(value) = read_field(name, row.field_at(i).width, token) else {
            return None;
        };
        values.push(value);
        rest = behind;
    }
    if rest.is_some() {
        return None;
    }
    Some(values)
}

/// The form whose text this is, where there is one within the limits of its row. It takes no memory.
pub fn read_form(text: &[u8]) -> Option<Form>
    ensures { Reads IsFormOf form_text text.now (option_map values_of result) }
{
    let (name, rest) = cut(text, b' ');
    let Some(row) = Row::named(name) else {
        return None;
    };
    let Some(fields) = read_fields(row, rest) else {
        return None;
    };
    if !meets(row, fields.as_slice()) {
        return None;
    }
    Some(Form { row, fields })
}
