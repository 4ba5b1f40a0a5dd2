//! Shows words.

ghost use Rattle.std.specs.Prelude.{◌≡◌, ◌++◌, ◌/◌, ◌%◌, ◌<◌, [], ◌∷◌, List, ℕ, codes, IfOk, OnOk};
ghost use Rattle.std.specs.String.{string_bytes};
ghost use Rattle.a64_formtext.specs.Shown.{IsShown, IsListing};
ghost use Rattle.a64_tokens.specs.Hex.{hex_digit, hex_pair, hex_word};

use crate::form::push_form;
use a64_rows::decode_word;
use std::alloc::{AllocError, Global};

/// The hexadecimal digit of a number below 16, in lower case.
fn digit_of(number: u8) -> u8
    requires { number < 16 }
    ensures digit { result ≡ hex_digit number }
    ensures ascii { result < 128 }
{
    if number < 10 {
        b'0' + number
    } else {
        b'a' - 10 + number
    }
}

/// Appends the two hexadecimal digits of a byte.
fn push_byte(text: &mut String, byte: u8) -> Result<(), AllocError>
    ensures { OnOk result (string_bytes text.new
        ≡ string_bytes text.old ++ hex_pair byte) }
{
    text.push(char::from(digit_of(byte / 16)))?;
    text.push(char::from(digit_of(byte % 16)))
}

/// Appends the eight hexadecimal digits of a word, the highest first.
fn push_word(text: &mut String, word: u32) -> Result<(), AllocError>
    ensures { OnOk result (string_bytes text.new ≡ string_bytes text.old ++ hex_word word) }
{
    push_byte(text, (word / 0x100_0000) as u8)?;
    push_byte(text, (word / 0x1_0000 % 0x100) as u8)?;
    push_byte(text, (word / 0x100 % 0x100) as u8)?;
    push_byte(text, (word % 0x100) as u8)
}

/// Appends a word as data.
fn push_data(text: &mut String, word: u32) -> Result<(), AllocError>
    ensures { OnOk result (string_bytes text.new
        ≡ string_bytes text.old ++ (codes "Data " ++ hex_word word)) }
{
    text.push_str("Data ")?;
    push_word(text, word)
}

/// Appends the line of a word, without its line feed.
fn push_shown(text: &mut String, word: u32) -> Result<(), AllocError>
    ensures { OnOk result ((line : List ℕ) × IsShown word line
        × (string_bytes text.new ≡ string_bytes text.old ++ line)) }
{
    match decode_word(word) {
        Some(form) => push_form(text, &form),
        None => push_data(text, word),
    }
}

/// The line of a word, without a line feed: the text of its form, or `Data` and the word in hexadecimal digits
/// where it matches no row.
///
/// # Errors
///
/// Want of memory.
pub fn show_word(alloc: Global, word: u32) -> Result<String, AllocError>
    ensures { IfOk result (λ text. IsShown word (string_bytes text)) }
{
    let mut text = String::new(alloc);
    push_shown(&mut text, word)?;
    Ok(text)
}

/// The lines of words, one behind another: each is the text of the word's form, or `Data` and the word in
/// hexadecimal digits where it matches no row.
///
/// # Errors
///
/// Want of memory.
pub fn shown_listing(alloc: Global, words: &[u32]) -> Result<String, AllocError>
    ensures { IfOk result (λ text. IsListing words.now (string_bytes text)) }
{
    let mut text = String::new(alloc);
    for word in words {
        push_shown(&mut text, *word)?;
        text.push_str("\n")?;
    }
    Ok(text)
}
