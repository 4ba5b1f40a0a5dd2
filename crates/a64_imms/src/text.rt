//! Texts of numbers.

ghost use Rattle.std.specs.Prelude.{◌≡◌, ◌++◌, ◌<◌, ◌/◌, ◌%◌, codes, IfOk, OnOk};
ghost use Rattle.std.specs.Fmt.{decimal, signed_decimal};
ghost use Rattle.std.specs.String.{string_bytes};
ghost use Rattle.a64_imms.specs.Texts.{number_text, signed_text, hex_digit, hex_text, pattern_text};

use a64_base::push_numbered;
use std::alloc::{AllocError, Global};

/// `#` and a number in decimal.
///
/// # Errors
///
/// Want of memory.
pub fn text_of_number(alloc: Global, number: u64) -> Result<String, AllocError>
    ensures { IfOk result (λ text. string_bytes text ≡ number_text number) }
{
    let mut text = String::new(alloc);
    push_numbered(&mut text, "#", number)?;
    Ok(text)
}

/// `#` and a signed number in decimal.
///
/// # Errors
///
/// Want of memory.
pub fn text_of_signed(alloc: Global, number: i64) -> Result<String, AllocError>
    ensures { IfOk result (λ text. string_bytes text ≡ signed_text number) }
{
    let mut text = String::new(alloc);
    push_numbered(&mut text, "#", number)?;
    Ok(text)
}

/// The hexadecimal digit of a number below 16, in lower case.
fn hex_digit(digit: u8) -> u8
    requires { digit < 16 }
    ensures value { result ≡ hex_digit digit }
    ensures ascii { result < 128 }
{
    if digit < 10 {
        b'0' + digit
    } else {
        b'a' - 10 + digit
    }
}

/// Appends the lowest hexadecimal digits of a number, so many of them.
fn push_hex(text: &mut String, number: u64, digits: u32) -> Result<(), AllocError>
    ensures { OnOk result (string_bytes text.new
        ≡ string_bytes text.old ++ hex_text digits number) }
{
    if digits == 0 {
        return Ok(());
    }
    push_hex(text, number / 16, digits - 1)?;
    text.push(char::from(hex_digit((number % 16) as u8)))?;
    Ok(())
}

/// Appends `#0x` and a number in so many hexadecimal digits.
///
/// # Errors
///
/// Want of memory.
pub fn push_pattern(text: &mut String, number: u64, digits: u32) -> Result<(), AllocError>
    ensures { OnOk result (string_bytes text.new
        ≡ string_bytes text.old ++ pattern_text digits number) }
{
    text.push_str("#0x")?;
    push_hex(text, number, digits)
}
