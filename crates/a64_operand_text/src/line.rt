//! Lines of so many operands.

ghost use Rattle.std.specs.Prelude.{◌≡◌, [], ◌∷◌, ◌++◌, OnOk};
ghost use Rattle.std.specs.String.{string_bytes};
ghost use Rattle.a64_operand_text.specs.Lines.{line_text};

use crate::operand::{Operand, push_line};
use std::alloc::AllocError;

/// Appends a name and one operand.
///
/// # Errors
///
/// Want of memory.
pub fn line1(out: &mut String, name: &str, first: Operand) -> Result<(), AllocError>
    ensures { OnOk result (string_bytes out.new ≡ string_bytes out.old
        ++ line_text name.now (first ∷ [])) }
{
    push_line(out, name, &[first])
}

/// Appends a name and two operands.
///
/// # Errors
///
/// Want of memory.
pub fn line2(
    out: &mut String,
    name: &str,
    first: Operand,
    second: Operand,
) -> Result<(), AllocError>
    ensures { OnOk result (string_bytes out.new ≡ string_bytes out.old
        ++ line_text name.now (first ∷ second ∷ [])) }
{
    push_line(out, name, &[first, second])
}

/// Appends a name and three operands.
///
/// # Errors
///
/// Want of memory.
pub fn line3(
    out: &mut String,
    name: &str,
    first: Operand,
    second: Operand,
    third: Operand,
) -> Result<(), AllocError>
    ensures { OnOk result (string_bytes out.new ≡ string_bytes out.old
        ++ line_text name.now (first ∷ second ∷ third ∷ [])) }
{
    push_line(out, name, &[first, second, third])
}

/// Appends a name and four operands.
///
/// # Errors
///
/// Want of memory.
pub fn line4(
    out: &mut String,
    name: &str,
    first: Operand,
    second: Operand,
    third: Operand,
    fourth: Operand,
) -> Result<(), AllocError>
    ensures { OnOk result (string_bytes out.new ≡ string_bytes out.old
        ++ line_text name.now (first ∷ second ∷ third ∷ fourth ∷ [])) }
{
    push_line(out, name, &[first, second, third, fourth])
}

/// Appends a name and five operands.
///
/// # Errors
///
/// Want of memory.
pub fn line5(
    out: &mut String,
    name: &str,
    first: Operand,
    second: Operand,
    third: Operand,
    fourth: Operand,
    fifth: Operand,
) -> Result<(), AllocError>
    ensures { OnOk result (string_bytes out.new ≡ string_bytes out.old
        ++ line_text name.now (first ∷ second ∷ third ∷ fourth ∷ fifth ∷ [])) }
{
    push_line(out, name, &[first, second, third, fourth, fifth])
}
