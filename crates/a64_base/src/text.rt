//! Texts of values in listings.

ghost use Rattle.std.specs.Prelude.{ℕ, List, IfOk, OnOk, ◌≡◌, ◌++◌};
ghost use Rattle.std.specs.String.{string_bytes};

use itoa::{Buffer, Integer};
use std::alloc::{AllocError, Global};

/// A text, or want of memory.
pub type Text = Result<String, AllocError>;

/// Appends a text and a number behind it, in decimal.
///
/// # Errors
///
/// Want of memory.
pub fn push_numbered<I: Integer>(out: &mut String, text: &str, number: I) -> Result<(), AllocError>
    ensures { OnOk result (string_bytes out.new
        ≡ string_bytes out.old ++ text.now ++ I.text number) }
{
    let mut buffer = Buffer::new();
    out.push_str(text)?;
    out.push_str(buffer.format(number))
}

/// What can be printed in a listing (Cranelift's `PrettyPrint`).
pub trait PrettyPrint {
    /// The text of a value, next to an operand of so many bytes.
    ghost text: { Self → ℕ → List ℕ };

    /// When a value may be printed at such a size.
    ghost can_print: { Self → ℕ → Type 0 };

    /// The text, where the operand beside it has `size_bytes` bytes.
    ///
    /// # Errors
    ///
    /// Want of memory.
    fn pretty_print(&self, alloc: Global, size_bytes: u8) -> Text
        requires { can_print self.now size_bytes }
        ensures { IfOk result (λ t. string_bytes t ≡ text self.now size_bytes) };

    /// The text, for a value that looks at no size.
    ///
    /// # Errors
    ///
    /// Want of memory.
    fn pretty_print_default(&self, alloc: Global) -> Text
        requires { can_print self.now 0 }
        ensures { IfOk result (λ t. string_bytes t ≡ text self.now 0) }
    {
        self.pretty_print(alloc, 0)
    }
}
