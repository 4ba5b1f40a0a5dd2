//! Takes the lines of a file one after another.

ghost use Rattle.std.specs.Prelude.{◌≡◌, List, ℕ, IfOk};
ghost use Rattle.a64_tokens.specs.Splitting.{first_line};
ghost use Rattle.a64_lines.specs.Lines.{Takes, TakesAny, Answers, told_by};

use crate::error::LinesError;
use a64_tokens::split::{cut, is_blank};
use std::alloc::AllocError;

/// What the lines of a file say, as far as they were taken.
pub trait Lines {
    /// What lines say.
    ghost Told: { Type 0 };

    /// What was said so far.
    ghost told: { Self → Told };

    /// A line that means something leads from what was said before it to what is said with it.
    ghost says: { List ℕ → Told → Told → Type 0 };

    /// Takes what the line says. False: it is no entry that may stand there.
    ///
    /// # Errors
    ///
    /// Want of memory.
    fn add_line(&mut self, line: &[u8]) -> Result<bool, AllocError>
        ensures { IfOk result (Takes says line.now (told self.old) (told self.new)) };
}

/// Takes the first line of a text. False: it means something, and is no entry that may stand there.
#[inline(always)]
fn take<L: Lines>(lines: &mut L, text: &[u8], line: &[u8]) -> Result<bool, AllocError>
    requires { line.now ≡ first_line text.now }
    ensures { IfOk result (TakesAny L.says line.now (L.told lines.old) (L.told lines.new)) }
{
    if is_blank(text) {
        return Ok(true);
    }
    lines.add_line(line)
}

/// Takes all lines of a file. An empty line, and one that begins with a semicolon, mean nothing.
///
/// # Errors
///
/// The number of the first line that is no entry which may stand there, or want of memory. Then what was
/// taken is not told.
pub fn read_lines<L: Lines>(lines: &mut L, bytes: &[u8]) -> Result<(), LinesError>
    ensures { Answers L.says bytes.now (L.told lines.old)
        (told_by (λ _. L.told lines.new) result) }
{
    let mut number: u64 = 0;
    let mut rest = Some(bytes);
    while let Some(text) = rest {
        number += 1;
        let (line, behind) = cut(text, b'\n');
        if !take(lines, text, line)? {
            return Err(LinesError::BadLine(number));
        }
        rest = behind;
    }
    Ok(())
}
