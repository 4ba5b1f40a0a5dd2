//! The code of a text.

ghost use Rattle.std.specs.Prelude.{◌≡◌, IfOk, IfErr};
ghost use Rattle.a64_c.specs.Answers.{force_of, IsCause, IsCodeOf};

use crate::answer::Refusal;
use a64_assemble::assemble;
use a64_buffer::ForceVeneers;
use a64_emit::Code;
use a64_text::read_file;
use std::alloc::Global;

/// The most bytes that a text may have.
pub const LIMIT: usize = 16_777_216;

/// Whether islands are forced, for a caller's word.
pub fn force_veneers(force: bool) -> ForceVeneers
    ensures { result ≡ force_of force }
{
    if force {
        ForceVeneers::Yes
    } else {
        ForceVeneers::No
    }
}

/// The code of a text, with islands forced or not.
///
/// # Errors
///
/// The text is too long, a line of it is no entry, its items have a fault, or want of memory.
pub fn code_of(alloc: Global, text: &[u8], force: ForceVeneers) -> Result<Code, Refusal>
    ensures ok { IfOk result (IsCodeOf text.now force) }
    ensures err { IfErr result (IsCause text.now force) }
{
    if text.len() > LIMIT {
        return Err(Refusal::TooLong);
    }
    let file = read_file(alloc, text)?;
    let code = assemble(
        alloc,
        &file.items,
        &file.constants,
        &file.info,
        &file.frame,
        force,
    )?;
    Ok(code)
}
