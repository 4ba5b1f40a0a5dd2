//! The call that lists a text.

ghost use Rattle.std.specs.Prelude.{IfErr, IfOk};
ghost use Rattle.std.specs.String.{string_bytes};
ghost use Rattle.a64_c.specs.Listed.{IsListCause, IsListed, IsListOf};

use crate::answer::{Answer, Refusal};
use crate::code::LIMIT;
use crate::text::copied;
use a64_emit::{EmitError, first_shown_fault};
use a64_print::listing;
use a64_text::read_file;
use std::alloc::Global;

/// The listing of a text.
///
/// # Errors
///
/// The text is too long, a line of it is no entry, an item cannot be shown, or want of memory.
fn list_of(alloc: Global, text: &[u8]) -> Result<String, Refusal>
    ensures ok { IfOk result (λ list. IsListOf text.now (string_bytes list)) }
    ensures err { IfErr result (IsListCause text.now) }
{
    if text.len() > LIMIT {
        return Err(Refusal::TooLong);
    }
    let file = read_file(alloc, text)?;
    if let Some(error) = first_shown_fault(&file.items, &file.constants, &file.info, &file.frame) {
        return Err(Refusal::Assembly(error));
    }
    match listing(alloc, &file.items, &file.frame) {
        Ok(list) => Ok(list),
        Err(_) => Err(Refusal::Assembly(EmitError::OutOfMemory)),
    }
}

/// Lists a text of at most 16,777,216 bytes, as `list` does, and puts the lines at the front of `room`. Registers of
/// the text may be virtual. Nothing is asked of the caller but that its memory is valid. `room` is as it was at each
/// status but 0, and behind the lines.
#[unsafe(no_mangle)]
pub extern "C" fn a64_list_text(alloc: Global, text: &[u8], room: &mut [u8]) -> Answer
    ensures { IsListed text.now room.old room.new result }
{
    match list_of(alloc, text) {
        Ok(list) => copied(list.as_bytes(), room),
        Err(refusal) => refusal.answer(),
    }
}
