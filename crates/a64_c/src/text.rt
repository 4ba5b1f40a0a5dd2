//! The call that assembles a text into a buffer.

ghost use Rattle.a64_c.specs.Answers.{IsAnswer, IsCopy};

use crate::answer::Answer;
use crate::code::{code_of, force_veneers};
use std::alloc::Global;

/// Puts bytes at the front of a buffer, where there is room for all of them.
pub fn copied(bytes: &[u8], room: &mut [u8]) -> Answer
    ensures { IsCopy bytes.now room.old room.new result }
{
    let length = bytes.len();
    if length > room.len() {
        return Answer {
            status: 12,
            subject: 0,
            length,
        };
    }
    room[..length].copy_from_slice(bytes);
    Answer {
        status: 0,
        subject: 0,
        length,
    }
}

/// Assembles a text of at most 16,777,216 bytes, and puts its code at the front of `room`. Nothing is asked of
/// the caller but that its memory is valid. `room` is as it was at each status but 0, and behind the code.
#[unsafe(no_mangle)]
pub extern "C" fn a64_assemble_text(
    alloc: Global,
    text: &[u8],
    force: bool,
    room: &mut [u8],
) -> Answer
    ensures { IsAnswer text.now force room.old room.new result }
{
    match code_of(alloc, text, force_veneers(force)) {
        Ok(code) => copied(&code.bytes, room),
        Err(refusal) => refusal.answer(),
    }
}
