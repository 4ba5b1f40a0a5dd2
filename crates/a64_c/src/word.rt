//! The calls that show a word as a line, and read it back.

ghost use Rattle.a64_c.specs.Words.{IsReadWord, IsShownWord};

use crate::answer::{Answer, Refusal};
use crate::text::copied;
use a64_formtext::{read_shown_word, show_word};
use std::alloc::Global;

/// What a line says.
#[repr(C)]
#[derive(Clone, Copy, Debug)]
pub struct ReadWord {
    /// 0 where it is the line of a word; a64_c.h has a name for each status.
    pub status: i32,
    /// The word, and 0 where there is none.
    pub word: u32,
}

/// Puts the line of a word at the front of `room`, as `dis` writes it, without a line feed. Nothing is asked of the
/// caller but that its memory is valid. `room` is as it was at each status but 0, and behind the line.
#[unsafe(no_mangle)]
pub extern "C" fn a64_show_word(alloc: Global, word: u32, room: &mut [u8]) -> Answer
    ensures { IsShownWord word room.old room.new result }
{
    match show_word(alloc, word) {
        Ok(line) => copied(line.as_bytes(), room),
        Err(_) => Refusal::Unread.answer(),
    }
}

/// The word of which this is the line, as `undis` reads it, without a line feed. It takes no memory, and nothing is
/// asked of the caller but that its memory is valid.
#[unsafe(no_mangle)]
pub extern "C" fn a64_read_word(line: &[u8]) -> ReadWord
    ensures { IsReadWord line.now result }
{
    match read_shown_word(line) {
        Some(word) => ReadWord { status: 0, word },
        None => ReadWord { status: 2, word: 0 },
    }
}
