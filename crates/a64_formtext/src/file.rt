//! What a listing of words says.

ghost use Rattle.std.specs.Prelude.{List, ℕ};
ghost use Rattle.a64_formtext.specs.Shown.{says, words_of};

use crate::reading::read_shown_word;
use a64_lines::{Lines, LinesError};
use std::alloc::AllocError;

/// The words of a listing.
#[derive(Drop)]
pub struct ShownFile {
    /// The words, in order.
    pub words: Vec<u32>,
}

/// Why bytes are not read as a listing of words.
pub type ShownFileError = LinesError;

impl Lines for ShownFile {
    ghost Told = { List ℕ };

    ghost told = { words_of };

    ghost says = { says };

    fn add_line(&mut self, line: &[u8]) -> Result<bool, AllocError> {
        let Some(word) = read_shown_word(line) else {
            return Ok(false);
        };
        self.words.push(word)?;
        Ok(true)
    }
}
