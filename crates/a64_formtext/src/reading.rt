//! Reads listings of words.

ghost use Rattle.std.specs.Prelude.{◌≡◌, [], ℕ, List, Some, IfSome, IfOk};
ghost use Rattle.std.specs.List.{AllByRecursion};
ghost use Rattle.a64_formtext.specs.Shown.{IsData, IsShown, IsListing, IsOneListing, meant_lines, says, words_of};
ghost use Rattle.a64_lines.specs.Lines.{Answers, Gives, told_by};
ghost use Rattle.a64_tokens.specs.Hex.{hex_word};
ghost use Rattle.a64_tokens.specs.Reads.{IsU32, Reads};

use crate::file::{ShownFile, ShownFileError};
use crate::form::read_form;
use a64_lines::read_lines;
use a64_rows::{decode_word, word_of};
use a64_tokens::hex::read_word;
use std::alloc::Global;

/// The word that has these hexadecimal digits, where it matches no row.
fn read_data(digits: &[u8]) -> Option<u32>
    ensures { Reads IsData hex_word digits.now result }
{
    let Some(word) = read_word(digits) else {
        return None;
    };
    match decode_word(word) {
        Some(_) => None,
        None => Some(word),
    }
}

/// The word that is shown as this line, where there is one. It takes no memory.
pub fn read_shown_word(line: &[u8]) -> Option<u32>
    ensures some { IfSome result (λ word. IsShown word line.now) }
    ensures only { (word : ℕ) → IsU32 word → IsShown word line.now → result ≡ Some word }
{
    if let Some(digits) = line.strip_prefix(b"Data ") {
        return read_data(digits);
    }
    let Some(form) = read_form(line) else {
        return None;
    };
    Some(word_of(&form))
}

/// The words that are shown as these lines. An empty line, and one that begins with a semicolon, mean
/// nothing.
///
/// # Errors
///
/// The number of the first line as which no word is shown, or want of memory.
pub fn read_shown(alloc: Global, bytes: &[u8]) -> Result<ShownFile, ShownFileError>
    ensures answers { Answers says bytes.now [] (told_by words_of result) }

    // The lines that mean something are the one listing of the words.
    ensures listing { IfOk result (λ file. IsOneListing (words_of file) (meant_lines bytes.now)) }

    // The listing of some words is read back as these words.
    ensures back { (words : List ℕ) → AllByRecursion IsU32 words → IsListing words bytes.now
        → Gives says words (told_by words_of result) }
{
    let mut file = ShownFile {
        words: Vec::new(alloc),
    };
    read_lines(&mut file, bytes)?;
    Ok(file)
}
