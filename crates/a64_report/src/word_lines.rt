//! The lines of words.

ghost use Rattle.std.specs.Prelude.{◌≡◌, ◌+◌, ◌<◌, ◌≤◌, ◌^◌, drop, length};
ghost use Rattle.std.specs.List.{flat_map, enumerate_from};
ghost use Rattle.a64_report.specs.Putting.{PutsOrCuts};
ghost use Rattle.a64_report.specs.Report.{word_line};

use crate::line::{LineBuffer, SIZE, put_decimal, put_hex, put_text, text_from};
use crate::piece::Piece;
use a64_io::{Failed, Sink};

/// Composes the line of a word at the end of the buffer, and answers where it begins.
#[inline(always)]
pub fn compose_word(buffer: &mut LineBuffer, index: u64, word: u32) -> usize
    requires { index < 2 ^ 61 }
    ensures text { drop result buffer.new ≡ word_line (index, word) }
    ensures shorter { (0 < result) × (result ≤ 128) }
{
    let start = put_text(buffer, SIZE, b"\n");
    let start = put_hex(buffer, start, word);
    let start = put_text(buffer, start, b" ");
    let start = put_decimal(buffer, start, 4 * index);
    put_text(buffer, start, b"word ")
}

/// Puts the lines of words, numbered from one on.
#[inline(never)]
pub fn put_word_lines<K: Sink>(
    sink: &mut K,
    piece: &mut Piece,
    from: usize,
    words: &[u32],
) -> Result<(), Failed>
    requires { from + length words.now ≤ 2 ^ 61 }
    ensures { PutsOrCuts K.taken K.faults sink.old sink.new piece.old piece.new
        (flat_map word_line (enumerate_from from words.now)) result }
{
    let mut buffer = [0; SIZE];
    for index in 0..words.len() {
        let start = compose_word(&mut buffer, (from + index) as u64, words[index]);
        piece.put(sink, text_from(&buffer, start))?;
    }
    Ok(())
}
