//! The summary of assembled code.

ghost use Rattle.std.specs.Prelude.{◌≡◌, ◌≤◌, [], drop};
ghost use Rattle.a64_report.specs.Putting.{WritesOrFails};
ghost use Rattle.a64_report.specs.Summary.{word_sum, summary_of};

use crate::line::{LineBuffer, SIZE, put_decimal, put_hex, put_text, text_from};
use crate::piece::Piece;
use crate::report::first_word;
use a64_emit::Code;
use a64_io::{Failed, Sink};

/// The sum of the words of code, modulo 2^32.
fn word_sum(bytes: &[u8]) -> u32
    ensures { result ≡ word_sum bytes.now }
{
    let mut sum: u32 = 0;
    let mut rest = bytes;
    while let Some((word, tail)) = first_word(rest) {
        sum = sum.wrapping_add(word);
        rest = tail;
    }
    sum
}

/// Composes the summary of the code of so many items at the end of the buffer, and answers where it
/// begins.
fn compose_summary(buffer: &mut LineBuffer, items: u64, code: &Code) -> usize
    ensures text { drop result buffer.new ≡ summary_of items code.now }
    ensures within { result ≤ 128 }
{
    let start = put_text(buffer, SIZE, b"\n");
    let start = put_hex(buffer, start, word_sum(&code.bytes));
    let start = put_text(buffer, start, b"\nsum ");
    let start = put_decimal(buffer, start, code.islands.len() as u64);
    let start = put_text(buffer, start, b"\nislands ");
    let start = put_decimal(buffer, start, code.bytes.len() as u64);
    let start = put_text(buffer, start, b"\nbytes ");
    let start = put_decimal(buffer, start, items);
    put_text(buffer, start, b"items ")
}

/// Writes the summary of the code of so many items, by way of an empty piece: how many items there
/// are, how many bytes of code, how many islands, and the sum of the words. No memory is asked for.
///
/// # Errors
///
/// A write failed; some first bytes may have been taken, but not all.
pub fn write_summary<K: Sink>(
    sink: &mut K,
    piece: &mut Piece,
    items: u64,
    code: &Code,
) -> Result<(), Failed>
    requires { piece.old ≡ [] }
    ensures { WritesOrFails K.taken K.faults sink.old sink.new (summary_of items code.now) result }
{
    let mut buffer = [0; SIZE];
    let start = compose_summary(&mut buffer, items, code);
    piece.put(sink, text_from(&buffer, start))?;
    piece.flush(sink)
}
