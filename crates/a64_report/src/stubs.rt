//! Writes stubs.

ghost use Rattle.std.specs.Prelude.{◌≡◌, ◌<◌, ◌≤◌, [], drop};
ghost use Rattle.a64_report.specs.Putting.{PutsOrCuts, WritesOrFails};
ghost use Rattle.a64_report.specs.StubLines.{stub_line, stub_lines, stubs_text};

use crate::line::{LineBuffer, SIZE, put_decimal, put_text, text_from};
use crate::piece::Piece;
use crate::word_lines::put_word_lines;
use a64_io::{Failed, Sink};

/// Composes the line of a stub at the end of the buffer, and answers where it begins.
fn compose_stub(buffer: &mut LineBuffer, index: u64, place: u32, address: u64) -> usize
    ensures text { drop result buffer.new ≡ stub_line index place address }
    ensures shorter { (0 < result) × (result ≤ 128) }
{
    let start = put_text(buffer, SIZE, b"\n");
    let start = put_decimal(buffer, start, address);
    let start = put_text(buffer, start, b" ");
    let start = put_decimal(buffer, start, u64::from(place));
    let start = put_text(buffer, start, b" ");
    let start = put_decimal(buffer, start, index);
    put_text(buffer, start, b"stub ")
}

/// Puts the lines of stubs.
#[inline(never)]
fn put_stubs<K: Sink>(
    sink: &mut K,
    piece: &mut Piece,
    addresses: &[u64],
    places: &[u32],
) -> Result<(), Failed>
    ensures { PutsOrCuts K.taken K.faults sink.old sink.new piece.old piece.new
        (stub_lines 0 places.now addresses.now) result }
{
    let mut buffer = [0; SIZE];
    for index in 0..addresses.len().min(places.len()) {
        let start = compose_stub(&mut buffer, index as u64, places[index], addresses[index]);
        piece.put(sink, text_from(&buffer, start))?;
    }
    Ok(())
}

/// Writes the lines of stubs and of their words, by way of an empty piece. No memory is asked for.
///
/// # Errors
///
/// A write failed; some first bytes may have been taken, but not all.
pub fn write_stubs<K: Sink>(
    sink: &mut K,
    piece: &mut Piece,
    addresses: &[u64],
    places: &[u32],
    words: &[u32],
) -> Result<(), Failed>
    requires { piece.old ≡ [] }
    ensures { WritesOrFails K.taken K.faults sink.old sink.new
        (stubs_text addresses.now places.now words.now) result }
{
    put_stubs(sink, piece, addresses, places)?;
    put_word_lines(sink, piece, 0, words)?;
    piece.flush(sink)
}
