//! Writes linked code.

ghost use Rattle.std.specs.Prelude.{◌≡◌, ◌+◌, ◌≤◌, ◌<◌, ◌^◌, [], drop, length};
ghost use Rattle.std.specs.List.{flat_map, enumerate_from};
ghost use Rattle.a64_report.specs.LinkLines.{unit_line, symbol_line, thunk_line, data_text, zeros_text, linked_text};
ghost use Rattle.a64_report.specs.Putting.{PutsOrCuts, WritesOrFails};

use crate::line::{LineBuffer, SIZE, put_decimal, put_text, text_from};
use crate::piece::Piece;
use crate::report::put_lines;
use crate::report_lines::{LineKind, compose_one, compose_two};
use crate::word_lines::{compose_word, put_word_lines};
use a64_base::ExternalName;
use a64_io::{Failed, Sink};

/// So many zero words that stand together, or more, have one line.
const MANY: usize = 16;

/// Puts the lines of the units, which start at these places.
#[inline(never)]
fn put_units<K: Sink>(sink: &mut K, piece: &mut Piece, starts: &[u32]) -> Result<(), Failed>
    ensures { PutsOrCuts K.taken K.faults sink.old sink.new piece.old piece.new
        (flat_map unit_line (enumerate_from 0 starts.now)) result }
{
    let mut buffer = [0; SIZE];
    for index in 0..starts.len() {
        let start = compose_two(&mut buffer, b"unit", index as u64, u64::from(starts[index]));
        piece.put(sink, text_from(&buffer, start))?;
    }
    Ok(())
}

/// The lines of symbols.
struct SymbolLines;

impl LineKind for SymbolLines {
    type Subject = (ExternalName, u32);

    ghost line = { symbol_line };

    fn compose(buffer: &mut LineBuffer, subject: &(ExternalName, u32)) -> usize {
        let (name, place) = subject;
        let start = put_text(buffer, SIZE, b"\n");
        let start = put_decimal(buffer, start, u64::from(*place));
        let start = put_text(buffer, start, b" ");
        let start = put_decimal(buffer, start, u64::from(name.0));
        put_text(buffer, start, b"symbol userextname")
    }
}

/// The lines of thunks.
struct ThunkLines;

impl LineKind for ThunkLines {
    type Subject = u32;

    ghost line = { thunk_line };

    fn compose(buffer: &mut LineBuffer, place: &u32) -> usize {
        compose_one(buffer, b"thunk", *place)
    }
}

/// Puts the lines of so many zero words from one on, before and behind which none stands.
fn put_zeros<K: Sink>(
    sink: &mut K,
    piece: &mut Piece,
    from: usize,
    count: usize,
) -> Result<(), Failed>
    requires { from + count ≤ 2 ^ 61 }
    ensures { PutsOrCuts K.taken K.faults sink.old sink.new piece.old piece.new
        (zeros_text from count) result }
{
    if count < MANY {
        let zeros = [0; MANY];
        return put_word_lines(sink, piece, from, &zeros[..count]);
    }
    let mut buffer = [0; SIZE];
    let start = compose_two(&mut buffer, b"zeros", 4 * from as u64, count as u64);
    piece.put(sink, text_from(&buffer, start))
}

/// Puts the lines of words. Zero words that stand together are only counted, up to the word behind them.
#[inline(never)]
fn put_data<K: Sink>(sink: &mut K, piece: &mut Piece, words: &[u32]) -> Result<(), Failed>
    ensures { PutsOrCuts K.taken K.faults sink.old sink.new piece.old piece.new
        (data_text words.now) result }
{
    let mut buffer = [0; SIZE];
    let mut from = 0;
    for index in 0..words.len() {
        if words[index] != 0 {
            put_zeros(sink, piece, from, index - from)?;
            let start = compose_word(&mut buffer, index as u64, words[index]);
            piece.put(sink, text_from(&buffer, start))?;
            from = index + 1;
        }
    }
    put_zeros(sink, piece, from, words.len() - from)
}

/// Writes the lines of linked code, by way of an empty piece: a line for each unit with its number and
/// its start, for each symbol with its name and its place, for each thunk with its place, and for each
/// word with its place, but one line for 16 or more zero words that stand together, with the place of the
/// first and how many they are. Starts and places are in bytes. No memory is asked for.
///
/// # Errors
///
/// A write failed; some first bytes may have been taken, but not all.
pub fn write_linked<K: Sink>(
    sink: &mut K,
    piece: &mut Piece,
    starts: &[u32],
    symbols: &[(ExternalName, u32)],
    thunks: &[u32],
    words: &[u32],
) -> Result<(), Failed>
    requires { piece.old ≡ [] }
    ensures writes { WritesOrFails K.taken K.faults sink.old sink.new
        (linked_text starts.now symbols.now thunks.now words.now) result }
{
    put_units(sink, piece, starts)?;
    put_lines::<SymbolLines, K>(sink, piece, symbols)?;
    put_lines::<ThunkLines, K>(sink, piece, thunks)?;
    put_data(sink, piece, words)?;
    piece.flush(sink)
}
