//! Writes the report of assembled code.

ghost use Rattle.std.specs.Prelude.{◌≡◌, ◌+◌, [], ◌∷◌, length, IfSome, IfNone};
ghost use Rattle.std.specs.List.{flat_map, enumerate_from};
ghost use Rattle.a64_report.specs.Putting.{PutsOrCuts, WritesOrFails};
ghost use Rattle.a64_report.specs.Report.{item_line, pool_line, words_in, words_text, report_of};
ghost use Rattle.a64_report.specs.Sections.{section_text};

use crate::kept::{ItemLine, WordLine};
use crate::line::{SIZE, text_from};
use crate::piece::Piece;
use crate::report_lines::{
    CallLines, IslandLines, LabelLines, LineKind, MapLines, PatchableLines, RelocLines, TrapLines,
    compose_one,
};
use a64_emit::Code;
use a64_io::{Failed, Sink};

/// Puts the lines of one kind, in order. Like the other loops over lines it is not inlined: alone, it
/// has the registers to itself.
#[inline(never)]
pub fn put_lines<L: LineKind, K: Sink>(
    sink: &mut K,
    piece: &mut Piece,
    subjects: &[L::Subject],
) -> Result<(), Failed>
    ensures { PutsOrCuts K.taken K.faults sink.old sink.new piece.old piece.new
        (flat_map L.line subjects.now) result }
{
    let mut buffer = [0; SIZE];
    for subject in subjects {
        let start = L::compose(&mut buffer, subject);
        piece.put(sink, text_from(&buffer, start))?;
    }
    Ok(())
}

/// Puts the lines of the items.
#[inline(never)]
fn put_items<K: Sink>(sink: &mut K, piece: &mut Piece, places: &[u32]) -> Result<(), Failed>
    ensures { PutsOrCuts K.taken K.faults sink.old sink.new piece.old piece.new
        (flat_map item_line (enumerate_from 0 places.now)) result }
{
    let mut line = ItemLine::of(0, 0);
    let mut index = 0;
    while index < places.len() {
        piece.make_room(sink)?;
        index = piece.fill_items(&mut line, places, index);
    }
    Ok(())
}

/// Puts the line of the pool.
fn put_pool<K: Sink>(sink: &mut K, piece: &mut Piece, pool: u32) -> Result<(), Failed>
    ensures { PutsOrCuts K.taken K.faults sink.old sink.new piece.old piece.new
        (pool_line pool) result }
{
    let mut buffer = [0; SIZE];
    let start = compose_one(&mut buffer, b"pool", pool);
    piece.put(sink, text_from(&buffer, start))
}

/// The first word of code, and the bytes behind it.
#[inline(always)]
pub fn first_word(bytes: &[u8]) -> Option<(u32, &[u8])>
    ensures some { IfSome result (λ first. words_in bytes.now
        ≡ first.0 ∷ words_in first.1.now) }
    ensures shorter { IfSome result (λ first. length first.1.now + 4 ≡ length bytes.now) }
    ensures none { IfNone result (words_in bytes.now ≡ []) }
{
    match bytes {
        [a, b, c, d, rest @ ..] => Some((u32::from_le_bytes([*a, *b, *c, *d]), rest)),
        _ => None,
    }
}

/// Puts the lines of the words.
#[inline(never)]
fn put_words<K: Sink>(sink: &mut K, piece: &mut Piece, bytes: &[u8]) -> Result<(), Failed>
    ensures { PutsOrCuts K.taken K.faults sink.old sink.new piece.old piece.new
        (words_text (words_in bytes.now)) result }
{
    let mut line = WordLine::of(0, 0);
    let mut place = 0;
    while place + 4 <= bytes.len() {
        piece.make_room(sink)?;
        place = piece.fill_words(&mut line, bytes, place);
    }
    Ok(())
}

/// A section of a report: the lines of one kind.
#[derive(Clone, Copy)]
enum Section {
    Items,
    Labels,
    Islands,
    Pool,
    Words,
    Relocs,
    Traps,
    Calls,
    Patchable,
    Maps,
}

/// The sections of a report, in order.
const SECTIONS: [Section; 10] = [
    Section::Items,
    Section::Labels,
    Section::Islands,
    Section::Pool,
    Section::Words,
    Section::Relocs,
    Section::Traps,
    Section::Calls,
    Section::Patchable,
    Section::Maps,
];

/// Puts a section.
fn put_section<K: Sink>(
    sink: &mut K,
    piece: &mut Piece,
    code: &Code,
    section: Section,
) -> Result<(), Failed>
    ensures { PutsOrCuts K.taken K.faults sink.old sink.new piece.old piece.new
        (section_text code.now section) result }
{
    match section {
        Section::Items => put_items(sink, piece, &code.places),
        Section::Labels => put_lines::<LabelLines, K>(sink, piece, &code.labels),
        Section::Islands => put_lines::<IslandLines, K>(sink, piece, &code.islands),
        Section::Pool => put_pool(sink, piece, code.pool),
        Section::Words => put_words(sink, piece, &code.bytes),
        Section::Relocs => put_lines::<RelocLines, K>(sink, piece, &code.relocs),
        Section::Traps => put_lines::<TrapLines, K>(sink, piece, &code.traps),
        Section::Calls => put_lines::<CallLines, K>(sink, piece, &code.calls),
        Section::Patchable => put_lines::<PatchableLines, K>(sink, piece, &code.patchable),
        Section::Maps => put_lines::<MapLines, K>(sink, piece, &code.maps),
    }
}

/// Puts sections, one after another.
fn put_sections<K: Sink>(
    sink: &mut K,
    piece: &mut Piece,
    code: &Code,
    sections: &[Section],
) -> Result<(), Failed>
    ensures { PutsOrCuts K.taken K.faults sink.old sink.new piece.old piece.new
        (flat_map (section_text code.now) sections.now) result }
{
    for section in sections {
        put_section(sink, piece, code, *section)?;
    }
    Ok(())
}

/// Writes the report of code, by way of an empty piece: a line for each item, label, island, word
/// and record, each kind in order. No memory is asked for.
///
/// # Errors
///
/// A write failed; some first bytes may have been taken, but not all.
// Not inlined, so that a profile shows what it takes.
#[inline(never)]
pub fn write_report<K: Sink>(sink: &mut K, piece: &mut Piece, code: &Code) -> Result<(), Failed>
    requires { piece.old ≡ [] }
    ensures { WritesOrFails K.taken K.faults sink.old sink.new (report_of code.now) result }
{
    put_sections(sink, piece, code, &SECTIONS)?;
    piece.flush(sink)
}

/// Writes the lines of words, by way of an empty piece. No memory is asked for.
///
/// # Errors
///
/// A write failed; some first bytes may have been taken, but not all.
pub fn write_words<K: Sink>(sink: &mut K, piece: &mut Piece, bytes: &[u8]) -> Result<(), Failed>
    requires { piece.old ≡ [] }
    ensures { WritesOrFails K.taken K.faults sink.old sink.new
        (words_text (words_in bytes.now)) result }
{
    put_words(sink, piece, bytes)?;
    piece.flush(sink)
}
