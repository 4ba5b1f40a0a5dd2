//! Gathers text into pieces that are written whole.

ghost use Rattle.std.specs.Prelude.{◌≡◌, ◌<◌, ◌≤◌, ◌+◌, ◌%◌, List, ℕ, [], ◌++◌, take, length, IfOk, OnOk};
ghost use Rattle.a64_report.specs.Kept.{item_lines, word_lines};
ghost use Rattle.a64_report.specs.Putting.{PutsOrCuts, WritesOrFails};

use crate::kept::{ItemLine, SHORT, WordLine};
use a64_io::{Failed, Sink, write_all};
use std::alloc::{AllocError, Global};
use std::marker::Model;

/// The most bytes that are gathered.
const SIZE: usize = 65_536;

/// Copies a text. One of 16 to 32 bytes, as most lines are, goes by two copies of 16 bytes that may
/// overlap, which are an instruction or two each.
#[inline(always)]
fn copy_text(to: &mut [u8], text: &[u8])
    requires { length to.old ≡ length text.now }
    ensures { to.new ≡ text.now }
{
    let len = text.len();
    match (text.first_chunk::<16>(), text.last_chunk::<16>()) {
        (Some(front), Some(back)) if len <= 32 => {
            let (front, back) = (*front, *back);
            to[..16].copy_from_slice(&front);
            to[len - 16..].copy_from_slice(&back);
        }
        _ => to.copy_from_slice(text),
    }
}

/// Text that waits for a sink, at most 65,536 bytes. Its memory is taken when it is made.
#[derive(Drop)]
pub struct Piece {
    bytes: Vec<u8>,
    len: usize,
}

impl Model for Piece {
    ghost Value = { List ℕ };

    ghost view = { λ piece. take piece.len piece.bytes.items };

    ghost invariant = { λ piece. (length piece.bytes.items ≡ 65584) × (piece.len ≤ 65536) };
}

impl Piece {
    /// An empty piece.
    ///
    /// # Errors
    ///
    /// Want of memory.
    pub fn new(alloc: Global) -> Result<Piece, AllocError>
        ensures { IfOk result (λ piece. piece ≡ []) }
    {
        let bytes = vec![in alloc; 0; SIZE + SHORT]?;
        Ok(Piece { bytes, len: 0 })
    }

    /// Writes what waits.
    ///
    /// # Errors
    ///
    /// A write failed; some first bytes may have been taken, but not all.
    #[inline(never)]
    pub fn flush<K: Sink>(&mut self, sink: &mut K) -> Result<(), Failed>
        ensures writes { WritesOrFails K.taken K.faults sink.old sink.new self.old result }
        ensures empty { OnOk result (self.new ≡ []) }
        ensures rises { K.faults sink.old ≤ K.faults sink.new }
    {
        match write_all(sink, &self.bytes[..self.len]) {
            Ok(()) => {
                self.len = 0;
                Ok(())
            }
            Err(failed) => Err(failed),
        }
    }

    /// Puts a text behind what waits, where there is room for both.
    #[inline(always)]
    fn add(&mut self, text: &[u8])
        requires { length self.old + length text.now ≤ 65536 }
        ensures { self.new ≡ self.old ++ text.now }
    {
        let end = self.len + text.len();
        copy_text(&mut self.bytes[self.len..end], text);
        self.len = end;
    }

    /// Puts a text behind what waits, and writes that first where there is no room for both.
    ///
    /// # Errors
    ///
    /// A write failed; some first bytes of what waited may have been taken, but not all.
    #[inline(always)]
    pub fn put<K: Sink>(&mut self, sink: &mut K, text: &[u8]) -> Result<(), Failed>
        requires { length text.now ≤ 65536 }
        ensures puts { PutsOrCuts K.taken K.faults sink.old sink.new self.old self.new
            text.now result }
        ensures waits { length self.old + length text.now ≤ 65536 → sink.new ≡ sink.old }
    {
        if self.len + text.len() > SIZE {
            self.flush(sink)?;
        }
        self.add(text);
        Ok(())
    }

    /// Writes what waits, where there is no room for a kept line behind it.
    ///
    /// # Errors
    ///
    /// A write failed; some first bytes of what waited may have been taken, but not all.
    #[inline(always)]
    pub fn make_room<K: Sink>(&mut self, sink: &mut K) -> Result<(), Failed>
        ensures room { OnOk result (length self.new + 48 ≤ 65536) }
        ensures puts { PutsOrCuts K.taken K.faults sink.old sink.new self.old self.new [] result }
    {
        if self.len > SIZE - SHORT {
            self.flush(sink)?;
        }
        Ok(())
    }

    /// Puts the lines of the items from the one at `from` on, as many as there is room for, and answers
    /// which is the next: a later one, where there was room for a line. The lines are made of the kept one.
    #[inline(always)]
    pub fn fill_items(&mut self, line: &mut ItemLine, places: &[u32], from: usize) -> usize
        requires { from ≤ length places.now }
        ensures within { (from ≤ result) × (result ≤ length places.now) }
        ensures next { length self.old + 48 ≤ 65536 → from < length places.now
            → from < result }
        ensures filled { self.new ++ item_lines places.now result
            ≡ self.old ++ item_lines places.now from }
    {
        let bytes = &mut self.bytes[..];
        let (index, len) = fill_items(bytes, self.len, line, places, from);
        self.len = len;
        index
    }

    /// Puts the lines of the words of code from the one at the place `from` on, as many as there is room
    /// for, and answers the place of the next: a later one, where there was room for a line. The lines are
    /// made of the kept one.
    #[inline(always)]
    pub fn fill_words(&mut self, line: &mut WordLine, code: &[u8], from: usize) -> usize
        requires { (from ≤ length code.now) × (from % 4 ≡ 0) }
        ensures within { (from ≤ result) × (result ≤ length code.now) }
        ensures whole { result % 4 ≡ 0 }
        ensures next { length self.old + 48 ≤ 65536 → from + 4 ≤ length code.now
            → from < result }
        ensures filled { self.new ++ word_lines code.now result
            ≡ self.old ++ word_lines code.now from }
    {
        let bytes = &mut self.bytes[..];
        let (place, len) = fill_words(bytes, self.len, line, code, from);
        self.len = len;
        place
    }
}

/// Puts the lines of the items from the one at `from` on into a text, behind what stands there up to
/// `len`, while there is room for a line. Answers which item is the next, and where the lines end.
#[inline(always)]
fn fill_items(
    text: &mut [u8],
    len: usize,
    line: &mut ItemLine,
    places: &[u32],
    from: usize,
) -> (usize, usize)
    requires text { (length text.old ≡ 65584) × (len ≤ 65536) }
    requires item { from ≤ length places.now }
    ensures long { length text.new ≡ length text.old }
    ensures few { result.1 ≤ 65536 }
    ensures within { (from ≤ result.0) × (result.0 ≤ length places.now) }
    ensures next { len + 48 ≤ 65536 → from < length places.now → from < result.0 }
    ensures filled { take result.1 text.new ++ item_lines places.now result.0
        ≡ take len text.old ++ item_lines places.now from }
{
    let text = &mut text[..SIZE];
    let mut at = len;
    let mut index = from;
    while index < places.len() && at <= SIZE - SHORT {
        let (count, end) = line.copy_from(index as u64, &places[index..], text, at);
        index += count;
        at = end;
    }
    (index, at)
}

/// Puts the lines of the words of code from the one at the place `from` on into a text, behind what
/// stands there up to `len`, while there is room for a line. Answers the place of the next word, and
/// where the lines end.
#[inline(always)]
fn fill_words(
    text: &mut [u8],
    len: usize,
    line: &mut WordLine,
    code: &[u8],
    from: usize,
) -> (usize, usize)
    requires text { (length text.old ≡ 65584) × (len ≤ 65536) }
    requires word { (from ≤ length code.now) × (from % 4 ≡ 0) }
    ensures long { length text.new ≡ length text.old }
    ensures few { result.1 ≤ 65536 }
    ensures within { (from ≤ result.0) × (result.0 ≤ length code.now) }
    ensures whole { result.0 % 4 ≡ 0 }
    ensures next { len + 48 ≤ 65536 → from + 4 ≤ length code.now → from < result.0 }
    ensures filled { take result.1 text.new ++ word_lines code.now result.0
        ≡ take len text.old ++ word_lines code.now from }
{
    let text = &mut text[..SIZE];
    let mut at = len;
    let mut place = from;
    while place + 4 <= code.len() && at <= SIZE - SHORT {
        let (words, _) = code[place..].as_chunks::<4>();
        let (count, end) = line.copy_from(place as u64, words, text, at);
        place += 4 * count;
        at = end;
    }
    (place, at)
}
