//! Lines that are kept, where the next one mostly differs in some digits alone.
//!
//! A line stands in its buffer with its end at `END`, so that what is written anew stands mostly at the
//! same place. From one line to the next mostly the last two digits of its numbers change: that takes some 80
//! machine instructions less for both lines of an instruction than to divide each number. How many lines are of
//! one hundred, and have room, is counted before they are copied: asked for each line it takes 12 more.

ghost use Rattle.std.specs.Prelude.{◌≡◌, ◌+◌, ◌-◌, ◌*◌, ◌/◌, ◌%◌, ◌<◌, ◌≤◌, ◌++◌, ℕ, List, drop, take, length, map};
ghost use Rattle.std.specs.Int.{w32, from_le_bytes};
ghost use Rattle.std.specs.List.{flat_map, enumerate_from};
ghost use Rattle.a64_report.specs.Report.{item_line, word_line};
ghost use Rattle.a64_report.specs.Kept.{KeepsItem, KeepsWord, KeepsItemOf, KeepsWordOf, placed_word};

use crate::hundred::{Hundred, write_last};
use crate::line::{LineBuffer, SIZE, put_decimal, put_hex, put_text};
use std::marker::Model;

/// The most bytes of a kept line, which goes by a copy of this length whatever its own.
pub const SHORT: usize = 48;

/// Where a kept line ends. What stands behind it is no part of the line.
const END: usize = 64;

/// Where the place of a word ends: before a space, eight digits and a line feed.
const PLACE_END: usize = 54;

/// Copies a kept line that begins at `start` into a text, behind what stands there up to `at`, and
/// answers where it ends. What stands behind it is no part of it.
#[inline(always)]
fn copy_kept(line: &LineBuffer, start: usize, text: &mut [u8], at: usize) -> usize
    requires begins { (16 ≤ start) × (start ≤ 64) }
    requires room { at + 48 ≤ length text.old }
    ensures long { length text.new ≡ length text.old }
    ensures few { result ≤ at + 48 }
    ensures copied { take result text.new ≡ take at text.old
        ++ take (64 - start) (drop start line.now) }
{
    text[at..at + SHORT].copy_from_slice(&line[start..start + SHORT]);
    at + (END - start)
}

/// Composes the line of an item. Answers where it begins, and where the text of its number ends.
fn compose_item(buffer: &mut LineBuffer, index: u64, place: u32) -> (usize, usize)
    ensures { KeepsItem buffer.new result.0 result.1 index place }
{
    let end = put_text(buffer, END, b"\n");
    let end = put_decimal(buffer, end, u64::from(place));
    let index_end = put_text(buffer, end, b" ");
    let start = put_decimal(buffer, index_end, index);
    let start = put_text(buffer, start, b"item ");
    (start, index_end)
}

/// What is known of a kept line of an item.
#[derive(Clone, Copy)]
struct KeptItem {
    /// Where it begins in its buffer.
    start: usize,
    /// Where the text of the item's number ends.
    index_end: usize,
    /// The hundred of the item's number.
    index: Hundred,
    /// The hundred of its place.
    place: Hundred,
}

/// The line of an item, of which those of the items behind it are made while the last two digits of their
/// numbers alone differ. Contracts see it as its text.
#[derive(Drop)]
pub struct ItemLine {
    buffer: LineBuffer,
    kept: KeptItem,
}

impl Model for ItemLine {
    ghost Value = { List ℕ };

    ghost view = { λ line. take (64 - line.kept.start) (drop line.kept.start line.buffer) };

    ghost invariant = { λ line. KeepsItemOf line.buffer line.kept.start line.kept.index_end
        line.kept.index line.kept.place };
}

impl ItemLine {
    /// The line of this item.
    pub fn of(index: u64, place: u32) -> ItemLine
        ensures { result ≡ item_line (index, place) }
    {
        let mut buffer = [0; SIZE];
        let (start, index_end) = compose_item(&mut buffer, index, place);
        ItemLine {
            buffer,
            kept: KeptItem {
                start,
                index_end,
                index: Hundred::of(index),
                place: Hundred::of(u64::from(place)),
            },
        }
    }

    /// Composes the whole line of this item.
    #[inline(never)]
    fn compose(&mut self, index: u64, place: u32)
        ensures { self.new ≡ item_line (index, place) }
    {
        let (start, index_end) = compose_item(&mut self.buffer, index, place);
        self.kept = KeptItem {
            start,
            index_end,
            index: Hundred::of(index),
            place: Hundred::of(u64::from(place)),
        };
    }

    /// Copies the lines of the items from the one with this index on into a text, behind what stands there up to
    /// `at`: one at least, and as many more as there is room for, while they differ in the last two digits of
    /// their numbers alone. Answers how many, and where they end. It is left the line of some item.
    #[inline(always)]
    pub fn copy_from(
        &mut self,
        index: u64,
        places: &[u32],
        text: &mut [u8],
        at: usize,
    ) -> (usize, usize)
        requires some { 0 < length places.now }
        requires room { at + 48 ≤ length text.old }
        ensures long { length text.new ≡ length text.old }
        ensures few { result.1 ≤ length text.old }
        ensures within { (1 ≤ result.0) × (result.0 ≤ length places.now) }
        ensures copied { take result.1 text.new
            ≡ take at text.old ++ flat_map item_line
            (enumerate_from index (take result.0 places.now)) }
    {
        let like = self.kept.index.count_from(index) as usize;
        let room = (text.len() - at) / SHORT;
        let count = like.min(room).min(places.len());
        if count > 0 {
            let near = &places[..count];
            let done = copy_items(&mut self.buffer, self.kept, index, near, text, at);
            if done.0 > 0 {
                return done;
            }
        }
        self.compose(index, places[0]);
        (1, copy_kept(&self.buffer, self.kept.start, text, at))
    }
}

/// Copies the lines of the items from the one with this index on into a text, behind what stands there up to
/// `at`, while their places are of a hundred; their indices are. The kept line is of an item of both hundreds, and
/// is left of one. Answers how many lines, and where they end.
#[inline(always)]
fn copy_items(
    line: &mut LineBuffer,
    kept: KeptItem,
    index: u64,
    places: &[u32],
    text: &mut [u8],
    at: usize,
) -> (usize, usize)
    requires kept { KeepsItemOf line.old kept.start kept.index_end kept.index kept.place }
    requires near { (kept.index.first ≤ index) × (index + length places.now
        ≤ kept.index.first + kept.index.span) }
    requires room { at + 48 * length places.now ≤ length text.old }
    ensures kept { KeepsItemOf line.new kept.start kept.index_end kept.index kept.place }
    ensures long { length text.new ≡ length text.old }
    ensures few { (result.0 ≤ length places.now) × (result.1 ≤ length text.old) }
    ensures copied { take result.1 text.new ≡ take at text.old
        ++ flat_map item_line (enumerate_from index (take result.0 places.now)) }
{
    let offset = index - kept.index.first();
    let mut at = at;
    for (i, place) in places.iter().enumerate() {
        let Some(place) = kept.place.offset_of(u64::from(*place)) else {
            return (i, at);
        };
        write_last(line, kept.index_end, offset + i as u64);
        write_last(line, END - 1, place);
        at = copy_kept(line, kept.start, text, at);
    }
    (places.len(), at)
}

/// What is known of a kept line of a word.
#[derive(Clone, Copy)]
struct KeptWord {
    /// Where it begins in its buffer.
    start: usize,
    /// The hundred of the word's place.
    place: Hundred,
    /// The word.
    word: u32,
}

/// Copies the lines of the words from the one at this place on into a text, behind what stands there up to `at`.
/// Their places are of a hundred. The kept line is of a word whose place is one of it, and is left of one. Answers
/// the word of that line, and where the lines end.
#[inline(always)]
fn copy_words(
    line: &mut LineBuffer,
    kept: KeptWord,
    place: u64,
    words: &[[u8; 4]],
    text: &mut [u8],
    at: usize,
) -> (u32, usize)
    requires kept { KeepsWordOf line.old kept.start kept.place kept.word }
    requires whole { place % 4 ≡ 0 }
    requires near { (kept.place.first ≤ place) × (place + 4 * length words.now
        < kept.place.first + kept.place.span + 4) }
    requires room { at + 48 * length words.now ≤ length text.old }
    ensures kept { KeepsWordOf line.new kept.start kept.place result.0 }
    ensures long { length text.new ≡ length text.old }
    ensures few { result.1 ≤ length text.old }
    ensures copied { take result.1 text.new ≡ take at text.old
        ++ flat_map word_line (enumerate_from (place / 4) (map (from_le_bytes w32) words.now)) }
{
    let offset = place - kept.place.first();
    let mut at = at;
    let mut word = kept.word;
    for (i, bytes) in words.iter().enumerate() {
        write_last(line, PLACE_END, offset + 4 * i as u64);
        let next = u32::from_le_bytes(*bytes);
        if next != word {
            put_hex(line, END - 1, next);
            word = next;
        }
        at = copy_kept(line, kept.start, text, at);
    }
    (word, at)
}

/// Composes the line of a word, and answers where it begins.
fn compose_word(buffer: &mut LineBuffer, place: u64, word: u32) -> usize
    ensures { KeepsWord buffer.new result place word }
{
    let end = put_text(buffer, END, b"\n");
    let end = put_hex(buffer, end, word);
    let end = put_text(buffer, end, b" ");
    let start = put_decimal(buffer, end, place);
    put_text(buffer, start, b"word ")
}

/// The line of a word, of which those of the words behind it are made while the last two digits of their places
/// and the words alone differ. Contracts see it as its text.
#[derive(Drop)]
pub struct WordLine {
    buffer: LineBuffer,
    kept: KeptWord,
}

impl Model for WordLine {
    ghost Value = { List ℕ };

    ghost view = { λ line. take (64 - line.kept.start) (drop line.kept.start line.buffer) };

    ghost invariant = { λ line.
        KeepsWordOf line.buffer line.kept.start line.kept.place line.kept.word };
}

impl WordLine {
    /// The line of the word at this place.
    pub fn of(place: u64, word: u32) -> WordLine
        ensures { result ≡ placed_word place word }
    {
        let mut buffer = [0; SIZE];
        let start = compose_word(&mut buffer, place, word);
        WordLine {
            buffer,
            kept: KeptWord {
                start,
                place: Hundred::of(place),
                word,
            },
        }
    }

    /// Composes the whole line of the word at this place.
    #[inline(never)]
    fn compose(&mut self, place: u64, word: u32)
        ensures { self.new ≡ placed_word place word }
    {
        let start = compose_word(&mut self.buffer, place, word);
        self.kept = KeptWord {
            start,
            place: Hundred::of(place),
            word,
        };
    }

    /// Copies the lines of the words from the one at this place on into a text, behind what stands there up to
    /// `at`: one at least, and as many more as there is room for, while their places differ in the last two
    /// digits alone. Answers how many, and where they end. It is left the line of some word.
    #[inline(always)]
    pub fn copy_from(
        &mut self,
        place: u64,
        words: &[[u8; 4]],
        text: &mut [u8],
        at: usize,
    ) -> (usize, usize)
        requires whole { place % 4 ≡ 0 }
        requires some { 0 < length words.now }
        requires room { at + 48 ≤ length text.old }
        ensures long { length text.new ≡ length text.old }
        ensures few { result.1 ≤ length text.old }
        ensures within { (1 ≤ result.0) × (result.0 ≤ length words.now) }
        ensures copied { take result.1 text.new
            ≡ take at text.old ++ flat_map word_line
            (enumerate_from (place / 4) (map (from_le_bytes w32) (take result.0 words.now))) }
    {
        let like = self.kept.place.count_from(place).div_ceil(4) as usize;
        let room = (text.len() - at) / SHORT;
        let count = like.min(room).min(words.len());
        if count > 0 {
            let near = &words[..count];
            let (word, end) = copy_words(&mut self.buffer, self.kept, place, near, text, at);
            self.kept.word = word;
            return (count, end);
        }
        self.compose(place, u32::from_le_bytes(words[0]));
        (1, copy_kept(&self.buffer, self.kept.start, text, at))
    }
}
