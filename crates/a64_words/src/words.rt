//! The words of code, as the bytes that they are in the end.
//!
//! So `finish` of the buffer patches them where they stand and hands them out. Kept as numbers, they
//! would be copied into bytes at the end, and code would stand in memory twice.
//!
//! Behind the words stand zeros, so a word is one store into a slice. Appending four bytes to a vector
//! takes 11 machine instructions more.

ghost use Rattle.std.specs.Prelude.{◌≡◌, ◌+◌, ◌*◌, ◌/◌, ◌%◌, ◌<◌, ◌≤◌, ◌++◌, [], ◌∷◌, ℕ, OnOk, OnErr, length, take, vec_capacity};
ghost use Rattle.std.specs.Int.{w32, to_le_bytes};
ghost use Rattle.a64_words.specs.Word.{words_of};

use std::alloc::{AllocError, Global};
use std::marker::Model;
use std::simd::u8x4;

/// How many bytes are filled with zeros at a time: few, so that they are still in the nearest cache
/// when words are written over them, and are filled by vectors. More are filled by `rep stos`, which
/// valgrind counts once for each byte.
const FILLED_AHEAD: usize = 1024;

/// The words of code, as bytes: each word with its least byte first.
#[derive(Drop)]
pub struct Words {
    /// The bytes of the words, and behind them zeros for words that come, where there is memory.
    bytes: Vec<u8>,
    /// How many bytes the words have.
    size: usize,
}

impl Model for Words {
    ghost use Rattle.std.specs.Prelude.{◌≡◌, ◌%◌, ◌≤◌, length, vec_capacity};
    ghost use Rattle.a64_words.specs.Words.{HeldWords, held};

    ghost Value = { HeldWords };

    ghost view = { λ w. held w.size w.bytes.items (vec_capacity w.bytes) };

    ghost invariant = { λ w. (w.size % 4 ≡ 0) × (w.size ≤ length w.bytes.items) };
}

/// Fills memory behind bytes with zeros, up to a place at least.
#[cold]
#[inline(never)]
fn fill(bytes: &mut Vec<u8>, end: usize)
    requires { end ≤ vec_capacity bytes.old }
    ensures end { end ≤ length bytes.new.items }
    ensures kept { (n : ℕ) → n ≤ length bytes.old.items
        → take n bytes.new.items ≡ take n bytes.old.items }
    ensures capacity { vec_capacity bytes.old ≤ vec_capacity bytes.new }
{
    let ahead = bytes.len().saturating_add(FILLED_AHEAD);
    let len = ahead.min(bytes.capacity()).max(end);
    match bytes.resize(len, 0) {
        Ok(()) => {}
        Err(_) => unreachable!(),
    }
}

/// Makes bytes reach to a place, for which there is memory: zeros stand behind them.
#[inline(always)]
fn reach(bytes: &mut Vec<u8>, end: usize)
    requires { end ≤ vec_capacity bytes.old }
    ensures end { end ≤ length bytes.new.items }
    ensures kept { (n : ℕ) → n ≤ length bytes.old.items
        → take n bytes.new.items ≡ take n bytes.old.items }
    ensures capacity { vec_capacity bytes.old ≤ vec_capacity bytes.new }
{
    if bytes.len() < end {
        fill(bytes, end);
    }
}

/// Writes a word in the place of the four bytes from a place on, its least byte first. As a vector of
/// bytes it is one store: a slice of bytes is looked at for an overlap first.
#[inline(always)]
fn write_word(bytes: &mut [u8], at: usize, word: u32)
    requires { at + 4 ≤ length bytes.old }
    ensures { take (at + 4) bytes.new ≡ take at bytes.old ++ to_le_bytes w32 word }
{
    u8x4::from_array(word.to_le_bytes()).copy_to_slice(&mut bytes[at..]);
}

/// Writes bytes in the place of those from a place on.
fn write(bytes: &mut [u8], at: usize, part: &[u8])
    requires { at + length part.now ≤ length bytes.old }
    ensures { take (at + length part.now) bytes.new ≡ take at bytes.old ++ part.now }
{
    bytes[at..at + part.len()].copy_from_slice(part);
}

impl Words {
    /// No words. It takes no memory.
    pub fn new(alloc: Global) -> Self
        ensures items { result.items ≡ [] }
    {
        Words {
            bytes: Vec::new(alloc),
            size: 0,
        }
    }

    /// How many bytes the words have.
    #[inline(always)]
    pub fn size(&self) -> usize
        ensures { result ≡ 4 * length self.now.items }
    {
        self.size
    }

    /// Takes the memory for so many words more; it at least doubles, so that it seldom grows.
    #[cold]
    #[inline(never)]
    fn grow(&mut self, words: usize) -> Result<(), AllocError>
        ensures items { self.new.items ≡ self.old.items }
        ensures ok { OnOk result (length self.new.items + words ≤ self.new.capacity) }
        ensures err { OnErr result (self.new ≡ self.old) }
    {
        let end = words.saturating_mul(4).saturating_add(self.size);
        let len = self.bytes.len();
        self.bytes.reserve(end.saturating_sub(len))?;
        Ok(())
    }

    /// Takes the memory for so many words more.
    #[inline(always)]
    pub fn reserve(&mut self, words: usize) -> Result<(), AllocError>
        ensures items { self.new.items ≡ self.old.items }
        ensures ok { OnOk result (length self.new.items + words ≤ self.new.capacity) }
        ensures err { OnErr result (self.new ≡ self.old) }
    {
        if words <= (self.bytes.capacity() - self.size) / 4 {
            return Ok(());
        }
        self.grow(words)
    }

    /// Adds a word, for which there is memory.
    #[inline(always)]
    pub fn push_reserved(&mut self, word: u32)
        requires { length self.old.items < self.old.capacity }
        ensures items { self.new.items ≡ self.old.items ++ word ∷ [] }
        ensures capacity { self.old.capacity ≤ self.new.capacity }
    {
        let end = self.size + 4;
        reach(&mut self.bytes, end);
        write_word(&mut self.bytes, self.size, word);
        self.size = end;
    }

    /// Adds a word behind which there are no zeros yet.
    #[cold]
    #[inline(never)]
    fn push_behind(&mut self, word: u32) -> Result<(), AllocError>
        ensures ok { OnOk result (self.new.items ≡ self.old.items ++ word ∷ []) }
        ensures err { OnErr result (self.new.items ≡ self.old.items) }
    {
        self.reserve(1)?;
        self.push_reserved(word);
        Ok(())
    }

    /// Adds a word.
    #[inline(always)]
    pub fn push(&mut self, word: u32) -> Result<(), AllocError>
        ensures ok { OnOk result (self.new.items ≡ self.old.items ++ word ∷ []) }
        ensures err { OnErr result (self.new.items ≡ self.old.items) }
    {
        let end = self.size + 4;
        if self.bytes.len() < end {
            return self.push_behind(word);
        }
        write_word(&mut self.bytes, self.size, word);
        self.size = end;
        Ok(())
    }

    /// Adds the words that bytes are, for which there is memory.
    pub fn extend_reserved(&mut self, bytes: &[u8])
        requires whole { length bytes.now % 4 ≡ 0 }
        requires room { length self.old.items + length bytes.now / 4 ≤ self.old.capacity }
        ensures items { self.new.items ≡ self.old.items ++ words_of bytes.now }
        ensures capacity { self.old.capacity ≤ self.new.capacity }
    {
        let end = self.size + bytes.len();
        reach(&mut self.bytes, end);
        write(&mut self.bytes, self.size, bytes);
        self.size = end;
    }

    /// The bytes of the words, which stay where they are.
    pub fn into_bytes(self) -> Vec<u8>
        ensures size { length result.items ≡ 4 * length self.items }
        ensures words { words_of result.items ≡ self.items }
    {
        let Words { mut bytes, size } = self;
        bytes.truncate(size);
        bytes
    }
}
