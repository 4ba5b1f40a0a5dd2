//! Assembled code.

ghost use Rattle.std.specs.Prelude.{◌≡◌};
ghost use Rattle.std.specs.Iterator.{YieldsFirst, item_count};
ghost use Rattle.a64_words.specs.Word.{words_of};

use a64_base::{ExternalName, MachLabel, Reloc, TrapCode, UserStackMap};

/// Assembled code, and what is known of it. Places are bytes from the start of the code.
#[derive(Drop)]
pub struct Code {
    /// The code: words, each with its least byte first.
    pub bytes: Vec<u8>,
    /// The place of each item.
    pub places: Vec<u32>,
    /// The bound labels by number, with their places.
    pub labels: Vec<(MachLabel, u32)>,
    /// The islands by place: where each begins, and where it ends.
    pub islands: Vec<(u32, u32)>,
    /// Where the pool behind the last item begins.
    pub pool: u32,
    /// The relocations by place: kind, name and addend.
    pub relocs: Vec<(u32, Reloc, ExternalName, i64)>,
    /// The traps by place.
    pub traps: Vec<(u32, TrapCode)>,
    /// The places behind calls.
    pub calls: Vec<u32>,
    /// The places behind patchable calls, with the calls' lengths in bytes.
    pub patchable: Vec<(u32, u32)>,
    /// The stack maps by the places behind their calls.
    pub maps: Vec<(u32, UserStackMap)>,
}

impl Code {
    /// The words of the code, in order. The last three bytes at most, where they are no whole word, are left out:
    /// assembled code has none.
    #[inline(always)]
    pub fn words(&self) -> CodeWords<'_>
        ensures { words_of result.bytes.now ≡ words_of self.now.bytes.items }
    {
        CodeWords { bytes: &self.bytes }
    }
}

/// The words of code that are left, in order.
#[derive(Drop)]
pub struct CodeWords<'a> {
    bytes: &'a [u8],
}

impl Iterator for CodeWords<'_> {
    type Item = u32;

    ghost next_gives = { YieldsFirst (λ s. words_of s.bytes.now) };

    ghost remaining = { item_count (λ s. words_of s.bytes.now) };

    #[inline(always)]
    fn next(&mut self) -> Option<u32> {
        let (word, rest) = self.bytes.split_first_chunk::<4>()?;
        self.bytes = rest;
        Some(u32::from_le_bytes(*word))
    }
}
