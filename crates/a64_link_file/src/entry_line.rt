//! Reads the line of an entry.

ghost use Rattle.std.specs.Fmt.{decimal};
ghost use Rattle.a64_link_file.specs.Entries.{IsDefine, IsEntry, IsPart, IsSpace, IsWord, base_line, define_line, entry_line, name_text, part_line, space_line, word_line};
ghost use Rattle.a64_tokens.specs.Hex.{hex_word};
ghost use Rattle.a64_tokens.specs.Reads.{Reads, IsU32, IsU64};
ghost use Rattle.a64_reloc.specs.Halves.{pair_text};

use crate::entry::{Entry, Part};
use a64_base::ExternalName;
use a64_reloc::halves::halves;
use a64_reloc::read_reloc;
use a64_tokens::decimal::{read_u32, read_u64};
use a64_tokens::hex::read_word;

/// The most words that one line can make zero.
const SPACE_MAX: u32 = 0x400_0000;

/// The base whose line this is.
fn read_base(line: &[u8]) -> Option<u64>
    ensures { Reads IsU64 base_line line.now result }
{
    let Some(number) = line.strip_prefix(b"base ") else {
        return None;
    };
    read_u64(number)
}

/// The number of zero words whose line this is.
fn read_space(line: &[u8]) -> Option<u32>
    ensures { Reads IsSpace space_line line.now result }
{
    let Some(number) = line.strip_prefix(b"space ") else {
        return None;
    };
    let Some(count) = read_u32(number) else {
        return None;
    };
    if count == 0 || count > SPACE_MAX {
        return None;
    }
    Some(count)
}

/// A symbol's number, and its place.
fn read_definition(text: &[u8]) -> Option<(ExternalName, u32)>
    ensures { Reads IsDefine (pair_text name_text decimal) text.now result }
{
    let Some((first, second)) = halves(text) else {
        return None;
    };
    let Some(number) = read_u32(first) else {
        return None;
    };
    let Some(place) = read_u32(second) else {
        return None;
    };
    Some((ExternalName(number), place))
}

/// A place, and the word there.
fn read_placed(text: &[u8]) -> Option<(u32, u32)>
    ensures { Reads IsWord (pair_text decimal hex_word) text.now result }
{
    let Some((first, second)) = halves(text) else {
        return None;
    };
    let Some(place) = read_u32(first) else {
        return None;
    };
    let Some(word) = read_word(second) else {
        return None;
    };
    Some((place, word))
}

/// The definition whose line this is.
fn read_define(line: &[u8]) -> Option<(ExternalName, u32)>
    ensures { Reads IsDefine define_line line.now result }
{
    let Some(fields) = line.strip_prefix(b"define ") else {
        return None;
    };
    read_definition(fields)
}

/// The place and word whose line this is.
fn read_placed_word(line: &[u8]) -> Option<(u32, u32)>
    ensures { Reads IsWord word_line line.now result }
{
    let Some(fields) = line.strip_prefix(b"word ") else {
        return None;
    };
    read_placed(fields)
}

/// The entry inside a unit whose line this is.
fn read_part(line: &[u8]) -> Option<Part>
    ensures { Reads IsPart part_line line.now result }
{
    if let Some(definition) = read_define(line) {
        return Some(Part::Define(definition));
    }
    if let Some(placed) = read_placed_word(line) {
        return Some(Part::Word(placed));
    }
    if let Some(count) = read_space(line) {
        return Some(Part::Space(count));
    }
    if let Some(reloc) = read_reloc(line) {
        return Some(Part::Reloc(reloc));
    }
    None
}

/// The entry whose line this is.
pub(crate) fn read_entry(line: &[u8]) -> Option<Entry>
    ensures { Reads IsEntry entry_line line.now result }
{
    if line == b"unit".as_slice() {
        return Some(Entry::Unit);
    }
    if let Some(base) = read_base(line) {
        return Some(Entry::Base(base));
    }
    if let Some(part) = read_part(line) {
        return Some(Entry::Inside(part));
    }
    None
}
